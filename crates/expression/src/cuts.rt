// An AND-leaf that is cut out: where it stands and ends, and where its parent And stands.
#[derive(Clone, Copy)]
pub struct Cut {
    pub leaf: usize,
    pub end: usize,
    pub parent: usize,
}
