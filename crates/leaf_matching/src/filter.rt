// What the matchers read.
use filter_tree::tree::Tree;

// The tree of a frame's filter, and where the records of its columns begin.
#[derive(Clone, Copy)]
pub struct Filter<'a> {
    pub tree: Tree<'a>,
    pub rec: usize,
}
