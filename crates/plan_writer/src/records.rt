// The records of a frame, for what is written of them.
ghost use Rattle.std.specs.Prelude.{◌+◌, ◌*◌, ◌≤◌, ◌<◌, ◌≡◌, length, get_or};
ghost use Rattle.expression.specs.Places.{short_at};

// The bytes that they stand in, where the first stands, and how many there are: all lie within the bytes. A record is asked for by its
// index, which loops over several rows share.
#[derive(Clone, Copy)]
pub struct Records<'a> {
    pub src: &'a [u8],
    pub rec: usize,
    pub count: usize,
    pub ghost within: { rec + 5 * count ≤ length src.now },
}

impl Records<'_> {
    // The number of the side of the record j.
    pub fn side(self, j: usize) -> u8
        requires { j < self.count }
        ensures { result ≡ get_or self.entry.src.now (self.entry.rec + 5 * j) 0 }
    {
        self.src[self.rec + 5 * j]
    }

    // Its child index.
    pub fn child(self, j: usize) -> u16
        requires { j < self.count }
        ensures { result ≡ short_at self.entry.src.now (self.entry.rec + 5 * j + 1) }
    {
        let at = self.rec + 5 * j + 1;
        u16::from_be_bytes([self.src[at], self.src[at + 1]])
    }
}
