// What is done with a node that a walk reads: it is opened once its head is read, and closed once all below it is.
ghost use Rattle.node_reader.specs.Visits.{Deeds, Did, LeafDone, LeafRefused};

pub trait Visit {
    ghost deeds: { Deeds Self };

    // The node of an index, its kind and where it starts; whether the walk may go on.
    fn open(&mut self, i: usize, kind: u8, at: usize) -> bool
        requires { deeds.Place at }
        ensures { Did result (deeds.Open self.old i kind at self.new) (deeds.NotOpen self.old i kind at) };

    // Where the node of an index ends.
    fn close(&mut self, i: usize, end: usize) -> bool
        requires { deeds.Place end }
        ensures { Did result (deeds.Close self.old i end self.new) (deeds.NotClose self.old i end) };

    // A node with nothing below it, opened and closed.
    fn leaf(&mut self, i: usize, kind: u8, at: usize, end: usize) -> bool
        requires { deeds.Place at × deeds.Place end }
        ensures { Did result (LeafDone deeds self.old i kind at end self.new) (LeafRefused deeds self.old i kind at end) };
}
