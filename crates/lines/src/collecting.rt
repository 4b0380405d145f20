// The line that has begun, of any length, in a buffer of fixed length.
ghost use Rattle.lines.specs.Collecting.{CollectedIs};

// How many characters were taken, how many the line has so far, and whether it is at its end: the counts are told in either case.
#[derive(Clone, Copy)]
pub struct CollectedPiece {
    pub taken: usize,
    pub count: usize,
    pub ended: bool,
}

// The characters of a piece up to its first line feed join the line that has begun.
pub fn collect_piece(line: &mut [u8], piece: &[u8], count: usize) -> CollectedPiece
    ensures { CollectedIs piece.now line.old count line.new result }
{
    let mut counted = count;
    for (at, c) in piece.iter().enumerate() {
        if *c == b'\n' {
            return CollectedPiece {
                taken: at + 1,
                count: counted,
                ended: true,
            };
        }
        if counted < line.len() {
            line[counted] = *c;
            counted += 1;
        } else {
            counted = line.len() + 1;
        }
    }
    CollectedPiece {
        taken: piece.len(),
        count: counted,
        ended: false,
    }
}
