// The AND-leaf that is taken, read off the bytes of the verdicts alone.
ghost use Rattle.std.specs.Prelude.{◌≡◌, eqb, leb, position};
ghost use Rattle.definitions.specs.Filter.Verdicts as definitions;
ghost use Rattle.leaf_verdicts.specs.Taken.{taken_of};

// Its position, and the line that it is on: the first byte of its extraction.
#[derive(Clone, Copy)]
pub struct TakenLeaf {
    pub position: usize,
    pub line: u8,
}

// The byte of a KNN match; those of the other matches are below it, those of reasons above.
const KNN: u8 = 0x13;

// Where the first KNN match is.
fn first_knn(bytes: &[u8]) -> Option<usize>
    ensures { result ≡ position (λ byte. eqb byte 19) bytes.now }
{
    bytes.iter().position(|byte| *byte == KNN)
}

// Where the first match of any kind is.
fn first_match(bytes: &[u8]) -> Option<usize>
    ensures { result ≡ position (λ byte. leb byte 19) bytes.now }
{
    bytes.iter().position(|byte| *byte <= KNN)
}

// The first KNN match, else the first match.
pub fn named_by(bytes: &[u8]) -> Option<TakenLeaf>
    ensures { taken_of result ≡ definitions.named_by bytes.now }
{
    if let Some(position) = first_knn(bytes) {
        return Some(TakenLeaf {
            position,
            line: KNN,
        });
    }
    let position = first_match(bytes)?;
    Some(TakenLeaf {
        position,
        line: bytes[position],
    })
}
