// Sides of a join.
ghost use Rattle.std.specs.Prelude.{◌≡◌};
ghost use Rattle.definitions.specs.Bytes.Decode.{side_numbered};
ghost use Rattle.definitions.specs.Bytes.Encode.{side_number};
ghost use Rattle.definitions.specs.Filter.Exchange as definitions;
ghost use Rattle.terms.specs.Sides.{join_side};

// A side of the join; none is a mark column's, and that of an argument without columns.
#[derive(Clone, Copy, Debug, PartialEq, Eq)]
pub enum JoinSide {
    Left = 0,
    Right = 1,
    None = 2,
}

impl JoinSide {
    // The other side; none stays none. The name is the Rust's.
    #[tactic(auto, unfolding(definitions::specs::Filter::Exchange::negate))]
    pub fn negate(self) -> Self
        ensures { join_side result ≡ definitions.negate (join_side self) }
    {
        match self {
            JoinSide::Left => JoinSide::Right,
            JoinSide::Right => JoinSide::Left,
            JoinSide::None => JoinSide::None,
        }
    }
}

// The side with this number. Readers give 0 to 2 alone, so that a `TryFrom` would only ask again.
impl From<u64> for JoinSide {
    ghost from_gives = { λ number side. join_side side ≡ side_numbered number };

    #[tactic(auto, unfolding(definitions::specs::Bytes::Decode::side_numbered))]
    fn from(number: u64) -> JoinSide {
        match number {
            0 => JoinSide::Left,
            1 => JoinSide::Right,
            _ => JoinSide::None,
        }
    }
}

// Document 01's number of a side.
impl From<JoinSide> for u8 {
    ghost from_gives = { λ side number. number ≡ side_number (join_side side) };

    #[tactic(auto, unfolding(definitions::specs::Bytes::Encode::side_number))]
    fn from(side: JoinSide) -> u8 {
        side as u8
    }
}

// The number of the other side, of a number: for the bytes of records, which are no sides until they are read. (By `From` and `negate` a
// turn of the loop over records took five times the instructions.)
#[tactic(auto, unfolding(definitions::specs::Filter::Exchange::negate, definitions::specs::Bytes::Decode::side_numbered, definitions::specs::Bytes::Encode::side_number))]
pub fn negated_number(number: u8) -> u8
    ensures { result ≡ side_number (definitions.negate (side_numbered number)) }
{
    if number < 2 { 1 - number } else { 2 }
}
