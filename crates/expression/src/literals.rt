// Literals: the number that eight bytes are, and the range of each type.
ghost use Rattle.std.specs.Prelude.{◌≡◌};
ghost use Rattle.definitions.specs.Words.Literals as literals;

// The whole number that eight bytes are in two's complement.
pub fn signed(bytes: u64) -> i64
    ensures { result ≡ literals.signed bytes }
{
    bytes.cast_signed()
}

// Whether a literal's eight bytes are in the range of its type: Boolean, Int32, UInt32, or one that takes any. A type, as a node's kind,
// stays the byte of document 01's format, which a `match` is on.
#[tactic(auto, unfolding(definitions::specs::Words::Literals::literal_in_range))]
pub fn literal_in_range(kind: u64, bytes: u64) -> bool
    ensures { result ≡ literals.literal_in_range kind bytes }
{
    match kind {
        1 => bytes <= 1,
        2 => i32::try_from(signed(bytes)).is_ok(),
        4 => u32::try_from(bytes).is_ok(),
        _ => true,
    }
}
