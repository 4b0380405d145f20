// Literals: whole numbers of 32 bits, those that are a k, and Booleans.
// A port of `extract_literal_u32` and `extract_literal_bool` of
// rust/sedona-query-planner/src/spatial_expr_utils.rs.
ghost use Rattle.std.specs.Prelude.{◌≡◌, ◌+◌, ◌≤◌, length};
ghost use Rattle.definitions.specs.Filter.Match.{literal_u32, literal_k, literal_bool};
ghost use Rattle.expression.specs.Nodes.{Tree, OfTree};
ghost use Rattle.leaf_matching.specs.Literals.{long_at, number_is, flag_is};

use expression::kinds;
use expression::literals::signed;

// The number in the eight bytes at a place.
pub fn long_at(s: &[u8], at: usize) -> u64
    requires { at + 8 ≤ length s.now }
    ensures { result ≡ long_at s.now at }
{
    u64::from_be_bytes(*s[at..].first_chunk().unwrap())
}

// The greatest whole number that is an argument.
const GREATEST_NUMBER: i64 = 4_294_967_295;

// A whole number from 0 to 4,294,967,295. Int32 and Int64 have a sign, UInt32 and UInt64 have none.
fn extract_literal_u32(s: &[u8], at: usize) -> Option<u32>
    requires { Tree s.now at }
    ensures { OfTree s.now at (λ t. number_is result ≡ literal_u32 t) }
{
    if s[at] != kinds::LITERAL {
        return None;
    }
    let bytes = long_at(s, at + 2);
    match s[at + 1] {
        2 | 3 => {
            let number = signed(bytes);
            if number < 0 || number > GREATEST_NUMBER {
                return None;
            }
            Some(number as u32)
        }
        4 | 5 => {
            if bytes > GREATEST_NUMBER as u64 {
                return None;
            }
            Some(bytes as u32)
        }
        _ => None,
    }
}

// A k of 0 is none, unlike in the Rust: a nearest-neighbour join for none is not indexed.
pub fn extract_literal_k(s: &[u8], at: usize) -> Option<u32>
    requires { Tree s.now at }
    ensures { OfTree s.now at (λ t. number_is result ≡ literal_k t) }
{
    let k = extract_literal_u32(s, at)?;
    (k != 0).then_some(k)
}

// A Boolean literal.
pub fn extract_literal_bool(s: &[u8], at: usize) -> Option<bool>
    requires { Tree s.now at }
    ensures { OfTree s.now at (λ t. flag_is result ≡ literal_bool t) }
{
    if s[at] != kinds::LITERAL || s[at + 1] != 1 {
        return None;
    }
    Some(long_at(s, at + 2) == 1)
}
