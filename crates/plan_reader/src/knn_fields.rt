// The fields of a held KNN predicate before its arguments: k and flags.
ghost use Rattle.std.specs.Prelude.{◌≤◌, length};
ghost use Rattle.definitions.specs.Bytes.Decode as decode;
ghost use Rattle.node_reader.specs.Fields.{FieldIs};
ghost use Rattle.plan_reader.specs.Flags.{FlagsIs};

use node_reader::field_readers::{byte_up_to, number, side_up_to};
use sedona_query_planner::spatial_predicate::ties_numbered;
use terms::refusals::Refusal;
use terms::sides::JoinSide;

// The flags of KNN.
#[derive(Clone, Copy)]
pub struct HeldFlags {
    pub use_spheroid: bool,
    pub probe_side: JoinSide,
    pub ties: Option<bool>,
}

// Spheroid, probe side, ties, and the place after them.
pub fn knn_flags(s: &[u8], at: usize) -> Result<(HeldFlags, usize), Refusal>
    requires { at ≤ length s.now }
    ensures { FlagsIs s.now at result }
{
    let (spheroid, second) = byte_up_to(s, at, 1)?;
    let (probe_side, third) = side_up_to(s, second, 1)?;
    let (ties, end) = byte_up_to(s, third, 2)?;
    let flags = HeldFlags {
        use_spheroid: spheroid == 1,
        probe_side,
        ties: ties_numbered(ties),
    };
    Ok((flags, end))
}

// A number of four bytes that is a k; 0 is none.
#[tactic(auto, unfolding(definitions::specs::Bytes::Decode::k_field))]
pub fn k_field(s: &[u8], at: usize) -> Result<(u64, usize), Refusal>
    requires { at ≤ length s.now }
    ensures { FieldIs s.now at result decode.k_field }
{
    let (k, next) = number(s, at, 4)?;
    if k == 0 {
        return Err(Refusal::OutOfRange);
    }
    Ok((k, next))
}
