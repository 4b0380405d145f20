// What is wrong with the literals of a KNN.
ghost use Rattle.std.specs.Prelude.{◌≡◌};
ghost use Rattle.expression.specs.Nodes.{Tree, OfTree, Trees, OfTrees};
ghost use Rattle.leaf_verdicts.specs.Cases.{verdict_of};
ghost use Rattle.leaf_verdicts.specs.Options.{natural_reason, KTold};
ghost use Rattle.leaf_verdicts.specs.Stages.{ties_stage, flags_stage, options_stage};

use super::verdict::Verdict;
use expression::kinds;
use leaf_matching::literal_arguments::{extract_literal_bool, long_at};

// What is wrong with a k that has no sign.
fn natural_reason(k: u64, greatest: u32) -> Option<Verdict>
    ensures { result ≡ natural_reason k greatest }
{
    if k < 1 {
        Some(Verdict::KBelowOne)
    } else if u64::from(greatest) < k {
        Some(Verdict::KAboveGreatest)
    } else {
        None
    }
}

// In two's complement, from this number on eight bytes are below zero.
const BELOW_ZERO: u64 = 9223372036854775808;

// What is wrong with the k at a place: types 2 and 3 have a sign, 4 and 5 have none.
fn k_reason(s: &[u8], at: usize, greatest: u32) -> Option<Verdict>
    requires { Tree s.now at }
    ensures { OfTree s.now at (KTold greatest result) }
{
    if s[at] != kinds::LITERAL {
        return Some(Verdict::KNoNumber);
    }
    let bytes = long_at(s, at + 2);
    match s[at + 1] {
        2 | 3 => {
            if BELOW_ZERO <= bytes {
                return Some(Verdict::KBelowOne);
            }
            natural_reason(bytes, greatest)
        }
        4 | 5 => natural_reason(bytes, greatest),
        _ => Some(Verdict::KNoNumber),
    }
}

// The verdict of the second flag, where all before it is right.
fn ties_verdict(s: &[u8], at: usize, n: usize) -> Verdict
    requires { Trees s.now at n }
    ensures { OfTrees s.now at n (λ ts. verdict_of result ≡ ties_stage ts) }
{
    if n == 0 {
        return Verdict::AsKnn;
    }
    if extract_literal_bool(s, at).is_none() {
        return Verdict::TiesNoFlag;
    }
    Verdict::AsKnn
}

// The verdict of the flags after k, where all before them is right.
fn flags_verdict(s: &[u8], at: usize, n: usize) -> Verdict
    requires { Trees s.now at n }
    ensures { OfTrees s.now at n (λ ts. verdict_of result ≡ flags_stage ts) }
{
    if n == 0 {
        return Verdict::AsKnn;
    }
    if extract_literal_bool(s, at).is_none() {
        return Verdict::SpheroidNoFlag;
    }
    ties_verdict(s, at + 10, n - 1)
}

// The verdict of what follows the geometries, where these are right.
pub fn options_verdict(s: &[u8], at: usize, n: usize, greatest: u32) -> Verdict
    requires { Trees s.now at n }
    ensures { OfTrees s.now at n (λ ts. verdict_of result ≡ options_stage greatest ts) }
{
    if n == 0 {
        return Verdict::AsKnn;
    }
    if let Some(why) = k_reason(s, at, greatest) {
        return why;
    }
    flags_verdict(s, at + 10, n - 1)
}
