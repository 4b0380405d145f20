// Logical, with the answer as a host gets it: mask, count and side in one number. Public for the crate `spatialjoin_c`.
ghost use Rattle.std.specs.Prelude.{◌≡◌};
ghost use Rattle.host_calls.specs.Hosts.{hosted_names};
ghost use Rattle.definitions.specs.Calls.Logical as logicals;

use super::answers::minus_refusal;
use logical_filter::call::logical;

// Mask, count and side in one number.
pub fn logical_number(frame: &[u8]) -> i64
    ensures { result ≡ hosted_names (logicals.logical frame.now) }
{
    match logical(frame) {
        Err(why) => minus_refusal(why),
        Ok(names) => {
            let mask = u64::from(names.found.mask);
            let side = u64::from(u8::from(names.side));
            let names = u64::from(names.found.names);
            (mask * 65536 + names * 256 + side) as i64
        }
    }
}
