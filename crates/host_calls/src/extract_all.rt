// Extract all, with the answer as a host gets it: rounds and length in one number. Public for the crate `spatialjoin_c`.
ghost use Rattle.definitions.specs.Calls.Settings as definitions;
ghost use Rattle.terms.specs.Settings.{settings_of};
ghost use Rattle.host_calls.specs.Hosted.{AllHosted};

use super::answers::minus_refusal;
use call_extract_all::call::extract_all;
use terms::settings::Settings;

// At most 1,024 rounds and 16,384 bytes.
pub fn all_number(frame: &[u8], out: &mut [u8], settings: Settings) -> i64
    ensures { AllHosted frame.now (definitions.extract_all_under (settings_of settings) frame.now out.old)
        out.new result }
{
    match extract_all(out, frame, settings) {
        Ok(taken) => (taken.rounds * 65536 + taken.length) as i64,
        Err(why) => minus_refusal(why),
    }
}
