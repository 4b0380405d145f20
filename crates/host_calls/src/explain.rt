// Explain, with the answer as a host gets it: the taken leaf and the number of verdicts in one number. Public for the crate
// `spatialjoin_c`.
ghost use Rattle.std.specs.Prelude.{◌≡◌, ◌<◌};
ghost use Rattle.definitions.specs.Filter.Verdicts as definitions;
ghost use Rattle.definitions.specs.Calls.Explain as explaining;
ghost use Rattle.terms.specs.Settings.{settings_of};
ghost use Rattle.leaf_verdicts.specs.Taken.{taken_of};
ghost use Rattle.host_calls.specs.Hosted.{ExplainHosted};

use super::answers::minus_refusal;
use call_explain::call::explain;
use leaf_verdicts::taken::TakenLeaf;
use terms::settings::Settings;

// The line and the position of the taken leaf, as an extraction starts with them; 0 where none is taken.
fn bill_number(taken: Option<TakenLeaf>) -> usize
    requires { definitions.bill_number (taken_of taken) < 16777216 }
    ensures { result ≡ definitions.bill_number (taken_of taken) }
{
    match taken {
        Some(leaf) => usize::from(leaf.line) * 65536 + leaf.position,
        None => 0,
    }
}

// Below 2^40.
pub fn explain_number(frame: &[u8], verdicts: &mut [u8], settings: Settings) -> i64
    ensures { ExplainHosted frame.now (explaining.explain (settings_of settings) frame.now verdicts.old)
        verdicts.new result }
{
    match explain(verdicts, frame, settings) {
        Ok(explained) => (bill_number(explained.taken) * 65536 + explained.count) as i64,
        Err(why) => minus_refusal(why),
    }
}
