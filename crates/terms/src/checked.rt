// Session settings that were tested (request 13 of document 02).
ghost use Rattle.definitions.specs.Filter.Settings.{GoodSettings};
ghost use Rattle.terms.specs.Settings.{settings_of};

use crate::refusals::Refusal;
use crate::settings::{Settings, good_settings};

// Settings that do not get 24.
#[derive(Clone, Copy)]
pub struct Checked {
    pub settings: Settings,
    pub ghost good: { GoodSettings (settings_of settings) },
}

impl Settings {
    ghost use Rattle.terms.specs.Checked.{CheckedIs};

    // The same settings, unless they get 24.
    pub fn checked(self) -> Result<Checked, Refusal>
        ensures { CheckedIs self result }
    {
        if good_settings(self) {
            Ok(Checked { settings: self })
        } else {
            Err(Refusal::BadSettings)
        }
    }
}
