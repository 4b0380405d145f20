// Forms of distance predicates.
ghost use Rattle.terms.specs.Forms.{FormIs, form_number};
ghost use Rattle.std.specs.Prelude.{◌≡◌};

use crate::refusals::Refusal;

// `st_dwithin`, or the comparison that bounds an `st_distance`, by document 01's number.
#[derive(Clone, Copy, Debug, PartialEq, Eq)]
pub enum DistanceForm {
    Dwithin = 0,
    Lt = 1,
    LtEq = 2,
    Gt = 3,
    GtEq = 4,
}

// The form with this number; there are five.
impl TryFrom<u64> for DistanceForm {
    type Error = Refusal;

    ghost try_from_gives = { FormIs };

    fn try_from(number: u64) -> Result<DistanceForm, Refusal> {
        match number {
            0 => Ok(DistanceForm::Dwithin),
            1 => Ok(DistanceForm::Lt),
            2 => Ok(DistanceForm::LtEq),
            3 => Ok(DistanceForm::Gt),
            4 => Ok(DistanceForm::GtEq),
            _ => Err(Refusal::OutOfRange),
        }
    }
}

// Document 01's number of a form.
impl From<DistanceForm> for u8 {
    ghost from_gives = { λ form number. number ≡ form_number form };

    fn from(form: DistanceForm) -> u8 {
        form as u8
    }
}
