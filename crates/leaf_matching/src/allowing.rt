// Which matches the session's settings leave.
ghost use Rattle.terms.specs.Settings.{settings_of};
ghost use Rattle.leaf_matching.specs.Matches.{AllowedIs, Allows};

use super::matching::{Matching, NoMatch};
use sedona_query_planner::spatial_predicate::SpatialPredicate;
use terms::settings::Settings;

// Whether a predicate is of a kind allowed and its k, if it has one, is not above the greatest.
#[inline]
fn is_allowed(settings: Settings, predicate: SpatialPredicate) -> bool
    ensures { AllowedIs (settings_of settings) predicate result }
{
    match predicate {
        SpatialPredicate::Relation(_) => settings.kinds % 2 == 1,
        SpatialPredicate::Distance(_) => settings.kinds / 2 % 2 == 1,
        SpatialPredicate::KNearestNeighbors(p) => {
            settings.kinds / 4 % 2 == 1 && p.k <= settings.greatest_k
        }
    }
}

// What is left of a match.
#[inline]
pub fn only_allowed(settings: Settings, matching: Matching) -> Matching
    ensures { Allows (settings_of settings) matching result }
{
    let predicate = matching?;
    if is_allowed(settings, predicate) {
        Ok(predicate)
    } else {
        Err(NoMatch::Unmatched)
    }
}
