// A leaf as whatever it matches, for a call that lists all.
ghost use Rattle.definitions.specs.Filter.Extract.{is_knn};
ghost use Rattle.definitions.specs.Filter.Settings.{match_under};
ghost use Rattle.leaf_matching.specs.Frames.{OfFrame};
ghost use Rattle.leaf_matching.specs.Matches.{Lacks};
ghost use Rattle.terms.specs.Settings.{settings_of};
ghost use Rattle.leaf_pick.specs.Picks.{LeafThere, AnyMatchIs};

use super::first_match::{Leaf, match_knn, match_other};
use super::one_walk::{is_no_knn, is_passed};
use leaf_matching::filter::Filter;
use leaf_matching::matching::NoMatch;
use sedona_query_planner::spatial_predicate::SpatialPredicate;
use terms::settings::Settings;

// A leaf that is no KNN match.
#[inline]
fn match_but_knn(filter: Filter, leaf: Leaf, settings: Settings) -> Option<SpatialPredicate>
    requires leaf_there { LeafThere filter.tree.bytes.now filter.tree.nodes.now filter.rec leaf }
    requires no_knn { OfFrame filter.tree.bytes.now filter.rec leaf.stop.at
        (λ records t. Lacks is_knn (match_under (settings_of settings) records t)) }
    ensures { OfFrame filter.entry.tree.bytes.now filter.entry.rec leaf.stop.at
        (AnyMatchIs (match_under (settings_of settings)) filter.entry.tree.bytes.now result) }
{
    match match_other(filter, leaf, settings) {
        Ok(predicate) => Some(predicate),
        Err(_) => None,
    }
}

// Most leaves are passed without a call of a matcher, as in the walk for one.
pub fn match_leaf(filter: Filter, leaf: Leaf, settings: Settings) -> Option<SpatialPredicate>
    requires { LeafThere filter.tree.bytes.now filter.tree.nodes.now filter.rec leaf }
    ensures { OfFrame filter.entry.tree.bytes.now filter.entry.rec leaf.stop.at
        (AnyMatchIs (match_under (settings_of settings)) filter.entry.tree.bytes.now result) }
{
    if is_passed(leaf.node) {
        return None;
    }
    if is_no_knn(leaf.node) {
        return match_but_knn(filter, leaf, settings);
    }
    match match_knn(filter, leaf, settings) {
        Ok(predicate) => Some(predicate),
        Err(NoMatch::Unmatched) => None,
        Err(NoMatch::NotAsked) => match_but_knn(filter, leaf, settings),
    }
}
