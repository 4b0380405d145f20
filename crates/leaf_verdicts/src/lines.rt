// The line of the price list that a leaf is meant for.
ghost use Rattle.std.specs.Prelude.{◌≡◌};
ghost use Rattle.definitions.specs.Filter.Verdicts as definitions;
ghost use Rattle.terms.specs.Settings.{settings_of};
ghost use Rattle.leaf_verdicts.specs.Cases.{line_of};

use expression::names::same_name;
use sedona_query_planner::spatial_predicate::SpatialRelationType;
use terms::settings::Settings;

// Relation, distance, KNN, or none.
#[derive(Clone, Copy, Debug, PartialEq, Eq)]
pub enum PriceLine {
    Relation,
    Distance,
    Knn,
    None,
}

// The line of a function's name.
#[tactic(auto, unfolding(definitions::specs::Filter::Verdicts::line_named, definitions::specs::Words::Basics::ascii))]
pub fn line_named(name: &[u8]) -> PriceLine
    ensures { line_of result ≡ definitions.line_named name.now }
{
    if same_name(name, b"st_knn") {
        return PriceLine::Knn;
    }
    if same_name(name, b"st_dwithin") {
        return PriceLine::Distance;
    }
    match SpatialRelationType::from_name(name) {
        Some(_) => PriceLine::Relation,
        None => PriceLine::None,
    }
}

// Whether the settings leave a line's kind out.
#[tactic(auto, unfolding(definitions::specs::Filter::Verdicts::left_out))]
pub fn left_out(settings: Settings, line: PriceLine) -> bool
    ensures { result ≡ definitions.left_out (settings_of settings) (line_of line) }
{
    match line {
        PriceLine::Relation => settings.kinds % 2 != 1,
        PriceLine::Distance => settings.kinds / 2 % 2 != 1,
        PriceLine::Knn => settings.kinds / 4 % 2 != 1,
        PriceLine::None => false,
    }
}
