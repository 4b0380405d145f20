// Child indexes by lists of columns: where they stand in an extraction, their places in the lists, and putting these into the plan.
#![tactic(auto)]

pub mod places;
pub mod plan_spots;
pub mod projecting;
pub mod spot_places;
pub mod spots;
