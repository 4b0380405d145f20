// Spatial predicates: a port of rust/sedona-query-planner/src/spatial_predicate.rs.
ghost use Rattle.std.specs.Prelude.{◌≡◌};
ghost use Rattle.definitions.specs.Bytes.Encode.{relation_number};
ghost use Rattle.definitions.specs.Bytes.Decode.{relation_numbered};
ghost use Rattle.definitions.specs.Words.Leaves.{relation_named};
ghost use Rattle.definitions.specs.Words.Expression as definitions;
ghost use Rattle.sedona_query_planner.specs.Relations.{relation_of, named_relation};
ghost use Rattle.sedona_query_planner.specs.Predicates.{ties_number, ties_numbered, unchanged, RelationAt, DistanceAt, KnnAt, PredicateAt, Exchanges};

use expression::names::same_name;
use terms::sides::JoinSide;

// A predicate of two geometries and what relates them; each argument stands from its start up to its end. These are fields of each struct,
// the form that document 01 binds.
#[derive(Clone, Copy)]
pub enum SpatialPredicate {
    Distance(DistancePredicate),
    Relation(RelationPredicate),
    KNearestNeighbors(KNNPredicate),
}

#[derive(Clone, Copy)]
pub struct DistancePredicate {
    pub left: usize,
    pub left_end: usize,
    pub right: usize,
    pub right_end: usize,
    pub distance: usize,
    pub distance_end: usize,
    pub distance_side: JoinSide,
    // The number of its form.
    pub form: u8,
}

#[derive(Clone, Copy)]
pub struct RelationPredicate {
    pub left: usize,
    pub left_end: usize,
    pub right: usize,
    pub right_end: usize,
    pub relation_type: SpatialRelationType,
}

// Whether objects as near as the k-th are found too is `include_tie_breakers`; where it is absent, the session decides.
#[derive(Clone, Copy)]
pub struct KNNPredicate {
    pub left: usize,
    pub left_end: usize,
    pub right: usize,
    pub right_end: usize,
    pub k: u32,
    pub use_spheroid: bool,
    pub probe_side: JoinSide,
    pub include_tie_breakers: Option<bool>,
}

// By document 01's numbers.
#[derive(Clone, Copy, Debug, PartialEq, Eq)]
pub enum SpatialRelationType {
    Intersects = 0,
    Contains = 1,
    Within = 2,
    Covers = 3,
    CoveredBy = 4,
    Touches = 5,
    Crosses = 6,
    Overlaps = 7,
    Equals = 8,
}

impl SpatialRelationType {
    // The name is compared byte by byte.
    #[inline]
    pub fn from_name(name: &[u8]) -> Option<SpatialRelationType>
        ensures { named_relation result ≡ relation_named name.now }
    {
        // A `match` on the bytes was tried: 132 goals, one for each byte at which it may end, and no names for their facts.
        // A table of names with their types would have as many lines, and a search beside it.
        if same_name(name, b"st_intersects") {
            Some(SpatialRelationType::Intersects)
        } else if same_name(name, b"rs_intersects") {
            Some(SpatialRelationType::Intersects)
        } else if same_name(name, b"st_contains") {
            Some(SpatialRelationType::Contains)
        } else if same_name(name, b"rs_contains") {
            Some(SpatialRelationType::Contains)
        } else if same_name(name, b"st_within") {
            Some(SpatialRelationType::Within)
        } else if same_name(name, b"rs_within") {
            Some(SpatialRelationType::Within)
        } else if same_name(name, b"st_covers") {
            Some(SpatialRelationType::Covers)
        } else if same_name(name, b"st_coveredby") {
            Some(SpatialRelationType::CoveredBy)
        } else if same_name(name, b"st_covered_by") {
            Some(SpatialRelationType::CoveredBy)
        } else if same_name(name, b"st_touches") {
            Some(SpatialRelationType::Touches)
        } else if same_name(name, b"st_crosses") {
            Some(SpatialRelationType::Crosses)
        } else if same_name(name, b"st_overlaps") {
            Some(SpatialRelationType::Overlaps)
        } else if same_name(name, b"st_equals") {
            Some(SpatialRelationType::Equals)
        } else {
            None
        }
    }

    // The relation that holds of the exchanged arguments.
    #[tactic(auto, unfolding(definitions::specs::Words::Expression::invert))]
    pub fn invert(self) -> Self
        ensures { relation_of result ≡ definitions.invert (relation_of self) }
    {
        match self {
            SpatialRelationType::Intersects => SpatialRelationType::Intersects,
            SpatialRelationType::Covers => SpatialRelationType::CoveredBy,
            SpatialRelationType::CoveredBy => SpatialRelationType::Covers,
            SpatialRelationType::Contains => SpatialRelationType::Within,
            SpatialRelationType::Within => SpatialRelationType::Contains,
            SpatialRelationType::Touches => SpatialRelationType::Touches,
            SpatialRelationType::Crosses => SpatialRelationType::Crosses,
            SpatialRelationType::Overlaps => SpatialRelationType::Overlaps,
            SpatialRelationType::Equals => SpatialRelationType::Equals,
        }
    }
}

// The relation type of a number, 0 to 8: readers give no other, so that a `TryFrom` would only ask again.
impl From<u64> for SpatialRelationType {
    ghost from_gives = { λ number type. relation_of type ≡ relation_numbered number };

    #[tactic(auto, unfolding(definitions::specs::Bytes::Decode::relation_numbered, definitions::specs::Words::Expression::relations))]
    fn from(number: u64) -> SpatialRelationType {
        match number {
            0 => SpatialRelationType::Intersects,
            1 => SpatialRelationType::Contains,
            2 => SpatialRelationType::Within,
            3 => SpatialRelationType::Covers,
            4 => SpatialRelationType::CoveredBy,
            5 => SpatialRelationType::Touches,
            6 => SpatialRelationType::Crosses,
            7 => SpatialRelationType::Overlaps,
            _ => SpatialRelationType::Equals,
        }
    }
}

// Document 01's number of a relation type.
impl From<SpatialRelationType> for u8 {
    ghost from_gives = { λ type number. number ≡ relation_number (relation_of type) };

    fn from(relation: SpatialRelationType) -> u8 {
        relation as u8
    }
}

// Document 01's number of ties: no `From`, since `Option` and `u8` are types of others.
pub fn ties_number(ties: Option<bool>) -> u8
    ensures { result ≡ ties_number ties }
{
    match ties {
        Some(value) => u8::from(value),
        None => 2,
    }
}

// The ties of a number; 2 is absent.
pub fn ties_numbered(number: u64) -> Option<bool>
    ensures { ties_number result ≡ ties_numbered number }
{
    match number {
        0 => Some(false),
        1 => Some(true),
        _ => None,
    }
}

impl RelationPredicate {
    // One for each struct of the enum over structs that document 01 asks for; the name is the Rust's.
    pub fn swap_for_swapped_children(self) -> Self
        ensures { Exchanges (λ s. RelationAt unchanged s self) (λ s. RelationAt unchanged s result) }
    {
        RelationPredicate {
            left: self.right,
            left_end: self.right_end,
            right: self.left,
            right_end: self.left_end,
            relation_type: self.relation_type.invert(),
        }
    }
}

impl DistancePredicate {
    pub fn swap_for_swapped_children(self) -> Self
        ensures { Exchanges (λ s. DistanceAt unchanged s self) (λ s. DistanceAt unchanged s result) }
    {
        DistancePredicate {
            left: self.right,
            left_end: self.right_end,
            right: self.left,
            right_end: self.left_end,
            distance_side: self.distance_side.negate(),
            ..self
        }
    }
}

impl KNNPredicate {
    // Query and object stay; only which child is probed changes.
    pub fn swap_for_swapped_children(self) -> Self
        ensures { Exchanges (λ s. KnnAt unchanged s self) (λ s. KnnAt unchanged s result) }
    {
        KNNPredicate {
            probe_side: self.probe_side.negate(),
            ..self
        }
    }
}

impl SpatialPredicate {
    // The predicate over exchanged children, from the same bytes.
    pub fn swap_for_swapped_children(self) -> Self
        ensures { Exchanges (λ s. PredicateAt unchanged s self) (λ s. PredicateAt unchanged s result) }
    {
        match self {
            SpatialPredicate::Relation(p) => {
                SpatialPredicate::Relation(p.swap_for_swapped_children())
            }
            SpatialPredicate::Distance(p) => {
                SpatialPredicate::Distance(p.swap_for_swapped_children())
            }
            SpatialPredicate::KNearestNeighbors(p) => {
                SpatialPredicate::KNearestNeighbors(p.swap_for_swapped_children())
            }
        }
    }
}
