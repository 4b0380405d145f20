// The spatial names of a logical filter. A port of `collect_spatial_predicate_names` of
// rust/sedona-query-planner/src/spatial_expr_utils.rs; the case of letters is ignored.
ghost use Rattle.std.specs.Prelude.{◌≡◌, true, false, ◌∷◌, [], position, ◌≤◌, length};
ghost use Rattle.std.specs.List.{list_any};
ghost use Rattle.definitions.specs.Words.Basics.{ascii, same_name, any};
ghost use Rattle.definitions.specs.Words.Expression.{binary};
ghost use Rattle.definitions.specs.Filter.Names.{lower_case, spatial_names, function_name, mask};
ghost use Rattle.expression.specs.Nodes.{Tree as TreeAt, OfTree};
ghost use Rattle.filter_tree.specs.Trees.{TreeNode, OfTreeNode, TreePair, OfTreePair};
ghost use Rattle.logical_filter.specs.Logicals.{spellings, apart, BitIs, with_node, CollectedIs};

use expression::leaves::{Node, node_at};
use expression::names::same_name_ignore_case;
use filter_tree::spine::Spine;
use filter_tree::tree::Tree;
use sedona_expr::utils::comparison;

// Whether an expression measures a distance.
pub fn is_distance_expr(s: &[u8], at: usize) -> bool
    requires { TreeAt s.now at }
    ensures { OfTree s.now at (λ t. result ≡ same_name (function_name t) (ascii "st_distance")) }
{
    let Node::Call(call) = node_at(s, at) else {
        return false;
    };
    same_name_ignore_case(call.name(s), b"st_distance")
}

// The 15 names, bit 0 first.
const SPATIAL_NAMES: [&[u8]; 15] = [
    b"st_intersects",
    b"st_contains",
    b"st_within",
    b"st_covers",
    b"st_covered_by",
    b"st_coveredby",
    b"st_touches",
    b"st_crosses",
    b"st_overlaps",
    b"st_equals",
    b"st_dwithin",
    b"st_knn",
    b"rs_intersects",
    b"rs_contains",
    b"rs_within",
];

// Whether it is one of these names.
fn is_among(name: &[u8], names: &[&[u8]]) -> bool
    ensures { result ≡ list_any (λ other. same_name (lower_case name.now) other.now) names.now }
{
    names.iter().any(|other| same_name_ignore_case(name, other))
}

// Whether a name is as long as one of the 15 and ends with the letter of one, n, s or y. Few others do.
fn may_be_spatial(name: &[u8]) -> bool
    ensures { result ≡ false → any (same_name (lower_case name.now)) spatial_names ≡ false }
{
    let n = name.len();
    if n != 6 && (n < 9 || 13 < n) {
        return false;
    }
    let last = name[n - 1].to_ascii_lowercase();
    if last != b'n' && last != b's' && last != b'y' {
        return false;
    }
    true
}

// Whether it is one of the 15.
pub fn is_spatial_name(name: &[u8]) -> bool
    ensures { result ≡ any (same_name (lower_case name.now)) spatial_names }
{
    may_be_spatial(name) && is_among(name, &SPATIAL_NAMES)
}

// Which of these names it is, from 0.
fn name_position(name: &[u8], names: &[&[u8]]) -> Option<usize>
    ensures { result ≡ position (λ other. same_name (lower_case name.now) other.now) names.now }
{
    names
        .iter()
        .position(|other| same_name_ignore_case(name, other))
}

// The bit of a name by its place among these names, none of which stands twice; 0 for a name that is none of them.
fn name_bit(name: &[u8], names: &[&[u8]]) -> u16
    requires few { length names.now ≤ 16 }
    requires apart { apart (spellings names.now) ≡ true }
    ensures { result ≡ mask (spellings names.now) (lower_case name.now ∷ []) }
{
    match name_position(name, names) {
        Some(i) => 1 << i,
        None => 0,
    }
}

// The bit of a name among the 15.
fn spatial_bit(name: &[u8]) -> u16
    ensures { result ≡ mask spatial_names (lower_case name.now ∷ []) }
{
    if !may_be_spatial(name) {
        return 0;
    }
    name_bit(name, &SPATIAL_NAMES)
}

// The bit of `st_dwithin`, which a comparison of a distance counts as.
const ST_DWITHIN: u16 = 1024;

// The bit of `st_knn`, whose first argument tells the query side.
const ST_KNN: u16 = 2048;

// The bit of a comparison: that of `st_dwithin`, where the side that is read measures a distance. Its left side has index i.
fn comparison_bit(tree: Tree, operator: u8, i: usize) -> u16
    requires { TreePair tree.bytes.now tree.nodes.now i }
    ensures { OfTreePair tree.entry.bytes.now tree.entry.nodes.now i
        (λ c l r. BitIs result (binary operator l r)) }
{
    match comparison(operator, i, tree.after(i)) {
        Some(sides) if is_distance_expr(tree.bytes, tree.start(sides.measured)) => ST_DWITHIN,
        _ => 0,
    }
}

// The bit of the name of a node; an And has none.
fn node_bit(tree: Tree, i: usize) -> u16
    requires { TreeNode tree.bytes.now tree.nodes.now i }
    ensures { OfTreeNode tree.entry.bytes.now tree.entry.nodes.now i (BitIs result) }
{
    match node_at(tree.bytes, tree.start(i)) {
        Node::Binary(operator, _) => comparison_bit(tree, operator, i + 1),
        Node::Call(call) => spatial_bit(call.name(tree.bytes)),
        _ => 0,
    }
}

// Names that were collected, and the index of the first `st_knn` call.
#[derive(Clone, Copy)]
pub struct CollectedNames {
    pub mask: u16,
    pub knn: Option<usize>,
}

impl CollectedNames {
    // One node more.
    fn with(self, bit: u16, i: usize) -> CollectedNames
        ensures { result ≡ with_node self bit i }
    {
        let knn = match self.knn {
            None if bit == ST_KNN => Some(i),
            known => known,
        };
        CollectedNames {
            mask: self.mask | bit,
            knn,
        }
    }
}

// The names of the AND-leaves of an expression that has the first records, and the first `st_knn` call among them.
pub fn collect_spatial_predicate_names(tree: Tree) -> CollectedNames
    requires { TreeNode tree.bytes.now tree.nodes.now 0 }
    ensures { OfTreeNode tree.entry.bytes.now tree.entry.nodes.now 0
        (CollectedIs tree.entry.bytes.now tree.entry.nodes.now result) }
{
    let mut all = CollectedNames { mask: 0, knn: None };
    for index in Spine::of(tree, 0) {
        all = all.with(node_bit(tree, index), index);
    }
    all
}

// The mask of the names that were found, bit 0 for the first of the 15 names, and how many they are.
#[derive(Clone, Copy)]
pub struct PredicateNames {
    pub mask: u16,
    pub names: u32,
}
