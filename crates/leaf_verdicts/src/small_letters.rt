// What would be ours if letters were small.
ghost use Rattle.std.specs.Prelude.{◌≡◌, not};
ghost use Rattle.definitions.specs.Filter.Names.{lower_case};
ghost use Rattle.definitions.specs.Words.Expression.{binary};
ghost use Rattle.definitions.specs.Filter.Verdicts as definitions;
ghost use Rattle.leaf_verdicts.specs.Laid.{AtIndex, OfIndex, RowAt, OfRow, PairAt, OfPairAt};

use expression::leaves::{Node, node_at};
use leaf_matching::filter::Filter;
use logical_filter::predicate_names::{is_distance_expr, is_spatial_name};
use sedona_expr::utils::comparison;

// Whether a name in small letters is that of a relation, `st_dwithin` or `st_knn`.
pub fn named_in_small(name: &[u8]) -> bool
    ensures { result ≡ not (definitions.is_no_line (definitions.line_named (lower_case name.now))) }
{
    is_spatial_name(name)
}

// Whether the node of an index is an `st_distance`, letter case aside.
pub fn is_distance(filter: Filter, i: usize) -> bool
    requires { AtIndex filter.tree.bytes.now filter.rec filter.tree.nodes.now i }
    ensures { OfIndex filter.entry.tree.bytes.now filter.entry.rec filter.entry.tree.nodes.now i
        (λ records t. result ≡ definitions.is_distance_call t) }
{
    is_distance_expr(filter.tree.bytes, filter.tree.start(i))
}

// Whether a comparison looks at `st_distance`, letter case aside; its left side has an index.
fn measured_in_small(filter: Filter, operator: u8, left: usize) -> bool
    requires { PairAt filter.tree.bytes.now filter.rec filter.tree.nodes.now left }
    ensures { OfPairAt filter.entry.tree.bytes.now filter.entry.rec filter.entry.tree.nodes.now left
        (λ records l r. result ≡ definitions.ours_in_small (binary operator l r)) }
{
    match comparison(operator, left, filter.tree.after(left)) {
        Some(sides) => is_distance(filter, sides.measured),
        None => false,
    }
}

// Whether the expression of an index would be meant for a line.
fn ours_in_small(filter: Filter, i: usize) -> bool
    requires { AtIndex filter.tree.bytes.now filter.rec filter.tree.nodes.now i }
    ensures { OfIndex filter.entry.tree.bytes.now filter.entry.rec filter.entry.tree.nodes.now i
        (λ records t. result ≡ definitions.ours_in_small t) }
{
    match node_at(filter.tree.bytes, filter.tree.start(i)) {
        Node::Call(called) => named_in_small(called.name(filter.tree.bytes)),
        Node::Binary(operator, _) => measured_in_small(filter, operator, i + 1),
        Node::And(_) | Node::Plain(_) => false,
    }
}

// Whether one of n expressions in a row would, the first of which has index i.
pub fn some_of_ours(filter: Filter, i: usize, n: usize) -> bool
    requires { RowAt filter.tree.bytes.now filter.rec filter.tree.nodes.now i n }
    ensures { OfRow filter.entry.tree.bytes.now filter.entry.rec filter.entry.tree.nodes.now i n
        (λ records ts. result ≡ definitions.some_of_ours ts) }
{
    let mut next = i;
    for _ in 0..n {
        if ours_in_small(filter, next) {
            return true;
        }
        next = filter.tree.after(next);
    }
    false
}
