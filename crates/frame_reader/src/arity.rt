// Whether every AND-leaf has the arguments that it needs (refusal 8).
ghost use Rattle.std.specs.Prelude.{◌≡◌};
ghost use Rattle.definitions.specs.Words.Expression.{binary, count as count_of};
ghost use Rattle.definitions.specs.Words.Leaves.{call_arity, distance_arity, distance_arguments, leaf_arity, arity};
ghost use Rattle.expression.specs.Leaves.{Calls, OfCall};
ghost use Rattle.filter_tree.specs.Trees.{TreeNode, OfTreeNode, TreePair, OfTreePair};

use expression::leaves::{Called, Node, node_at};
use expression::names::same_name;
use filter_tree::spine::Spine;
use filter_tree::tree::Tree;
use sedona_expr::utils::{comparison, distance_arguments};
use sedona_query_planner::spatial_predicate::SpatialRelationType;

// Whether a function has the arguments that its name needs.
fn enough_for_name(s: &[u8], call: Called) -> bool
    requires { Calls s.now call }
    ensures { OfCall s.now call (λ c name arguments. result ≡ call_arity name (count_of arguments)) }
{
    if same_name(call.name(s), b"st_dwithin") {
        return 3 <= call.count;
    }
    match SpatialRelationType::from_name(call.name(s)) {
        Some(_) => 2 <= call.count,
        None => true,
    }
}

// Whether the node of an index, if it is an `st_distance` call, has two arguments.
fn enough_to_measure(tree: Tree, i: usize) -> bool
    requires { TreeNode tree.bytes.now tree.nodes.now i }
    ensures { OfTreeNode tree.entry.bytes.now tree.entry.nodes.now i
        (λ t. result ≡ distance_arity (distance_arguments t)) }
{
    match distance_arguments(tree.bytes, tree.start(i)) {
        Some(call) => 2 <= call.count,
        None => true,
    }
}

// A comparison is asked on the side that is read; its left side has index i.
fn enough_to_compare(tree: Tree, operator: u8, i: usize) -> bool
    requires { TreePair tree.bytes.now tree.nodes.now i }
    ensures { OfTreePair tree.entry.bytes.now tree.entry.nodes.now i
        (λ c l r. result ≡ leaf_arity (binary operator l r)) }
{
    match comparison(operator, i, tree.after(i)) {
        Some(sides) => enough_to_measure(tree, sides.measured),
        None => true,
    }
}

// The node of an index; an And needs nothing itself.
fn enough_arguments(tree: Tree, i: usize) -> bool
    requires { TreeNode tree.bytes.now tree.nodes.now i }
    ensures { OfTreeNode tree.entry.bytes.now tree.entry.nodes.now i (λ t. result ≡ leaf_arity t) }
{
    match node_at(tree.bytes, tree.start(i)) {
        Node::And(_) => true,
        Node::Plain(_) => true,
        Node::Binary(operator, _) => enough_to_compare(tree, operator, i + 1),
        Node::Call(call) => enough_for_name(tree.bytes, call),
    }
}

// All AND-leaves of the expression of an index.
pub fn all_have_arguments(tree: Tree, i: usize) -> bool
    requires { TreeNode tree.bytes.now tree.nodes.now i }
    ensures { OfTreeNode tree.entry.bytes.now tree.entry.nodes.now i (λ t. result ≡ arity t) }
{
    for index in Spine::of(tree, i) {
        if !enough_arguments(tree, index) {
            return false;
        }
    }
    true
}
