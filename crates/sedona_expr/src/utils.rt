// Distance predicates: a port of rust/sedona-expr/src/utils.rs.
ghost use Rattle.definitions.specs.Words.Leaves.{distance_arguments};
ghost use Rattle.definitions.specs.Words.Leaves as definitions;
ghost use Rattle.definitions.specs.Filter.Match.{comparison_request, call_request, request};
ghost use Rattle.std.specs.Prelude.{◌≡◌};
ghost use Rattle.expression.specs.Nodes as nodes;
ghost use Rattle.expression.specs.Nodes.{OfTree, OfTreeIn};
ghost use Rattle.expression.specs.Leaves.{Calls, OfCall};
ghost use Rattle.filter_tree.specs.Trees.{Noded, NodedAll, TreePair, OfTreePair};
ghost use Rattle.sedona_expr.specs.Parsed.{compared, DistanceIs, ParsedIs};

use expression::leaves::{Called, Node, node_at};
use expression::names::same_name;
use filter_tree::tree::Tree;
use terms::forms::DistanceForm;

// The side of a comparison on which `st_distance` is looked for, and the other, its bound: each by the number that it was given.
#[derive(Clone, Copy)]
pub struct Compared {
    pub measured: usize,
    pub bound: usize,
}

// The indexes of both geometries and of the distance.
#[derive(Clone, Copy)]
pub struct ParsedDistancePredicate {
    pub form: DistanceForm,
    pub arg0: usize,
    pub arg1: usize,
    pub distance: usize,
}

// The side of a comparison that is read, and the other; none, if the operator is no order.
#[tactic(auto, unfolding(crate::specs::Parsed::compared))]
#[inline]
pub fn comparison(operator: u8, left: usize, right: usize) -> Option<Compared>
    ensures { result ≡ compared operator left right }
{
    match operator {
        1 | 2 => Some(Compared {
            measured: left,
            bound: right,
        }),
        3 | 4 => Some(Compared {
            measured: right,
            bound: left,
        }),
        _ => None,
    }
}

// An `st_distance` call.
#[inline]
pub fn distance_arguments(s: &[u8], at: usize) -> Option<Called>
    requires { nodes.Tree s.now at }
    ensures { OfTreeIn s.now at (λ c t. DistanceIs c s.now result (distance_arguments t)) }
{
    let Node::Call(call) = node_at(s, at) else {
        return None;
    };
    same_name(call.name(s), b"st_distance").then_some(call)
}

// A comparison takes the first two arguments of `st_distance`; its left side has index i.
#[inline]
fn parse_comparison(tree: Tree, operator: u8, i: usize) -> Option<ParsedDistancePredicate>
    requires { TreePair tree.bytes.now tree.nodes.now i }
    ensures { OfTreePair tree.entry.bytes.now tree.entry.nodes.now i
        (λ c l r. ParsedIs c tree.entry.bytes.now tree.entry.nodes.now result
        (comparison_request operator (definitions.comparison operator l r))) }
{
    let form = DistanceForm::try_from(u64::from(operator)).ok()?;
    let sides = comparison(operator, i, tree.after(i))?;
    let call = distance_arguments(tree.bytes, tree.start(sides.measured))?;
    if call.count < 2 {
        return None;
    }
    let arg0 = sides.measured + 1;
    Some(ParsedDistancePredicate {
        form,
        arg0,
        arg1: tree.after(arg0),
        distance: sides.bound,
    })
}

// `st_dwithin` takes its first three arguments; the first has index i.
#[inline]
fn parse_dwithin(tree: Tree, call: Called, i: usize) -> Option<ParsedDistancePredicate>
    requires calls { Calls tree.bytes.now call }
    requires of_call { OfCall tree.bytes.now call
        (λ c name arguments. NodedAll tree.nodes.now call.first i arguments) }
    ensures { OfCall tree.entry.bytes.now call
        (λ c name arguments. ParsedIs c tree.entry.bytes.now tree.entry.nodes.now result
        (call_request name arguments)) }
{
    if !same_name(call.name(tree.bytes), b"st_dwithin") {
        return None;
    }
    if call.count < 3 {
        return None;
    }
    let arg1 = tree.after(i);
    Some(ParsedDistancePredicate {
        form: DistanceForm::Dwithin,
        arg0: i,
        arg1,
        distance: tree.after(arg1),
    })
}

// The leaf at a place, which has index i.
#[inline]
pub fn parse_distance_predicate(tree: Tree, at: usize, i: usize) -> Option<ParsedDistancePredicate>
    requires standing { nodes.Tree tree.bytes.now at }
    requires noded { OfTree tree.bytes.now at (Noded tree.nodes.now at i) }
    ensures { OfTreeIn tree.entry.bytes.now at
        (λ c t. ParsedIs c tree.entry.bytes.now tree.entry.nodes.now result (request t)) }
{
    match node_at(tree.bytes, at) {
        Node::Binary(operator, _) => parse_comparison(tree, operator, i + 1),
        Node::Call(call) => parse_dwithin(tree, call, i + 1),
        Node::And(_) | Node::Plain(_) => None,
    }
}
