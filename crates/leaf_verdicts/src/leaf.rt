// The verdict of an AND-leaf.
ghost use Rattle.std.specs.Prelude.{◌≡◌};
ghost use Rattle.definitions.specs.Words.Expression.{Expr, binary, call};
ghost use Rattle.definitions.specs.Filter.Verdicts.{with_bound, verdict_under};
ghost use Rattle.terms.specs.Settings.{settings_of};
ghost use Rattle.leaf_verdicts.specs.Cases.{verdict_of, LeafTold};
ghost use Rattle.leaf_verdicts.specs.Laid.{Laid, AtIndex, OfIndex, RowAt, OfRow, PairAt, OfPairAt, CallAt, OfCallAt};
ghost use Rattle.leaf_verdicts.specs.Stages.{relation_stage, distance_stage, knn_stage, inside_stage, other_stage, operator_stage, no_stage};

use super::asked::Asked;
use super::geometries::{bound_verdict, two_geometries};
use super::lines::{PriceLine, left_out, line_named};
use super::options::options_verdict;
use super::small_letters::{is_distance, named_in_small, some_of_ours};
use super::verdict::Verdict;
use expression::leaves::{Called, Node, node_at};
use leaf_matching::filter::Filter;
use sedona_expr::utils::{Compared, comparison, distance_arguments};

// A relation by its n arguments, the first of which has index i.
fn relation_verdict(filter: Filter, i: usize, n: usize) -> Verdict
    requires { RowAt filter.tree.bytes.now filter.rec filter.tree.nodes.now i n }
    ensures { OfRow filter.entry.tree.bytes.now filter.entry.rec filter.entry.tree.nodes.now i n
        (λ records ts. verdict_of result ≡ relation_stage records ts) }
{
    if n < 2 {
        return Verdict::TooFewArguments;
    }
    two_geometries(filter, i)
        .reason
        .unwrap_or(Verdict::AsRelation)
}

// An `st_dwithin` likewise.
fn dwithin_verdict(filter: Filter, i: usize, n: usize) -> Verdict
    requires { RowAt filter.tree.bytes.now filter.rec filter.tree.nodes.now i n }
    ensures { OfRow filter.entry.tree.bytes.now filter.entry.rec filter.entry.tree.nodes.now i n
        (λ records ts. verdict_of result ≡ distance_stage records ts) }
{
    if n < 3 {
        return Verdict::TooFewArguments;
    }
    let two = two_geometries(filter, i);
    match two.reason {
        Some(why) => why,
        None => bound_verdict(filter, filter.tree.after(two.second)),
    }
}

// An `st_knn` likewise.
fn knn_verdict(asked: Asked, i: usize, n: usize) -> Verdict
    requires { RowAt asked.filter.tree.bytes.now asked.filter.rec asked.filter.tree.nodes.now i n }
    ensures { OfRow asked.entry.filter.tree.bytes.now asked.entry.filter.rec asked.entry.filter.tree.nodes.now i n
        (λ records ts. verdict_of result ≡ knn_stage asked.entry.settings.greatest_k records ts) }
{
    if n < 2 {
        return Verdict::TooFewArguments;
    }
    if 5 < n {
        return Verdict::TooManyArguments;
    }
    let two = two_geometries(asked.filter, i);
    match two.reason {
        Some(why) => why,
        None => options_verdict(
            asked.filter.tree.bytes,
            asked.filter.tree.end(two.second),
            n - 2,
            asked.settings.greatest_k,
        ),
    }
}

// What is meant for no line, by the n that stand directly below it, the first of which has index i.
fn inside_verdict(filter: Filter, i: usize, n: usize) -> Verdict
    requires { RowAt filter.tree.bytes.now filter.rec filter.tree.nodes.now i n }
    ensures { OfRow filter.entry.tree.bytes.now filter.entry.rec filter.entry.tree.nodes.now i n
        (λ records ts. verdict_of result ≡ inside_stage ts) }
{
    if some_of_ours(filter, i, n) {
        Verdict::InsideAnother
    } else {
        Verdict::NothingOfOurs
    }
}

// A function that is meant for no line.
fn other_call_verdict(filter: Filter, called: Called, i: usize) -> Verdict
    requires { CallAt filter.tree.bytes.now filter.rec filter.tree.nodes.now called i }
    ensures { OfCallAt filter.entry.tree.bytes.now filter.entry.rec filter.entry.tree.nodes.now called i
        (λ records name ts. verdict_of result ≡ no_stage (call name ts)) }
{
    if named_in_small(called.name(filter.tree.bytes)) {
        Verdict::OtherCase
    } else {
        inside_verdict(filter, i, called.count)
    }
}

// A function whose first argument has index i.
fn call_verdict(asked: Asked, called: Called, i: usize) -> Verdict
    requires { CallAt asked.filter.tree.bytes.now asked.filter.rec asked.filter.tree.nodes.now called i }
    ensures { OfCallAt asked.entry.filter.tree.bytes.now asked.entry.filter.rec asked.entry.filter.tree.nodes.now
        called i
        (λ records name ts. verdict_of result ≡ verdict_under (settings_of asked.entry.settings) records (call name ts)) }
{
    let line = line_named(called.name(asked.filter.tree.bytes));
    if left_out(asked.settings, line) {
        return Verdict::KindLeftOut;
    }
    match line {
        PriceLine::Relation => relation_verdict(asked.filter, i, called.count),
        PriceLine::Distance => dwithin_verdict(asked.filter, i, called.count),
        PriceLine::Knn => knn_verdict(asked, i, called.count),
        PriceLine::None => other_call_verdict(asked.filter, called, i),
    }
}

// An `st_distance` of n arguments, the first of which has index i, that is compared with the bound of another index.
fn measured_verdict(filter: Filter, i: usize, n: usize, bound: usize) -> Verdict
    requires row { RowAt filter.tree.bytes.now filter.rec filter.tree.nodes.now i n }
    requires bound { AtIndex filter.tree.bytes.now filter.rec filter.tree.nodes.now bound }
    ensures { OfRow filter.entry.tree.bytes.now filter.entry.rec filter.entry.tree.nodes.now i n (λ records ts.
        (at : _) (d : Expr) → Laid filter.entry.tree.bytes.now filter.entry.rec filter.entry.tree.nodes.now
        at bound records d
        → verdict_of result ≡ distance_stage records (with_bound d ts)) }
{
    if n < 2 {
        return Verdict::TooFewArguments;
    }
    match two_geometries(filter, i).reason {
        Some(why) => why,
        None => bound_verdict(filter, bound),
    }
}

// A comparison that looks at no `st_distance`; its left side has an index, and so has each of its sides.
fn other_comparison_verdict(filter: Filter, sides: Compared, left: usize) -> Verdict
    requires row { RowAt filter.tree.bytes.now filter.rec filter.tree.nodes.now left 2 }
    requires measured { AtIndex filter.tree.bytes.now filter.rec filter.tree.nodes.now sides.measured }
    requires bound { AtIndex filter.tree.bytes.now filter.rec filter.tree.nodes.now sides.bound }
    ensures { OfRow filter.entry.tree.bytes.now filter.entry.rec filter.entry.tree.nodes.now left 2 (λ records es.
        (p : _) (m : Expr) → Laid filter.entry.tree.bytes.now filter.entry.rec filter.entry.tree.nodes.now
        p sides.measured records m
        → (q : _) (b : Expr) → Laid filter.entry.tree.bytes.now filter.entry.rec filter.entry.tree.nodes.now
        q sides.bound records b
        → verdict_of result ≡ other_stage m b es) }
{
    if is_distance(filter, sides.measured) {
        return Verdict::OtherCase;
    }
    if is_distance(filter, sides.bound) {
        return Verdict::OtherSide;
    }
    inside_verdict(filter, left, 2)
}

// An operator that is no comparison.
fn operator_verdict(filter: Filter, left: usize) -> Verdict
    requires { PairAt filter.tree.bytes.now filter.rec filter.tree.nodes.now left }
    ensures { OfPairAt filter.entry.tree.bytes.now filter.entry.rec filter.entry.tree.nodes.now left
        (λ records l r. verdict_of result ≡ operator_stage l r) }
{
    if is_distance(filter, left) || is_distance(filter, filter.tree.after(left)) {
        return Verdict::OtherOperator;
    }
    inside_verdict(filter, left, 2)
}

// An operator whose left side has an index.
fn binary_verdict(asked: Asked, operator: u8, left: usize) -> Verdict
    requires { PairAt asked.filter.tree.bytes.now asked.filter.rec asked.filter.tree.nodes.now left }
    ensures { OfPairAt asked.entry.filter.tree.bytes.now asked.entry.filter.rec asked.entry.filter.tree.nodes.now
        left
        (λ records l r. verdict_of result ≡ verdict_under (settings_of asked.entry.settings) records (binary operator l r)) }
{
    let filter = asked.filter;
    let Some(sides) = comparison(operator, left, filter.tree.after(left)) else {
        return operator_verdict(filter, left);
    };
    let measured = filter.tree.start(sides.measured);
    let Some(called) = distance_arguments(filter.tree.bytes, measured) else {
        return other_comparison_verdict(filter, sides, left);
    };
    if left_out(asked.settings, PriceLine::Distance) {
        return Verdict::KindLeftOut;
    }
    measured_verdict(filter, sides.measured + 1, called.count, sides.bound)
}

// The node of an index, if it is an AND-leaf.
pub fn leaf_verdict(asked: Asked, i: usize) -> Option<Verdict>
    requires { AtIndex asked.filter.tree.bytes.now asked.filter.rec asked.filter.tree.nodes.now i }
    ensures { OfIndex asked.entry.filter.tree.bytes.now asked.entry.filter.rec
        asked.entry.filter.tree.nodes.now i (LeafTold (settings_of asked.entry.settings) result) }
{
    let filter = asked.filter;
    match node_at(filter.tree.bytes, filter.tree.start(i)) {
        Node::And(_) => None,
        Node::Binary(operator, _) => Some(binary_verdict(asked, operator, i + 1)),
        Node::Call(called) => Some(call_verdict(asked, called, i + 1)),
        Node::Plain(head) => Some(inside_verdict(filter, i + 1, head.children)),
    }
}
