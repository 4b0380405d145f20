// What the walks over AND-leaves tell apart.
ghost use Rattle.std.specs.Prelude.{◌≡◌};
ghost use Rattle.expression.specs.Places.{part};
ghost use Rattle.expression.specs.Nodes.{Tree, OfTreeIn};
ghost use Rattle.expression.specs.Leaves.{Calls, NodeIs};

use super::heads::{Head, head_at};
use super::kinds;

// A function: its name stands from `name` up to `end`, its arguments in a row from `first` on.
#[derive(Clone, Copy)]
pub struct Called {
    pub name: usize,
    pub end: usize,
    pub first: usize,
    pub count: usize,
}

impl Called {
    // Its name.
    #[inline(always)]
    pub fn name<'a>(self, s: &'a [u8]) -> &'a [u8]
        requires { Calls s.now self }
        ensures { result.now ≡ part s.now self.name self.end }
    {
        &s[self.name..self.end]
    }
}

// And and the other operators with the place of their left child, a function, or any other node with its head. An operator is a byte up to
// 63, and document 01 names only those that it reads.
#[derive(Clone, Copy)]
pub enum Node {
    And(usize),
    Binary(u8, usize),
    Call(Called),
    Plain(Head),
}

// What the node at a place is.
pub fn node_at(s: &[u8], at: usize) -> Node
    requires { Tree s.now at }
    ensures { OfTreeIn s.now at (λ c t. NodeIs c s.now at result t) }
{
    let head = head_at(s, at);
    let first = head.next;
    let count = head.children;
    match s[at] {
        kinds::BINARY => match s[at + 1] {
            0 => Node::And(first),
            operator => Node::Binary(operator, first),
        },
        kinds::CALL => Node::Call(Called {
            name: at + 2,
            end: first - 1,
            first,
            count,
        }),
        _ => Node::Plain(head),
    }
}
