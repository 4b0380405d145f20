// Where expressions end. That one stands at a place is a clause of each function that walks: the fact holds the expression, and a ghost
// field holds propositions alone.
ghost use Rattle.std.specs.Prelude.{◌≡◌, ◌+◌, length};
ghost use Rattle.definitions.specs.Bytes.Encode.{expr_bytes, exprs_bytes};
ghost use Rattle.expression.specs.Nodes.{Tree, OfTree, Trees, OfTrees};

use super::heads::head_at;

// Where n expressions in a row end. Their nodes stand one after another: a step passes one, and then its children are the first that are
// left.
pub fn end_children(s: &[u8], at: usize, n: usize) -> usize
    requires { Trees s.now at n }
    ensures { OfTrees s.now at n (λ ts. result ≡ at + length (exprs_bytes ts)) }
{
    let mut next = at;
    let mut left = n;
    while 0 < left {
        let head = head_at(s, next);
        next = head.next;
        left = left - 1 + head.children;
    }
    next
}

// Where the expression at a place ends.
pub fn end_node(s: &[u8], at: usize) -> usize
    requires { Tree s.now at }
    ensures { OfTree s.now at (λ t. result ≡ at + length (expr_bytes t)) }
{
    end_children(s, at, 1)
}
