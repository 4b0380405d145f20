// A node's head: the bytes before its children.
ghost use Rattle.expression.specs.Nodes.{Tree, OfTree};
ghost use Rattle.expression.specs.Heads.{HeadIs};

use super::kinds;

// Where a node's children begin, and how many there are.
#[derive(Clone, Copy)]
pub struct Head {
    pub next: usize,
    pub children: usize,
}

// The head of the node at a place.
pub fn head_at(s: &[u8], at: usize) -> Head
    requires { Tree s.now at }
    ensures { OfTree s.now at (HeadIs at result) }
{
    match s[at] {
        kinds::COLUMN => Head {
            next: at + 5,
            children: 0,
        },
        kinds::LITERAL => Head {
            next: at + 10,
            children: 0,
        },
        kinds::BINARY => Head {
            next: at + 2,
            children: 2,
        },
        kinds::CALL => {
            let name = s[at + 1] as usize;
            let count = at + name + 2;
            Head {
                next: count + 1,
                children: s[count] as usize,
            }
        }
        kinds::OTHER => Head {
            next: at + 4,
            children: s[at + 3] as usize,
        },
        _ => Head {
            next: at + 4,
            children: 0,
        },
    }
}
