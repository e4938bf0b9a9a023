//! The numbers of a node's parts. A few stand in the node itself.
ghost use Rattle.std.specs.Prelude.{◌≡◌, ◌<◌, ◌↔◌, None, IfSome, length};
ghost use Rattle.go_tree.specs.Parts.{listed};

use std::marker::Model;

/// Numbers: up to six in place, and a list of more.
enum Listed {
    Nothing,
    One([u32; 1]),
    Two([u32; 2]),
    Three([u32; 3]),
    Four([u32; 4]),
    Five([u32; 5]),
    Six([u32; 6]),
    Many(Vec<u32>),
}

/// As a function of its own, so that a caller's proof has no branch where a node goes.
impl Drop for Listed {
    fn drop(self) {
        match self {
            Listed::Nothing => {}
            Listed::One(_)
            | Listed::Two(_)
            | Listed::Three(_)
            | Listed::Four(_)
            | Listed::Five(_)
            | Listed::Six(_) => {}
            Listed::Many(items) => drop(items),
        }
    }
}

/// The numbers of a node's parts from left to right.
#[derive(Drop)]
pub struct Parts {
    list: Listed,
}

impl Model for Parts {
    ghost use Rattle.std.specs.Prelude.{List, ℕ};
    ghost use Rattle.go_tree.specs.Parts.{listed};

    ghost Value = { List ℕ };

    ghost view = { λ p. listed p.list };
}

fn few(items: &[u32]) -> Option<Listed>
    ensures list { IfSome result (λ list. listed list ≡ items.now) }
    ensures none { (result ≡ None) ↔ (6 < length items.now) }
{
    match items {
        [] => Some(Listed::Nothing),
        [a] => Some(Listed::One([*a])),
        [a, b] => Some(Listed::Two([*a, *b])),
        [a, b, c] => Some(Listed::Three([*a, *b, *c])),
        [a, b, c, d] => Some(Listed::Four([*a, *b, *c, *d])),
        [a, b, c, d, e] => Some(Listed::Five([*a, *b, *c, *d, *e])),
        [a, b, c, d, e, f] => Some(Listed::Six([*a, *b, *c, *d, *e, *f])),
        _ => None,
    }
}

fn items_in(list: &Listed) -> &[u32]
    ensures { result.now ≡ listed list.now }
{
    match list {
        Listed::Nothing => &[],
        Listed::One(items) => items,
        Listed::Two(items) => items,
        Listed::Three(items) => items,
        Listed::Four(items) => items,
        Listed::Five(items) => items,
        Listed::Six(items) => items,
        Listed::Many(items) => items.as_slice(),
    }
}

impl Parts {
    /// These numbers.
    pub fn new(items: Vec<u32>) -> Self
        ensures { result ≡ items.items }
    {
        Parts {
            list: Listed::Many(items),
        }
    }

    /// These numbers, where they are so few that they need no list: six at most.
    pub fn few(items: &[u32]) -> Option<Parts>
        ensures parts { IfSome result (λ parts. parts ≡ items.now) }
        ensures none { (result ≡ None) ↔ (6 < length items.now) }
    {
        match few(items) {
            Some(list) => Some(Parts { list }),
            None => None,
        }
    }

    /// All of them.
    pub fn as_slice(&self) -> &[u32]
        ensures { result.now ≡ self.now }
    {
        items_in(&self.list)
    }
}
