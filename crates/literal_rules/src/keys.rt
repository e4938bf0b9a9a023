//! Names before colons.
ghost use Rattle.std.specs.Prelude.{◌≡◌};
ghost use Rattle.mark_walk.specs.Telling.{tell};
ghost use Rattle.unit_read.specs.Subjects.{unit_of};
ghost use Rattle.rule_words.specs.Scenes.{sight, IsScene, told_by};
ghost use Rattle.literal_rules.specs.Keys.{role_in, role_told, role_around, pair_role, key_role};
ghost use Rattle.literal_rules.specs.InCode.{shape_in, may_be_literal};

use crate::braces::braces;
use crate::shape::{Literal, Shape};
use go_tree::NodeRef;
use type_questions::Found;
use typed_marks::{Item, State};
use unit_read::{Place, Subject};

/// What a bare name before a colon is.
#[derive(Clone, Copy, Debug, PartialEq, Eq, Drop)]
pub enum KeyRole {
    /// The name of a field.
    Field,
    /// A use of what it denotes.
    Use,
    /// The type of the literal isn't known.
    Unknown,
}

fn role_in(s: &State, shape: Shape) -> KeyRole
    ensures { result ≡ role_in (shape_in s.now shape) }
{
    let _ = s;
    match shape {
        Shape::Fields(_) => KeyRole::Field,
        Shape::Row(_, _) => KeyRole::Use,
        Shape::Table(_, _) => KeyRole::Use,
        Shape::Other => KeyRole::Unknown,
    }
}

fn role_told(s: &State, l: Option<Literal>) -> Found<KeyRole, Item>
    ensures { told_by (λ role. role) result ≡ tell (sight s.now) (role_told (may_be_literal s.now l)) }
{
    match l {
        Some(l) => Found::Is(role_in(s, l.shape)),
        None => Found::Is(KeyRole::Unknown),
    }
}

#[tactic(auto, using(rule_words::proofs::BindLaws::says_bind, rule_words::proofs::BindLaws::waits_bind))]
fn role_around(
    u: &Subject,
    s: &State,
    block: usize,
    file: u32,
    outer: Place,
) -> Found<KeyRole, Item>
    requires { IsScene u.now s.now }
    ensures { told_by (λ role. role) result ≡ tell (sight s.now) (role_around (unit_of u.now) block file outer) }
{
    let at = NodeRef {
        file,
        node: outer.around,
    };
    match braces(u, s, block, at) {
        Found::Is(l) => role_told(s, l),
        Found::Wait(item) => Found::Wait(item),
    }
}

fn pair_role(u: &Subject, s: &State, block: usize, file: u32, p: Place) -> Found<KeyRole, Item>
    requires { IsScene u.now s.now }
    ensures { told_by (λ role. role) result ≡ tell (sight s.now) (pair_role (unit_of u.now) block file p) }
{
    let pair = NodeRef {
        file,
        node: p.around,
    };
    match u.place_at(pair) {
        Some(outer) => role_around(u, s, block, file, outer),
        None => Found::Is(KeyRole::Unknown),
    }
}

/// What a bare name before a colon is, or the item for whose mark that waits.
pub fn key_role(u: &Subject, s: &State, block: usize, at: NodeRef) -> Found<KeyRole, Item>
    requires { IsScene u.now s.now }
    ensures { told_by (λ role. role) result ≡ tell (sight s.now) (key_role (unit_of u.now) block at) }
{
    match u.place_at(at) {
        Some(p) => pair_role(u, s, block, at.file, p),
        None => Found::Is(KeyRole::Unknown),
    }
}
