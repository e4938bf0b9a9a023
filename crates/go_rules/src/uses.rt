//! Uses of what is declared in the package, where no type is wanted that an untyped operand could take. Most nodes are such, and their marks come of
//! those of the objects alone.
ghost use Rattle.std.specs.Prelude.{◌≡◌, true, Some};
ghost use Rattle.mark_walk.specs.Telling.{tell, Says};
ghost use Rattle.typed_tree.specs.Basics.{HasBasics};
ghost use Rattle.typed_marks.specs.Meanings.{Free};
ghost use Rattle.unit_read.specs.Subjects.{unit_of, IsRead};
ghost use Rattle.rule_words.specs.Answers.{is_plain};
ghost use Rattle.rule_words.specs.Scenes.{sight, IsScene, said, IsMarkOf};
ghost use Rattle.rule_words.specs.Steps.{step_in};
ghost use Rattle.elaborate.specs.Briefs.{step_of, IsBriefOf};
ghost use Rattle.op_rules.specs.Names.{used, object_ask};
ghost use Rattle.go_rules.specs.Uses.{declared_at, is_written, is_alone, is_plain_name, is_free, is_free_use, free_use};

use crate::role::is_name;
use elaborate::Brief;
use go_tree::{Node, NodeRef, Object};
use package_objects::part_count;
use rule_words::{is_blank, look, operand};
use type_questions::Found;
use typed_marks::{Mark, Stage, State, Want};
use unit_read::Subject;

fn object_declared_at(object: Object) -> Option<NodeRef>
    ensures { result ≡ declared_at (Some object) }
{
    match object {
        Object::Universe(_) => None,
        Object::Import(_) => None,
        Object::Local(name) => Some(name),
        Object::Package(name) => Some(name),
    }
}

/// The name at which it is declared in the package.
fn declared_at(object: Option<Object>) -> Option<NodeRef>
    ensures { result ≡ declared_at object }
{
    match object {
        Some(object) => object_declared_at(object),
        None => None,
    }
}

fn is_written(u: &Subject, at: NodeRef, node: &Node) -> bool
    ensures { result ≡ is_written (unit_of u.now) at node.now }
{
    !is_blank(u.spelled(at.file, node.first))
}

fn is_alone(u: &Subject, at: NodeRef, node: &Node) -> bool
    ensures { result ≡ is_alone (unit_of u.now) at node.now }
{
    part_count(node) == 0 && is_written(u, at, node)
}

/// A name without parts that is no blank.
fn is_plain_name(u: &Subject, at: NodeRef, node: &Node) -> bool
    ensures { result ≡ is_plain_name (unit_of u.now) at node.now }
{
    is_name(node.kind) && is_alone(u, at, node)
}

/// No type is wanted.
fn is_free(want: Want) -> bool
    ensures { result ≡ is_free want }
{
    match want {
        Want::Free => true,
        Want::Takes(_) => false,
        Want::Fits(_) => false,
        Want::Assigned(_) => false,
    }
}

fn is_free_use(u: &Subject, at: NodeRef, node: &Node, want: Want) -> bool
    ensures { result ≡ is_free_use (unit_of u.now) at node.now want }
{
    is_free(want) && is_plain_name(u, at, node)
}

/// The name at which what a node uses is declared in the package, where it is a use and no type is wanted.
pub fn free_use(u: &Subject, at: NodeRef, node: &Node, want: Want) -> Option<NodeRef>
    requires { IsRead u.now }
    ensures { result ≡ free_use (unit_of u.now) at node.now want }
{
    if is_free_use(u, at, node, want) {
        declared_at(u.object_at(at))
    } else {
        None
    }
}

/// A use of what has this mark.
#[tactic(auto, unfolding(op_rules::specs::Names::used))]
fn used(s: &State, m: Mark) -> Mark
    requires basics { HasBasics s.now.table }
    requires mark { IsMarkOf s.now m }
    ensures is { Says (said s.now result) ≡ tell (sight s.now) (used Free (said s.now m)) }
    ensures over { IsMarkOf s.now result }
    ensures plain { is_plain result ≡ true }
{
    match m {
        Mark::Good(x) => operand(s, x.mode, x.of, x.value, Want::Free),
        Mark::Bad(_) => Mark::Silent,
        Mark::Outside(_) => Mark::Silent,
        Mark::Silent => Mark::Silent,
        Mark::Wants(_, _) => Mark::Silent,
        Mark::Declared(_) => Mark::Silent,
    }
}

/// A use of what is declared at a name.
pub fn judge_use(u: &Subject, s: &State, name: NodeRef) -> Brief
    requires { IsScene u.now s.now }
    ensures is { step_in s.now (step_of result) ≡ tell (sight s.now) (object_ask (unit_of u.now) name Free) }
    ensures over { IsBriefOf s.now result }
{
    match look(u, s, Stage::Object, name.file as usize, name.node) {
        Found::Is(m) => Brief::Mark(used(s, m)),
        Found::Wait(item) => Brief::Waits(item),
    }
}
