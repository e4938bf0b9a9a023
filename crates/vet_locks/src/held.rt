//! Whether a value that may be copied is of a type that may be a lock type. Where none is, which types are lock types isn't asked.
ghost use Rattle.std.specs.Prelude.{◌≡◌, ◌<◌, ◌↔◌, true};
ghost use Rattle.type_model.specs.Tables.{count};
ghost use Rattle.rule_words.specs.Scenes.{type_in};
ghost use Rattle.selected_methods.specs.Selected.{declared_by};
ghost use Rattle.findings.specs.Passes.{unit_in, marks_in, IsPass};
ghost use Rattle.lock_types.specs.InTable.{holds_type};
ghost use Rattle.vet_locks.specs.Held.{MayLock, MayTellNth, MayTellAt, MayTellIn, MayTell};

use crate::copy_locks::suspect_type;
use crate::suspected::Suspect;
use crate::suspects::{count_of, suspect_at};
use findings::Pass;
use go_tree::Node;
use lock_types::may_be_lock;
use type_model::TypeId;

fn may_lock(p: &Pass, id: TypeId) -> bool
    requires pass { IsPass p.now }
    requires within { id.0 < count p.now.state.now.table }
    ensures { result ≡ holds_type (declared_by (unit_in p.now) (marks_in p.now)) (type_in p.now.state.now id) }
{
    may_be_lock(&p.state.table, id)
}

fn may_lock_suspect(p: &Pass, file: u32, s: Suspect) -> bool
    requires { IsPass p.now }
    ensures { (result ≡ true) ↔ MayLock (unit_in p.now) (marks_in p.now) file s }
{
    match suspect_type(p, file, s) {
        Some(of) => may_lock(p, of),
        None => false,
    }
}

fn may_tell_nth(p: &Pass, file: u32, node: &Node, i: usize) -> bool
    requires { IsPass p.now }
    ensures { (result ≡ true) ↔ MayTellNth (unit_in p.now) (marks_in p.now) file node.now i }
{
    match suspect_at(p, file, node, i) {
        Some(s) => may_lock_suspect(p, file, s),
        None => false,
    }
}

fn may_tell(p: &Pass, file: u32, node: &Node) -> bool
    requires { IsPass p.now }
    ensures { (result ≡ true) ↔ MayTellAt (unit_in p.now) (marks_in p.now) file node.now }
{
    let count = count_of(p, file, node);
    for i in 0..count {
        if may_tell_nth(p, file, node, i) {
            return true;
        }
    }
    false
}

fn may_tell_in(p: &Pass, file: u32) -> bool
    requires { IsPass p.now }
    ensures { (result ≡ true) ↔ MayTellIn (unit_in p.now) (marks_in p.now) file }
{
    let nodes = p.subject.nodes_at(file);
    for n in 0..nodes.len() {
        if may_tell(p, file, &nodes[n]) {
            return true;
        }
    }
    false
}

/// Whether something may be reported of a package.
pub(crate) fn may_tell_any(p: &Pass) -> bool
    requires { IsPass p.now }
    ensures { (result ≡ true) ↔ MayTell (unit_in p.now) (marks_in p.now) }
{
    for file in 0..p.subject.trees.len() {
        if may_tell_in(p, file as u32) {
            return true;
        }
    }
    false
}
