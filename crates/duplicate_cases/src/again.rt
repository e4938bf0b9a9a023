//! What stands twice in a list, by what is noted of each.
ghost use Rattle.std.specs.Prelude.{◌≡◌, ◌++◌, ◌∷◌, ◌<◌, ◌≤◌, Some, [], length, IfOk, OnOk, IfSome, option_map, slice_get};
ghost use Rattle.mark_walk.specs.Asks.{filled};
ghost use Rattle.object_order.specs.Spots.{place};
ghost use Rattle.package_objects.specs.Declares.{gather};
ghost use Rattle.typed_marks.specs.Meanings.{Quiet};
ghost use Rattle.typed_marks.specs.States.{so_far, IsState};
ghost use Rattle.typed_marks.specs.declared.item.Stage.TheVariants as st;
ghost use Rattle.rule_words.specs.Asking.{item};
ghost use Rattle.rule_words.specs.Scenes.{said, IsMarkOf};
ghost use Rattle.duplicate_cases.specs.Duplicates.{placed_in};
ghost use Rattle.duplicate_cases.specs.InCode.{spelled_at, AreSeen, if_so, again_at, duplicates_of};

use crate::keys::spelled_at;
use go_tree::NodeRef;
use gv_base::NoMemory;
use rule_words::met::meet;
use std::alloc::Global;
use std::collections::HashMap;
use typed_marks::{Item, Mark, Stage, State};

// ---- what was noted

// ---- the marks of a list

fn placed_mark(s: &State, file: u32, n: u32) -> Option<Mark>
    requires { IsState s.now }
    ensures is { option_map (said s.now) result ≡ so_far s.now (item st.Placed file n) }
    ensures over { IfSome result (IsMarkOf s.now) }
{
    s.see(Item {
        stage: Stage::Placed,
        block: file as usize,
        node: n as usize,
    })
}

fn marks_of(
    alloc: Global,
    s: &State,
    file: u32,
    list: &[u32],
) -> Result<Vec<Option<Mark>>, NoMemory>
    requires { IsState s.now }
    ensures { IfOk result (λ marks. AreSeen s.now file list.now (length list.now) marks.items) }
{
    let mut marks = Vec::new(alloc);
    for n in list {
        let mark = placed_mark(s, file, *n);
        marks.push(mark)?;
    }
    Ok(marks)
}

// ---- what stands twice

fn item_at(list: &[u32], i: usize) -> u32
    requires { i < length list.now }
    ensures { slice_get list.now i ≡ Some result }
{
    list[i]
}

fn push_if(test: bool, at: NodeRef, out: &mut Vec<NodeRef>) -> Result<(), NoMemory>
    ensures { OnOk result (out.new.items ≡ out.old.items ++ if_so test at) }
{
    if test {
        out.push(at)?;
    }
    Ok(())
}

/// Adds those that are spelled as an earlier one. The time is in step with the list.
fn add_again(
    alloc: Global,
    s: &State,
    of_types: bool,
    file: u32,
    list: &[u32],
    marks: &[Option<Mark>],
    out: &mut Vec<NodeRef>,
) -> Result<(), NoMemory>
    ensures { OnOk result (out.new.items ≡ out.old.items ++ gather (again_at (spelled_at s.now of_types marks.now) file list.now) (length list.now)) }
{
    let mut met = HashMap::new(alloc);
    for i in 0..list.len() {
        let key = spelled_at(alloc, s, of_types, marks, i)?;
        let again = meet(&mut met, key)?;
        let at = NodeRef {
            file,
            node: item_at(list, i),
        };
        push_if(again, at, out)?;
    }
    Ok(())
}

/// Adds what stands twice in a list of values or types of clauses.
pub(crate) fn add_duplicates(
    alloc: Global,
    s: &State,
    of_types: bool,
    file: u32,
    list: &[u32],
    out: &mut Vec<NodeRef>,
) -> Result<(), NoMemory>
    requires { IsState s.now }
    ensures { OnOk result (out.new.items ≡ out.old.items ++ duplicates_of of_types (placed_in (filled Quiet (so_far s.now)) file) file list.now) }
{
    let marks = marks_of(alloc, s, file, list)?;
    add_again(alloc, s, of_types, file, list, &marks, out)?;
    Ok(())
}
