//! Initialisation cycles: which variables reach themselves by references in initial values and bodies.
ghost use Rattle.std.specs.Prelude.{◌≤◌, ◌^◌, ◌↔◌, IfOk, Contains, length};
ghost use Rattle.go_tree.specs.declared.tree.NodeRef.{NodeRef as OneNode};
ghost use Rattle.mark_walk.specs.Asks.{filled};
ghost use Rattle.package_objects.specs.Declares.{AreSmall};
ghost use Rattle.typed_marks.specs.Meanings.{Quiet};
ghost use Rattle.typed_marks.specs.States.{so_far};
ghost use Rattle.unit_read.specs.Subjects.{full_of};
ghost use Rattle.unit_read.specs.Index.{texts_of};
ghost use Rattle.body_facts.specs.Bodies.{AreBodies};
ghost use Rattle.rule_words.specs.Scenes.{IsScene};
ghost use Rattle.check_pkg.specs.Initial.{IsInitialFault};

use crate::leading::may_circle;
use crate::references::{Counted, counted_rows};
use go_tree::NodeRef;
use gv_base::NoMemory;
use selected_methods::selected_methods;
use std::alloc::Global;
use typed_marks::State;
use unit_read::Subject;
use value_circles::{body_entries, initial_circles, opened_trees};

/// What is found by way of all bodies.
fn searched_nodes(alloc: Global, u: &Subject, s: &State) -> Result<Vec<NodeRef>, NoMemory>
    requires scene { IsScene u.now s.now }
    requires small { AreSmall u.now.trees.now }
    requires few { length u.now.trees.now ≤ 2 ^ 32 }
    ensures { IfOk result (λ list. (at : OneNode) → Contains list.items at ↔ IsInitialFault (full_of u.now) (filled Quiet (so_far s.now)) at) }
{
    let methods = selected_methods(alloc, u, s)?;
    let meant = counted_rows(alloc, u, s, &methods, Counted::References)?;
    let bodies = body_entries(alloc, u.trees)?;
    let opened = opened_trees(alloc, u.trees)?;
    let list = initial_circles(alloc, &opened, &meant, &u.cyclic, bodies)?;
    Ok(list)
}

/// The names of the variables of the package block that aren't refused as declarations that need themselves, and that reach themselves by
/// references in initial values and in the bodies of functions and methods.
pub fn initial_nodes(alloc: Global, u: &Subject, s: &State) -> Result<Vec<NodeRef>, NoMemory>
    requires scene { IsScene u.now s.now }
    requires small { AreSmall u.now.trees.now }
    requires few { length u.now.trees.now ≤ 2 ^ 32 }
    requires bodies { AreBodies (texts_of u.now.texts.now) u.now.trees.now }
    ensures { IfOk result (λ list. (at : OneNode) → Contains list.items at ↔ IsInitialFault (full_of u.now) (filled Quiet (so_far s.now)) at) }
{
    let may = may_circle(alloc, u, s)?;
    if !may {
        return Ok(Vec::new(alloc));
    }
    let list = searched_nodes(alloc, u, s)?;
    Ok(list)
}
