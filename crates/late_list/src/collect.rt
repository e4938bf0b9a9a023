//! All that the late rules find.
ghost use Rattle.std.specs.Prelude.{◌≡◌, ℕ, List, ◌<◌, IfOk, OnOk, length, Contains};
ghost use Rattle.late_list.specs.Gains.{Gains};
ghost use Rattle.late_list.specs.Late.{IsFoundBy, IsFoundAt, IsFoundIn, IsLate, AreFound, AreRight};
ghost use Rattle.late_list.specs.Collected.{SomeOf};
ghost use Rattle.late_list.specs.declared.late.LateFault.{LateFault};

use crate::late::{Finds, LateFault, LateRule, RULES};
use gv_base::NoMemory;
use std::alloc::Global;

/// Adds what one rule finds at a node.
fn try_rule<V: Finds>(
    view: &V,
    n: usize,
    rule: LateRule,
    list: &mut Vec<LateFault>,
) -> Result<(), NoMemory>
    requires { V.IsState view.now }
    ensures { OnOk result (Gains (IsFoundBy V.IsFault view.now n rule) list.old.items list.new.items) }
{
    if let Some(place) = view.find(rule, n) {
        list.push(LateFault { place, rule })?;
    }
    Ok(())
}

/// Adds what some rules find at a node.
fn try_rules<V: Finds>(
    view: &V,
    n: usize,
    rules: &[LateRule],
    list: &mut Vec<LateFault>,
) -> Result<(), NoMemory>
    requires { V.IsState view.now }
    ensures { OnOk result (Gains (SomeOf rules.now (IsFoundBy V.IsFault view.now n)) list.old.items list.new.items) }
{
    for rule in rules {
        try_rule(view, n, *rule, list)?;
    }
    Ok(())
}

/// Adds what all rules find at a node, if any may.
fn find_at<V: Finds>(view: &V, n: usize, list: &mut Vec<LateFault>) -> Result<(), NoMemory>
    requires { V.IsState view.now }
    ensures { OnOk result (Gains (IsFoundAt V.IsFault view.now n) list.old.items list.new.items) }
{
    if !view.is_asked(n) {
        return Ok(());
    }
    try_rules(view, n, &RULES, list)?;
    Ok(())
}

/// Adds what all rules find in a file.
fn find_in<V: Finds>(view: &V, list: &mut Vec<LateFault>) -> Result<(), NoMemory>
    requires { V.IsState view.now }
    ensures { OnOk result (Gains (IsFoundIn V.IsFault V.count view.now) list.old.items list.new.items) }
{
    for n in 0..view.count() {
        find_at(view, n, list)?;
    }
    Ok(())
}

/// Adds what all rules find in the files of a package.
pub fn find_all<V: Finds>(views: &[V], list: &mut Vec<LateFault>) -> Result<(), NoMemory>
    requires { AreRight V.IsState views.now }
    ensures { OnOk result (Gains (IsLate V.IsFault V.count views.now) list.old.items list.new.items) }
{
    for view in views {
        find_in(view, list)?;
    }
    Ok(())
}

/// All that the late rules find in the files of a package: by file, node and rule.
pub fn find_late<V: Finds>(alloc: Global, views: &[V]) -> Result<Vec<LateFault>, NoMemory>
    requires { AreRight V.IsState views.now }
    ensures { IfOk result (λ list. AreFound (IsLate V.IsFault V.count views.now) list.items) }
{
    let mut list = Vec::new(alloc);
    find_all(views, &mut list)?;
    Ok(list)
}
