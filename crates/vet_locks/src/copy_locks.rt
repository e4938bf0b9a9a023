//! `copylocks`: values of lock types that are copied.
ghost use Rattle.std.specs.Prelude.{◌≡◌, ◌<◌, ◌↔◌, ◌++◌, true, IfOk, IfSome, OnOk, option_map};
ghost use Rattle.type_model.specs.Tables.{IsTable, count};
ghost use Rattle.rule_words.specs.Asking.{item};
ghost use Rattle.rule_words.specs.Good.{known_of, AreFactsOf};
ghost use Rattle.rule_words.specs.Scenes.{type_in, MayBeTypeOf};
ghost use Rattle.selected_methods.specs.Selected.{declared_by};
ghost use Rattle.findings.specs.Gains.{Gains, SomeBelow};
ghost use Rattle.findings.specs.Passes.{unit_in, marks_in, IsPass};
ghost use Rattle.lock_types.specs.Locks.{IsLock};
ghost use Rattle.lock_types.specs.InTable.{lock_at, AreLocks};
ghost use Rattle.vet_locks.specs.Suspects.{count_of};
ghost use Rattle.vet_locks.specs.CopyLocks.{known_as, suspect_type, IsLockSuspect, told_of, IsToldOf, IsNthTold, IsLockCopy, AreLockCopies, AreLocksOf};

use crate::held::may_tell_any;
use crate::suspected::Suspect;
use crate::suspects::{count_of, suspect_at};
use crate::texts::text_of;
use analysis_core::{AnalyzerName, Diagnostic};
use findings::{Pass, Reports, run_over_nodes};
use go_tree::{Node, NodeRef};
use gv_base::NoMemory;
use lock_types::lock_types;
use rule_words::good::known;
use std::alloc::Global;
use type_model::{TypeId, TypeTable};
use typed_marks::{Facts, Item, Stage};
use vet_words::diagnose_at;

// ---- types

fn item_at(stage: Stage, file: u32, n: u32) -> Item
    ensures { result ≡ item stage file n }
{
    Item {
        stage,
        block: file as usize,
        node: n as usize,
    }
}

fn known_as(p: &Pass, file: u32, stage: Stage, n: u32) -> Option<Facts>
    requires { IsPass p.now }
    ensures is { option_map (known_of p.now.state.now) result ≡ known_as (marks_in p.now) file stage n }
    ensures over { IfSome result (AreFactsOf p.now.state.now) }
{
    match p.state.see(item_at(stage, file, n)) {
        Some(mark) => known(p.state, mark),
        None => None,
    }
}

pub(crate) fn suspect_type(p: &Pass, file: u32, s: Suspect) -> Option<TypeId>
    requires { IsPass p.now }
    ensures is { option_map (type_in p.now.state.now) result ≡ suspect_type (marks_in p.now) file s }
    ensures over { MayBeTypeOf p.now.state.now result }
{
    match known_as(p, file, s.stage, s.node) {
        Some(x) => Some(x.of),
        None => None,
    }
}

fn flag_at(locks: &[bool], n: u32) -> bool
    ensures { result ≡ lock_at locks.now n }
{
    match locks.get(n as usize) {
        Some(flag) => *flag,
        None => false,
    }
}

fn is_lock(p: &Pass, locks: &[bool], id: TypeId) -> bool
    requires pass { IsPass p.now }
    requires locks { AreLocks p.now.state.now.table locks.now }
    requires within { id.0 < count p.now.state.now.table }
    ensures { (result ≡ true) ↔ IsLock (declared_by (unit_in p.now) (marks_in p.now)) (type_in p.now.state.now id) }
{
    let _ = p;
    flag_at(locks, id.0)
}

fn is_lock_suspect(p: &Pass, locks: &[bool], file: u32, s: Suspect) -> bool
    requires pass { IsPass p.now }
    requires locks { AreLocks p.now.state.now.table locks.now }
    ensures { (result ≡ true) ↔ IsLockSuspect (unit_in p.now) (marks_in p.now) file s }
{
    match suspect_type(p, file, s) {
        Some(of) => is_lock(p, locks, of),
        None => false,
    }
}

// ---- what is reported

fn push_told(
    alloc: Global,
    p: &Pass,
    file: u32,
    s: Suspect,
    found: &mut Vec<Diagnostic>,
) -> Result<(), NoMemory>
    ensures { OnOk result (found.new.items ≡ found.old.items ++ told_of (unit_in p.now) file s) }
{
    let text = text_of(alloc, p, file, s.words)?;
    diagnose_at(p, file, s.node, AnalyzerName::CopyLocks, text, None, found)?;
    Ok(())
}

fn report_suspect(
    alloc: Global,
    p: &Pass,
    locks: &[bool],
    file: u32,
    s: Suspect,
    found: &mut Vec<Diagnostic>,
) -> Result<(), NoMemory>
    requires pass { IsPass p.now }
    requires locks { AreLocks p.now.state.now.table locks.now }
    ensures { OnOk result (Gains (IsToldOf (unit_in p.now) (marks_in p.now) file s) found.old.items found.new.items) }
{
    if is_lock_suspect(p, locks, file, s) {
        push_told(alloc, p, file, s, found)?;
        return Ok(());
    }
    Ok(())
}

fn report_nth(
    alloc: Global,
    p: &Pass,
    locks: &[bool],
    file: u32,
    node: &Node,
    i: usize,
    found: &mut Vec<Diagnostic>,
) -> Result<(), NoMemory>
    requires pass { IsPass p.now }
    requires locks { AreLocks p.now.state.now.table locks.now }
    ensures { OnOk result (Gains (IsNthTold (unit_in p.now) (marks_in p.now) file node.now i) found.old.items found.new.items) }
{
    match suspect_at(p, file, node, i) {
        Some(s) => {
            report_suspect(alloc, p, locks, file, s, found)?;
            Ok(())
        }
        None => Ok(()),
    }
}

fn report_copies(
    alloc: Global,
    p: &Pass,
    locks: &[bool],
    at: NodeRef,
    node: &Node,
    found: &mut Vec<Diagnostic>,
) -> Result<(), NoMemory>
    requires pass { IsPass p.now }
    requires locks { AreLocks p.now.state.now.table locks.now }
    ensures { OnOk result (Gains (IsLockCopy (unit_in p.now) (marks_in p.now) at node.now) found.old.items found.new.items) }
{
    let count = count_of(p, at.file, node);
    for i in 0..count {
        report_nth(alloc, p, locks, at.file, node, i, found)?;
    }
    Ok(())
}

/// The rule, with the flags of the types of a package's table: which are lock types.
#[derive(Drop)]
struct OverLocks<'a> {
    pass: &'a Pass<'a>,
    locks: &'a [bool],
}

impl<'a> Reports for OverLocks<'a> {
    ghost reported = { λ s. IsLockCopy };

    ghost fits = { λ s. AreLocksOf s.pass.now s.locks.now };

    fn report_at(
        &self,
        alloc: Global,
        pass: &Pass,
        at: NodeRef,
        node: &Node,
        found: &mut Vec<Diagnostic>,
    ) -> Result<(), NoMemory> {
        let _ = pass;
        report_copies(alloc, self.pass, self.locks, at, node, found)?;
        Ok(())
    }
}

/// The flags of a table. A table of 2^32 types has no room in memory.
fn locks_of(alloc: Global, t: &TypeTable) -> Result<Vec<bool>, NoMemory>
    requires { IsTable t.now }
    ensures { IfOk result (λ locks. AreLocks t.now locks.items) }
{
    if t.terms().len() >= 4294967296 {
        return Err(NoMemory);
    }
    let locks = lock_types(alloc, t)?;
    Ok(locks)
}

/// All of a package, with the lock types of its table.
fn run_over_locks(alloc: Global, p: &Pass) -> Result<Vec<Diagnostic>, NoMemory>
    requires { IsPass p.now }
    ensures { IfOk result (λ found. AreLockCopies (unit_in p.now) (marks_in p.now) found.items) }
{
    let locks = locks_of(alloc, &p.state.table)?;
    let rule = OverLocks {
        pass: p,
        locks: &locks,
    };
    let found = run_over_nodes(alloc, &rule, p)?;
    Ok(found)
}

/// Values of lock types that are copied.
#[derive(Drop)]
pub struct CopyLocks;

impl CopyLocks {
    /// All of a package.
    pub fn run(&self, alloc: Global, pass: &Pass) -> Result<Vec<Diagnostic>, NoMemory>
        requires { IsPass pass.now }
        ensures { IfOk result (λ found. AreLockCopies (unit_in pass.now) (marks_in pass.now) found.items) }
    {
        if !may_tell_any(pass) {
            return Ok(Vec::new(alloc));
        }
        let found = run_over_locks(alloc, pass)?;
        Ok(found)
    }
}
