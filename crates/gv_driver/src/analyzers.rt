//! The analyzers that run over a package.
ghost use Rattle.std.specs.Prelude.{◌≡◌, ◌+◌, ◌<◌, ◌++◌, suc, IfOk, OnOk};
ghost use Rattle.action_graph.specs.Work.{has_runs, is_there};
ghost use Rattle.gv_driver.specs.Analyzers.{analyzers_of, is_chosen, is_due, is_run, one_run};

use crate::facts::gives_facts;
use analysis_core::AnalyzerName;
use gv_base::NoMemory;
use std::alloc::Global;

fn is_one_of_ours(name: AnalyzerName) -> bool
    ensures { result ≡ is_there name }
{
    match name {
        AnalyzerName::Assign => true,
        AnalyzerName::Bools => true,
        AnalyzerName::CopyLocks => true,
        AnalyzerName::CtrlFlow => true,
        AnalyzerName::NilFunc => true,
        AnalyzerName::Printf => true,
        AnalyzerName::StringIntConv => true,
        AnalyzerName::StructTag => true,
        AnalyzerName::Unreachable => true,
        AnalyzerName::UnusedResult => true,
    }
}

/// Whether the analyzer of this number is there.
#[tactic(auto, unfolding(action_graph::specs::Work::has_runs))]
fn is_kept(analyzer: u8) -> bool
    ensures { result ≡ has_runs analyzer }
{
    match AnalyzerName::of_number(analyzer) {
        None => false,
        Some(name) => is_one_of_ours(name),
    }
}

fn is_set(only: u16, analyzer: u8) -> bool
    requires { analyzer < 16 }
    ensures { result ≡ is_chosen only analyzer }
{
    (only >> analyzer as u16) % 2 == 1
}

fn is_due_over(stub: bool, analyzer: u8) -> bool
    ensures { result ≡ is_due stub analyzer }
{
    if stub { gives_facts(analyzer) } else { true }
}

fn runs_over(only: u16, stub: bool, analyzer: u8) -> bool
    requires { analyzer < 16 }
    ensures { result ≡ is_run only stub analyzer }
{
    is_set(only, analyzer) && is_due_over(stub, analyzer) && is_kept(analyzer)
}

fn add(list: &mut Vec<u8>, runs: bool, analyzer: u8) -> Result<(), NoMemory>
    ensures { OnOk result (list.new.items ≡ list.old.items ++ one_run runs analyzer) }
{
    if runs {
        list.push(analyzer)?;
    }
    Ok(())
}

/// The numbers of the analyzers that run over a package, a stub or not, in order.
#[tactic(auto, unfolding(crate::specs::Analyzers::analyzers_of))]
pub(crate) fn analyzers(alloc: Global, only: u16, stub: bool) -> Result<Vec<u8>, NoMemory>
    ensures { IfOk result (λ v. v.items ≡ analyzers_of only stub) }
{
    let mut list = Vec::new(alloc);
    for before in 0..15u8 {
        let analyzer = before + 1;
        add(&mut list, runs_over(only, stub, analyzer), analyzer)?;
    }
    Ok(list)
}
