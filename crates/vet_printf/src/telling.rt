//! What is said of a fault, at the call.
ghost use Rattle.std.specs.Prelude.{◌≡◌, ◌-◌, ◌++◌, ◌∷◌, [], slice_get, IfOk, OnOk};
ghost use Rattle.findings.specs.Passes.{unit_in};
ghost use Rattle.vet_printf.specs.Calls.{fault_node, fault_name, said};

use crate::fault::Fault;
use crate::says::fault_text;
use analysis_core::{AnalyzerName, Diagnostic};
use findings::Pass;
use go_tree::Node;
use gv_base::NoMemory;
use std::alloc::Global;
use vet_words::{diagnose, spelling};

fn nth_node(nodes: &[u32], n: u32) -> Option<u32>
    ensures { result ≡ slice_get nodes.now (n - 1) }
{
    nodes.get(n.saturating_sub(1) as usize).copied()
}

fn fault_node(nodes: &[u32], callee: u32, fault: Fault) -> Option<u32>
    ensures { result ≡ fault_node nodes.now callee fault }
{
    match fault {
        Fault::Unknown(_) => None,
        Fault::Flag(_, _) => None,
        Fault::Errorf => None,
        Fault::Reads(_, _) => None,
        Fault::Star(n) => nth_node(nodes, n),
        Fault::WrongType(_, n) => nth_node(nodes, n),
        Fault::NoVerb => None,
        Fault::BadIndex => None,
        Fault::Needs(_, _) => None,
        Fault::Possible => Some(callee),
    }
}

fn fault_name(
    alloc: Global,
    p: &Pass,
    file: u32,
    nodes: &[u32],
    callee: u32,
    fault: Fault,
) -> Result<Vec<u8>, NoMemory>
    ensures { IfOk result (λ name. name.items ≡ fault_name (unit_in p.now) file nodes.now callee fault) }
{
    match fault_node(nodes, callee, fault) {
        Some(n) => {
            let name = spelling(alloc, p, file, n)?;
            Ok(name)
        }
        None => Ok(Vec::new(alloc)),
    }
}

pub(crate) fn push_fault(
    alloc: Global,
    p: &Pass,
    file: u32,
    node: &Node,
    nodes: &[u32],
    callee: u32,
    fault: Fault,
    found: &mut Vec<Diagnostic>,
) -> Result<(), NoMemory>
    ensures { OnOk result (found.new.items ≡ found.old.items ++ said (unit_in p.now) file node.now nodes.now callee fault ∷ []) }
{
    let name = fault_name(alloc, p, file, nodes, callee, fault)?;
    let text = fault_text(alloc, &name, fault)?;
    let diagnostic = diagnose(p, file, AnalyzerName::Printf, text, None, node);
    found.push(diagnostic)?;
    Ok(())
}
