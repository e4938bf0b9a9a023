//! What is known of a call's arguments.
ghost use Rattle.std.specs.Prelude.{◌≡◌, ◌<◌, Some, length, slice_get, IfOk};
ghost use Rattle.findings.specs.Passes.{unit_in, marks_in, IsPass};
ghost use Rattle.vet_printf.specs.Tables.{AreJudged};
ghost use Rattle.vet_printf.specs.Calls.{any_argument, IsArgumentAt, IsNthArgument, AreArguments};

use crate::fault::{Argument, Classes};
use crate::kept::kept_argument;
use findings::Pass;
use gv_base::NoMemory;
use std::alloc::Global;
use vet_words::known_at;

fn any_argument() -> Argument
    ensures { result ≡ any_argument }
{
    Argument {
        integer: true,
        error: true,
        classes: Classes {
            boolean: true,
            integer: true,
            integer_pointer: true,
            integer_text_pointer: true,
            integer_text: true,
            text: true,
            reference: true,
            nothing: true,
        },
    }
}

/// What is known of the argument at a node.
fn told_argument(
    alloc: Global,
    p: &Pass,
    cells: &[Option<Argument>],
    file: u32,
    n: u32,
) -> Result<Argument, NoMemory>
    requires pass { IsPass p.now }
    requires cells { AreJudged p.now.state.now.table cells.now }
    ensures { IfOk result (IsArgumentAt (unit_in p.now) (marks_in p.now) file n) }
{
    match known_at(p, file, n) {
        Some(x) => {
            let argument = kept_argument(alloc, &p.state.table, cells, x.last)?;
            Ok(argument)
        }
        None => Ok(any_argument()),
    }
}

fn node_nth(nodes: &[u32], i: usize) -> u32
    requires { i < length nodes.now }
    ensures { slice_get nodes.now i ≡ Some result }
{
    nodes[i]
}

fn nth_argument(
    alloc: Global,
    p: &Pass,
    cells: &[Option<Argument>],
    file: u32,
    nodes: &[u32],
    i: usize,
) -> Result<Argument, NoMemory>
    requires pass { IsPass p.now }
    requires cells { AreJudged p.now.state.now.table cells.now }
    requires within { i < length nodes.now }
    ensures { IfOk result (IsNthArgument (unit_in p.now) (marks_in p.now) file nodes.now i) }
{
    let n = node_nth(nodes, i);
    let argument = told_argument(alloc, p, cells, file, n)?;
    Ok(argument)
}

/// What is known of the arguments at these nodes.
pub(crate) fn all_arguments(
    alloc: Global,
    p: &Pass,
    cells: &[Option<Argument>],
    file: u32,
    nodes: &[u32],
) -> Result<Vec<Argument>, NoMemory>
    requires pass { IsPass p.now }
    requires cells { AreJudged p.now.state.now.table cells.now }
    ensures { IfOk result (λ list. AreArguments (unit_in p.now) (marks_in p.now) file nodes.now list.items) }
{
    let mut list = Vec::new(alloc);
    for i in 0..nodes.len() {
        let one = nth_argument(alloc, p, cells, file, nodes, i)?;
        list.push(one)?;
    }
    Ok(list)
}
