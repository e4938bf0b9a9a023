//! What types hold.
ghost use Rattle.std.specs.Prelude.{◌≡◌, ◌<◌, ◌+◌, ◌^◌, ◌++◌, IfOk, OnOk};
ghost use Rattle.type_model.specs.Tables.{IsTable, count};
ghost use Rattle.lock_types.specs.InTable.{field_ids, ids_of, AreParts, ArePartsTo};

use gv_base::NoMemory;
use need_order::Graph;
use std::alloc::Global;
use type_model::{Field, Term, TypeId, TypeTable};

fn push_fields(fields: &[Field], ids: &mut Vec<u32>) -> Result<(), NoMemory>
    ensures { OnOk result (ids.new.items ≡ ids.old.items ++ field_ids fields.now) }
{
    for field in fields {
        ids.push(field.of.0)?;
    }
    Ok(())
}

/// The numbers of what a type without a name holds.
fn push_ids(term: &Term, ids: &mut Vec<u32>) -> Result<(), NoMemory>
    ensures { OnOk result (ids.new.items ≡ ids.old.items ++ ids_of term.now) }
{
    match term {
        Term::Array(_, of) => {
            ids.push(of.0)?;
            Ok(())
        }
        Term::Struct(fields) => {
            push_fields(fields.as_slice(), ids)?;
            Ok(())
        }
        Term::Basic(_) => Ok(()),
        Term::Defined(_) => Ok(()),
        Term::Pointer(_) => Ok(()),
        Term::Slice(_) => Ok(()),
        Term::Map(_, _) => Ok(()),
        Term::Chan(_, _) => Ok(()),
        Term::Func(_) => Ok(()),
        Term::Interface(_) => Ok(()),
    }
}

/// The numbers of the types that a type holds.
pub fn parts_of(alloc: Global, t: &TypeTable, id: TypeId) -> Result<Vec<u32>, NoMemory>
    requires table { IsTable t.now }
    requires within { id.0 < count t.now }
    ensures { IfOk result (λ ids. AreParts t.now id.0 ids.items) }
{
    let mut ids = Vec::new(alloc);
    match t.underlying(id) {
        Some(u) => {
            push_ids(t.term(u), &mut ids)?;
            Ok(ids)
        }
        None => Ok(ids),
    }
}

pub fn count_types(t: &TypeTable) -> usize
    ensures { result ≡ count t.now }
{
    t.terms().len()
}

/// With what one type more holds.
fn with_row(alloc: Global, t: &TypeTable, graph: Graph, n: u32) -> Result<Graph, NoMemory>
    requires table { IsTable t.now }
    requires within { n < count t.now }
    requires so_far { ArePartsTo t.now n graph }
    ensures { IfOk result (λ more. ArePartsTo t.now (n + 1) more) }
{
    let row = parts_of(alloc, t, TypeId(n))?;
    let more = graph.with(&row)?;
    Ok(more)
}

/// What each type of the table holds.
pub fn part_graph(alloc: Global, t: &TypeTable) -> Result<Graph, NoMemory>
    requires table { IsTable t.now }
    requires few { count t.now < 2 ^ 32 }
    ensures { IfOk result (λ graph. ArePartsTo t.now (count t.now) graph) }
{
    let mut graph = Graph::new(alloc)?;
    for n in 0..count_types(t) {
        graph = with_row(alloc, t, graph, n as u32)?;
    }
    Ok(graph)
}
