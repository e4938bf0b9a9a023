//! Calls by number: of functions of the package, and of functions of other packages that never return.
ghost use Rattle.std.specs.Prelude.{◌≡◌, ◌<◌, ◌≤◌, ◌^◌, IfOk, IfSome, Some};
ghost use Rattle.never_returns.specs.Admits.{Named};
ghost use Rattle.never_returns.specs.Bodies.{numbered, call_of};
ghost use Rattle.findings.specs.Passes.{unit_in, marks_in, IsPass};
ghost use Rattle.own_functions.specs.Functions.{is_own, number};
ghost use Rattle.vet_never.specs.InCode.{member_in, callee_in, IsCallAt, AreCallsOf};
ghost use Rattle.vet_never.specs.Knowing.{handed_in, IsKnown};

use crate::callees::told_of;
use crate::told::Told;
use fact_codec::Never;
use findings::Pass;
use flow::Call;
use gv_base::NoMemory;
use handed_facts::Handed;
use member_names::Named as Name;
use std::alloc::Global;
use std::collections::HashMap;
use unit_read::find;

/// What is known of functions by name: those of other packages that never return, and the numbers of the package's own.
#[derive(Drop)]
pub(crate) struct Known<'k, 'a> {
    pub handed: &'k Handed<'a, Never>,
    pub numbers: &'k HashMap<&'a [u8], usize>,
}

fn is_own(p: &Pass, m: &Name) -> bool
    ensures { result ≡ is_own 0 (unit_in p.now) (member_in m.now) }
{
    m.path.as_str().as_bytes() == p.subject.path
}

fn as_call(number: usize) -> Call
    requires { number < 2 ^ 32 }
    ensures { result ≡ numbered (Some number) }
{
    Call::Function(number as u32)
}

fn own_number(p: &Pass, known: &Known<'_, '_>, m: &Name) -> Option<usize>
    requires { IsKnown (unit_in p.now) known.now }
    ensures is { result ≡ number 0 (unit_in p.now) (member_in m.now) }
    ensures below { IfSome result (λ i. i < 2 ^ 32) }
{
    if is_own(p, m) {
        find(known.numbers, m.name.as_str().as_bytes())
    } else {
        None
    }
}

fn own_call(p: &Pass, known: &Known<'_, '_>, m: &Name) -> Call
    requires { IsKnown (unit_in p.now) known.now }
    ensures { result ≡ numbered (number 0 (unit_in p.now) (member_in m.now)) }
{
    match own_number(p, known, m) {
        Some(number) => as_call(number),
        None => Call::Passes,
    }
}

fn is_handed(p: &Pass, known: &Known<'_, '_>, m: &Name) -> bool
    requires { IsKnown (unit_in p.now) known.now }
    ensures { result ≡ handed_in known.now (member_in m.now) }
{
    let _ = p;
    let path = m.path.as_str().as_bytes();
    known.handed.has(path, m.name.as_str())
}

fn named_call(p: &Pass, known: &Known<'_, '_>, m: &Name) -> Call
    requires { IsKnown (unit_in p.now) known.now }
    ensures { result ≡ call_of (handed_in known.now) (number 0 (unit_in p.now)) (Named (member_in m.now)) }
{
    if is_handed(p, known, m) {
        return Call::Stops;
    }
    own_call(p, known, m)
}

/// A call by number.
fn call(p: &Pass, known: &Known<'_, '_>, told: &Told) -> Call
    requires { IsKnown (unit_in p.now) known.now }
    ensures { result ≡ call_of (handed_in known.now) (number 0 (unit_in p.now)) (callee_in told.now) }
{
    match told {
        Told::Other => Call::Passes,
        Told::Panic => Call::Stops,
        Told::Named(m) => named_call(p, known, m),
    }
}

/// What a node calls, by number.
fn call_at(
    alloc: Global,
    p: &Pass,
    known: &Known<'_, '_>,
    file: u32,
    n: u32,
) -> Result<Call, NoMemory>
    requires pass { IsPass p.now }
    requires known { IsKnown (unit_in p.now) known.now }
    ensures { IfOk result (IsCallAt (unit_in p.now) (marks_in p.now) (handed_in known.now) file n) }
{
    let told = told_of(alloc, p, file, n)?;
    Ok(call(p, known, &told))
}

/// What the nodes of a file call, by number.
pub(crate) fn call_row(
    alloc: Global,
    p: &Pass,
    known: &Known<'_, '_>,
    file: u32,
    count: usize,
) -> Result<Vec<Call>, NoMemory>
    requires pass { IsPass p.now }
    requires known { IsKnown (unit_in p.now) known.now }
    requires small { count ≤ 2 ^ 32 }
    ensures { IfOk result (λ calls. AreCallsOf (unit_in p.now) (marks_in p.now) (handed_in known.now) file count calls.items) }
{
    let mut calls = Vec::with_capacity(alloc, count)?;
    for n in 0..count {
        let one = call_at(alloc, p, known, file, n as u32)?;
        calls.push(one)?;
    }
    Ok(calls)
}
