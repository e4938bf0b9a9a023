//! What the places of values in a return statement want.
ghost use Rattle.std.specs.Prelude.{◌≡◌, option_map, slice_get};
ghost use Rattle.mark_walk.specs.Telling.{tell};
ghost use Rattle.type_model.specs.GoTypes.{AreBelow};
ghost use Rattle.type_model.specs.Tables.{count as type_count};
ghost use Rattle.unit_read.specs.Subjects.{unit_of};
ghost use Rattle.rule_words.specs.Good.{known_of, AreFactsOf};
ghost use Rattle.rule_words.specs.Scenes.{sight, IsScene, told_by, IfFound, said, IsMarkOf, type_in, MayBeTypeOf};
ghost use Rattle.variable_rules.specs.InCode.{types_of};
ghost use Rattle.statement_rules.specs.Returning.{result_wants, even_wants, results_wants, known_wants, told_wants, typed_wants, function_wants, value_wants, return_wants};

use crate::returning::{count_of, returned_call};
use assign_rules::around::function_of;
use assign_rules::sharing::many_of;
use assign_rules::words::loose_operand;
use go_tree::Node;
use package_objects::{item, part_of};
use rule_words::good::known;
use rule_words::look;
use rule_words::wishes::{nothing_wanted, operand};
use type_model::TypeId;
use type_questions::Found;
use typed_marks::{Facts, Item, Mark, Stage, State, Want};
use unit_read::{Place, Subject};
use variable_rules::results_of;

fn result_wants(
    u: &Subject,
    s: &State,
    block: usize,
    n: u32,
    o: Option<TypeId>,
) -> Found<Mark, Item>
    requires scene { IsScene u.now s.now }
    requires within { MayBeTypeOf s.now o }
    ensures is { told_by (said s.now) result ≡ tell (sight s.now) (result_wants (unit_of u.now) block n (option_map (type_in s.now) o)) }
    ensures over { IfFound result (IsMarkOf s.now) }
{
    match o {
        Some(of) => Found::Is(operand(Want::Assigned(of))),
        None => loose_operand(u, s, block, n),
    }
}

fn id_at(list: &[TypeId], i: usize) -> Option<TypeId>
    ensures { result ≡ slice_get list.now i }
{
    list.get(i).copied()
}

/// One of some types.
fn nth(s: &State, list: &[TypeId], i: usize) -> Option<TypeId>
    requires { AreBelow (type_count s.now.table) list.now }
    ensures is { option_map (type_in s.now) result ≡ slice_get (types_of s.now list.now) i }
    ensures within { MayBeTypeOf s.now result }
{
    let _ = s;
    id_at(list, i)
}

fn even_wants(
    u: &Subject,
    s: &State,
    block: usize,
    n: u32,
    results: &[TypeId],
    i: usize,
    b: bool,
) -> Found<Mark, Item>
    requires scene { IsScene u.now s.now }
    requires results { AreBelow (type_count s.now.table) results.now }
    ensures is { told_by (said s.now) result ≡ tell (sight s.now) (even_wants (unit_of u.now) block n (types_of s.now results.now) i b) }
    ensures over { IfFound result (IsMarkOf s.now) }
{
    if b {
        result_wants(u, s, block, n, nth(s, results, i))
    } else {
        loose_operand(u, s, block, n)
    }
}

fn results_wants(
    u: &Subject,
    s: &State,
    block: usize,
    nodes: &[Node],
    around: &Node,
    i: usize,
    n: u32,
    results: &[TypeId],
) -> Found<Mark, Item>
    requires scene { IsScene u.now s.now }
    requires results { AreBelow (type_count s.now.table) results.now }
    ensures is { told_by (said s.now) result ≡ tell (sight s.now) (results_wants (unit_of u.now) block nodes.now around.now i n (types_of s.now results.now)) }
    ensures over { IfFound result (IsMarkOf s.now) }
{
    let even = count_of(nodes, around) == many_of(s, results);
    even_wants(u, s, block, n, results, i, even)
}

fn known_wants(
    u: &Subject,
    s: &State,
    block: usize,
    nodes: &[Node],
    around: &Node,
    i: usize,
    n: u32,
    x: Facts,
) -> Found<Mark, Item>
    requires scene { IsScene u.now s.now }
    requires facts { AreFactsOf s.now x }
    ensures is { told_by (said s.now) result ≡ tell (sight s.now) (known_wants (unit_of u.now) block nodes.now around.now i n (known_of s.now x)) }
    ensures over { IfFound result (IsMarkOf s.now) }
{
    results_wants(u, s, block, nodes, around, i, n, results_of(s, x.of))
}

fn told_wants(
    u: &Subject,
    s: &State,
    block: usize,
    nodes: &[Node],
    around: &Node,
    i: usize,
    n: u32,
    m: Mark,
) -> Found<Mark, Item>
    requires scene { IsScene u.now s.now }
    requires mark { IsMarkOf s.now m }
    ensures is { told_by (said s.now) result ≡ tell (sight s.now) (told_wants (unit_of u.now) block nodes.now around.now i n (said s.now m)) }
    ensures over { IfFound result (IsMarkOf s.now) }
{
    match known(s, m) {
        Some(x) => known_wants(u, s, block, nodes, around, i, n, x),
        None => loose_operand(u, s, block, n),
    }
}

fn typed_wants(
    u: &Subject,
    s: &State,
    block: usize,
    nodes: &[Node],
    around: &Node,
    i: usize,
    n: u32,
    f: u32,
) -> Found<Mark, Item>
    requires { IsScene u.now s.now }
    ensures is { told_by (said s.now) result ≡ tell (sight s.now) (typed_wants (unit_of u.now) block nodes.now around.now i n f) }
    ensures over { IfFound result (IsMarkOf s.now) }
{
    match look(u, s, Stage::Judged, block, f) {
        Found::Is(m) => told_wants(u, s, block, nodes, around, i, n, m),
        Found::Wait(item) => Found::Wait(item),
    }
}

fn function_wants(
    u: &Subject,
    s: &State,
    block: usize,
    nodes: &[Node],
    around: &Node,
    i: usize,
    n: u32,
    f: u32,
) -> Found<Mark, Item>
    requires { IsScene u.now s.now }
    ensures is { told_by (said s.now) result ≡ tell (sight s.now) (function_wants (unit_of u.now) block nodes.now around.now i n f) }
    ensures over { IfFound result (IsMarkOf s.now) }
{
    let call = returned_call(nodes, around, f);
    if call.is_some() {
        Found::Is(nothing_wanted())
    } else {
        typed_wants(u, s, block, nodes, around, i, n, f)
    }
}

fn value_wants(
    u: &Subject,
    s: &State,
    block: usize,
    file: u32,
    p: Place,
    around: &Node,
    n: u32,
) -> Found<Mark, Item>
    requires { IsScene u.now s.now }
    ensures is { told_by (said s.now) result ≡ tell (sight s.now) (value_wants (unit_of u.now) block file p around.now n) }
    ensures over { IfFound result (IsMarkOf s.now) }
{
    match function_of(u, file, p.around) {
        Some(f) => function_wants(u, s, block, u.nodes_at(file), around, p.index, n, f),
        None => loose_operand(u, s, block, n),
    }
}

/// What the place of a value in a return statement wants.
pub fn want_return(
    u: &Subject,
    s: &State,
    block: usize,
    file: u32,
    p: Place,
    around: &Node,
) -> Found<Mark, Item>
    requires { IsScene u.now s.now }
    ensures is { told_by (said s.now) result ≡ tell (sight s.now) (return_wants (unit_of u.now) block file p around.now) }
    ensures over { IfFound result (IsMarkOf s.now) }
{
    match item(u.nodes_at(file), part_of(around, 0), p.index) {
        Some(n) => value_wants(u, s, block, file, p, around, n),
        None => Found::Is(nothing_wanted()),
    }
}
