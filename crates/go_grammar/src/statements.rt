//! The rules of statements.
#![tactic(auto, unfolding(go_tree::specs::Nodes::nodes, go_tree::specs::Inlines::greedy, go_tree::specs::First::first, go_tree::specs::First::nullable, go_tree::specs::Follow::follow))]

ghost use Rattle.go_grammar.specs.View.{IsRule};
ghost use Rattle.go_tree.specs.Choice.{pick_node};
ghost use Rattle.go_tree.specs.declared.grammar.Category.TheVariants as c;

use crate::rule::{Rule, row, when};
use crate::shape::meets;
use go_tree::Ending::{Bare, Is, Tail};
use go_tree::Symbol::{Inline, Operand, Part, Token};
use go_tree::{Category as C, Guard, NodeKind as K, Setting, Shape, Terminal as T};

#[rattlefmt::skip]
pub fn block(class: u8, _shape: Shape) -> Option<Rule>
    ensures { IsRule (pick_node c.Block class _shape) result }
{
    match class {
        40 => Some(row(Is(K::Block), &[Token(T::LeftBrace), Inline(C::Statements), Token(T::RightBrace)])),
        _ => None,
    }
}

#[rattlefmt::skip]
pub fn statement_list(class: u8, _shape: Shape) -> Option<Rule>
    ensures { IsRule (pick_node c.List class _shape) result }
{
    match class {
        0..=12 | 14..=19 | 21..=22 | 25..=31 | 36 | 38 | 40..=41 | 46..=49 | 51 | 58 | 63 | 70 | 76 => Some(row(Is(K::List), &[Inline(C::Statements)])),
        _ => None,
    }
}

#[rattlefmt::skip]
pub fn after_statement(class: u8, _shape: Shape) -> Option<Rule>
    ensures { IsRule (pick_node c.AfterStatement class _shape) result }
{
    match class {
        41 => Some(when(Guard::Any, T::RightBrace, Bare, &[])),
        31 => Some(row(Bare, &[Token(T::Semi), Inline(C::Statements)])),
        _ => None,
    }
}

#[rattlefmt::skip]
pub fn go(class: u8, _shape: Shape) -> Option<Rule>
    ensures { IsRule (pick_node c.Go class _shape) result }
{
    match class {
        17 => Some(row(Is(K::Go), &[Token(T::Go), Operand(2, Setting::Free)])),
        _ => None,
    }
}

#[rattlefmt::skip]
pub fn defer(class: u8, _shape: Shape) -> Option<Rule>
    ensures { IsRule (pick_node c.Defer class _shape) result }
{
    match class {
        12 => Some(row(Is(K::Defer), &[Token(T::Defer), Operand(2, Setting::Free)])),
        _ => None,
    }
}

#[rattlefmt::skip]
pub fn return_statement(class: u8, _shape: Shape) -> Option<Rule>
    ensures { IsRule (pick_node c.Return class _shape) result }
{
    match class {
        25 => Some(row(Is(K::Return), &[Token(T::Return), Inline(C::Values)])),
        _ => None,
    }
}

#[rattlefmt::skip]
pub fn break_statement(class: u8, _shape: Shape) -> Option<Rule>
    ensures { IsRule (pick_node c.Break class _shape) result }
{
    match class {
        6 => Some(row(Is(K::Break), &[Token(T::Break), Inline(C::Target)])),
        _ => None,
    }
}

#[rattlefmt::skip]
pub fn continue_statement(class: u8, _shape: Shape) -> Option<Rule>
    ensures { IsRule (pick_node c.Continue class _shape) result }
{
    match class {
        10 => Some(row(Is(K::Continue), &[Token(T::Continue), Inline(C::Target)])),
        _ => None,
    }
}

#[rattlefmt::skip]
pub fn goto(class: u8, _shape: Shape) -> Option<Rule>
    ensures { IsRule (pick_node c.Goto class _shape) result }
{
    match class {
        18 => Some(row(Is(K::Goto), &[Token(T::Goto), Part(C::Ident)])),
        _ => None,
    }
}

#[rattlefmt::skip]
pub fn fallthrough(class: u8, _shape: Shape) -> Option<Rule>
    ensures { IsRule (pick_node c.Fallthrough class _shape) result }
{
    match class {
        14 => Some(row(Is(K::Fallthrough), &[Token(T::Fallthrough)])),
        _ => None,
    }
}

#[rattlefmt::skip]
pub fn left(class: u8, _shape: Shape) -> Option<Rule>
    ensures { IsRule (pick_node c.Left class _shape) result }
{
    match class {
        0..=5 | 8 | 16 | 21..=22 | 27 | 36 | 38 | 46..=49 | 51 | 58 | 63 | 70 | 76 => Some(row(Tail(C::LeftEnd), &[Operand(2, Setting::Free), Inline(C::MoreExprs)])),
        _ => None,
    }
}

#[rattlefmt::skip]
pub fn left_end(class: u8, shape: Shape) -> Option<Rule>
    ensures { IsRule (pick_node c.LeftEnd class shape) result }
{
    match class {
        7 | 11 | 31 | 33 | 41 | 44..=46 => if meets(Guard::Single, shape) { Some(when(Guard::Single, T::NotDefine, Bare, &[])) } else { None },
        42 | 67 => if meets(Guard::Single, shape) { Some(when(Guard::Single, T::NotDefine, Bare, &[])) } else if meets(Guard::Several, shape) { Some(when(Guard::Several, T::AssignLike, Is(K::Exprs), &[])) } else { None },
        43 => if meets(Guard::SingleName, shape) { Some(when(Guard::SingleName, T::DefineLike, Bare, &[])) } else if meets(Guard::SeveralNames, shape) { Some(when(Guard::SeveralNames, T::DefineLike, Is(K::Names), &[])) } else { None },
        _ => None,
    }
}

#[rattlefmt::skip]
pub fn simple(class: u8, _shape: Shape) -> Option<Rule>
    ensures { IsRule (pick_node c.Simple class _shape) result }
{
    match class {
        0..=5 | 8 | 16 | 21..=22 | 27 | 36 | 38 | 46..=49 | 51 | 58 | 63 | 70 | 76 => Some(row(Tail(C::SimpleTail), &[Part(C::Left)])),
        _ => None,
    }
}

#[rattlefmt::skip]
pub fn simple_tail(class: u8, shape: Shape) -> Option<Rule>
    ensures { IsRule (pick_node c.SimpleTail class shape) result }
{
    match class {
        7 | 11 | 31 | 41 => Some(row(Bare, &[])),
        33 => if meets(Guard::SingleName, shape) { Some(when(Guard::SingleName, T::Anything, Is(K::Label), &[Token(T::Colon), Inline(C::Labeled)])) } else { None },
        42 => Some(row(Is(K::Assign), &[Token(T::Assign), Part(C::Exprs)])),
        43 => Some(row(Is(K::Define), &[Token(T::Define), Part(C::Exprs)])),
        44 => Some(row(Is(K::Increment), &[Token(T::Increment)])),
        45 => Some(row(Is(K::Decrement), &[Token(T::Decrement)])),
        46 => Some(row(Is(K::Send), &[Token(T::Arrow), Operand(2, Setting::Free)])),
        67 => Some(row(Is(K::OpAssign), &[Token(T::OpAssign), Part(C::Exprs)])),
        _ => None,
    }
}

#[rattlefmt::skip]
pub fn comm_simple(class: u8, _shape: Shape) -> Option<Rule>
    ensures { IsRule (pick_node c.CommSimple class _shape) result }
{
    match class {
        0..=5 | 8 | 16 | 21..=22 | 27 | 36 | 38 | 46..=49 | 51 | 58 | 63 | 70 | 76 => Some(row(Tail(C::CommTail), &[Part(C::Left)])),
        _ => None,
    }
}

#[rattlefmt::skip]
pub fn comm_tail(class: u8, _shape: Shape) -> Option<Rule>
    ensures { IsRule (pick_node c.CommTail class _shape) result }
{
    match class {
        33 => Some(row(Bare, &[])),
        42 => Some(row(Is(K::Assign), &[Token(T::Assign), Part(C::Exprs)])),
        67 => Some(row(Is(K::OpAssign), &[Token(T::OpAssign), Part(C::Exprs)])),
        46 => Some(row(Is(K::Send), &[Token(T::Arrow), Operand(2, Setting::Free)])),
        44 => Some(row(Is(K::Increment), &[Token(T::Increment)])),
        45 => Some(row(Is(K::Decrement), &[Token(T::Decrement)])),
        43 => Some(row(Is(K::Define), &[Token(T::Define), Part(C::Exprs)])),
        _ => None,
    }
}
