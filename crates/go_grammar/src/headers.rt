//! The rules of statements with a header.
#![tactic(auto, unfolding(go_tree::specs::Nodes::nodes, go_tree::specs::Inlines::greedy, go_tree::specs::First::first, go_tree::specs::First::nullable, go_tree::specs::Follow::follow))]

ghost use Rattle.go_grammar.specs.View.{IsRule};
ghost use Rattle.go_tree.specs.Choice.{pick_node};
ghost use Rattle.go_tree.specs.declared.grammar.Category.TheVariants as c;

use crate::rule::{Rule, row, when};
use crate::shape::meets;
use go_tree::Ending::{Bare, Is, Tail};
use go_tree::Symbol::{Inline, Operand, Part, Token};
use go_tree::{Category as C, Guard, NodeKind as K, Setting, Shape, Terminal as T};

#[rattlefmt::skip]
pub fn head_left(class: u8, _shape: Shape) -> Option<Rule>
    ensures { IsRule (pick_node c.HeadLeft class _shape) result }
{
    match class {
        0..=5 | 8 | 16 | 21..=22 | 27 | 36 | 38 | 46..=49 | 51 | 58 | 63 | 70 | 76 => Some(row(Tail(C::HeadLeftEnd), &[Operand(1, Setting::Header), Inline(C::MoreHeadExprs)])),
        _ => None,
    }
}

#[rattlefmt::skip]
pub fn head_left_end(class: u8, shape: Shape) -> Option<Rule>
    ensures { IsRule (pick_node c.HeadLeftEnd class shape) result }
{
    match class {
        24 | 44..=46 => if meets(Guard::Single, shape) { Some(when(Guard::Single, T::NotDefine, Bare, &[])) } else { None },
        31 | 40 => if meets(Guard::Single, shape) { Some(when(Guard::Single, T::NotDefine, Bare, &[])) } else if meets(Guard::OneGuard, shape) { Some(when(Guard::OneGuard, T::HeadEnd, Bare, &[])) } else { None },
        42 | 67 | 72 => if meets(Guard::Single, shape) { Some(when(Guard::Single, T::NotDefine, Bare, &[])) } else if meets(Guard::Several, shape) { Some(when(Guard::Several, T::AssignLike, Is(K::Exprs), &[])) } else { None },
        43 | 71 => if meets(Guard::SingleName, shape) { Some(when(Guard::SingleName, T::DefineLike, Bare, &[])) } else if meets(Guard::SeveralNames, shape) { Some(when(Guard::SeveralNames, T::DefineLike, Is(K::Names), &[])) } else { None },
        _ => None,
    }
}

#[rattlefmt::skip]
pub fn head_exprs(class: u8, _shape: Shape) -> Option<Rule>
    ensures { IsRule (pick_node c.HeadExprs class _shape) result }
{
    match class {
        0..=5 | 8 | 16 | 21..=22 | 27 | 36 | 38 | 46..=49 | 51 | 58 | 63 | 70 | 76 => Some(row(Tail(C::HeadExprsEnd), &[Operand(2, Setting::Header), Inline(C::MoreHeadExprs)])),
        _ => None,
    }
}

#[rattlefmt::skip]
pub fn head_exprs_end(class: u8, shape: Shape) -> Option<Rule>
    ensures { IsRule (pick_node c.HeadExprsEnd class shape) result }
{
    match class {
        24 | 31 | 40 | 71..=72 => if meets(Guard::Single, shape) { Some(when(Guard::Single, T::Anything, Bare, &[])) } else if meets(Guard::Several, shape) { Some(when(Guard::Several, T::Anything, Is(K::Exprs), &[])) } else { None },
        _ => None,
    }
}

#[rattlefmt::skip]
pub fn head_simple(class: u8, _shape: Shape) -> Option<Rule>
    ensures { IsRule (pick_node c.HeadSimple class _shape) result }
{
    match class {
        0..=5 | 8 | 16 | 21..=22 | 27 | 36 | 38 | 46..=49 | 51 | 58 | 63 | 70 | 76 => Some(row(Tail(C::HeadTail), &[Part(C::HeadLeft)])),
        _ => None,
    }
}

#[rattlefmt::skip]
pub fn head_tail(class: u8, _shape: Shape) -> Option<Rule>
    ensures { IsRule (pick_node c.HeadTail class _shape) result }
{
    match class {
        24 | 31 | 40 | 71..=72 => Some(row(Bare, &[])),
        42 => Some(row(Is(K::Assign), &[Token(T::Assign), Part(C::HeadExprs)])),
        67 => Some(row(Is(K::OpAssign), &[Token(T::OpAssign), Part(C::HeadExprs)])),
        46 => Some(row(Is(K::Send), &[Token(T::Arrow), Operand(2, Setting::Header)])),
        44 => Some(row(Is(K::Increment), &[Token(T::Increment)])),
        45 => Some(row(Is(K::Decrement), &[Token(T::Decrement)])),
        43 => Some(row(Tail(C::DefineEnd), &[Token(T::Define), Part(C::Bound)])),
        _ => None,
    }
}

#[rattlefmt::skip]
pub fn bound(class: u8, _shape: Shape) -> Option<Rule>
    ensures { IsRule (pick_node c.Bound class _shape) result }
{
    match class {
        0..=5 | 8 | 16 | 21..=22 | 27 | 36 | 38 | 46..=49 | 51 | 58 | 63 | 70 | 76 => Some(row(Tail(C::BoundEnd), &[Operand(1, Setting::Header), Inline(C::MoreHeadExprs)])),
        _ => None,
    }
}

#[rattlefmt::skip]
pub fn bound_end(class: u8, shape: Shape) -> Option<Rule>
    ensures { IsRule (pick_node c.BoundEnd class shape) result }
{
    match class {
        24 | 31 | 40 | 71..=72 => if meets(Guard::Single, shape) { Some(when(Guard::Single, T::Anything, Bare, &[])) } else if meets(Guard::OneGuard, shape) { Some(when(Guard::OneGuard, T::Anything, Bare, &[])) } else if meets(Guard::Several, shape) { Some(when(Guard::Several, T::Anything, Is(K::Exprs), &[])) } else { None },
        _ => None,
    }
}

#[rattlefmt::skip]
pub fn define_end(class: u8, shape: Shape) -> Option<Rule>
    ensures { IsRule (pick_node c.DefineEnd class shape) result }
{
    match class {
        24 | 31 | 40 | 71..=72 => if meets(Guard::NoGuard, shape) { Some(when(Guard::NoGuard, T::Anything, Is(K::Define), &[])) } else if meets(Guard::Binds, shape) { Some(when(Guard::Binds, T::Anything, Is(K::Bind), &[])) } else { None },
        _ => None,
    }
}

#[rattlefmt::skip]
pub fn post(class: u8, _shape: Shape) -> Option<Rule>
    ensures { IsRule (pick_node c.Post class _shape) result }
{
    match class {
        0..=5 | 8 | 16 | 21..=22 | 27 | 36 | 38 | 46..=49 | 51 | 58 | 63 | 70 | 76 => Some(row(Is(K::Post), &[Part(C::PostSimple)])),
        _ => None,
    }
}

#[rattlefmt::skip]
pub fn post_simple(class: u8, _shape: Shape) -> Option<Rule>
    ensures { IsRule (pick_node c.PostSimple class _shape) result }
{
    match class {
        0..=5 | 8 | 16 | 21..=22 | 27 | 36 | 38 | 46..=49 | 51 | 58 | 63 | 70 | 76 => Some(row(Tail(C::PostTail), &[Part(C::HeadExprs2)])),
        _ => None,
    }
}

#[rattlefmt::skip]
pub fn head_exprs2(class: u8, _shape: Shape) -> Option<Rule>
    ensures { IsRule (pick_node c.HeadExprs2 class _shape) result }
{
    match class {
        0..=5 | 8 | 16 | 21..=22 | 27 | 36 | 38 | 46..=49 | 51 | 58 | 63 | 70 | 76 => Some(row(Tail(C::PostLeftEnd), &[Operand(2, Setting::Header), Inline(C::MoreHeadExprs)])),
        _ => None,
    }
}

#[rattlefmt::skip]
pub fn post_left_end(class: u8, shape: Shape) -> Option<Rule>
    ensures { IsRule (pick_node c.PostLeftEnd class shape) result }
{
    match class {
        40 | 44..=46 => if meets(Guard::Single, shape) { Some(when(Guard::Single, T::Anything, Bare, &[])) } else { None },
        42 | 67 => if meets(Guard::Single, shape) { Some(when(Guard::Single, T::Anything, Bare, &[])) } else if meets(Guard::Several, shape) { Some(when(Guard::Several, T::AssignLike, Is(K::Exprs), &[])) } else { None },
        _ => None,
    }
}

#[rattlefmt::skip]
pub fn post_tail(class: u8, _shape: Shape) -> Option<Rule>
    ensures { IsRule (pick_node c.PostTail class _shape) result }
{
    match class {
        40 => Some(row(Bare, &[])),
        42 => Some(row(Is(K::Assign), &[Token(T::Assign), Part(C::HeadExprs)])),
        67 => Some(row(Is(K::OpAssign), &[Token(T::OpAssign), Part(C::HeadExprs)])),
        46 => Some(row(Is(K::Send), &[Token(T::Arrow), Operand(2, Setting::Header)])),
        44 => Some(row(Is(K::Increment), &[Token(T::Increment)])),
        45 => Some(row(Is(K::Decrement), &[Token(T::Decrement)])),
        _ => None,
    }
}

#[rattlefmt::skip]
pub fn if_statement(class: u8, _shape: Shape) -> Option<Rule>
    ensures { IsRule (pick_node c.If class _shape) result }
{
    match class {
        19 => Some(row(Tail(C::IfTail), &[Token(T::If), Inline(C::Init)])),
        _ => None,
    }
}

#[rattlefmt::skip]
pub fn if_tail(class: u8, shape: Shape) -> Option<Rule>
    ensures { IsRule (pick_node c.IfTail class shape) result }
{
    match class {
        31 => if meets(Guard::Opening, shape) { Some(when(Guard::Opening, T::Anything, Tail(C::Otherwise), &[Token(T::Semi), Operand(2, Setting::Header), Part(C::Block)])) } else { None },
        40 => if meets(Guard::Single, shape) { Some(when(Guard::Single, T::Anything, Tail(C::Otherwise), &[Part(C::Block)])) } else { None },
        _ => None,
    }
}

#[rattlefmt::skip]
pub fn otherwise(class: u8, _shape: Shape) -> Option<Rule>
    ensures { IsRule (pick_node c.Otherwise class _shape) result }
{
    match class {
        7 | 11 | 31 | 41 => Some(row(Is(K::If), &[])),
        13 => Some(row(Is(K::If), &[Token(T::Else), Inline(C::Branch)])),
        _ => None,
    }
}

#[rattlefmt::skip]
pub fn switch_statement(class: u8, _shape: Shape) -> Option<Rule>
    ensures { IsRule (pick_node c.Switch class _shape) result }
{
    match class {
        28 => Some(row(Tail(C::SwitchTail), &[Token(T::Switch), Inline(C::Init)])),
        _ => None,
    }
}

#[rattlefmt::skip]
pub fn switch_tail(class: u8, shape: Shape) -> Option<Rule>
    ensures { IsRule (pick_node c.SwitchTail class shape) result }
{
    match class {
        31 => if meets(Guard::Opening, shape) { Some(when(Guard::Opening, T::Anything, Tail(C::SwitchEnd), &[Token(T::Semi), Inline(C::Subject)])) } else { None },
        40 => if meets(Guard::Tag, shape) { Some(when(Guard::Tag, T::Anything, Is(K::Switch), &[Token(T::LeftBrace), Inline(C::Clauses), Token(T::RightBrace)])) } else if meets(Guard::OneGuard, shape) { Some(when(Guard::OneGuard, T::Anything, Is(K::TypeSwitch), &[Token(T::LeftBrace), Inline(C::TypeClauses), Token(T::RightBrace)])) } else { None },
        _ => None,
    }
}

#[rattlefmt::skip]
pub fn switch_end(class: u8, shape: Shape) -> Option<Rule>
    ensures { IsRule (pick_node c.SwitchEnd class shape) result }
{
    match class {
        40 => if meets(Guard::NoGuard, shape) { Some(when(Guard::NoGuard, T::Anything, Is(K::Switch), &[Token(T::LeftBrace), Inline(C::Clauses), Token(T::RightBrace)])) } else if meets(Guard::SomeGuard, shape) { Some(when(Guard::SomeGuard, T::Anything, Is(K::TypeSwitch), &[Token(T::LeftBrace), Inline(C::TypeClauses), Token(T::RightBrace)])) } else { None },
        _ => None,
    }
}

#[rattlefmt::skip]
pub fn subject1(class: u8, _shape: Shape) -> Option<Rule>
    ensures { IsRule (pick_node c.Subject1 class _shape) result }
{
    match class {
        0..=5 | 8 | 16 | 21..=22 | 27 | 36 | 38 | 46..=49 | 51 | 58 | 63 | 70 | 76 => Some(row(Tail(C::SubjectTail), &[Operand(1, Setting::Header)])),
        _ => None,
    }
}

#[rattlefmt::skip]
pub fn subject_tail(class: u8, shape: Shape) -> Option<Rule>
    ensures { IsRule (pick_node c.SubjectTail class shape) result }
{
    match class {
        40 => Some(row(Bare, &[])),
        43 => if meets(Guard::SingleName, shape) { Some(when(Guard::SingleName, T::Anything, Tail(C::SubjectEnd), &[Token(T::Define), Operand(1, Setting::Header)])) } else { None },
        _ => None,
    }
}

#[rattlefmt::skip]
pub fn subject_end(class: u8, shape: Shape) -> Option<Rule>
    ensures { IsRule (pick_node c.SubjectEnd class shape) result }
{
    match class {
        40 => if meets(Guard::Binds, shape) { Some(when(Guard::Binds, T::Anything, Is(K::Bind), &[])) } else { None },
        _ => None,
    }
}

#[rattlefmt::skip]
pub fn case_clause(class: u8, _shape: Shape) -> Option<Rule>
    ensures { IsRule (pick_node c.CaseClause class _shape) result }
{
    match class {
        7 => Some(row(Is(K::Case), &[Token(T::Case), Part(C::Exprs), Token(T::Colon), Part(C::List)])),
        11 => Some(row(Is(K::Default), &[Token(T::Default), Token(T::Colon), Part(C::List)])),
        _ => None,
    }
}

#[rattlefmt::skip]
pub fn type_clause(class: u8, _shape: Shape) -> Option<Rule>
    ensures { IsRule (pick_node c.TypeClause class _shape) result }
{
    match class {
        7 => Some(row(Is(K::TypeCase), &[Token(T::Case), Part(C::TypeList), Token(T::Colon), Part(C::List)])),
        11 => Some(row(Is(K::Default), &[Token(T::Default), Token(T::Colon), Part(C::List)])),
        _ => None,
    }
}

#[rattlefmt::skip]
pub fn type_list(class: u8, _shape: Shape) -> Option<Rule>
    ensures { IsRule (pick_node c.TypeList class _shape) result }
{
    match class {
        0 | 8 | 16 | 21..=22 | 27 | 36 | 38 | 46 | 58 | 76 => Some(row(Tail(C::TypeListEnd), &[Part(C::Type), Inline(C::MoreTypes)])),
        _ => None,
    }
}

#[rattlefmt::skip]
pub fn type_list_end(class: u8, shape: Shape) -> Option<Rule>
    ensures { IsRule (pick_node c.TypeListEnd class shape) result }
{
    match class {
        33 => if meets(Guard::Single, shape) { Some(when(Guard::Single, T::Anything, Bare, &[])) } else if meets(Guard::Several, shape) { Some(when(Guard::Several, T::Anything, Is(K::TypeList), &[])) } else { None },
        _ => None,
    }
}

#[rattlefmt::skip]
pub fn select_statement(class: u8, _shape: Shape) -> Option<Rule>
    ensures { IsRule (pick_node c.Select class _shape) result }
{
    match class {
        26 => Some(row(Is(K::Select), &[Token(T::Select), Token(T::LeftBrace), Inline(C::CommClauses), Token(T::RightBrace)])),
        _ => None,
    }
}

#[rattlefmt::skip]
pub fn comm_clause(class: u8, _shape: Shape) -> Option<Rule>
    ensures { IsRule (pick_node c.CommClause class _shape) result }
{
    match class {
        7 => Some(row(Is(K::Comm), &[Token(T::Case), Inline(C::Comm), Token(T::Colon), Part(C::List)])),
        11 => Some(row(Is(K::Default), &[Token(T::Default), Token(T::Colon), Part(C::List)])),
        _ => None,
    }
}

#[rattlefmt::skip]
pub fn for_statement(class: u8, _shape: Shape) -> Option<Rule>
    ensures { IsRule (pick_node c.For class _shape) result }
{
    match class {
        15 => Some(row(Tail(C::ForTail), &[Token(T::For), Inline(C::Init)])),
        _ => None,
    }
}

#[rattlefmt::skip]
pub fn for_tail(class: u8, shape: Shape) -> Option<Rule>
    ensures { IsRule (pick_node c.ForTail class shape) result }
{
    match class {
        24 => if meets(Guard::Nothing, shape) { Some(when(Guard::Nothing, T::Anything, Is(K::ForRange), &[Token(T::Range), Operand(2, Setting::Header), Part(C::Block)])) } else { None },
        31 => if meets(Guard::Opening, shape) { Some(when(Guard::Opening, T::Anything, Is(K::ForClause), &[Token(T::Semi), Inline(C::Condition), Token(T::Semi), Inline(C::PostPart), Part(C::Block)])) } else { None },
        40 => if meets(Guard::Tag, shape) { Some(when(Guard::Tag, T::Anything, Is(K::For), &[Part(C::Block)])) } else { None },
        71 => if meets(Guard::Assigned, shape) { Some(when(Guard::Assigned, T::Anything, Is(K::ForRangeDefine), &[Token(T::DefineRange), Token(T::Range), Operand(2, Setting::Header), Part(C::Block)])) } else { None },
        72 => if meets(Guard::Assigned, shape) { Some(when(Guard::Assigned, T::Anything, Is(K::ForRangeAssign), &[Token(T::AssignRange), Token(T::Range), Operand(2, Setting::Header), Part(C::Block)])) } else { None },
        _ => None,
    }
}

#[rattlefmt::skip]
pub fn cond(class: u8, _shape: Shape) -> Option<Rule>
    ensures { IsRule (pick_node c.Cond class _shape) result }
{
    match class {
        0..=5 | 8 | 16 | 21..=22 | 27 | 36 | 38 | 46..=49 | 51 | 58 | 63 | 70 | 76 => Some(row(Is(K::Condition), &[Operand(2, Setting::Header)])),
        _ => None,
    }
}
