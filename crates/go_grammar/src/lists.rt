//! The alternatives of statements that make no node.
#![tactic(auto, unfolding(go_tree::specs::Inlines::inlines, go_tree::specs::Inlines::greedy, go_tree::specs::First::first, go_tree::specs::First::nullable, go_tree::specs::Follow::follow))]

ghost use Rattle.go_grammar.specs.View.{AreSymbols};
ghost use Rattle.go_tree.specs.Choice.{pick_inline};
ghost use Rattle.go_tree.specs.declared.grammar.Category.TheVariants as c;

use go_tree::Symbol::{Inline, Operand, Part, Token};
use go_tree::{Category as C, Setting, Symbol, Terminal as T};

#[rattlefmt::skip]
pub fn statements(class: u8) -> Option<&'static [Symbol]>
    ensures { AreSymbols (pick_inline c.Statements class) result }
{
    match class {
        7 | 11 | 41 => Some(&[]),
        31 => Some(&[Token(T::Semi), Inline(C::Statements)]),
        0..=6 | 8..=10 | 12 | 14..=19 | 21..=22 | 25..=30 | 36 | 38 | 40 | 46..=49 | 51 | 58 | 63 | 70 | 76 => Some(&[Inline(C::Statement), Part(C::AfterStatement)]),
        _ => None,
    }
}

#[rattlefmt::skip]
pub fn statement(class: u8) -> Option<&'static [Symbol]>
    ensures { AreSymbols (pick_inline c.Statement class) result }
{
    match class {
        9 => Some(&[Part(C::Const)]),
        29 => Some(&[Part(C::Types)]),
        30 => Some(&[Part(C::Vars)]),
        0..=5 | 8 | 16 | 21..=22 | 27 | 36 | 38 | 46..=49 | 51 | 58 | 63 | 70 | 76 => Some(&[Part(C::Simple)]),
        17 => Some(&[Part(C::Go)]),
        12 => Some(&[Part(C::Defer)]),
        25 => Some(&[Part(C::Return)]),
        6 => Some(&[Part(C::Break)]),
        10 => Some(&[Part(C::Continue)]),
        18 => Some(&[Part(C::Goto)]),
        14 => Some(&[Part(C::Fallthrough)]),
        40 => Some(&[Part(C::Block)]),
        19 => Some(&[Part(C::If)]),
        28 => Some(&[Part(C::Switch)]),
        26 => Some(&[Part(C::Select)]),
        15 => Some(&[Part(C::For)]),
        _ => None,
    }
}

#[rattlefmt::skip]
pub fn values(class: u8) -> Option<&'static [Symbol]>
    ensures { AreSymbols (pick_inline c.Values class) result }
{
    match class {
        7 | 11 | 31 | 41 => Some(&[]),
        0..=5 | 8 | 16 | 21..=22 | 27 | 36 | 38 | 46..=49 | 51 | 58 | 63 | 70 | 76 => Some(&[Part(C::Exprs)]),
        _ => None,
    }
}

#[rattlefmt::skip]
pub fn target(class: u8) -> Option<&'static [Symbol]>
    ensures { AreSymbols (pick_inline c.Target class) result }
{
    match class {
        7 | 11 | 31 | 41 => Some(&[]),
        0 | 76 => Some(&[Part(C::Ident)]),
        _ => None,
    }
}

#[rattlefmt::skip]
pub fn labeled(class: u8) -> Option<&'static [Symbol]>
    ensures { AreSymbols (pick_inline c.Labeled class) result }
{
    match class {
        7 | 11 | 31 | 41 => Some(&[]),
        0..=6 | 8..=10 | 12 | 14..=19 | 21..=22 | 25..=30 | 36 | 38 | 40 | 46..=49 | 51 | 58 | 63 | 70 | 76 => Some(&[Inline(C::Statement)]),
        _ => None,
    }
}

#[rattlefmt::skip]
pub fn more_head_exprs(class: u8) -> Option<&'static [Symbol]>
    ensures { AreSymbols (pick_inline c.MoreHeadExprs class) result }
{
    match class {
        24 | 31 | 40 | 42..=46 | 67 | 71..=72 => Some(&[]),
        32 => Some(&[Token(T::Comma), Operand(2, Setting::Header), Inline(C::MoreHeadExprs)]),
        _ => None,
    }
}

#[rattlefmt::skip]
pub fn init(class: u8) -> Option<&'static [Symbol]>
    ensures { AreSymbols (pick_inline c.Init class) result }
{
    match class {
        24 | 31 | 40 | 71..=72 => Some(&[]),
        0..=5 | 8 | 16 | 21..=22 | 27 | 36 | 38 | 46..=49 | 51 | 58 | 63 | 70 | 76 => Some(&[Part(C::HeadSimple)]),
        _ => None,
    }
}

#[rattlefmt::skip]
pub fn branch(class: u8) -> Option<&'static [Symbol]>
    ensures { AreSymbols (pick_inline c.Branch class) result }
{
    match class {
        19 => Some(&[Part(C::If)]),
        40 => Some(&[Part(C::Block)]),
        _ => None,
    }
}

#[rattlefmt::skip]
pub fn subject(class: u8) -> Option<&'static [Symbol]>
    ensures { AreSymbols (pick_inline c.Subject class) result }
{
    match class {
        40 => Some(&[]),
        0..=5 | 8 | 16 | 21..=22 | 27 | 36 | 38 | 46..=49 | 51 | 58 | 63 | 70 | 76 => Some(&[Part(C::Subject1)]),
        _ => None,
    }
}

#[rattlefmt::skip]
pub fn clauses(class: u8) -> Option<&'static [Symbol]>
    ensures { AreSymbols (pick_inline c.Clauses class) result }
{
    match class {
        41 => Some(&[]),
        7 | 11 => Some(&[Part(C::CaseClause), Inline(C::Clauses)]),
        _ => None,
    }
}

#[rattlefmt::skip]
pub fn type_clauses(class: u8) -> Option<&'static [Symbol]>
    ensures { AreSymbols (pick_inline c.TypeClauses class) result }
{
    match class {
        41 => Some(&[]),
        7 | 11 => Some(&[Part(C::TypeClause), Inline(C::TypeClauses)]),
        _ => None,
    }
}

#[rattlefmt::skip]
pub fn more_types(class: u8) -> Option<&'static [Symbol]>
    ensures { AreSymbols (pick_inline c.MoreTypes class) result }
{
    match class {
        33 => Some(&[]),
        32 => Some(&[Token(T::Comma), Part(C::Type), Inline(C::MoreTypes)]),
        _ => None,
    }
}

#[rattlefmt::skip]
pub fn comm_clauses(class: u8) -> Option<&'static [Symbol]>
    ensures { AreSymbols (pick_inline c.CommClauses class) result }
{
    match class {
        41 => Some(&[]),
        7 | 11 => Some(&[Part(C::CommClause), Inline(C::CommClauses)]),
        _ => None,
    }
}

#[rattlefmt::skip]
pub fn comm(class: u8) -> Option<&'static [Symbol]>
    ensures { AreSymbols (pick_inline c.Comm class) result }
{
    match class {
        33 => Some(&[]),
        0..=5 | 8 | 16 | 21..=22 | 27 | 36 | 38 | 46..=49 | 51 | 58 | 63 | 70 | 76 => Some(&[Part(C::CommSimple)]),
        _ => None,
    }
}

#[rattlefmt::skip]
pub fn condition(class: u8) -> Option<&'static [Symbol]>
    ensures { AreSymbols (pick_inline c.Condition class) result }
{
    match class {
        31 => Some(&[]),
        0..=5 | 8 | 16 | 21..=22 | 27 | 36 | 38 | 46..=49 | 51 | 58 | 63 | 70 | 76 => Some(&[Part(C::Cond)]),
        _ => None,
    }
}

#[rattlefmt::skip]
pub fn post_part(class: u8) -> Option<&'static [Symbol]>
    ensures { AreSymbols (pick_inline c.PostPart class) result }
{
    match class {
        40 => Some(&[]),
        0..=5 | 8 | 16 | 21..=22 | 27 | 36 | 38 | 46..=49 | 51 | 58 | 63 | 70 | 76 => Some(&[Part(C::Post)]),
        _ => None,
    }
}
