//! The rules of signatures and of types.
#![tactic(auto, unfolding(go_tree::specs::Nodes::nodes, go_tree::specs::Inlines::greedy, go_tree::specs::First::first, go_tree::specs::First::nullable, go_tree::specs::Follow::follow))]

ghost use Rattle.go_grammar.specs.View.{IsRule};
ghost use Rattle.go_tree.specs.Choice.{pick_node};
ghost use Rattle.go_tree.specs.declared.grammar.Category.TheVariants as c;

use crate::rule::{Rule, row, when};
use crate::shape::meets;
use go_tree::Ending::{Bare, Is, Tail};
use go_tree::Symbol::{Inline, Operand, Part, Token};
use go_tree::{Category as C, Guard, NodeKind as K, Setting, Shape, Terminal as T};

#[rattlefmt::skip]
pub fn params(class: u8, _shape: Shape) -> Option<Rule>
    ensures { IsRule (pick_node c.Params class _shape) result }
{
    match class {
        36 => Some(row(Tail(C::ParamsEnd), &[Token(T::LeftParen), Inline(C::Entries)])),
        _ => None,
    }
}

#[rattlefmt::skip]
pub fn params_end(class: u8, shape: Shape) -> Option<Rule>
    ensures { IsRule (pick_node c.ParamsEnd class shape) result }
{
    match class {
        37 => if meets(Guard::Parameters, shape) { Some(when(Guard::Parameters, T::Anything, Is(K::Params), &[Token(T::RightParen)])) } else { None },
        _ => None,
    }
}

#[rattlefmt::skip]
pub fn result_params(class: u8, _shape: Shape) -> Option<Rule>
    ensures { IsRule (pick_node c.ResultParams class _shape) result }
{
    match class {
        36 => Some(row(Tail(C::ResultsEnd), &[Token(T::LeftParen), Inline(C::Entries)])),
        _ => None,
    }
}

#[rattlefmt::skip]
pub fn results_end(class: u8, shape: Shape) -> Option<Rule>
    ensures { IsRule (pick_node c.ResultsEnd class shape) result }
{
    match class {
        37 => if meets(Guard::ResultList, shape) { Some(when(Guard::ResultList, T::Anything, Is(K::Params), &[Token(T::RightParen)])) } else { None },
        _ => None,
    }
}

#[rattlefmt::skip]
pub fn entry(class: u8, _shape: Shape) -> Option<Rule>
    ensures { IsRule (pick_node c.Entry class _shape) result }
{
    match class {
        0 | 8 | 16 | 21..=22 | 27 | 35..=36 | 38 | 46 | 58 | 76 => Some(row(Tail(C::EntryTail), &[Part(C::Run)])),
        _ => None,
    }
}

#[rattlefmt::skip]
pub fn entry_tail(class: u8, _shape: Shape) -> Option<Rule>
    ensures { IsRule (pick_node c.EntryTail class _shape) result }
{
    match class {
        32 | 37 | 73 => Some(when(Guard::Any, T::NoType, Bare, &[])),
        0 | 8 | 16 | 21..=22 | 27 | 36 | 38 | 46 | 58 | 76 => Some(row(Is(K::Param), &[Part(C::Type)])),
        35 => Some(row(Is(K::SpreadParam), &[Token(T::Ellipsis), Part(C::Type)])),
        _ => None,
    }
}

#[rattlefmt::skip]
pub fn run(class: u8, _shape: Shape) -> Option<Rule>
    ensures { IsRule (pick_node c.Run class _shape) result }
{
    match class {
        0 | 8 | 16 | 21..=22 | 27 | 35..=36 | 38 | 46 | 58 | 76 => Some(row(Tail(C::RunEnd), &[Inline(C::RunItem), Inline(C::MoreRun)])),
        _ => None,
    }
}

#[rattlefmt::skip]
pub fn variadic(class: u8, _shape: Shape) -> Option<Rule>
    ensures { IsRule (pick_node c.Variadic class _shape) result }
{
    match class {
        35 => Some(row(Is(K::Variadic), &[Token(T::Ellipsis), Part(C::Type)])),
        _ => None,
    }
}

#[rattlefmt::skip]
pub fn run_end(class: u8, shape: Shape) -> Option<Rule>
    ensures { IsRule (pick_node c.RunEnd class shape) result }
{
    match class {
        0 | 8 | 16 | 21..=22 | 27 | 36 | 38 | 46 | 58 | 76 => if meets(Guard::SingleName, shape) { Some(when(Guard::SingleName, T::NamesBefore, Bare, &[])) } else if meets(Guard::SeveralNames, shape) { Some(when(Guard::SeveralNames, T::TypeStart, Is(K::Names), &[])) } else { None },
        32 | 37 | 73 => Some(when(Guard::Any, T::NoType, Bare, &[])),
        35 => if meets(Guard::SingleName, shape) { Some(when(Guard::SingleName, T::NamesBefore, Bare, &[])) } else { None },
        _ => None,
    }
}

#[rattlefmt::skip]
pub fn type_expression(class: u8, _shape: Shape) -> Option<Rule>
    ensures { IsRule (pick_node c.Type class _shape) result }
{
    match class {
        0 | 76 => Some(row(Tail(C::NameTail), &[Part(C::Ident)])),
        38 => Some(row(Tail(C::BracketTail), &[Token(T::LeftBracket)])),
        58 => Some(row(Is(K::Star), &[Token(T::Star), Part(C::Type)])),
        16 => Some(row(Is(K::FuncType), &[Token(T::Func), Inline(C::Signature)])),
        27 => Some(row(Is(K::StructType), &[Token(T::Struct), Token(T::LeftBrace), Inline(C::Fields), Token(T::RightBrace)])),
        21 => Some(row(Is(K::InterfaceType), &[Token(T::Interface), Token(T::LeftBrace), Inline(C::Elems), Token(T::RightBrace)])),
        22 => Some(row(Is(K::MapType), &[Token(T::Map), Token(T::LeftBracket), Part(C::Type), Token(T::RightBracket), Part(C::Type)])),
        8 => Some(row(Tail(C::ChanTail), &[Token(T::Chan)])),
        36 => Some(row(Is(K::Paren), &[Token(T::LeftParen), Part(C::Type), Token(T::RightParen)])),
        46 => Some(row(Is(K::RecvChan), &[Token(T::Arrow), Token(T::Chan), Part(C::Type)])),
        _ => None,
    }
}

#[rattlefmt::skip]
pub fn chan_elem(class: u8, _shape: Shape) -> Option<Rule>
    ensures { IsRule (pick_node c.ChanElem class _shape) result }
{
    match class {
        0 | 76 => Some(row(Tail(C::NameTail), &[Part(C::Ident)])),
        38 => Some(row(Tail(C::BracketTail), &[Token(T::LeftBracket)])),
        58 => Some(row(Is(K::Star), &[Token(T::Star), Part(C::Type)])),
        16 => Some(row(Is(K::FuncType), &[Token(T::Func), Inline(C::Signature)])),
        27 => Some(row(Is(K::StructType), &[Token(T::Struct), Token(T::LeftBrace), Inline(C::Fields), Token(T::RightBrace)])),
        21 => Some(row(Is(K::InterfaceType), &[Token(T::Interface), Token(T::LeftBrace), Inline(C::Elems), Token(T::RightBrace)])),
        22 => Some(row(Is(K::MapType), &[Token(T::Map), Token(T::LeftBracket), Part(C::Type), Token(T::RightBracket), Part(C::Type)])),
        8 => Some(row(Tail(C::ChanTail), &[Token(T::Chan)])),
        36 => Some(row(Is(K::Paren), &[Token(T::LeftParen), Part(C::Type), Token(T::RightParen)])),
        _ => None,
    }
}

#[rattlefmt::skip]
pub fn plain_type(class: u8, _shape: Shape) -> Option<Rule>
    ensures { IsRule (pick_node c.PlainType class _shape) result }
{
    match class {
        0 | 76 => Some(row(Tail(C::NameTail), &[Part(C::Ident)])),
        38 => Some(row(Tail(C::BracketTail), &[Token(T::LeftBracket)])),
        58 => Some(row(Is(K::Star), &[Token(T::Star), Part(C::Type)])),
        16 => Some(row(Is(K::FuncType), &[Token(T::Func), Inline(C::Signature)])),
        27 => Some(row(Is(K::StructType), &[Token(T::Struct), Token(T::LeftBrace), Inline(C::Fields), Token(T::RightBrace)])),
        21 => Some(row(Is(K::InterfaceType), &[Token(T::Interface), Token(T::LeftBrace), Inline(C::Elems), Token(T::RightBrace)])),
        22 => Some(row(Is(K::MapType), &[Token(T::Map), Token(T::LeftBracket), Part(C::Type), Token(T::RightBracket), Part(C::Type)])),
        8 => Some(row(Tail(C::ChanTail), &[Token(T::Chan)])),
        46 => Some(row(Is(K::RecvChan), &[Token(T::Arrow), Token(T::Chan), Part(C::Type)])),
        _ => None,
    }
}

#[rattlefmt::skip]
pub fn name_tail(class: u8, _shape: Shape) -> Option<Rule>
    ensures { IsRule (pick_node c.NameTail class _shape) result }
{
    match class {
        34 => Some(row(Is(K::Selector), &[Token(T::Dot), Token(T::Name)])),
        _ => Some(when(Guard::Any, T::NotDot, Bare, &[])),
    }
}

#[rattlefmt::skip]
pub fn bracket_tail(class: u8, _shape: Shape) -> Option<Rule>
    ensures { IsRule (pick_node c.BracketTail class _shape) result }
{
    match class {
        39 => Some(row(Is(K::SliceType), &[Token(T::RightBracket), Part(C::Type)])),
        0..=5 | 8 | 16 | 21..=22 | 27 | 36 | 38 | 46..=49 | 51 | 58 | 63 | 70 | 76 => Some(row(Is(K::ArrayType), &[Operand(2, Setting::Free), Token(T::RightBracket), Part(C::Type)])),
        _ => None,
    }
}

#[rattlefmt::skip]
pub fn chan_tail(class: u8, _shape: Shape) -> Option<Rule>
    ensures { IsRule (pick_node c.ChanTail class _shape) result }
{
    match class {
        46 => Some(row(Is(K::SendChan), &[Token(T::Arrow), Part(C::Type)])),
        0 | 8 | 16 | 21..=22 | 27 | 36 | 38 | 58 | 76 => Some(row(Is(K::ChanType), &[Part(C::ChanElem)])),
        _ => None,
    }
}

#[rattlefmt::skip]
pub fn type_name(class: u8, _shape: Shape) -> Option<Rule>
    ensures { IsRule (pick_node c.TypeName class _shape) result }
{
    match class {
        0 | 76 => Some(row(Tail(C::NameTail), &[Part(C::Ident)])),
        _ => None,
    }
}

#[rattlefmt::skip]
pub fn field(class: u8, _shape: Shape) -> Option<Rule>
    ensures { IsRule (pick_node c.Field class _shape) result }
{
    match class {
        0 | 76 => Some(row(Tail(C::FieldTail), &[Part(C::FieldHead)])),
        58 => Some(row(Is(K::EmbeddedPointer), &[Token(T::Star), Part(C::TypeName), Inline(C::Tag)])),
        _ => None,
    }
}

#[rattlefmt::skip]
pub fn field_head(class: u8, _shape: Shape) -> Option<Rule>
    ensures { IsRule (pick_node c.FieldHead class _shape) result }
{
    match class {
        0 | 76 => Some(row(Tail(C::FieldHeadEnd), &[Part(C::Ident), Inline(C::MoreNames)])),
        _ => None,
    }
}

#[rattlefmt::skip]
pub fn field_head_end(class: u8, shape: Shape) -> Option<Rule>
    ensures { IsRule (pick_node c.FieldHeadEnd class shape) result }
{
    match class {
        0 | 8 | 16 | 21..=22 | 27 | 36 | 38 | 46 | 58 | 76 => if meets(Guard::Single, shape) { Some(when(Guard::Single, T::NotDot, Bare, &[])) } else if meets(Guard::Several, shape) { Some(when(Guard::Several, T::TypeStart, Is(K::Names), &[])) } else { None },
        5 | 31 | 41 => if meets(Guard::Single, shape) { Some(when(Guard::Single, T::NotDot, Bare, &[])) } else { None },
        34 => if meets(Guard::Single, shape) { Some(when(Guard::Single, T::Anything, Is(K::Selector), &[Token(T::Dot), Token(T::Name)])) } else { None },
        _ => None,
    }
}

#[rattlefmt::skip]
pub fn field_tail(class: u8, shape: Shape) -> Option<Rule>
    ensures { IsRule (pick_node c.FieldTail class shape) result }
{
    match class {
        0 | 8 | 16 | 21..=22 | 27 | 36 | 38 | 46 | 58 | 76 => if meets(Guard::FieldNames, shape) { Some(when(Guard::FieldNames, T::Anything, Is(K::Field), &[Part(C::Type), Inline(C::Tag)])) } else { None },
        5 | 31 | 41 => if meets(Guard::Single, shape) { Some(when(Guard::Single, T::NotTypeStart, Is(K::Embedded), &[Inline(C::Tag)])) } else { None },
        _ => None,
    }
}

#[rattlefmt::skip]
pub fn elem(class: u8, _shape: Shape) -> Option<Rule>
    ensures { IsRule (pick_node c.Elem class _shape) result }
{
    match class {
        0 => Some(row(Tail(C::ElemTail), &[Part(C::NamedIdent)])),
        76 => Some(row(Tail(C::BlankElemTail), &[Part(C::BlankIdent)])),
        _ => None,
    }
}

#[rattlefmt::skip]
pub fn blank_elem_tail(class: u8, _shape: Shape) -> Option<Rule>
    ensures { IsRule (pick_node c.BlankElemTail class _shape) result }
{
    match class {
        31 | 41 => Some(row(Bare, &[])),
        34 => Some(row(Is(K::Selector), &[Token(T::Dot), Token(T::Name)])),
        _ => None,
    }
}

#[rattlefmt::skip]
pub fn elem_tail(class: u8, _shape: Shape) -> Option<Rule>
    ensures { IsRule (pick_node c.ElemTail class _shape) result }
{
    match class {
        31 | 41 => Some(row(Bare, &[])),
        34 => Some(row(Is(K::Selector), &[Token(T::Dot), Token(T::Name)])),
        36 => Some(row(Is(K::Method), &[Inline(C::Signature)])),
        _ => None,
    }
}
