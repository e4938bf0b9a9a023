//! The rules of operands.
#![tactic(auto, unfolding(go_tree::specs::Nodes::nodes, go_tree::specs::Inlines::greedy, go_tree::specs::First::first, go_tree::specs::First::nullable, go_tree::specs::Follow::follow))]

ghost use Rattle.go_grammar.specs.View.{IsRule};
ghost use Rattle.go_tree.specs.Choice.{pick_node};
ghost use Rattle.go_tree.specs.declared.grammar.Category.TheVariants as c;

use crate::rule::{Rule, row, when};
use go_tree::Ending::{Bare, Is, Tail};
use go_tree::Symbol::{Inline, Operand, Part, Token};
use go_tree::{Category as C, Guard, NodeKind as K, Setting, Shape, Terminal as T};

#[rattlefmt::skip]
pub fn literal_value(class: u8, _shape: Shape) -> Option<Rule>
    ensures { IsRule (pick_node c.Value class _shape) result }
{
    match class {
        40 => Some(row(Is(K::Value), &[Token(T::LeftBrace), Inline(C::Items), Token(T::RightBrace)])),
        _ => None,
    }
}

#[rattlefmt::skip]
pub fn item(class: u8, _shape: Shape) -> Option<Rule>
    ensures { IsRule (pick_node c.Item class _shape) result }
{
    match class {
        0..=5 | 8 | 16 | 21..=22 | 27 | 36 | 38 | 40 | 46..=49 | 51 | 58 | 63 | 70 | 76 => Some(row(Tail(C::ItemTail), &[Inline(C::Element)])),
        _ => None,
    }
}

#[rattlefmt::skip]
pub fn item_tail(class: u8, _shape: Shape) -> Option<Rule>
    ensures { IsRule (pick_node c.ItemTail class _shape) result }
{
    match class {
        32 | 41 => Some(row(Bare, &[])),
        33 => Some(row(Is(K::KeyValue), &[Token(T::Colon), Inline(C::Element)])),
        _ => None,
    }
}

#[rattlefmt::skip]
pub fn lit_tail(class: u8, _shape: Shape) -> Option<Rule>
    ensures { IsRule (pick_node c.LitTail class _shape) result }
{
    match class {
        40 => Some(row(Is(K::Composite), &[Part(C::Value)])),
        _ => Some(when(Guard::Any, T::NotBrace, Bare, &[])),
    }
}

#[rattlefmt::skip]
pub fn func_tail(class: u8, _shape: Shape) -> Option<Rule>
    ensures { IsRule (pick_node c.FuncTail class _shape) result }
{
    match class {
        40 => Some(row(Is(K::FuncLit), &[Part(C::Block)])),
        _ => Some(when(Guard::Any, T::NotBrace, Is(K::FuncType), &[])),
    }
}

#[rattlefmt::skip]
pub fn struct_type(class: u8, _shape: Shape) -> Option<Rule>
    ensures { IsRule (pick_node c.StructType class _shape) result }
{
    match class {
        27 => Some(row(Is(K::StructType), &[Token(T::Struct), Token(T::LeftBrace), Inline(C::Fields), Token(T::RightBrace)])),
        _ => None,
    }
}

#[rattlefmt::skip]
pub fn map_type(class: u8, _shape: Shape) -> Option<Rule>
    ensures { IsRule (pick_node c.MapType class _shape) result }
{
    match class {
        22 => Some(row(Is(K::MapType), &[Token(T::Map), Token(T::LeftBracket), Part(C::Type), Token(T::RightBracket), Part(C::Type)])),
        _ => None,
    }
}

#[rattlefmt::skip]
pub fn bracket_type(class: u8, _shape: Shape) -> Option<Rule>
    ensures { IsRule (pick_node c.BracketType class _shape) result }
{
    match class {
        38 => Some(row(Tail(C::BracketTail), &[Token(T::LeftBracket)])),
        _ => None,
    }
}

#[rattlefmt::skip]
pub fn dots_type(class: u8, _shape: Shape) -> Option<Rule>
    ensures { IsRule (pick_node c.DotsType class _shape) result }
{
    match class {
        70 => Some(row(Is(K::DotsType), &[Token(T::BracketDots), Token(T::Ellipsis), Token(T::RightBracket), Part(C::Type)])),
        _ => None,
    }
}

#[rattlefmt::skip]
pub fn index_tail(class: u8, _shape: Shape) -> Option<Rule>
    ensures { IsRule (pick_node c.IndexTail class _shape) result }
{
    match class {
        0..=5 | 8 | 16 | 21..=22 | 27 | 36 | 38 | 46..=49 | 51 | 58 | 63 | 70 | 76 => Some(row(Tail(C::IndexEnd), &[Operand(2, Setting::Free)])),
        33 => Some(row(Tail(C::SliceTail), &[Token(T::Colon)])),
        _ => None,
    }
}

#[rattlefmt::skip]
pub fn index_end(class: u8, _shape: Shape) -> Option<Rule>
    ensures { IsRule (pick_node c.IndexEnd class _shape) result }
{
    match class {
        39 => Some(row(Is(K::Index), &[Token(T::RightBracket)])),
        33 => Some(row(Tail(C::SliceLow), &[Token(T::Colon)])),
        _ => None,
    }
}

#[rattlefmt::skip]
pub fn slice_low(class: u8, _shape: Shape) -> Option<Rule>
    ensures { IsRule (pick_node c.SliceLow class _shape) result }
{
    match class {
        39 => Some(row(Is(K::SliceLow), &[Token(T::RightBracket)])),
        0..=5 | 8 | 16 | 21..=22 | 27 | 36 | 38 | 46..=49 | 51 | 58 | 63 | 70 | 76 => Some(row(Tail(C::SliceLowHigh), &[Operand(2, Setting::Free)])),
        _ => None,
    }
}

#[rattlefmt::skip]
pub fn slice_low_high(class: u8, _shape: Shape) -> Option<Rule>
    ensures { IsRule (pick_node c.SliceLowHigh class _shape) result }
{
    match class {
        39 => Some(row(Is(K::SliceLowHigh), &[Token(T::RightBracket)])),
        33 => Some(row(Is(K::SliceLowHighMax), &[Token(T::Colon), Operand(2, Setting::Free), Token(T::RightBracket)])),
        _ => None,
    }
}

#[rattlefmt::skip]
pub fn slice_tail(class: u8, _shape: Shape) -> Option<Rule>
    ensures { IsRule (pick_node c.SliceTail class _shape) result }
{
    match class {
        39 => Some(row(Is(K::SliceAll), &[Token(T::RightBracket)])),
        0..=5 | 8 | 16 | 21..=22 | 27 | 36 | 38 | 46..=49 | 51 | 58 | 63 | 70 | 76 => Some(row(Tail(C::SliceHigh), &[Operand(2, Setting::Free)])),
        _ => None,
    }
}

#[rattlefmt::skip]
pub fn slice_high(class: u8, _shape: Shape) -> Option<Rule>
    ensures { IsRule (pick_node c.SliceHigh class _shape) result }
{
    match class {
        39 => Some(row(Is(K::SliceHigh), &[Token(T::RightBracket)])),
        33 => Some(row(Is(K::SliceHighMax), &[Token(T::Colon), Operand(2, Setting::Free), Token(T::RightBracket)])),
        _ => None,
    }
}

#[rattlefmt::skip]
pub fn call_tail(class: u8, _shape: Shape) -> Option<Rule>
    ensures { IsRule (pick_node c.CallTail class _shape) result }
{
    match class {
        37 => Some(row(Is(K::Call), &[Token(T::RightParen)])),
        0..=5 | 8 | 16 | 21..=22 | 27 | 36 | 38 | 46..=49 | 51 | 58 | 63 | 70 | 76 => Some(row(Tail(C::CallEnd), &[Operand(2, Setting::Free), Inline(C::MoreExprs)])),
        _ => None,
    }
}

#[rattlefmt::skip]
pub fn call_end(class: u8, _shape: Shape) -> Option<Rule>
    ensures { IsRule (pick_node c.CallEnd class _shape) result }
{
    match class {
        37 | 73 => Some(row(Is(K::Call), &[Inline(C::TrailingComma), Token(T::RightParen)])),
        35 => Some(row(Is(K::CallSpread), &[Token(T::Ellipsis), Inline(C::TrailingComma), Token(T::RightParen)])),
        _ => None,
    }
}
