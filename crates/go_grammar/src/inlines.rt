//! The alternatives of declarations and operands that make no node.
#![tactic(auto, unfolding(go_tree::specs::Inlines::inlines, go_tree::specs::Inlines::greedy, go_tree::specs::First::first, go_tree::specs::First::nullable, go_tree::specs::Follow::follow))]

ghost use Rattle.go_grammar.specs.View.{AreSymbols};
ghost use Rattle.go_tree.specs.Choice.{pick_inline};
ghost use Rattle.go_tree.specs.declared.grammar.Category.TheVariants as c;

use go_tree::Symbol::{Inline, Operand, Part, Token};
use go_tree::{Category as C, Setting, Symbol, Terminal as T};

#[rattlefmt::skip]
pub fn clause_piece(class: u8) -> Option<&'static [Symbol]>
    ensures { AreSymbols (pick_inline c.ClausePiece class) result }
{
    match class {
        23 => Some(&[Part(C::Clause)]),
        _ => None,
    }
}

#[rattlefmt::skip]
pub fn top_piece(class: u8) -> Option<&'static [Symbol]>
    ensures { AreSymbols (pick_inline c.TopPiece class) result }
{
    match class {
        20 => Some(&[Part(C::Import)]),
        9 | 16 | 29..=30 => Some(&[Inline(C::Declaration)]),
        _ => None,
    }
}

#[rattlefmt::skip]
pub fn import_specs(class: u8) -> Option<&'static [Symbol]>
    ensures { AreSymbols (pick_inline c.ImportSpecs class) result }
{
    match class {
        37 => Some(&[]),
        0 | 5 | 34 | 76 => Some(&[Part(C::ImportSpec), Inline(C::MoreImportSpecs)]),
        _ => None,
    }
}

#[rattlefmt::skip]
pub fn more_import_specs(class: u8) -> Option<&'static [Symbol]>
    ensures { AreSymbols (pick_inline c.MoreImportSpecs class) result }
{
    match class {
        37 => Some(&[]),
        31 => Some(&[Token(T::Semi), Inline(C::ImportSpecs)]),
        _ => None,
    }
}

#[rattlefmt::skip]
pub fn declaration(class: u8) -> Option<&'static [Symbol]>
    ensures { AreSymbols (pick_inline c.Declaration class) result }
{
    match class {
        9 => Some(&[Part(C::Const)]),
        29 => Some(&[Part(C::Types)]),
        30 => Some(&[Part(C::Vars)]),
        16 => Some(&[Part(C::Func)]),
        _ => None,
    }
}

#[rattlefmt::skip]
pub fn const_specs(class: u8) -> Option<&'static [Symbol]>
    ensures { AreSymbols (pick_inline c.ConstSpecs class) result }
{
    match class {
        37 => Some(&[]),
        0 | 76 => Some(&[Part(C::ConstSpec), Inline(C::MoreConstSpecs)]),
        _ => None,
    }
}

#[rattlefmt::skip]
pub fn more_const_specs(class: u8) -> Option<&'static [Symbol]>
    ensures { AreSymbols (pick_inline c.MoreConstSpecs class) result }
{
    match class {
        37 => Some(&[]),
        31 => Some(&[Token(T::Semi), Inline(C::ConstSpecs)]),
        _ => None,
    }
}

#[rattlefmt::skip]
pub fn more_names(class: u8) -> Option<&'static [Symbol]>
    ensures { AreSymbols (pick_inline c.MoreNames class) result }
{
    match class {
        0 | 5 | 7..=8 | 11 | 16 | 21..=22 | 27 | 31 | 34 | 36..=38 | 41..=42 | 46 | 58 | 75..=76 => Some(&[]),
        32 => Some(&[Token(T::Comma), Part(C::Ident), Inline(C::MoreNames)]),
        _ => None,
    }
}

#[rattlefmt::skip]
pub fn more_exprs(class: u8) -> Option<&'static [Symbol]>
    ensures { AreSymbols (pick_inline c.MoreExprs class) result }
{
    match class {
        7 | 11 | 31 | 33 | 35 | 37 | 41..=46 | 67 | 73 | 75 => Some(&[]),
        32 => Some(&[Token(T::Comma), Operand(2, Setting::Free), Inline(C::MoreExprs)]),
        _ => None,
    }
}

#[rattlefmt::skip]
pub fn type_specs(class: u8) -> Option<&'static [Symbol]>
    ensures { AreSymbols (pick_inline c.TypeSpecs class) result }
{
    match class {
        37 => Some(&[]),
        0 | 76 => Some(&[Part(C::TypeSpec), Inline(C::MoreTypeSpecs)]),
        _ => None,
    }
}

#[rattlefmt::skip]
pub fn more_type_specs(class: u8) -> Option<&'static [Symbol]>
    ensures { AreSymbols (pick_inline c.MoreTypeSpecs class) result }
{
    match class {
        37 => Some(&[]),
        31 => Some(&[Token(T::Semi), Inline(C::TypeSpecs)]),
        _ => None,
    }
}

#[rattlefmt::skip]
pub fn var_specs(class: u8) -> Option<&'static [Symbol]>
    ensures { AreSymbols (pick_inline c.VarSpecs class) result }
{
    match class {
        37 => Some(&[]),
        0 | 76 => Some(&[Part(C::VarSpec), Inline(C::MoreVarSpecs)]),
        _ => None,
    }
}

#[rattlefmt::skip]
pub fn more_var_specs(class: u8) -> Option<&'static [Symbol]>
    ensures { AreSymbols (pick_inline c.MoreVarSpecs class) result }
{
    match class {
        37 => Some(&[]),
        31 => Some(&[Token(T::Semi), Inline(C::VarSpecs)]),
        _ => None,
    }
}

#[rattlefmt::skip]
pub fn signature(class: u8) -> Option<&'static [Symbol]>
    ensures { AreSymbols (pick_inline c.Signature class) result }
{
    match class {
        36 => Some(&[Part(C::Params), Inline(C::Results)]),
        _ => None,
    }
}

#[rattlefmt::skip]
pub fn results(class: u8) -> Option<&'static [Symbol]>
    ensures { AreSymbols (pick_inline c.Results class) result }
{
    match class {
        36 => Some(&[Part(C::ResultParams)]),
        0 | 8 | 16 | 21..=22 | 27 | 38 | 46 | 58 | 76 => Some(&[Part(C::PlainType)]),
        _ => Some(&[]),
    }
}

#[rattlefmt::skip]
pub fn entries(class: u8) -> Option<&'static [Symbol]>
    ensures { AreSymbols (pick_inline c.Entries class) result }
{
    match class {
        37 => Some(&[]),
        0 | 8 | 16 | 21..=22 | 27 | 35..=36 | 38 | 46 | 58 | 76 => Some(&[Part(C::Entry), Inline(C::MoreEntries), Inline(C::TrailingComma)]),
        _ => None,
    }
}

#[rattlefmt::skip]
pub fn more_entries(class: u8) -> Option<&'static [Symbol]>
    ensures { AreSymbols (pick_inline c.MoreEntries class) result }
{
    match class {
        37 | 73 => Some(&[]),
        32 => Some(&[Token(T::Comma), Part(C::Entry), Inline(C::MoreEntries)]),
        _ => None,
    }
}

#[rattlefmt::skip]
pub fn trailing_comma(class: u8) -> Option<&'static [Symbol]>
    ensures { AreSymbols (pick_inline c.TrailingComma class) result }
{
    match class {
        37 => Some(&[]),
        73 => Some(&[Token(T::CommaParen)]),
        _ => None,
    }
}

#[rattlefmt::skip]
pub fn run_item(class: u8) -> Option<&'static [Symbol]>
    ensures { AreSymbols (pick_inline c.RunItem class) result }
{
    match class {
        0 | 8 | 16 | 21..=22 | 27 | 36 | 38 | 46 | 58 | 76 => Some(&[Part(C::Type)]),
        35 => Some(&[Part(C::Variadic)]),
        _ => None,
    }
}

#[rattlefmt::skip]
pub fn more_run(class: u8) -> Option<&'static [Symbol]>
    ensures { AreSymbols (pick_inline c.MoreRun class) result }
{
    match class {
        0 | 8 | 16 | 21..=22 | 27 | 35..=38 | 46 | 58 | 73 | 76 => Some(&[]),
        32 => Some(&[Token(T::Comma), Inline(C::RunItem), Inline(C::MoreRun)]),
        _ => None,
    }
}

#[rattlefmt::skip]
pub fn fields(class: u8) -> Option<&'static [Symbol]>
    ensures { AreSymbols (pick_inline c.Fields class) result }
{
    match class {
        41 => Some(&[]),
        0 | 58 | 76 => Some(&[Part(C::Field), Inline(C::MoreFields)]),
        _ => None,
    }
}

#[rattlefmt::skip]
pub fn more_fields(class: u8) -> Option<&'static [Symbol]>
    ensures { AreSymbols (pick_inline c.MoreFields class) result }
{
    match class {
        41 => Some(&[]),
        31 => Some(&[Token(T::Semi), Inline(C::Fields)]),
        _ => None,
    }
}

#[rattlefmt::skip]
pub fn tag(class: u8) -> Option<&'static [Symbol]>
    ensures { AreSymbols (pick_inline c.Tag class) result }
{
    match class {
        31 | 41 => Some(&[]),
        5 => Some(&[Token(T::Text)]),
        _ => None,
    }
}

#[rattlefmt::skip]
pub fn elems(class: u8) -> Option<&'static [Symbol]>
    ensures { AreSymbols (pick_inline c.Elems class) result }
{
    match class {
        41 => Some(&[]),
        0 | 76 => Some(&[Part(C::Elem), Inline(C::MoreElems)]),
        _ => None,
    }
}

#[rattlefmt::skip]
pub fn more_elems(class: u8) -> Option<&'static [Symbol]>
    ensures { AreSymbols (pick_inline c.MoreElems class) result }
{
    match class {
        41 => Some(&[]),
        31 => Some(&[Token(T::Semi), Inline(C::Elems)]),
        _ => None,
    }
}

#[rattlefmt::skip]
pub fn items(class: u8) -> Option<&'static [Symbol]>
    ensures { AreSymbols (pick_inline c.Items class) result }
{
    match class {
        41 => Some(&[]),
        0..=5 | 8 | 16 | 21..=22 | 27 | 36 | 38 | 40 | 46..=49 | 51 | 58 | 63 | 70 | 76 => Some(&[Part(C::Item), Inline(C::MoreItems)]),
        _ => None,
    }
}

#[rattlefmt::skip]
pub fn more_items(class: u8) -> Option<&'static [Symbol]>
    ensures { AreSymbols (pick_inline c.MoreItems class) result }
{
    match class {
        41 => Some(&[]),
        32 => Some(&[Token(T::Comma), Inline(C::Items)]),
        _ => None,
    }
}

#[rattlefmt::skip]
pub fn element(class: u8) -> Option<&'static [Symbol]>
    ensures { AreSymbols (pick_inline c.Element class) result }
{
    match class {
        0..=5 | 8 | 16 | 21..=22 | 27 | 36 | 38 | 46..=49 | 51 | 58 | 63 | 70 | 76 => Some(&[Operand(2, Setting::Free)]),
        40 => Some(&[Part(C::Value)]),
        _ => None,
    }
}
