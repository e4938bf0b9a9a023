//! The rules of declarations and of files.
#![tactic(auto, unfolding(go_tree::specs::Nodes::nodes, go_tree::specs::Inlines::greedy, go_tree::specs::First::first, go_tree::specs::First::nullable, go_tree::specs::Follow::follow))]

ghost use Rattle.go_grammar.specs.View.{IsRule};
ghost use Rattle.go_tree.specs.Choice.{pick_node};
ghost use Rattle.go_tree.specs.declared.grammar.Category.TheVariants as c;

use crate::rule::{Rule, row, when};
use crate::shape::meets;
use go_tree::Ending::{Bare, Is, Tail};
use go_tree::Symbol::{Inline, Operand, Part, Token};
use go_tree::{Category as C, Guard, NodeKind as K, Setting, Shape, Terminal as T};

#[rattlefmt::skip]
pub fn clause(class: u8, _shape: Shape) -> Option<Rule>
    ensures { IsRule (pick_node c.Clause class _shape) result }
{
    match class {
        23 => Some(row(Is(K::Package), &[Token(T::Package), Part(C::NamedIdent)])),
        _ => None,
    }
}

#[rattlefmt::skip]
pub fn named_ident(class: u8, _shape: Shape) -> Option<Rule>
    ensures { IsRule (pick_node c.NamedIdent class _shape) result }
{
    match class {
        0 => Some(row(Is(K::Name), &[Token(T::Named)])),
        _ => None,
    }
}

#[rattlefmt::skip]
pub fn blank_ident(class: u8, _shape: Shape) -> Option<Rule>
    ensures { IsRule (pick_node c.BlankIdent class _shape) result }
{
    match class {
        76 => Some(row(Is(K::Name), &[Token(T::Blank)])),
        _ => None,
    }
}

#[rattlefmt::skip]
pub fn ident(class: u8, _shape: Shape) -> Option<Rule>
    ensures { IsRule (pick_node c.Ident class _shape) result }
{
    match class {
        0 | 76 => Some(row(Is(K::Name), &[Token(T::Name)])),
        _ => None,
    }
}

#[rattlefmt::skip]
pub fn import(class: u8, _shape: Shape) -> Option<Rule>
    ensures { IsRule (pick_node c.Import class _shape) result }
{
    match class {
        20 => Some(row(Tail(C::ImportTail), &[Token(T::Import)])),
        _ => None,
    }
}

#[rattlefmt::skip]
pub fn import_tail(class: u8, _shape: Shape) -> Option<Rule>
    ensures { IsRule (pick_node c.ImportTail class _shape) result }
{
    match class {
        0 | 5 | 34 | 76 => Some(row(Is(K::Import), &[Part(C::ImportSpec)])),
        36 => Some(row(Is(K::ImportGroup), &[Token(T::LeftParen), Inline(C::ImportSpecs), Token(T::RightParen)])),
        _ => None,
    }
}

#[rattlefmt::skip]
pub fn import_spec(class: u8, _shape: Shape) -> Option<Rule>
    ensures { IsRule (pick_node c.ImportSpec class _shape) result }
{
    match class {
        5 => Some(row(Is(K::ImportPath), &[Token(T::Text)])),
        34 => Some(row(Is(K::ImportDot), &[Token(T::Dot), Token(T::Text)])),
        0 | 76 => Some(row(Is(K::ImportNamed), &[Part(C::Ident), Token(T::Text)])),
        _ => None,
    }
}

#[rattlefmt::skip]
pub fn constants(class: u8, _shape: Shape) -> Option<Rule>
    ensures { IsRule (pick_node c.Const class _shape) result }
{
    match class {
        9 => Some(row(Tail(C::ConstTail), &[Token(T::Const)])),
        _ => None,
    }
}

#[rattlefmt::skip]
pub fn const_tail(class: u8, _shape: Shape) -> Option<Rule>
    ensures { IsRule (pick_node c.ConstTail class _shape) result }
{
    match class {
        0 | 76 => Some(row(Is(K::Const), &[Part(C::ConstSpec)])),
        36 => Some(row(Is(K::ConstGroup), &[Token(T::LeftParen), Inline(C::ConstSpecs), Token(T::RightParen)])),
        _ => None,
    }
}

#[rattlefmt::skip]
pub fn const_spec(class: u8, _shape: Shape) -> Option<Rule>
    ensures { IsRule (pick_node c.ConstSpec class _shape) result }
{
    match class {
        0 | 76 => Some(row(Tail(C::ConstSpecTail), &[Part(C::Names)])),
        _ => None,
    }
}

#[rattlefmt::skip]
pub fn const_spec_tail(class: u8, _shape: Shape) -> Option<Rule>
    ensures { IsRule (pick_node c.ConstSpecTail class _shape) result }
{
    match class {
        7 | 11 | 31 | 37 | 41 | 75 => Some(row(Is(K::ConstNames), &[])),
        42 => Some(row(Is(K::ConstValues), &[Token(T::Assign), Part(C::Exprs)])),
        0 | 8 | 16 | 21..=22 | 27 | 36 | 38 | 46 | 58 | 76 => Some(row(Is(K::ConstTyped), &[Part(C::Type), Token(T::Assign), Part(C::Exprs)])),
        _ => None,
    }
}

#[rattlefmt::skip]
pub fn names(class: u8, _shape: Shape) -> Option<Rule>
    ensures { IsRule (pick_node c.Names class _shape) result }
{
    match class {
        0 | 76 => Some(row(Tail(C::NamesEnd), &[Part(C::Ident), Inline(C::MoreNames)])),
        _ => None,
    }
}

#[rattlefmt::skip]
pub fn names_end(class: u8, shape: Shape) -> Option<Rule>
    ensures { IsRule (pick_node c.NamesEnd class shape) result }
{
    match class {
        0 | 7..=8 | 11 | 16 | 21..=22 | 27 | 31 | 36..=38 | 41..=42 | 46 | 58 | 75..=76 => if meets(Guard::Single, shape) { Some(when(Guard::Single, T::Anything, Bare, &[])) } else if meets(Guard::Several, shape) { Some(when(Guard::Several, T::Anything, Is(K::Names), &[])) } else { None },
        _ => None,
    }
}

#[rattlefmt::skip]
pub fn exprs(class: u8, _shape: Shape) -> Option<Rule>
    ensures { IsRule (pick_node c.Exprs class _shape) result }
{
    match class {
        0..=5 | 8 | 16 | 21..=22 | 27 | 36 | 38 | 46..=49 | 51 | 58 | 63 | 70 | 76 => Some(row(Tail(C::ExprsEnd), &[Operand(2, Setting::Free), Inline(C::MoreExprs)])),
        _ => None,
    }
}

#[rattlefmt::skip]
pub fn exprs_end(class: u8, shape: Shape) -> Option<Rule>
    ensures { IsRule (pick_node c.ExprsEnd class shape) result }
{
    match class {
        7 | 11 | 31 | 33 | 37 | 41 | 75 => if meets(Guard::Single, shape) { Some(when(Guard::Single, T::Anything, Bare, &[])) } else if meets(Guard::Several, shape) { Some(when(Guard::Several, T::Anything, Is(K::Exprs), &[])) } else { None },
        _ => None,
    }
}

#[rattlefmt::skip]
pub fn types(class: u8, _shape: Shape) -> Option<Rule>
    ensures { IsRule (pick_node c.Types class _shape) result }
{
    match class {
        29 => Some(row(Tail(C::TypesTail), &[Token(T::Type)])),
        _ => None,
    }
}

#[rattlefmt::skip]
pub fn types_tail(class: u8, _shape: Shape) -> Option<Rule>
    ensures { IsRule (pick_node c.TypesTail class _shape) result }
{
    match class {
        0 | 76 => Some(row(Is(K::TypeDecl), &[Part(C::TypeSpec)])),
        36 => Some(row(Is(K::TypeGroup), &[Token(T::LeftParen), Inline(C::TypeSpecs), Token(T::RightParen)])),
        _ => None,
    }
}

#[rattlefmt::skip]
pub fn type_spec(class: u8, _shape: Shape) -> Option<Rule>
    ensures { IsRule (pick_node c.TypeSpec class _shape) result }
{
    match class {
        0 | 76 => Some(row(Tail(C::TypeSpecTail), &[Part(C::Ident)])),
        _ => None,
    }
}

#[rattlefmt::skip]
pub fn type_spec_tail(class: u8, _shape: Shape) -> Option<Rule>
    ensures { IsRule (pick_node c.TypeSpecTail class _shape) result }
{
    match class {
        0 | 8 | 16 | 21..=22 | 27 | 36 | 38 | 46 | 58 | 76 => Some(row(Is(K::Defined), &[Part(C::Type)])),
        42 => Some(row(Is(K::Alias), &[Token(T::Assign), Part(C::Type)])),
        _ => None,
    }
}

#[rattlefmt::skip]
pub fn vars(class: u8, _shape: Shape) -> Option<Rule>
    ensures { IsRule (pick_node c.Vars class _shape) result }
{
    match class {
        30 => Some(row(Tail(C::VarsTail), &[Token(T::Var)])),
        _ => None,
    }
}

#[rattlefmt::skip]
pub fn vars_tail(class: u8, _shape: Shape) -> Option<Rule>
    ensures { IsRule (pick_node c.VarsTail class _shape) result }
{
    match class {
        0 | 76 => Some(row(Is(K::Var), &[Part(C::VarSpec)])),
        36 => Some(row(Is(K::VarGroup), &[Token(T::LeftParen), Inline(C::VarSpecs), Token(T::RightParen)])),
        _ => None,
    }
}

#[rattlefmt::skip]
pub fn var_spec(class: u8, _shape: Shape) -> Option<Rule>
    ensures { IsRule (pick_node c.VarSpec class _shape) result }
{
    match class {
        0 | 76 => Some(row(Tail(C::VarSpecTail), &[Part(C::Names)])),
        _ => None,
    }
}

#[rattlefmt::skip]
pub fn var_spec_tail(class: u8, _shape: Shape) -> Option<Rule>
    ensures { IsRule (pick_node c.VarSpecTail class _shape) result }
{
    match class {
        42 => Some(row(Is(K::VarValues), &[Token(T::Assign), Part(C::Exprs)])),
        0 | 8 | 16 | 21..=22 | 27 | 36 | 38 | 46 | 58 | 76 => Some(row(Tail(C::VarTypedTail), &[Part(C::Type)])),
        _ => None,
    }
}

#[rattlefmt::skip]
pub fn var_typed_tail(class: u8, _shape: Shape) -> Option<Rule>
    ensures { IsRule (pick_node c.VarTypedTail class _shape) result }
{
    match class {
        7 | 11 | 31 | 37 | 41 | 75 => Some(row(Is(K::VarTyped), &[])),
        42 => Some(row(Is(K::VarTypedValues), &[Token(T::Assign), Part(C::Exprs)])),
        _ => None,
    }
}

#[rattlefmt::skip]
pub fn func(class: u8, _shape: Shape) -> Option<Rule>
    ensures { IsRule (pick_node c.Func class _shape) result }
{
    match class {
        16 => Some(row(Tail(C::FuncName), &[Token(T::Func)])),
        _ => None,
    }
}

#[rattlefmt::skip]
pub fn func_name(class: u8, _shape: Shape) -> Option<Rule>
    ensures { IsRule (pick_node c.FuncName class _shape) result }
{
    match class {
        0 | 76 => Some(row(Tail(C::FuncBody), &[Part(C::Ident), Inline(C::Signature)])),
        36 => Some(row(Tail(C::MethodBody), &[Part(C::Params), Part(C::Ident), Inline(C::Signature)])),
        _ => None,
    }
}

#[rattlefmt::skip]
pub fn func_body(class: u8, _shape: Shape) -> Option<Rule>
    ensures { IsRule (pick_node c.FuncBody class _shape) result }
{
    match class {
        75 => Some(row(Is(K::FuncDecl), &[])),
        40 => Some(row(Is(K::FuncDecl), &[Part(C::Block)])),
        _ => None,
    }
}

#[rattlefmt::skip]
pub fn method_body(class: u8, _shape: Shape) -> Option<Rule>
    ensures { IsRule (pick_node c.MethodBody class _shape) result }
{
    match class {
        75 => Some(row(Is(K::MethodDecl), &[])),
        40 => Some(row(Is(K::MethodDecl), &[Part(C::Block)])),
        _ => None,
    }
}
