//! The tower of operands: how one begins, and how it goes on.
ghost use Rattle.go_grammar.specs.View.{IsRule};
ghost use Rattle.go_tree.specs.Choice.{pick_prefix, pick_suffix};
ghost use Rattle.go_tree.specs.declared.grammar.Setting.TheVariants as m;

use crate::rule::{Rule, operand};
use go_tree::Ending::{Bare, Is, Tail};
use go_tree::Symbol::{Inline, Operand, Part, Token};
use go_tree::{Category as C, Guard, NodeKind as K, Setting, Terminal as T};

#[rattlefmt::skip]
#[tactic(auto, unfolding(go_tree::specs::Operands::prefixes, go_tree::specs::First::first, go_tree::specs::First::nullable))]
fn prefix_free(class: u8) -> Option<Rule>
    ensures { IsRule (pick_prefix m.Free class) result }
{
    match class {
        0 | 76 => Some(operand(Tail(C::LitTail), 8, 0, &[Part(C::TypeName)])),
        1 => Some(operand(Is(K::Int), 8, 0, &[Token(T::Int)])),
        2 => Some(operand(Is(K::Float), 8, 0, &[Token(T::Float)])),
        3 => Some(operand(Is(K::Imag), 8, 0, &[Token(T::Imag)])),
        4 => Some(operand(Is(K::Rune), 8, 0, &[Token(T::Rune)])),
        5 => Some(operand(Is(K::Text), 8, 0, &[Token(T::Text)])),
        36 => Some(operand(Is(K::Paren), 8, 0, &[Token(T::LeftParen), Operand(2, Setting::Free), Token(T::RightParen)])),
        46..=49 | 51 | 63 => Some(operand(Is(K::Unary), 7, 0, &[Token(T::Sign), Operand(7, Setting::Free)])),
        58 => Some(operand(Is(K::Star), 7, 0, &[Token(T::Star), Operand(7, Setting::Free)])),
        38 => Some(operand(Tail(C::LitTail), 8, 0, &[Part(C::BracketType)])),
        70 => Some(operand(Is(K::Composite), 8, 0, &[Part(C::DotsType), Part(C::Value)])),
        22 => Some(operand(Tail(C::LitTail), 8, 0, &[Part(C::MapType)])),
        27 => Some(operand(Tail(C::LitTail), 8, 0, &[Part(C::StructType)])),
        21 => Some(operand(Is(K::InterfaceType), 8, 0, &[Token(T::Interface), Token(T::LeftBrace), Inline(C::Elems), Token(T::RightBrace)])),
        8 => Some(operand(Tail(C::ChanTail), 8, 0, &[Token(T::Chan)])),
        16 => Some(operand(Tail(C::FuncTail), 8, 0, &[Token(T::Func), Inline(C::Signature)])),
        _ => None,
    }
}

#[rattlefmt::skip]
#[tactic(auto, unfolding(go_tree::specs::Operands::prefixes, go_tree::specs::First::first, go_tree::specs::First::nullable))]
fn prefix_header(class: u8) -> Option<Rule>
    ensures { IsRule (pick_prefix m.Header class) result }
{
    match class {
        0 | 76 => Some(operand(Bare, 8, 0, &[Part(C::TypeName)])),
        1 => Some(operand(Is(K::Int), 8, 0, &[Token(T::Int)])),
        2 => Some(operand(Is(K::Float), 8, 0, &[Token(T::Float)])),
        3 => Some(operand(Is(K::Imag), 8, 0, &[Token(T::Imag)])),
        4 => Some(operand(Is(K::Rune), 8, 0, &[Token(T::Rune)])),
        5 => Some(operand(Is(K::Text), 8, 0, &[Token(T::Text)])),
        36 => Some(operand(Is(K::Paren), 8, 0, &[Token(T::LeftParen), Operand(2, Setting::Free), Token(T::RightParen)])),
        46..=49 | 51 | 63 => Some(operand(Is(K::Unary), 7, 0, &[Token(T::Sign), Operand(7, Setting::Header)])),
        58 => Some(operand(Is(K::Star), 7, 0, &[Token(T::Star), Operand(7, Setting::Header)])),
        38 => Some(operand(Tail(C::LitTail), 8, 0, &[Part(C::BracketType)])),
        70 => Some(operand(Is(K::Composite), 8, 0, &[Part(C::DotsType), Part(C::Value)])),
        22 => Some(operand(Tail(C::LitTail), 8, 0, &[Part(C::MapType)])),
        27 => Some(operand(Tail(C::LitTail), 8, 0, &[Part(C::StructType)])),
        21 => Some(operand(Is(K::InterfaceType), 8, 0, &[Token(T::Interface), Token(T::LeftBrace), Inline(C::Elems), Token(T::RightBrace)])),
        8 => Some(operand(Tail(C::ChanTail), 8, 0, &[Token(T::Chan)])),
        16 => Some(operand(Tail(C::FuncTail), 8, 0, &[Token(T::Func), Inline(C::Signature)])),
        _ => None,
    }
}

/// The rule by which an operand begins before a token of this class.
pub fn prefix_rule(setting: Setting, class: u8) -> Option<Rule>
    ensures { IsRule (pick_prefix setting class) result }
{
    match setting {
        Setting::Free => prefix_free(class),
        Setting::Header => prefix_header(class),
    }
}

#[rattlefmt::skip]
#[tactic(auto, unfolding(go_tree::specs::Operands::suffixes, go_tree::specs::First::first, go_tree::specs::First::nullable))]
fn suffix_free(class: u8) -> Option<Rule>
    ensures { IsRule (pick_suffix m.Free class) result }
{
    match class {
        66 => Some(operand(Is(K::Binary), 2, 2, &[Token(T::Operator(2)), Operand(3, Setting::Free)])),
        65 => Some(operand(Is(K::Binary), 3, 3, &[Token(T::Operator(3)), Operand(4, Setting::Free)])),
        52..=57 => Some(operand(Is(K::Binary), 4, 4, &[Token(T::Operator(4)), Operand(5, Setting::Free)])),
        48..=51 => Some(operand(Is(K::Binary), 5, 5, &[Token(T::Operator(5)), Operand(6, Setting::Free)])),
        58..=64 => Some(operand(Is(K::Binary), 6, 6, &[Token(T::Operator(6)), Operand(7, Setting::Free)])),
        34 => Some(operand(Is(K::Selector), 8, 8, &[Token(T::Dot), Token(T::Name)])),
        68 => Some(operand(Is(K::Assert), 8, 8, &[Token(T::DotParen), Token(T::LeftParen), Part(C::Type), Token(T::RightParen)])),
        69 => Some(operand(Is(K::TypeGuard), 1, 8, &[Token(T::DotType), Token(T::LeftParen), Token(T::Type), Token(T::RightParen)])),
        38 => Some(operand(Tail(C::IndexTail), 8, 8, &[Token(T::LeftBracket)])),
        36 => Some(operand(Tail(C::CallTail), 8, 8, &[Token(T::LeftParen)])),
        _ => None,
    }
}

#[rattlefmt::skip]
#[tactic(auto, unfolding(go_tree::specs::Operands::suffixes, go_tree::specs::First::first, go_tree::specs::First::nullable))]
fn suffix_header(class: u8) -> Option<Rule>
    ensures { IsRule (pick_suffix m.Header class) result }
{
    match class {
        66 => Some(operand(Is(K::Binary), 2, 2, &[Token(T::Operator(2)), Operand(3, Setting::Header)])),
        65 => Some(operand(Is(K::Binary), 3, 3, &[Token(T::Operator(3)), Operand(4, Setting::Header)])),
        52..=57 => Some(operand(Is(K::Binary), 4, 4, &[Token(T::Operator(4)), Operand(5, Setting::Header)])),
        48..=51 => Some(operand(Is(K::Binary), 5, 5, &[Token(T::Operator(5)), Operand(6, Setting::Header)])),
        58..=64 => Some(operand(Is(K::Binary), 6, 6, &[Token(T::Operator(6)), Operand(7, Setting::Header)])),
        34 => Some(operand(Is(K::Selector), 8, 8, &[Token(T::Dot), Token(T::Name)])),
        68 => Some(operand(Is(K::Assert), 8, 8, &[Token(T::DotParen), Token(T::LeftParen), Part(C::Type), Token(T::RightParen)])),
        69 => Some(operand(Is(K::TypeGuard), 1, 8, &[Token(T::DotType), Token(T::LeftParen), Token(T::Type), Token(T::RightParen)])),
        38 => Some(operand(Tail(C::IndexTail), 8, 8, &[Token(T::LeftBracket)])),
        36 => Some(operand(Tail(C::CallTail), 8, 8, &[Token(T::LeftParen)])),
        _ => None,
    }
}

/// The rule by which an operand goes on before a token of this class.
pub fn suffix_rule(setting: Setting, class: u8) -> Option<Rule>
    ensures { IsRule (pick_suffix setting class) result }
{
    match setting {
        Setting::Free => suffix_free(class),
        Setting::Header => suffix_header(class),
    }
}
