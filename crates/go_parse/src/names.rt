//! Names, with which most operands and types begin: all turns before such a token, at once.
ghost use Rattle.std.specs.Prelude.{◌≡◌, ◌↔◌, true, nat_lt, IfOk, OnOk};
ghost use Rattle.go_parse.specs.Machine.{state_of, outcome};
ghost use Rattle.go_parse.specs.Names.{IsAtEnd, name_end, ident_taken, type_taken, operand_taken};
ghost use Rattle.go_parse.specs.State.{Runs, turned};
ghost use Rattle.go_parse.specs.declared.parser.Task.TheVariants.{Want};
ghost use Rattle.go_tree.specs.Terminals.{admits};
ghost use Rattle.go_tree.specs.declared.grammar.Category.TheVariants as categories;
ghost use Rattle.go_tree.specs.declared.grammar.Symbol.TheVariants.{Part, Operand};
ghost use Rattle.go_tree.specs.declared.grammar.Terminal.TheVariants as terminals;

use crate::parser::{Parser, Task, Turn};
use go_tree::{Category, Ending, NodeKind, Setting};
use std::alloc::AllocError;

/// The level of a name among operands.
const NAME_LEVEL: u8 = 8;

/// Whether a token of this class is a name.
#[inline(always)]
pub fn is_name(class: u8) -> bool
    ensures { result ≡ admits terminals.Name class }
{
    class == 0 || class == 76
}

/// Whether an identifier is next, where a part of a category is wanted.
#[inline(always)]
pub fn is_ident(category: Category, class: u8) -> bool
    ensures { (result ≡ true) ↔ ((category ≡ categories.Ident) × (admits terminals.Name class ≡ true)) }
{
    match category {
        Category::Ident => is_name(class),
        _ => false,
    }
}

/// Whether a type that begins with a name is next.
#[inline(always)]
pub fn is_type_name(category: Category, class: u8) -> bool
    ensures { (result ≡ true) ↔ ((category ≡ categories.Type) × (admits terminals.Name class ≡ true)) }
{
    match category {
        Category::Type => is_name(class),
        _ => false,
    }
}

/// The class of `.`.
const DOT: u8 = 34;

/// The class of `{`.
const LEFT_BRACE: u8 = 40;

/// Whether a name that no point follows, or an operand that no brace follows, is at its end.
#[inline(always)]
pub fn is_at_end(category: Category, class: u8) -> bool
    ensures { (result ≡ true) ↔ IsAtEnd category class }
{
    match category {
        Category::NameTail => class != DOT,
        Category::LitTail => class != LEFT_BRACE,
        _ => false,
    }
}

/// Whether a level is above that of a name.
#[inline(always)]
fn is_above(least: u8) -> bool
    ensures { result ≡ nat_lt 8 least }
{
    least > NAME_LEVEL
}

/// How an operand that begins with a name goes on.
#[inline(always)]
fn name_end(setting: Setting) -> Ending
    ensures { result ≡ name_end setting }
{
    match setting {
        Setting::Free => Ending::Tail(Category::LitTail),
        Setting::Header => Ending::Bare,
    }
}

impl Parser {
    /// Wants the end of an identifier.
    #[inline(always)]
    fn above_ident(&mut self, at: u32) -> Result<(), AllocError>
        ensures led { OnOk result (state_of self.new ≡ ident_taken at (state_of self.old)) }
        ensures class { self.new.class ≡ self.old.class }
    {
        let base = self.pending.len();
        self.stack
            .push(Task::Close(Ending::Is(NodeKind::Name), at, base))?;
        Ok(())
    }

    /// Wants the ends of a type's name.
    #[inline(always)]
    fn above_type(&mut self, at: u32) -> Result<(), AllocError>
        ensures led { OnOk result (state_of self.new ≡ type_taken at (state_of self.old)) }
        ensures class { self.new.class ≡ self.old.class }
    {
        let base = self.pending.len();
        self.stack
            .push(Task::Close(Ending::Tail(Category::NameTail), at, base))?;
        self.stack
            .push(Task::Close(Ending::Is(NodeKind::Name), at, base))?;
        Ok(())
    }

    /// Wants the ends of an operand's name.
    #[inline(always)]
    fn above_operand(&mut self, least: u8, setting: Setting, at: u32) -> Result<(), AllocError>
        ensures led { OnOk result (state_of self.new ≡ operand_taken least setting at (state_of self.old)) }
        ensures class { self.new.class ≡ self.old.class }
    {
        let base = self.pending.len();
        let end = name_end(setting);
        self.stack
            .push(Task::After(least, NAME_LEVEL, setting, at, base))?;
        self.stack.push(Task::Close(end, at, base))?;
        self.stack
            .push(Task::Close(Ending::Tail(Category::NameTail), at, base))?;
        self.stack
            .push(Task::Close(Ending::Is(NodeKind::Name), at, base))?;
        Ok(())
    }

    /// Takes the token of an identifier.
    #[inline(always)]
    pub(crate) fn ident(&mut self, class: u8, at: u32) -> Result<Turn, AllocError>
        requires { admits terminals.Name class ≡ true }
        ensures led { IfOk result (λ t. Runs class at (turned (Want (Part categories.Ident)) class at (state_of self.old)) (outcome t (state_of self.new))) }
        ensures class { self.new.class ≡ self.old.class }
    {
        self.above_ident(at)?;
        Ok(Turn::Takes)
    }

    /// Takes the name with which a type begins.
    #[inline(always)]
    pub(crate) fn type_name(&mut self, class: u8, at: u32) -> Result<Turn, AllocError>
        requires { admits terminals.Name class ≡ true }
        ensures led { IfOk result (λ t. Runs class at (turned (Want (Part categories.Type)) class at (state_of self.old)) (outcome t (state_of self.new))) }
        ensures class { self.new.class ≡ self.old.class }
    {
        self.above_type(at)?;
        Ok(Turn::Takes)
    }

    /// Takes the name with which an operand begins.
    #[inline(always)]
    pub(crate) fn name(
        &mut self,
        least: u8,
        setting: Setting,
        class: u8,
        at: u32,
    ) -> Result<Turn, AllocError>
        requires { admits terminals.Name class ≡ true }
        ensures led { IfOk result (λ t. Runs class at (turned (Want (Operand least setting)) class at (state_of self.old)) (outcome t (state_of self.new))) }
        ensures class { self.new.class ≡ self.old.class }
    {
        if is_above(least) {
            return Ok(Turn::Refuses);
        }
        self.above_operand(least, setting, at)?;
        Ok(Turn::Takes)
    }
}
