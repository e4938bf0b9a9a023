//! What a turn makes of the state.
ghost use Rattle.std.specs.Prelude.{◌≡◌, ◌↔◌, true, IfOk, ◌++◌, ◌∷◌, ◌≤◌, drop, length, [], OnOk};
ghost use Rattle.go_grammar.specs.View.{IsRule};
ghost use Rattle.go_parse.specs.Machine.{state_of, outcome, FitsItem};
ghost use Rattle.go_parse.specs.State.{Goes, Runs, wants, turned, pushed};
ghost use Rattle.go_parse.specs.declared.parser.Task.TheVariants.{Want, Close, After};
ghost use Rattle.go_tree.specs.Choice.{pick_node};
ghost use Rattle.go_tree.specs.Shape.{shape};
ghost use Rattle.go_tree.specs.declared.grammar.Ending.TheVariants.{Is, Bare, Tail};
ghost use Rattle.go_tree.specs.declared.grammar.Symbol.TheVariants.{Token, Inline, Part, Operand};

use crate::arena::{close, name, raise, shape};
use crate::names::{is_at_end, is_ident, is_name, is_type_name};
use crate::parser::{Parser, Task, Turn, push_symbols};
use go_grammar::{Rule, admits, inline_rule, node_rule, prefix_rule, suffix_rule};
use go_tree::{Category, Ending, NodeKind, Setting, Symbol, Terminal};
use std::alloc::AllocError;

/// Whether a rule is empty and makes no node.
#[inline(always)]
fn is_bare(symbols: &[Symbol], ending: Ending) -> bool
    ensures { (result ≡ true) ↔ ((symbols.now ≡ []) × (ending ≡ Bare)) }
{
    match ending {
        Ending::Bare => symbols.is_empty(),
        Ending::Is(_) => false,
        Ending::Tail(_) => false,
    }
}

impl Parser {
    /// Wants the symbols, the first one above the stack.
    #[inline(always)]
    fn lead(&mut self, symbols: &[Symbol]) -> Result<Turn, AllocError>
        ensures led { IfOk result (λ t. outcome t (state_of self.new) ≡ Goes (pushed (wants symbols.now) (state_of self.old))) }
        ensures class { self.new.class ≡ self.old.class }
    {
        match symbols {
            [] => Ok(Turn::Goes(None)),
            [only] => Ok(Turn::Goes(Some(Task::Want(*only)))),
            [first, second] => {
                self.stack.push(Task::Want(*second))?;
                Ok(Turn::Goes(Some(Task::Want(*first))))
            }
            [first, rest @ ..] => {
                push_symbols(&mut self.stack, rest)?;
                Ok(Turn::Goes(Some(Task::Want(*first))))
            }
        }
    }

    /// Wants a rule's symbols, above the end of its node.
    #[inline(always)]
    fn open(
        &mut self,
        symbols: &[Symbol],
        ending: Ending,
        first: u32,
        base: usize,
    ) -> Result<Turn, AllocError>
        ensures led { IfOk result (λ t. outcome t (state_of self.new) ≡ Goes (pushed (wants symbols.now ++ Close ending first base ∷ []) (state_of self.old))) }
        ensures class { self.new.class ≡ self.old.class }
    {
        let end = Task::Close(ending, first, base);
        match symbols {
            [] => Ok(Turn::Goes(Some(end))),
            _ => {
                self.stack.push(end)?;
                self.lead(symbols)
            }
        }
    }

    /// Wants a rule's symbols, above the end of its node, which is passed at once where the rule is empty and makes none.
    #[inline(always)]
    fn enter(
        &mut self,
        symbols: &[Symbol],
        ending: Ending,
        first: u32,
        base: usize,
        class: u8,
        at: u32,
    ) -> Result<Turn, AllocError>
        ensures led { IfOk result (λ t. Runs class at (Goes (pushed (wants symbols.now ++ Close ending first base ∷ []) (state_of self.old))) (outcome t (state_of self.new))) }
        ensures class { self.new.class ≡ self.old.class }
    {
        if is_bare(symbols, ending) {
            return Ok(Turn::Goes(None));
        }
        let led = self.open(symbols, ending, first, base)?;
        Ok(led)
    }

    /// What the item, which was on top of the stack, makes of the rest where `class` is next, at `at`: its turn, and others that come of it.
    #[inline(always)]
    pub(crate) fn turn(&mut self, item: Task, class: u8, at: u32) -> Result<Turn, AllocError>
        requires pending { FitsItem item (length self.old.pending.items) }
        requires heights { FitsItem item (length self.old.heights.items) }
        requires kinds { FitsItem item (length self.old.kinds.items) }
        ensures led { IfOk result (λ t. Runs class at (turned item class at (state_of self.old)) (outcome t (state_of self.new))) }
        ensures class { self.new.class ≡ self.old.class }
    {
        match item {
            Task::Want(symbol) => self.want(symbol, class, at),
            Task::Close(ending, first, base) => self.close_at(ending, first, base, class, at),
            Task::After(least, most, setting, first, base) => {
                let led = self.suffix(least, most, setting, first, base, class)?;
                Ok(led)
            }
        }
    }

    #[inline(always)]
    fn close_at(
        &mut self,
        ending: Ending,
        first: u32,
        base: usize,
        class: u8,
        at: u32,
    ) -> Result<Turn, AllocError>
        requires pending { base ≤ length self.old.pending.items }
        requires heights { base ≤ length self.old.heights.items }
        requires kinds { base ≤ length self.old.kinds.items }
        ensures led { IfOk result (λ t. Runs class at (turned (Close ending first base) class at (state_of self.old)) (outcome t (state_of self.new))) }
        ensures class { self.new.class ≡ self.old.class }
    {
        match ending {
            Ending::Tail(category) => self.tail(category, first, base, class, at),
            Ending::Is(kind) => {
                self.end(kind, first, base, at)?;
                Ok(Turn::Goes(None))
            }
            Ending::Bare => Ok(Turn::Goes(None)),
        }
    }

    /// Makes the node of a kind that ends before `at`.
    #[inline(always)]
    fn end(&mut self, kind: NodeKind, first: u32, base: usize, at: u32) -> Result<(), AllocError>
        requires pending { base ≤ length self.old.pending.items }
        requires heights { base ≤ length self.old.heights.items }
        requires kinds { base ≤ length self.old.kinds.items }
        ensures led { OnOk result (Goes (state_of self.new) ≡ turned (Close (Is kind) first base) 0 at (state_of self.old)) }
        ensures class { self.new.class ≡ self.old.class }
    {
        close(
            &mut self.nodes,
            &mut self.pending,
            kind,
            first,
            at.saturating_sub(1),
            base,
        )?;
        raise(&mut self.heights, base)?;
        name(&mut self.kinds, base, kind)?;
        Ok(())
    }

    #[inline(always)]
    fn want(&mut self, symbol: Symbol, class: u8, at: u32) -> Result<Turn, AllocError>
        ensures led { IfOk result (λ t. Runs class at (turned (Want symbol) class at (state_of self.old)) (outcome t (state_of self.new))) }
        ensures class { self.new.class ≡ self.old.class }
    {
        match symbol {
            Symbol::Token(terminal) => {
                let led = self.token(terminal, class)?;
                Ok(led)
            }
            Symbol::Inline(category) => {
                let led = self.inline(category, class)?;
                Ok(led)
            }
            Symbol::Part(category) => self.part(category, class, at),
            Symbol::Operand(least, setting) => self.operand(least, setting, class, at),
        }
    }

    #[inline(always)]
    fn token(&mut self, terminal: Terminal, class: u8) -> Result<Turn, AllocError>
        ensures led { IfOk result (λ t. outcome t (state_of self.new) ≡ turned (Want (Token terminal)) class 0 (state_of self.old)) }
        ensures class { self.new.class ≡ self.old.class }
    {
        Ok(if admits(terminal, class) {
            Turn::Takes
        } else {
            Turn::Refuses
        })
    }

    #[inline(always)]
    fn inline(&mut self, category: Category, class: u8) -> Result<Turn, AllocError>
        ensures led { IfOk result (λ t. outcome t (state_of self.new) ≡ turned (Want (Inline category)) class 0 (state_of self.old)) }
        ensures class { self.new.class ≡ self.old.class }
    {
        match inline_rule(category, class) {
            Some(symbols) => self.lead(symbols),
            None => Ok(Turn::Refuses),
        }
    }

    #[inline(always)]
    fn part(&mut self, category: Category, class: u8, at: u32) -> Result<Turn, AllocError>
        ensures led { IfOk result (λ t. Runs class at (turned (Want (Part category)) class at (state_of self.old)) (outcome t (state_of self.new))) }
        ensures class { self.new.class ≡ self.old.class }
    {
        if is_ident(category, class) {
            let taken = self.ident(class, at)?;
            return Ok(taken);
        }
        if is_type_name(category, class) {
            let taken = self.type_name(class, at)?;
            return Ok(taken);
        }
        let end = self.part_end(category, at);
        Ok(Turn::Goes(Some(end)))
    }

    /// The end of a part that begins at `at`.
    #[inline(always)]
    fn part_end(&self, category: Category, at: u32) -> Task
        ensures { result ≡ Close (Tail category) at (length (state_of self.now).pending) }
    {
        Task::Close(Ending::Tail(category), at, self.pending.len())
    }

    #[inline(always)]
    fn tail(
        &mut self,
        category: Category,
        first: u32,
        base: usize,
        class: u8,
        at: u32,
    ) -> Result<Turn, AllocError>
        requires { base ≤ length self.old.kinds.items }
        ensures led { IfOk result (λ t. Runs class at (turned (Close (Tail category) first base) class at (state_of self.old)) (outcome t (state_of self.new))) }
        ensures class { self.new.class ≡ self.old.class }
    {
        if is_at_end(category, class) {
            return Ok(Turn::Goes(None));
        }
        self.tail_by_rule(category, first, base, class, at)
    }

    /// The rule by which an end goes on.
    #[inline(always)]
    fn tail_rule(&self, category: Category, class: u8, base: usize) -> Option<Rule>
        requires { base ≤ length self.now.kinds.items }
        ensures { IsRule (pick_node category class (shape (drop base (state_of self.now).kinds))) result }
    {
        node_rule(category, class, shape(&self.kinds[base..]))
    }

    #[inline(always)]
    fn tail_by_rule(
        &mut self,
        category: Category,
        first: u32,
        base: usize,
        class: u8,
        at: u32,
    ) -> Result<Turn, AllocError>
        requires { base ≤ length self.old.kinds.items }
        ensures led { IfOk result (λ t. Runs class at (turned (Close (Tail category) first base) class at (state_of self.old)) (outcome t (state_of self.new))) }
        ensures class { self.new.class ≡ self.old.class }
    {
        match self.tail_rule(category, class, base) {
            Some(rule) => {
                let led = self.enter(rule.symbols, rule.ending, first, base, class, at)?;
                Ok(led)
            }
            None => Ok(Turn::Refuses),
        }
    }

    #[inline(always)]
    fn operand(
        &mut self,
        least: u8,
        setting: Setting,
        class: u8,
        at: u32,
    ) -> Result<Turn, AllocError>
        ensures led { IfOk result (λ t. Runs class at (turned (Want (Operand least setting)) class at (state_of self.old)) (outcome t (state_of self.new))) }
        ensures class { self.new.class ≡ self.old.class }
    {
        if is_name(class) {
            let taken = self.name(least, setting, class, at)?;
            return Ok(taken);
        }
        let led = self.operand_by_rule(least, setting, class, at)?;
        Ok(led)
    }

    #[inline(always)]
    fn operand_by_rule(
        &mut self,
        least: u8,
        setting: Setting,
        class: u8,
        at: u32,
    ) -> Result<Turn, AllocError>
        ensures led { IfOk result (λ t. outcome t (state_of self.new) ≡ turned (Want (Operand least setting)) class at (state_of self.old)) }
        ensures class { self.new.class ≡ self.old.class }
    {
        match prefix_rule(setting, class) {
            Some(rule) if least <= rule.level => {
                let base = self.pending.len();
                self.stack
                    .push(Task::After(least, rule.level, setting, at, base))?;
                self.open(rule.symbols, rule.ending, at, base)
            }
            _ => Ok(Turn::Refuses),
        }
    }

    #[inline(always)]
    fn suffix(
        &mut self,
        least: u8,
        most: u8,
        setting: Setting,
        first: u32,
        base: usize,
        class: u8,
    ) -> Result<Turn, AllocError>
        ensures led { IfOk result (λ t. outcome t (state_of self.new) ≡ turned (After least most setting first base) class 0 (state_of self.old)) }
        ensures class { self.new.class ≡ self.old.class }
    {
        match suffix_rule(setting, class) {
            Some(rule) if least <= rule.level && rule.left <= most => {
                self.stack
                    .push(Task::After(least, rule.level, setting, first, base))?;
                self.open(rule.symbols, rule.ending, first, base)
            }
            _ => Ok(Turn::Goes(None)),
        }
    }
}
