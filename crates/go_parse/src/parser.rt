//! The machine: a stack of what is wanted, and no recursion.
ghost use Rattle.std.specs.Prelude.{◌≡◌, ◌==◌, ◌<◌, ◌^◌, true, IfOk, IfNone, ◌++◌, ◌-◌, ◌≤◌, ℕ, List, [], length, reverse, OnOk, drop};
ghost use Rattle.go_parse.specs.Machine.{state_of, topped, is_over, stops, Stepped, Built, wanting, Answered};
ghost use Rattle.go_parse.specs.State.{wants, Holds};
ghost use Rattle.go_tree.specs.Classes.{next};
ghost use Rattle.go_tree.specs.Follow.{follow};
ghost use Rattle.go_tree.specs.Forest.{Forest, Empty};

use crate::token_classes::class_at;
use go_grammar::END;
use go_tree::{Category, Ending, Node, NodeKind, Setting, Symbol};
use std::alloc::{AllocError, Global};

/// What stands on the stack.
#[derive(Clone, Copy, Debug, Drop)]
pub enum Task {
    /// A symbol is wanted.
    Want(Symbol),
    /// A rule's end, with the first token of its node, and how many nodes were pending before it.
    Close(Ending, u32, usize),
    /// An operand may go on: the least level, the level so far, its setting, and as for an end.
    After(u8, u8, Setting, u32, usize),
}

/// The state between tokens.
#[derive(Drop)]
pub struct Parser {
    /// The class of the next token. Turns read it here, since a compiler works out all tests of a local one before the first turn.
    pub(crate) class: u8,
    pub(crate) stack: Vec<Task>,
    /// The nodes that were made.
    pub nodes: Vec<Node>,
    /// The numbers of those that are no node's part yet.
    pub pending: Vec<u32>,
    /// Their depths.
    pub heights: Vec<u32>,
    /// Their kinds.
    pub(crate) kinds: Vec<NodeKind>,
}

/// What one turn did.
#[derive(Clone, Copy, Drop)]
pub enum Turn {
    /// The machine goes on, with this item above the stack, if there is one.
    Goes(Option<Task>),
    Takes,
    Refuses,
}

/// What the turns before a token came to.
#[derive(Clone, Copy, Drop)]
pub enum Step {
    Taken,
    Refused,
    /// Nothing is wanted any more.
    Over,
}

/// Puts the symbols on the stack, the first one on top.
pub(crate) fn push_symbols(stack: &mut Vec<Task>, symbols: &[Symbol]) -> Result<(), AllocError>
    ensures { OnOk result (reverse stack.new.items ≡ wants symbols.now ++ reverse stack.old.items) }
{
    let mut i = symbols.len();
    while i > 0 {
        i -= 1;
        stack.push(Task::Want(symbols[i]))?;
    }
    Ok(())
}

/// Whether no class is left.
fn is_end(classes: &[u8], at: usize) -> bool
    ensures { result ≡ (at == length classes.now) }
{
    at == classes.len()
}

/// Whether nothing is wanted any more.
fn is_over(step: Step) -> bool
    ensures { result ≡ is_over step }
{
    match step {
        Step::Over => true,
        Step::Taken => false,
        Step::Refused => false,
    }
}

/// Whether no token was taken.
fn stops(step: Step) -> bool
    ensures { result ≡ stops step }
{
    match step {
        Step::Taken => false,
        Step::Over => true,
        Step::Refused => true,
    }
}

impl Parser {
    /// A parser that has built nothing, with a list for its nodes.
    pub fn new(alloc: Global, nodes: Vec<Node>) -> Parser
        requires { nodes.items ≡ [] }
        ensures { Built (state_of result) Empty }
    {
        Parser {
            class: END,
            stack: Vec::new(alloc),
            nodes,
            pending: Vec::new(alloc),
            heights: Vec::new(alloc),
            kinds: Vec::new(alloc),
        }
    }

    /// Wants the category, and nothing else.
    fn want_all(&mut self, start: Category) -> Result<(), AllocError>
        ensures { OnOk result (state_of self.new ≡ wanting start (state_of self.old)) }
    {
        self.stack.clear();
        self.stack.push(Task::Want(Symbol::Inline(start)))?;
        Ok(())
    }

    /// Whether the tokens of these classes, from one of them to the last, are what the category spells.
    /// Its trees then stand after those that were built.
    pub fn spell(
        &mut self,
        start: Category,
        classes: &[u8],
        from: usize,
    ) -> Result<bool, AllocError>
        requires end { follow start 75 ≡ true }
        requires inside { from ≤ length classes.now }
        requires few { length classes.now < 2 ^ 32 }
        requires built { (before : Forest) × Built (state_of self.old) before }
        ensures { IfOk result (λ found. (before : Forest) → Built (state_of self.old) before → Answered found (length classes.now) start (drop from classes.now) before (state_of self.new)) }
    {
        self.want_all(start)?;
        let mut at = from;
        loop {
            let step = self.advance(class_at(classes, at), at as u32)?;
            if is_end(classes, at) {
                return Ok(is_over(step));
            }
            if stops(step) {
                return Ok(false);
            }
            at += 1;
        }
    }

    /// Turns until the next token, of this class and at this place, is taken.
    #[inline(always)]
    fn advance(&mut self, class: u8, at: u32) -> Result<Step, AllocError>
        requires { (n : ℕ) × (xs : List ℕ) × (g : Forest) × (next xs ≡ class) × (at ≡ n - length xs) × Holds (state_of self.old) g }
        ensures { IfOk result (λ step. (n : ℕ) (xs : List ℕ) → next xs ≡ class → at ≡ n - length xs → Stepped step n xs (state_of self.old) (state_of self.new)) }
    {
        self.class = class;
        let mut next = self.follow(None);
        while let Some(item) = next {
            let class = self.class;
            match self.turn(item, class, at)? {
                Turn::Goes(above) => next = self.follow(above),
                Turn::Takes => return Ok(Step::Taken),
                Turn::Refuses => return Ok(Step::Refused),
            }
        }
        Ok(Step::Over)
    }

    /// The item whose turn it is: the one above the stack, or else the topmost, which leaves the stack.
    #[inline(always)]
    fn follow(&mut self, above: Option<Task>) -> Option<Task>
        ensures same { topped result (state_of self.new) ≡ topped above (state_of self.old) }
        ensures none { IfNone result ((state_of self.new).stack ≡ []) }
        ensures class { self.new.class ≡ self.old.class }
    {
        match above {
            Some(item) => Some(item),
            None => self.stack.pop(),
        }
    }
}
