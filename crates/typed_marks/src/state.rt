//! The marks so far, with the types and constants that stand in them.
ghost use Rattle.std.specs.Prelude.{◌≡◌, ◌<◌, ◌≤◌, ◌+◌, ◌-◌, ◌*◌, ◌++◌, ◌∷◌, [], ℕ, Some, None, false, length, map, option_map, set, slice_get, IfOk, IfSome, OnOk, IsTrue, is_some, ◌↔◌};
ghost use Rattle.gv_base.specs.declared.constant.Const.{Const};
ghost use Rattle.mark_walk.specs.Asks.{Adds, Stays, IsMarked};
ghost use Rattle.type_model.specs.GoTypes.{IsOver, MethodsBelow, DefinedType, is_defined, nodes, type_at, type_of};
ghost use Rattle.type_model.specs.Declarations.{Meets};
ghost use Rattle.type_model.specs.Orders.{IsOrdered};
ghost use Rattle.type_model.specs.Tables.{IsTable, Grown, IsAdded, Declares, types_in, count, declarations_in, declaration_of};
ghost use Rattle.type_model.specs.declared.term.TypeName.{TypeName};
ghost use Rattle.typed_marks.specs.declared.item.Item.{Item};
ghost use Rattle.typed_marks.specs.declared.item.Block.{Block};
ghost use Rattle.typed_marks.specs.Items.{IsItem, number_of as number_in_blocks, AreBlocks};
ghost use Rattle.typed_marks.specs.Meanings.{mark_in, IsMarkIn, Declares as TypeDeclares};
ghost use Rattle.typed_marks.specs.Cells.{AllNone};
ghost use Rattle.typed_marks.specs.States.{kept, so_far, IsState, block_of, laid, room, HasGrown};

use crate::cells::Cells;
use crate::item::{Block, Item, Span};
use crate::mark::{ConstId, Mark};
use crate::numbers::{is_item, is_nowhere, number_of};
use gv_base::{Const, NoMemory};
use std::alloc::Global;
use type_model::{Added, Method, Term, TypeId, TypeName, TypeTable};

/// The types and constants that have been met, and the marks of items.
#[derive(Drop)]
pub struct State {
    pub table: TypeTable,
    pub constants: Vec<Const>,
    pub blocks: Vec<Block>,
    pub cells: Cells,
}

/// How many items so many nodes have, if so many can be counted.
fn six_times(nodes: usize) -> Result<usize, NoMemory>
    ensures { IfOk result (λ count. count ≡ 6 * nodes) }
{
    match nodes.checked_mul(6) {
        Some(count) => Ok(count),
        None => Err(NoMemory),
    }
}

/// One block more, with cells for its items.
fn add_block(blocks: &mut Vec<Block>, cells: &mut Cells, span: Span) -> Result<(), NoMemory>
    requires blocks { AreBlocks blocks.old.items (length cells.old.items) }
    ensures blocks { OnOk result (AreBlocks blocks.new.items (length cells.new.items)) }
    ensures block { OnOk result (blocks.new.items ≡ blocks.old.items ++ block_of span (length cells.old.items) ∷ []) }
    ensures cells { OnOk result (length cells.new.items ≡ length cells.old.items + 6 * (span.end - span.low)) }
    ensures none { OnOk result (AllNone cells.old.items → AllNone cells.new.items) }
{
    let start = cells.len();
    let count = six_times(span.end.saturating_sub(span.low))?;
    cells.add(count)?;
    blocks.push(Block {
        low: span.low,
        end: span.end,
        start,
    })?;
    Ok(())
}

/// How many cells blocks of these spans take, if so many can be counted; only how much memory is asked for rests on it.
fn cells_of(spans: &[Span]) -> usize {
    let mut nodes: usize = 0;
    for k in 0..spans.len() {
        nodes = nodes.saturating_add(spans[k].end.saturating_sub(spans[k].low));
    }
    nodes.saturating_mul(6)
}

fn span_at(spans: &[Span], k: usize) -> Span
    requires { k < length spans.now }
    ensures { slice_get spans.now k ≡ Some result }
{
    spans[k]
}

impl State {
    /// No marks, of items in blocks of these spans.
    pub fn new(alloc: Global, table: TypeTable, spans: &[Span]) -> Result<State, NoMemory>
        requires { IsTable table }
        ensures state { IfOk result (λ s. IsState s) }
        ensures table { IfOk result (λ s. s.table ≡ table) }
        ensures constants { IfOk result (λ s. s.constants.items ≡ []) }
        ensures blocks { IfOk result (λ s. s.blocks.items ≡ laid 0 spans.now) }
        ensures cells { IfOk result (λ s. length s.cells.items ≡ room spans.now) }
        ensures unmarked { IfOk result (λ s. (i : Item) → IsItem s.blocks.items i → so_far s i ≡ None) }
    {
        let mut blocks = Vec::with_capacity(alloc, spans.len())?;
        let mut cells = Cells::new(alloc, cells_of(spans))?;
        for k in 0..spans.len() {
            let span = span_at(spans, k);
            add_block(&mut blocks, &mut cells, span)?;
        }
        Ok(State {
            table,
            constants: Vec::new(alloc),
            blocks,
            cells,
        })
    }

    fn kept(&self, item: Item) -> Option<Mark>
        requires { IsState self.now }
        ensures { result ≡ kept self.now.blocks.items self.now.cells.items item }
    {
        if is_item(&self.blocks, item) {
            self.cells
                .get(number_of(&self.blocks, item, self.cells.len()))
        } else if is_nowhere(&self.blocks, item) {
            None
        } else {
            Some(Mark::Silent)
        }
    }

    fn is_kept(&self, item: Item) -> bool
        requires { IsState self.now }
        ensures { result ≡ is_some (kept self.now.blocks.items self.now.cells.items item) }
    {
        if is_item(&self.blocks, item) {
            self.cells
                .has(number_of(&self.blocks, item, self.cells.len()))
        } else {
            !is_nowhere(&self.blocks, item)
        }
    }

    /// The mark of an item; None exactly where it has none. Of what is no item nothing is said.
    pub fn see(&self, item: Item) -> Option<Mark>
        requires { IsState self.now }
        ensures is { option_map (mark_in self.now.table self.now.constants.items) result ≡ so_far self.now item }
        ensures over { IfSome result (IsMarkIn self.now.table self.now.constants.items) }
    {
        self.kept(item)
    }

    /// Whether an item is marked.
    pub fn is_marked(&self, item: Item) -> bool
        requires { IsState self.now }
        ensures { IsTrue result ↔ IsMarked (so_far self.now) item }
    {
        self.is_kept(item)
    }

    /// Marks an item that has no mark.
    #[inline(always)]
    pub fn keep(&mut self, item: Item, mark: Mark) -> Result<(), NoMemory>
        requires state { IsState self.old }
        requires item { IsItem self.old.blocks.items item }
        requires unmarked { so_far self.old item ≡ None }
        requires over { IsMarkIn self.old.table self.old.constants.items mark }
        ensures state { OnOk result (IsState self.new) }
        ensures adds { OnOk result (Adds (so_far self.old) (so_far self.new) item (mark_in self.old.table self.old.constants.items mark)) }
        ensures table { self.new.table ≡ self.old.table }
        ensures constants { self.new.constants ≡ self.old.constants }
        ensures blocks { self.new.blocks ≡ self.old.blocks }
        ensures cells { length self.new.cells.items ≡ length self.old.cells.items }
    {
        let number = number_of(&self.blocks, item, self.cells.len());
        self.cells.set(number, mark)?;
        Ok(())
    }

    /// Adds a type to the table, unless it is there, and answers its number. The marks say what they said.
    pub fn add(&mut self, term: Term) -> Result<Added, NoMemory>
        requires state { IsState self.old }
        requires over { IsOver (count self.old.table) term }
        requires ordered { IsOrdered term }
        ensures grown { OnOk result (HasGrown self.old self.new) }
        ensures added { IfOk result (IsAdded self.old.table self.new.table term) }
        ensures constants { self.new.constants ≡ self.old.constants }
        ensures cells { self.new.cells ≡ self.old.cells }
    {
        let added = self.table.add(term)?;
        Ok(added)
    }

    /// Adds a constant to the table, and answers its number; 2^32 constants are answered as want of memory. The marks say what they said.
    pub fn add_constant(&mut self, constant: Const) -> Result<ConstId, NoMemory>
        requires { IsState self.old }
        ensures grown { OnOk result (HasGrown self.old self.new) }
        ensures table { OnOk result (self.new.table ≡ self.old.table) }
        ensures added { IfOk result (λ id. id.0 ≡ length self.old.constants.items) }
        ensures constants { OnOk result (self.new.constants.items ≡ self.old.constants.items ++ constant ∷ []) }
        ensures cells { self.new.cells ≡ self.old.cells }
    {
        let count = self.constants.len();
        if count > 4_294_967_295 {
            return Err(NoMemory);
        }
        self.constants.push(constant)?;
        Ok(ConstId(count as u32))
    }

    /// Declares a defined type with its underlying type and its methods, and marks an item that has no mark as what declares it.
    pub fn declare(
        &mut self,
        item: Item,
        of: TypeId,
        name: TypeName,
        under: TypeId,
        methods: Vec<Method>,
    ) -> Result<(), NoMemory>
        requires state { IsState self.old }
        requires item { IsItem self.old.blocks.items item }
        requires unmarked { so_far self.old item ≡ None }
        requires within { of.0 < count self.old.table }
        requires named { type_at (types_in self.old.table) of ≡ DefinedType name }
        requires under { under.0 < count self.old.table }
        requires methods { MethodsBelow (count self.old.table) methods.items }
        requires fresh { declarations_in self.old.table name ≡ None }
        requires plain { is_defined (type_at (types_in self.old.table) under) ≡ false }
        requires apart { ¬ Meets (declarations_in self.old.table) name (type_at (types_in self.old.table) under) }
        ensures state { OnOk result (IsState self.new) }
        ensures adds { OnOk result (Adds (so_far self.old) (so_far self.new) item (TypeDeclares (declaration_of (types_in self.old.table) (record { under = under; methods = methods.items })))) }
        ensures declares { OnOk result (Declares self.old.table self.new.table name under methods.items) }
        ensures constants { OnOk result (self.new.constants ≡ self.old.constants) }
        ensures blocks { OnOk result (self.new.blocks ≡ self.old.blocks) }
        ensures cells { OnOk result (length self.new.cells.items ≡ length self.old.cells.items) }
    {
        self.table.declare(name, under, methods)?;
        self.keep(item, Mark::Declared(of))?;
        Ok(())
    }
}
