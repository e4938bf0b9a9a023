//! A board, the passes that draw from it, and the tickets that are drawn. Their fields are private to this module, so a
//! ticket is made by a draw alone.
ghost use Rattle.std.specs.Prelude.{◌≡◌, ◌<◌, []};

mod steps;

use crate::rule::Dealing;
use crate::view::View;
use atomic_table::{Seat, Table};
use std::alloc::Global;

/// The numbers of jobs, to be drawn by any threads, each once. What threads share of it is one word, the next number.
#[derive(Drop)]
pub struct Board {
    table: Table<(), View, u32, Dealing, Global>,
    jobs: u32,
    ghost one_word: { table.shared.table_id.words ≡ 1 },
}

/// The right to draw from a board, with at least one of its parts. Contracts alone see which numbers it has drawn; nothing
/// is stored for them.
#[derive(Drop)]
pub struct Pass {
    seat: Seat<(), View>,
    ghost empty: { seat.me.1 ≡ [] },
    ghost live: { 0 < seat.me.0.parts },
}

/// A number below the number of jobs that was drawn. `Board::draw` alone makes one, it can't be cloned, and a step takes it
/// by value.
#[derive(Drop)]
pub struct Ticket {
    number: u32,
}
