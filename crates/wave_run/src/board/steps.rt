//! What is done with a board. Each call but `new` is at most one atomic step, and takes no memory.
ghost use Rattle.std.specs.Prelude.{◌≡◌, ◌<◌, ◌≤◌, ◌++◌, ◌∷◌, [], ℕ, IfOk, MatchOption};
ghost use Rattle.wave_run.specs.Views.{hand, met, left_with, right_with};
ghost use Rattle.wave_run.specs.Dealing.{Closes};
ghost use Rattle.wave_run.specs.Passes.{IsPassOf, IsSamePass, view, parts_of, jobs_of, number_of};

use super::{Board, Pass, Ticket};
use crate::rule::{Cut, Draw, Look, Meet, Parts};
use crate::view::View;
use atomic_table::{Seat, Table};
use gv_base::NoMemory;
use std::alloc::Global;
use std::marker::Brand;

impl Ticket {
    /// The number that was drawn.
    pub fn number(&self) -> u32
        ensures { result ≡ number_of self.now }
    {
        self.number
    }
}

impl Board {
    /// A board for so many jobs, cut into so many parts, and the pass with all of them, which has drawn nothing.
    pub fn new(alloc: Global, jobs: u32, parts: u32) -> Result<(Board, Pass), NoMemory>
        requires { 0 < parts }
        ensures board { IfOk result (λ r. (jobs_of r.0 ≡ jobs) × (parts_of r.0 ≡ parts)) }
        ensures pass { IfOk result (λ r. (IsPassOf r.0 r.1) × (view r.1 ≡ hand parts [])) }
    {
        let (table, seat) = Table::of_words(alloc, &[0], &parts)?;
        Ok((Board { table, jobs }, Pass { seat }))
    }

    /// For how many jobs it was made.
    pub fn jobs(&self) -> u32
        ensures { result ≡ jobs_of self.now }
    {
        self.jobs
    }

    /// Draws the next number by one atomic addition; it goes to the end of the pass's list. The answer is a ticket for it,
    /// and None exactly where it is no job's.
    pub fn draw(&self, pass: &mut Pass) -> Option<Ticket>
        requires { IsPassOf self.now pass.old }
        ensures of { IsSamePass pass.old pass.new }
        ensures drawn { (n : ℕ) × (view pass.new ≡ hand (view pass.old).parts ((view pass.old).drawn ++ n ∷ [])) × MatchOption result (jobs_of self.now ≤ n) (λ t. (number_of t ≡ n) × (n < jobs_of self.now)) }
    {
        let number = self.table.shared.fetch_add::<Draw>(&mut pass.seat, 0, 1);
        if number >= self.jobs as u64 {
            return None;
        }
        Some(Ticket {
            number: number as u32,
        })
    }

    fn cut<K: Parts>(&self, seat: &mut Seat<(), View>, parts: u32) -> Seat<(), View>
        requires { (seat.old.table_id ≡ self.now.table.shared.table_id) × (K.parts ≡ parts) × (0 < parts) × (parts < seat.old.me.0.parts) }
        ensures old { (seat.new.table_id ≡ seat.old.table_id) × (seat.new.me ≡ (left_with parts seat.old.me.0, seat.old.me.1)) }
        ensures new { (result.table_id ≡ seat.old.table_id) × (result.me ≡ (right_with parts, [])) }
    {
        self.table.shared.split_seat::<Cut<K>>(seat)
    }

    /// Gives so many of a pass's parts to a new one.
    pub(crate) fn split_off(&self, pass: &mut Pass, parts: u32) -> Pass
        requires { (IsPassOf self.now pass.old) × (0 < parts) × (parts < (view pass.old).parts) }
        ensures old { (IsSamePass pass.old pass.new) × (view pass.new ≡ left_with parts (view pass.old)) }
        ensures new { (IsSamePass pass.old result) × (view result ≡ right_with parts) }
    {
        let seat = self.cut::<Brand>(&mut pass.seat, parts);
        Pass { seat }
    }

    /// Takes in another pass of the board.
    pub(crate) fn absorb(&self, pass: &mut Pass, other: Pass)
        requires { (IsPassOf self.now pass.old) × (IsPassOf self.now other) }
        ensures of { IsSamePass pass.old pass.new }
        ensures both { view pass.new ≡ met (view pass.old) (view other) }
    {
        let Pass { seat } = other;
        self.table.shared.join_seat::<Meet>(&mut pass.seat, seat);
    }

    /// Cuts a pass in two: the second has so many of its parts, at least 1 and fewer than all, and has drawn nothing; the
    /// first keeps its list and the other parts.
    pub fn split(&self, pass: Pass, parts: u32) -> (Pass, Pass)
        requires { (IsPassOf self.now pass) × (0 < parts) × (parts < (view pass).parts) }
        ensures first { (IsSamePass pass result.0) × (view result.0 ≡ left_with parts (view pass)) }
        ensures second { (IsSamePass pass result.1) × (view result.1 ≡ right_with parts) }
    {
        let mut first = pass;
        let second = self.split_off(&mut first, parts);
        (first, second)
    }

    /// The pass that has both lists and both parts.
    pub fn meet(&self, a: Pass, b: Pass) -> Pass
        requires { (IsPassOf self.now a) × (IsPassOf self.now b) }
        ensures { (IsSamePass a result) × (view result ≡ met (view a) (view b)) }
    {
        let mut pass = a;
        self.absorb(&mut pass, b);
        pass
    }

    /// The word, read by the pass with all parts. It is the number of the pass's draws, modulo 2^64. Where these are fewer
    /// than 2^64, the pass has drawn each number below the word once, and no other. The pass keeps its list and parts.
    pub fn look(&self, pass: &mut Pass) -> u64
        requires { (IsPassOf self.now pass.old) × ((view pass.old).parts ≡ parts_of self.now) }
        ensures same { (IsSamePass pass.old pass.new) × (view pass.new ≡ (view pass.old)) }
        ensures closes { Closes (view pass.old).drawn result }
    {
        self.table.shared.load::<Look>(&mut pass.seat, 0)
    }

    /// As `look`, at the end of the board.
    pub fn close(self, pass: Pass) -> u64
        requires { (IsPassOf self pass) × ((view pass).parts ≡ parts_of self) }
        ensures { Closes (view pass).drawn result }
    {
        let mut last = pass;
        self.look(&mut last)
    }
}
