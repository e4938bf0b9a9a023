//! The rule of a board's word, and its four kinds of step: a draw, a split, a meeting and a closing load.
ghost use Rattle.std.specs.Prelude.{ℕ, []};
ghost use Rattle.wave_run.specs.Views.{hand, left_with, right_with, met, spent};
ghost use Rattle.wave_run.specs.Dealing.{IsDealt, drew, looked};

use crate::view::View;
use atomic_table::{Join, Play, Split, TableRule};
use std::marker::{Brand, PhantomData};

/// The rule. The key is the number of a board's parts, all of which its first pass has.
pub(crate) struct Dealing;

impl TableRule<(), View, u32> for Dealing {
    ghost holds = { IsDealt };

    ghost first = { λ parts. hand parts [] };
}

/// A draw: the number found goes to the end of the pass's list.
pub(crate) struct Draw;

impl Play<(), View> for Draw {
    ghost then = { λ _ me found after. drew me found after };
}

/// A closing load, by the pass with all parts: nothing changes.
pub(crate) struct Look;

impl Play<(), View> for Look {
    ghost then = { λ _ me found after. looked me found after };
}

/// How many parts a split gives away. Each call picks it.
pub(crate) trait Parts {
    ghost parts: { ℕ };
}

impl Parts for Brand {
    ghost parts = { 0 };
}

/// A split: so many parts go to a new pass, which has drawn nothing.
pub(crate) struct Cut<K: Parts>(PhantomData<K>);

impl<K: Parts> Split<View> for Cut<K> {
    ghost left = { left_with K.parts };

    ghost right = { λ v. right_with K.parts };
}

/// A meeting: one pass gets both lists and both parts, and the other is spent.
pub(crate) struct Meet;

impl Join<View> for Meet {
    ghost both = { met };

    ghost spent = { spent };
}
