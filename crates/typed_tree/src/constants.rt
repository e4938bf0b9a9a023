//! Good marks of basic types.
ghost use Rattle.std.specs.Prelude.{None};
ghost use Rattle.type_model.specs.GoTypes.{BasicType};
ghost use Rattle.typed_tree.specs.Basics.{Says};
ghost use Rattle.typed_tree.specs.Meanings.{Right};
ghost use Rattle.typed_tree.specs.Operands.{constant_mark};

use crate::basics::basic;
use crate::mark::{Facts, Mark, Mode};
use gv_base::{Const, Kind};

/// A good mark of a basic type, without a value.
pub fn basic_mark(mode: Mode, kind: Kind) -> Mark
    ensures { Says result (Right (record { mode = mode; of = BasicType kind; value = None })) }
{
    Mark::Good(Facts {
        mode,
        of: basic(kind),
        value: None,
    })
}

/// A constant of a kind.
pub fn constant_mark(kind: Kind, c: Const) -> Mark
    ensures { Says result (constant_mark kind c) }
{
    Mark::Good(Facts {
        mode: Mode::Constant,
        of: basic(kind),
        value: Some(c),
    })
}
