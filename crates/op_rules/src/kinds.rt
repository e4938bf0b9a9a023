//! Basic types: which values they have, and which are of one class.
ghost use Rattle.std.specs.Prelude.{◌≡◌, ◌||◌};
ghost use Rattle.type_rel.specs.Kinds.{is_untyped};
ghost use Rattle.typed_tree.specs.Operands.{is_text, is_boolean, is_nil, is_rune, fits_in};
ghost use Rattle.op_rules.specs.Types.{alike};

use gv_base::{Const, Kind};
use rule_words::values::fits_in;
use type_rel::{has_integers, has_texts, is_free};

pub fn is_text(kind: Kind) -> bool
    ensures { result ≡ is_text kind }
{
    has_texts(kind)
}

pub fn is_boolean(kind: Kind) -> bool
    ensures { result ≡ is_boolean kind }
{
    match kind {
        Kind::Bool => true,
        Kind::UntypedBool => true,
        _ => false,
    }
}

pub fn is_nil(kind: Kind) -> bool
    ensures { result ≡ is_nil kind }
{
    match kind {
        Kind::UntypedNil => true,
        _ => false,
    }
}

pub fn is_rune(kind: Kind) -> bool
    ensures { result ≡ is_rune kind }
{
    match kind {
        Kind::UntypedRune => true,
        _ => false,
    }
}

/// A constant of the kind may have this value: an untyped one any.
pub fn holds(kind: Kind, c: &Const) -> bool
    ensures { result ≡ (is_untyped kind || fits_in c.now kind) }
{
    is_free(kind) || fits_in(c, kind)
}

/// Two kinds of one class.
pub fn alike(a: Kind, b: Kind) -> bool
    ensures { result ≡ alike a b }
{
    (has_integers(a) && has_integers(b))
        || ((is_text(a) && is_text(b))
            || ((is_boolean(a) && is_boolean(b)) || (is_nil(a) && is_nil(b))))
}
