//! The numbers of the predeclared types in the table of a package.
ghost use Rattle.std.specs.Prelude.{◌≡◌};
ghost use Rattle.typed_tree.specs.Basics.{number_of_kind, error_number};

use gv_base::Kind;
use type_model::TypeId;

/// The number of a basic type.
pub fn basic(kind: Kind) -> TypeId
    ensures { result.0 ≡ number_of_kind kind }
{
    match kind {
        Kind::Bool => TypeId(0),
        Kind::Int => TypeId(1),
        Kind::Int8 => TypeId(2),
        Kind::Int16 => TypeId(3),
        Kind::Int32 => TypeId(4),
        Kind::Int64 => TypeId(5),
        Kind::Uint => TypeId(6),
        Kind::Uint8 => TypeId(7),
        Kind::Uint16 => TypeId(8),
        Kind::Uint32 => TypeId(9),
        Kind::Uint64 => TypeId(10),
        Kind::Uintptr => TypeId(11),
        Kind::Text => TypeId(12),
        Kind::UntypedBool => TypeId(13),
        Kind::UntypedInt => TypeId(14),
        Kind::UntypedRune => TypeId(15),
        Kind::UntypedText => TypeId(16),
        Kind::UntypedNil => TypeId(17),
    }
}

/// The number of the type `error`.
pub fn error_type() -> TypeId
    ensures { result.0 ≡ error_number }
{
    TypeId(18)
}
