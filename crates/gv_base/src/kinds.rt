//! Classes and numbers of basic types (Go 1.17, "Types" and "Constants").
ghost use Rattle.std.specs.Prelude.{◌≡◌, ◌≤◌};
ghost use Rattle.gv_base.specs.Kinds.{is_boolean, is_integer, is_string, is_nil, is_untyped, kind_number, kind_numbered};

use crate::constant::Kind;

impl Kind {
    /// The values of the kind are truths, also where it is untyped.
    pub fn is_boolean(self) -> bool
        ensures { result ≡ is_boolean self }
    {
        matches!(self, Kind::Bool | Kind::UntypedBool)
    }

    /// The values of the kind are integers, also where it is untyped.
    pub fn is_integer(self) -> bool
        ensures { result ≡ is_integer self }
    {
        matches!(
            self,
            Kind::Int
                | Kind::Int8
                | Kind::Int16
                | Kind::Int32
                | Kind::Int64
                | Kind::Uint
                | Kind::Uint8
                | Kind::Uint16
                | Kind::Uint32
                | Kind::Uint64
                | Kind::Uintptr
                | Kind::UntypedInt
                | Kind::UntypedRune
        )
    }

    /// The values of the kind are texts, also where it is untyped.
    pub fn is_string(self) -> bool
        ensures { result ≡ is_string self }
    {
        matches!(self, Kind::Text | Kind::UntypedText)
    }

    /// The kind is that of `nil`.
    pub fn is_nil(self) -> bool
        ensures { result ≡ is_nil self }
    {
        matches!(self, Kind::UntypedNil)
    }

    /// The kind is that of untyped operands.
    pub fn is_untyped(self) -> bool
        ensures { result ≡ is_untyped self }
    {
        matches!(
            self,
            Kind::UntypedBool
                | Kind::UntypedInt
                | Kind::UntypedRune
                | Kind::UntypedText
                | Kind::UntypedNil
        )
    }

    /// The kind's number, from 0 in the order of declaration.
    pub fn number(self) -> u8
        ensures { result ≡ kind_number self }
    {
        self as u8
    }

    /// The kind of this number, which is at most 17.
    pub fn of_number(number: u8) -> Kind
        requires { number ≤ 17 }
        ensures { result ≡ kind_numbered number }
    {
        match number {
            0 => Kind::Bool,
            1 => Kind::Int,
            2 => Kind::Int8,
            3 => Kind::Int16,
            4 => Kind::Int32,
            5 => Kind::Int64,
            6 => Kind::Uint,
            7 => Kind::Uint8,
            8 => Kind::Uint16,
            9 => Kind::Uint32,
            10 => Kind::Uint64,
            11 => Kind::Uintptr,
            12 => Kind::Text,
            13 => Kind::UntypedBool,
            14 => Kind::UntypedInt,
            15 => Kind::UntypedRune,
            16 => Kind::UntypedText,
            _ => Kind::UntypedNil,
        }
    }
}
