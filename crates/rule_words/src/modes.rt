//! What nodes stand for.
ghost use Rattle.std.specs.Prelude.{◌≡◌};
ghost use Rattle.typed_tree.specs.Places.{is_single, is_type, is_constant, is_nil_mode, is_package};

use typed_tree::Mode;

/// A single value, nil among them.
pub fn is_single(mode: Mode) -> bool
    ensures { result ≡ is_single mode }
{
    match mode {
        Mode::Constant => true,
        Mode::Variable => true,
        Mode::MapIndex => true,
        Mode::Value => true,
        Mode::CommaOk => true,
        Mode::Nil => true,
        Mode::NoValue => false,
        Mode::TypeName => false,
        Mode::Builtin => false,
        Mode::Package => false,
        Mode::Many => false,
    }
}

/// A type.
pub fn is_type(mode: Mode) -> bool
    ensures { result ≡ is_type mode }
{
    match mode {
        Mode::TypeName => true,
        Mode::NoValue => false,
        Mode::Constant => false,
        Mode::Variable => false,
        Mode::MapIndex => false,
        Mode::Value => false,
        Mode::CommaOk => false,
        Mode::Nil => false,
        Mode::Builtin => false,
        Mode::Package => false,
        Mode::Many => false,
    }
}

/// A constant.
pub fn is_constant(mode: Mode) -> bool
    ensures { result ≡ is_constant mode }
{
    match mode {
        Mode::Constant => true,
        Mode::NoValue => false,
        Mode::TypeName => false,
        Mode::Variable => false,
        Mode::MapIndex => false,
        Mode::Value => false,
        Mode::CommaOk => false,
        Mode::Nil => false,
        Mode::Builtin => false,
        Mode::Package => false,
        Mode::Many => false,
    }
}

/// The name `nil`.
pub fn is_nil_mode(mode: Mode) -> bool
    ensures { result ≡ is_nil_mode mode }
{
    match mode {
        Mode::Nil => true,
        Mode::NoValue => false,
        Mode::TypeName => false,
        Mode::Constant => false,
        Mode::Variable => false,
        Mode::MapIndex => false,
        Mode::Value => false,
        Mode::CommaOk => false,
        Mode::Builtin => false,
        Mode::Package => false,
        Mode::Many => false,
    }
}

/// An imported package.
pub fn is_package(mode: Mode) -> bool
    ensures { result ≡ is_package mode }
{
    match mode {
        Mode::Package => true,
        Mode::NoValue => false,
        Mode::TypeName => false,
        Mode::Constant => false,
        Mode::Variable => false,
        Mode::MapIndex => false,
        Mode::Value => false,
        Mode::CommaOk => false,
        Mode::Nil => false,
        Mode::Builtin => false,
        Mode::Many => false,
    }
}
