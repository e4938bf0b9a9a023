//! What nodes are to the rules of type expressions and declarations.
ghost use Rattle.std.specs.Prelude.{◌≡◌};
ghost use Rattle.decl_rules.specs.Forms.{simple_form, member_form, signed_form, listed_form, line_form, named_form, valuing_form};

use go_tree::NodeKind;
use type_model::Dir;

/// A type expression that is made of the types of its parts.
#[derive(Clone, Copy, PartialEq, Eq, Drop)]
pub enum Simple {
    /// `[]T`, and a variadic parameter.
    Slice,
    Array,
    Map,
    Chan(Dir),
    /// A parameter: it has the type that is written for it.
    Same,
}

/// A part of a struct.
#[derive(Clone, Copy, PartialEq, Eq, Drop)]
pub enum Member {
    Field,
    Embedded,
    EmbeddedPointer,
}

/// What has a signature.
#[derive(Clone, Copy, PartialEq, Eq, Drop)]
pub enum Signed {
    FuncType,
    FuncDecl,
    MethodDecl,
    /// A method of an interface.
    Method,
}

/// What makes a list of its parts.
#[derive(Clone, Copy, PartialEq, Eq, Drop)]
pub enum Listed {
    Params,
    Struct,
    Interface,
}

/// A declaration, or a specification in it.
#[derive(Clone, Copy, PartialEq, Eq, Drop)]
pub enum Line {
    Constants,
    /// Constants of a type that is written.
    Typed,
    Import,
    /// One that has no test of its own.
    Plain,
}

/// Around a name: what its object is.
#[derive(Clone, Copy, PartialEq, Eq, Drop)]
pub enum Named {
    Constant,
    /// A variable without a value.
    Typed,
    /// A variable with a value.
    Valued,
    Param,
    Function,
    Method,
    Defined,
    Alias,
    /// A map type. What stands in it declares nothing, and is tested late.
    Map,
    /// A struct type, the same.
    Struct,
}

/// Around a value: what wants it.
#[derive(Clone, Copy, PartialEq, Eq, Drop)]
pub enum Valuing {
    Array,
    Constants,
    /// Constants of a type that is written.
    TypedConstants,
}

pub fn simple_form(kind: NodeKind) -> Option<Simple>
    ensures { result ≡ simple_form kind }
{
    match kind {
        NodeKind::SliceType => Some(Simple::Slice),
        NodeKind::SpreadParam => Some(Simple::Slice),
        NodeKind::Variadic => Some(Simple::Slice),
        NodeKind::ArrayType => Some(Simple::Array),
        NodeKind::MapType => Some(Simple::Map),
        NodeKind::ChanType => Some(Simple::Chan(Dir::Both)),
        NodeKind::SendChan => Some(Simple::Chan(Dir::Send)),
        NodeKind::RecvChan => Some(Simple::Chan(Dir::Receive)),
        NodeKind::Param => Some(Simple::Same),
        _ => None,
    }
}

pub fn member_form(kind: NodeKind) -> Option<Member>
    ensures { result ≡ member_form kind }
{
    match kind {
        NodeKind::Field => Some(Member::Field),
        NodeKind::Embedded => Some(Member::Embedded),
        NodeKind::EmbeddedPointer => Some(Member::EmbeddedPointer),
        _ => None,
    }
}

pub fn signed_form(kind: NodeKind) -> Option<Signed>
    ensures { result ≡ signed_form kind }
{
    match kind {
        NodeKind::FuncType => Some(Signed::FuncType),
        NodeKind::FuncDecl => Some(Signed::FuncDecl),
        NodeKind::MethodDecl => Some(Signed::MethodDecl),
        NodeKind::Method => Some(Signed::Method),
        _ => None,
    }
}

pub fn listed_form(kind: NodeKind) -> Option<Listed>
    ensures { result ≡ listed_form kind }
{
    match kind {
        NodeKind::Params => Some(Listed::Params),
        NodeKind::StructType => Some(Listed::Struct),
        NodeKind::InterfaceType => Some(Listed::Interface),
        _ => None,
    }
}

pub fn line_form(kind: NodeKind) -> Option<Line>
    ensures { result ≡ line_form kind }
{
    match kind {
        NodeKind::ConstNames => Some(Line::Constants),
        NodeKind::ConstValues => Some(Line::Constants),
        NodeKind::ConstTyped => Some(Line::Typed),
        NodeKind::ImportPath => Some(Line::Import),
        NodeKind::ImportDot => Some(Line::Import),
        NodeKind::ImportNamed => Some(Line::Import),
        NodeKind::VarTyped => Some(Line::Plain),
        NodeKind::Defined => Some(Line::Plain),
        NodeKind::Alias => Some(Line::Plain),
        NodeKind::Const => Some(Line::Plain),
        NodeKind::ConstGroup => Some(Line::Plain),
        NodeKind::Var => Some(Line::Plain),
        NodeKind::VarGroup => Some(Line::Plain),
        NodeKind::TypeDecl => Some(Line::Plain),
        NodeKind::TypeGroup => Some(Line::Plain),
        NodeKind::Import => Some(Line::Plain),
        NodeKind::ImportGroup => Some(Line::Plain),
        _ => None,
    }
}

pub fn named_form(kind: NodeKind) -> Option<Named>
    ensures { result ≡ named_form kind }
{
    match kind {
        NodeKind::ConstNames => Some(Named::Constant),
        NodeKind::ConstValues => Some(Named::Constant),
        NodeKind::ConstTyped => Some(Named::Constant),
        NodeKind::VarTyped => Some(Named::Typed),
        NodeKind::VarTypedValues => Some(Named::Valued),
        NodeKind::VarValues => Some(Named::Valued),
        NodeKind::Param => Some(Named::Param),
        NodeKind::SpreadParam => Some(Named::Param),
        NodeKind::FuncDecl => Some(Named::Function),
        NodeKind::MethodDecl => Some(Named::Method),
        NodeKind::Defined => Some(Named::Defined),
        NodeKind::Alias => Some(Named::Alias),
        NodeKind::MapType => Some(Named::Map),
        NodeKind::StructType => Some(Named::Struct),
        _ => None,
    }
}

pub fn valuing_form(kind: NodeKind) -> Option<Valuing>
    ensures { result ≡ valuing_form kind }
{
    match kind {
        NodeKind::ArrayType => Some(Valuing::Array),
        NodeKind::ConstValues => Some(Valuing::Constants),
        NodeKind::ConstTyped => Some(Valuing::TypedConstants),
        _ => None,
    }
}
