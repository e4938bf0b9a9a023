//! What the parts of a node are so far, as far as rules ask.
ghost use Rattle.std.specs.Prelude.{◌≡◌, true, false};
ghost use Rattle.go_tree.specs.Shape.{sort, add, meets};

use go_tree::{Guard, NodeKind, Shape, Sort};

/// What a node of this kind is beside others.
pub fn sort(kind: NodeKind) -> Sort
    ensures { result ≡ sort kind }
{
    match kind {
        NodeKind::Name => Sort::Name,
        NodeKind::Star => Sort::Expr,
        NodeKind::FuncType => Sort::Expr,
        NodeKind::StructType => Sort::Expr,
        NodeKind::InterfaceType => Sort::Expr,
        NodeKind::MapType => Sort::Expr,
        NodeKind::Paren => Sort::Expr,
        NodeKind::RecvChan => Sort::Expr,
        NodeKind::Selector => Sort::Expr,
        NodeKind::SliceType => Sort::Expr,
        NodeKind::ArrayType => Sort::Expr,
        NodeKind::SendChan => Sort::Expr,
        NodeKind::ChanType => Sort::Expr,
        NodeKind::Composite => Sort::Expr,
        NodeKind::FuncLit => Sort::Expr,
        NodeKind::DotsType => Sort::Expr,
        NodeKind::Index => Sort::Expr,
        NodeKind::SliceLow => Sort::Expr,
        NodeKind::SliceLowHigh => Sort::Expr,
        NodeKind::SliceLowHighMax => Sort::Expr,
        NodeKind::SliceAll => Sort::Expr,
        NodeKind::SliceHigh => Sort::Expr,
        NodeKind::SliceHighMax => Sort::Expr,
        NodeKind::Call => Sort::Expr,
        NodeKind::CallSpread => Sort::Expr,
        NodeKind::Int => Sort::Expr,
        NodeKind::Float => Sort::Expr,
        NodeKind::Imag => Sort::Expr,
        NodeKind::Rune => Sort::Expr,
        NodeKind::Text => Sort::Expr,
        NodeKind::Unary => Sort::Expr,
        NodeKind::Binary => Sort::Expr,
        NodeKind::Assert => Sort::Expr,
        NodeKind::Bind => Sort::Guard,
        NodeKind::TypeGuard => Sort::Guard,
        NodeKind::Names => Sort::List,
        NodeKind::Exprs => Sort::List,
        NodeKind::TypeList => Sort::List,
        NodeKind::Param => Sort::Group,
        NodeKind::Variadic => Sort::Spread,
        NodeKind::SpreadParam => Sort::SpreadGroup,
        _ => Sort::Statement,
    }
}

/// The shape where one of a sort stands left of others.
pub fn add(shape: Shape, sort: Sort) -> Shape
    ensures { result ≡ add shape sort }
{
    match (shape, sort) {
        (Shape::Nothing, Sort::Name) => Shape::Name,
        (Shape::Nothing, Sort::Expr) => Shape::One,
        (Shape::Nothing, Sort::Guard) => Shape::Guard,
        (Shape::Nothing, Sort::Statement) => Shape::Statement,
        (Shape::Nothing, Sort::List) => Shape::List,
        (Shape::Nothing, Sort::Group) => Shape::Groups,
        (Shape::Nothing, Sort::Spread) => Shape::Spread,
        (Shape::Nothing, Sort::SpreadGroup) => Shape::SpreadGroups,
        (Shape::Name, Sort::Name) => Shape::Names,
        (Shape::Name, Sort::Expr) => Shape::Many,
        (Shape::Name, _) => Shape::Mixed,
        (Shape::One, Sort::Name) => Shape::Many,
        (Shape::One, Sort::Expr) => Shape::Many,
        (Shape::One, _) => Shape::Mixed,
        (Shape::Names, Sort::Name) => Shape::Names,
        (Shape::Names, Sort::Expr) => Shape::Many,
        (Shape::Names, _) => Shape::Mixed,
        (Shape::Many, Sort::Name) => Shape::Many,
        (Shape::Many, Sort::Expr) => Shape::Many,
        (Shape::Many, _) => Shape::Mixed,
        (Shape::Spread, Sort::Name) => Shape::Spread,
        (Shape::Spread, Sort::Expr) => Shape::Spread,
        (Shape::Spread, _) => Shape::Mixed,
        (Shape::Guard, Sort::Name) => Shape::Bind,
        (Shape::Guard, _) => Shape::EndsInGuard,
        (Shape::Bind, _) => Shape::EndsInGuard,
        (Shape::EndsInGuard, _) => Shape::EndsInGuard,
        (Shape::Statement, _) => Shape::Mixed,
        (Shape::List, _) => Shape::Mixed,
        (Shape::Groups, Sort::Group) => Shape::Groups,
        (Shape::Groups, _) => Shape::Mixed,
        (Shape::SpreadGroups, Sort::Group) => Shape::SpreadGroups,
        (Shape::SpreadGroups, _) => Shape::Mixed,
        (Shape::Mixed, _) => Shape::Mixed,
    }
}

/// Whether parts of this shape meet the guard.
pub fn meets(guard: Guard, shape: Shape) -> bool
    ensures { result ≡ meets guard shape }
{
    match guard {
        Guard::Any => true,
        Guard::Single => match shape {
            Shape::Name | Shape::One => true,
            _ => false,
        },
        Guard::SingleName => match shape {
            Shape::Name => true,
            _ => false,
        },
        Guard::Several => match shape {
            Shape::Names | Shape::Many => true,
            _ => false,
        },
        Guard::SeveralNames => match shape {
            Shape::Names => true,
            _ => false,
        },
        Guard::OneGuard => match shape {
            Shape::Guard => true,
            _ => false,
        },
        Guard::NoGuard => match shape {
            Shape::Guard | Shape::Bind | Shape::EndsInGuard => false,
            _ => true,
        },
        Guard::SomeGuard => match shape {
            Shape::Guard | Shape::Bind | Shape::EndsInGuard => true,
            _ => false,
        },
        Guard::Binds => match shape {
            Shape::Bind => true,
            _ => false,
        },
        Guard::Tag => match shape {
            Shape::Nothing | Shape::Name | Shape::One => true,
            _ => false,
        },
        Guard::Opening => match shape {
            Shape::Nothing | Shape::Name | Shape::One | Shape::Statement => true,
            _ => false,
        },
        Guard::Nothing => match shape {
            Shape::Nothing => true,
            _ => false,
        },
        Guard::Parameters => match shape {
            Shape::Mixed => false,
            _ => true,
        },
        Guard::ResultList => match shape {
            Shape::Spread | Shape::SpreadGroups | Shape::Mixed => false,
            _ => true,
        },
        Guard::FieldNames => match shape {
            Shape::Name | Shape::List => true,
            _ => false,
        },
        Guard::Assigned => match shape {
            Shape::Name | Shape::One | Shape::List => true,
            _ => false,
        },
    }
}
