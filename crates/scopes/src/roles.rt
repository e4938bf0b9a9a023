//! What each kind of node does to names.
ghost use Rattle.std.specs.Prelude.{◌≡◌};
ghost use Rattle.scopes.specs.Roles.{role};

use crate::scope::{Declares, Form, Handed, Role};
use go_tree::NodeKind;

const PLAIN: Role = Role {
    form: Form::Other,
    opens: false,
    takes: false,
    hands: Handed::Nothing,
    declares: Declares::Nothing,
    named: 0,
};

/// What a node of this kind does to names.
pub fn role(kind: NodeKind) -> Role
    ensures { result ≡ role kind }
{
    match kind {
        NodeKind::Name => Role {
            form: Form::Name,
            ..PLAIN
        },
        NodeKind::Names => Role {
            form: Form::Names,
            ..PLAIN
        },
        NodeKind::Params => Role {
            form: Form::Params,
            ..PLAIN
        },
        NodeKind::Param | NodeKind::SpreadParam => Role {
            form: Form::Param,
            named: 1,
            ..PLAIN
        },
        NodeKind::Bind => Role {
            form: Form::Bind,
            named: 1,
            ..PLAIN
        },
        NodeKind::Block => Role {
            opens: true,
            takes: true,
            ..PLAIN
        },
        NodeKind::List => Role {
            takes: true,
            ..PLAIN
        },
        NodeKind::If
        | NodeKind::Switch
        | NodeKind::Select
        | NodeKind::For
        | NodeKind::ForClause
        | NodeKind::ForRange
        | NodeKind::ForRangeAssign
        | NodeKind::Case
        | NodeKind::Comm => Role {
            opens: true,
            ..PLAIN
        },
        NodeKind::TypeCase | NodeKind::Default => Role {
            opens: true,
            hands: Handed::Passed,
            ..PLAIN
        },
        NodeKind::TypeSwitch => Role {
            opens: true,
            hands: Handed::Switch,
            ..PLAIN
        },
        NodeKind::ForRangeDefine => Role {
            opens: true,
            hands: Handed::Range,
            named: 1,
            ..PLAIN
        },
        NodeKind::FuncDecl => Role {
            hands: Handed::Parameters,
            declares: Declares::Before,
            named: 1,
            ..PLAIN
        },
        NodeKind::MethodDecl => Role {
            hands: Handed::Parameters,
            named: 2,
            ..PLAIN
        },
        NodeKind::FuncLit => Role {
            hands: Handed::Parameters,
            ..PLAIN
        },
        NodeKind::ConstNames
        | NodeKind::ConstValues
        | NodeKind::ConstTyped
        | NodeKind::VarValues
        | NodeKind::VarTyped
        | NodeKind::VarTypedValues => Role {
            declares: Declares::After,
            named: 1,
            ..PLAIN
        },
        NodeKind::Define => Role {
            declares: Declares::Assigns,
            named: 1,
            ..PLAIN
        },
        NodeKind::Defined | NodeKind::Alias => Role {
            declares: Declares::Before,
            named: 1,
            ..PLAIN
        },
        NodeKind::Package
        | NodeKind::ImportNamed
        | NodeKind::Field
        | NodeKind::Method
        | NodeKind::Label
        | NodeKind::Break
        | NodeKind::Continue
        | NodeKind::Goto => Role { named: 1, ..PLAIN },
        NodeKind::Import
        | NodeKind::ImportGroup
        | NodeKind::ImportPath
        | NodeKind::ImportDot
        | NodeKind::Const
        | NodeKind::ConstGroup
        | NodeKind::Exprs
        | NodeKind::TypeDecl
        | NodeKind::TypeGroup
        | NodeKind::Var
        | NodeKind::VarGroup
        | NodeKind::Variadic
        | NodeKind::Star
        | NodeKind::FuncType
        | NodeKind::StructType
        | NodeKind::InterfaceType
        | NodeKind::MapType
        | NodeKind::Paren
        | NodeKind::RecvChan
        | NodeKind::Selector
        | NodeKind::SliceType
        | NodeKind::ArrayType
        | NodeKind::SendChan
        | NodeKind::ChanType
        | NodeKind::EmbeddedPointer
        | NodeKind::Embedded
        | NodeKind::Value
        | NodeKind::KeyValue
        | NodeKind::Composite
        | NodeKind::DotsType
        | NodeKind::Go
        | NodeKind::Defer
        | NodeKind::Return
        | NodeKind::Fallthrough
        | NodeKind::Assign
        | NodeKind::OpAssign
        | NodeKind::Send
        | NodeKind::Increment
        | NodeKind::Decrement
        | NodeKind::Post
        | NodeKind::TypeList
        | NodeKind::Condition
        | NodeKind::Index
        | NodeKind::SliceLow
        | NodeKind::SliceLowHigh
        | NodeKind::SliceLowHighMax
        | NodeKind::SliceAll
        | NodeKind::SliceHigh
        | NodeKind::SliceHighMax
        | NodeKind::Call
        | NodeKind::CallSpread
        | NodeKind::Int
        | NodeKind::Float
        | NodeKind::Imag
        | NodeKind::Rune
        | NodeKind::Text
        | NodeKind::Unary
        | NodeKind::Binary
        | NodeKind::Assert
        | NodeKind::TypeGuard => PLAIN,
    }
}

/// Whether a node of this kind begins with the names that are handed to it. It is asked of each node, and costs less than the whole role.
pub fn takes(kind: NodeKind) -> bool
    ensures { result ≡ (role kind).takes }
{
    match kind {
        NodeKind::Block | NodeKind::List => true,
        NodeKind::Name
        | NodeKind::Names
        | NodeKind::Params
        | NodeKind::Param
        | NodeKind::SpreadParam
        | NodeKind::Bind
        | NodeKind::If
        | NodeKind::Switch
        | NodeKind::Select
        | NodeKind::For
        | NodeKind::ForClause
        | NodeKind::ForRange
        | NodeKind::ForRangeAssign
        | NodeKind::Case
        | NodeKind::Comm
        | NodeKind::TypeCase
        | NodeKind::Default
        | NodeKind::TypeSwitch
        | NodeKind::ForRangeDefine
        | NodeKind::FuncDecl
        | NodeKind::MethodDecl
        | NodeKind::FuncLit
        | NodeKind::ConstNames
        | NodeKind::ConstValues
        | NodeKind::ConstTyped
        | NodeKind::VarValues
        | NodeKind::VarTyped
        | NodeKind::VarTypedValues
        | NodeKind::Define
        | NodeKind::Defined
        | NodeKind::Alias
        | NodeKind::Package
        | NodeKind::ImportNamed
        | NodeKind::Field
        | NodeKind::Method
        | NodeKind::Label
        | NodeKind::Break
        | NodeKind::Continue
        | NodeKind::Goto
        | NodeKind::Import
        | NodeKind::ImportGroup
        | NodeKind::ImportPath
        | NodeKind::ImportDot
        | NodeKind::Const
        | NodeKind::ConstGroup
        | NodeKind::Exprs
        | NodeKind::TypeDecl
        | NodeKind::TypeGroup
        | NodeKind::Var
        | NodeKind::VarGroup
        | NodeKind::Variadic
        | NodeKind::Star
        | NodeKind::FuncType
        | NodeKind::StructType
        | NodeKind::InterfaceType
        | NodeKind::MapType
        | NodeKind::Paren
        | NodeKind::RecvChan
        | NodeKind::Selector
        | NodeKind::SliceType
        | NodeKind::ArrayType
        | NodeKind::SendChan
        | NodeKind::ChanType
        | NodeKind::EmbeddedPointer
        | NodeKind::Embedded
        | NodeKind::Value
        | NodeKind::KeyValue
        | NodeKind::Composite
        | NodeKind::DotsType
        | NodeKind::Go
        | NodeKind::Defer
        | NodeKind::Return
        | NodeKind::Fallthrough
        | NodeKind::Assign
        | NodeKind::OpAssign
        | NodeKind::Send
        | NodeKind::Increment
        | NodeKind::Decrement
        | NodeKind::Post
        | NodeKind::TypeList
        | NodeKind::Condition
        | NodeKind::Index
        | NodeKind::SliceLow
        | NodeKind::SliceLowHigh
        | NodeKind::SliceLowHighMax
        | NodeKind::SliceAll
        | NodeKind::SliceHigh
        | NodeKind::SliceHighMax
        | NodeKind::Call
        | NodeKind::CallSpread
        | NodeKind::Int
        | NodeKind::Float
        | NodeKind::Imag
        | NodeKind::Rune
        | NodeKind::Text
        | NodeKind::Unary
        | NodeKind::Binary
        | NodeKind::Assert
        | NodeKind::TypeGuard => false,
    }
}
