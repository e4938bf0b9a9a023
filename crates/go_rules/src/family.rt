//! Families of rules.
ghost use Rattle.std.specs.Prelude.{◌≡◌};
ghost use Rattle.go_rules.specs.Families.{family, is_told, is_expression, reads_by};

use call_rules::call_reads;
use decl_rules::decl_reads;
use go_tree::NodeKind;
use literal_rules::literal_reads;
use op_rules::op_reads;
use operator_statements::operation_reads;
use primary_rules::primary_reads;
use rule_words::How;
use statement_rules::statement_reads;
use variable_rules::variable_reads;

/// What judges a node.
#[derive(Clone, Copy, Debug, PartialEq, Eq, Drop)]
pub enum Family {
    /// Operands and operators.
    Operand,
    /// Selectors, indexes, slices, assertions, parentheses, `*`, `&` and `<-`.
    Primary,
    /// Calls and conversions.
    Call,
    /// Composite literals.
    Literal,
    /// Function literals.
    Function,
    /// The rules of declarations, for what may stand in an expression: a type.
    Type,
    /// Variables with values.
    Variable,
    /// The other declarations.
    Declaration,
    /// Statements, and what stands for them in others.
    Statement,
    /// Assignment operations.
    Operation,
    /// The package clause.
    Clause,
    /// Nothing is said of the node yet.
    Other,
}

/// What judges the nodes of a kind.
pub fn family_of(kind: NodeKind) -> Family
    ensures { result ≡ family kind }
{
    match kind {
        NodeKind::Int => Family::Operand,
        NodeKind::Rune => Family::Operand,
        NodeKind::Text => Family::Operand,
        NodeKind::Float => Family::Operand,
        NodeKind::Imag => Family::Operand,
        NodeKind::Name => Family::Operand,
        NodeKind::Binary => Family::Operand,
        NodeKind::Selector => Family::Primary,
        NodeKind::Index => Family::Primary,
        NodeKind::SliceAll => Family::Primary,
        NodeKind::SliceLow => Family::Primary,
        NodeKind::SliceLowHigh => Family::Primary,
        NodeKind::SliceLowHighMax => Family::Primary,
        NodeKind::SliceHigh => Family::Primary,
        NodeKind::SliceHighMax => Family::Primary,
        NodeKind::Assert => Family::Primary,
        NodeKind::Star => Family::Primary,
        NodeKind::Unary => Family::Primary,
        NodeKind::Paren => Family::Primary,
        NodeKind::Call => Family::Call,
        NodeKind::CallSpread => Family::Call,
        NodeKind::Composite => Family::Literal,
        NodeKind::Value => Family::Literal,
        NodeKind::KeyValue => Family::Literal,
        NodeKind::DotsType => Family::Literal,
        NodeKind::FuncLit => Family::Function,
        NodeKind::SliceType => Family::Type,
        NodeKind::ArrayType => Family::Type,
        NodeKind::MapType => Family::Type,
        NodeKind::ChanType => Family::Type,
        NodeKind::SendChan => Family::Type,
        NodeKind::RecvChan => Family::Type,
        NodeKind::FuncType => Family::Type,
        NodeKind::StructType => Family::Type,
        NodeKind::InterfaceType => Family::Type,
        NodeKind::VarValues => Family::Variable,
        NodeKind::VarTypedValues => Family::Variable,
        NodeKind::FuncDecl => Family::Declaration,
        NodeKind::MethodDecl => Family::Declaration,
        NodeKind::Method => Family::Declaration,
        NodeKind::Params => Family::Declaration,
        NodeKind::Param => Family::Declaration,
        NodeKind::SpreadParam => Family::Declaration,
        NodeKind::Variadic => Family::Declaration,
        NodeKind::Field => Family::Declaration,
        NodeKind::Embedded => Family::Declaration,
        NodeKind::EmbeddedPointer => Family::Declaration,
        NodeKind::ConstNames => Family::Declaration,
        NodeKind::ConstValues => Family::Declaration,
        NodeKind::ConstTyped => Family::Declaration,
        NodeKind::VarTyped => Family::Declaration,
        NodeKind::Defined => Family::Declaration,
        NodeKind::Alias => Family::Declaration,
        NodeKind::Const => Family::Declaration,
        NodeKind::ConstGroup => Family::Declaration,
        NodeKind::Var => Family::Declaration,
        NodeKind::VarGroup => Family::Declaration,
        NodeKind::TypeDecl => Family::Declaration,
        NodeKind::TypeGroup => Family::Declaration,
        NodeKind::Import => Family::Declaration,
        NodeKind::ImportGroup => Family::Declaration,
        NodeKind::ImportPath => Family::Declaration,
        NodeKind::ImportDot => Family::Declaration,
        NodeKind::ImportNamed => Family::Declaration,
        NodeKind::Block => Family::Statement,
        NodeKind::List => Family::Statement,
        NodeKind::Go => Family::Statement,
        NodeKind::Defer => Family::Statement,
        NodeKind::Return => Family::Statement,
        NodeKind::Break => Family::Statement,
        NodeKind::Continue => Family::Statement,
        NodeKind::Goto => Family::Statement,
        NodeKind::Fallthrough => Family::Statement,
        NodeKind::Assign => Family::Statement,
        NodeKind::Send => Family::Statement,
        NodeKind::Increment => Family::Statement,
        NodeKind::Decrement => Family::Statement,
        NodeKind::Define => Family::Statement,
        NodeKind::Label => Family::Statement,
        NodeKind::If => Family::Statement,
        NodeKind::Switch => Family::Statement,
        NodeKind::TypeSwitch => Family::Statement,
        NodeKind::Select => Family::Statement,
        NodeKind::For => Family::Statement,
        NodeKind::ForClause => Family::Statement,
        NodeKind::ForRange => Family::Statement,
        NodeKind::ForRangeAssign => Family::Statement,
        NodeKind::ForRangeDefine => Family::Statement,
        NodeKind::Case => Family::Statement,
        NodeKind::Default => Family::Statement,
        NodeKind::TypeCase => Family::Statement,
        NodeKind::TypeList => Family::Statement,
        NodeKind::Comm => Family::Statement,
        NodeKind::Condition => Family::Statement,
        NodeKind::Post => Family::Statement,
        NodeKind::TypeGuard => Family::Statement,
        NodeKind::Bind => Family::Statement,
        NodeKind::OpAssign => Family::Operation,
        NodeKind::Package => Family::Clause,
        _ => Family::Other,
    }
}

/// Whether what is said of the nodes of a family counts for their parts.
pub fn is_told(family: Family) -> bool
    ensures { result ≡ is_told family }
{
    match family {
        Family::Operand => true,
        Family::Primary => true,
        Family::Call => true,
        Family::Literal => true,
        Family::Function => true,
        Family::Type => true,
        Family::Variable => true,
        Family::Declaration => true,
        Family::Statement => true,
        Family::Operation => true,
        Family::Clause => true,
        Family::Other => false,
    }
}

/// Whether the nodes of a family are expressions or types.
pub fn is_expression(family: Family) -> bool
    ensures { result ≡ is_expression family }
{
    match family {
        Family::Operand => true,
        Family::Primary => true,
        Family::Call => true,
        Family::Literal => true,
        Family::Function => true,
        Family::Type => true,
        Family::Variable => false,
        Family::Declaration => false,
        Family::Statement => false,
        Family::Operation => false,
        Family::Clause => false,
        Family::Other => false,
    }
}

/// How the parts in a slot are read.
pub fn reads_by(family: Family, kind: NodeKind, slot: usize) -> Option<How>
    ensures { result ≡ reads_by family kind slot }
{
    match family {
        Family::Operand => op_reads(kind, slot),
        Family::Primary => primary_reads(kind, slot),
        Family::Call => call_reads(kind, slot),
        Family::Literal => literal_reads(kind, slot),
        Family::Function => None,
        Family::Type => decl_reads(kind, slot),
        Family::Variable => variable_reads(kind, slot),
        Family::Declaration => decl_reads(kind, slot),
        Family::Statement => statement_reads(kind, slot),
        Family::Operation => operation_reads(kind, slot),
        Family::Clause => None,
        Family::Other => None,
    }
}
