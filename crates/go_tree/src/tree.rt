//! The nodes of a file: one arena, each node directly after the nodes of its parts.
use crate::part_list::Parts;
use crate::token::Token;
use gv_base::Row;

/// What a node is: one kind for each alternative of the grammar that makes a node. An alternative
/// that is one nonterminal alone makes no node, nor does a list of one.
#[derive(Clone, Copy, Debug, PartialEq, Eq, Drop)]
pub enum NodeKind {
    Package,
    Name,
    Import,
    ImportGroup,
    ImportPath,
    ImportDot,
    ImportNamed,
    Const,
    ConstGroup,
    ConstNames,
    ConstValues,
    ConstTyped,
    Names,
    Exprs,
    TypeDecl,
    TypeGroup,
    Defined,
    Alias,
    Var,
    VarGroup,
    VarValues,
    VarTyped,
    VarTypedValues,
    FuncDecl,
    MethodDecl,
    Params,
    Param,
    SpreadParam,
    Variadic,
    Star,
    FuncType,
    StructType,
    InterfaceType,
    MapType,
    Paren,
    RecvChan,
    Selector,
    SliceType,
    ArrayType,
    SendChan,
    ChanType,
    EmbeddedPointer,
    Field,
    Embedded,
    Method,
    Value,
    KeyValue,
    Composite,
    FuncLit,
    DotsType,
    Block,
    List,
    Go,
    Defer,
    Return,
    Break,
    Continue,
    Goto,
    Fallthrough,
    Assign,
    OpAssign,
    Send,
    Increment,
    Decrement,
    Define,
    Label,
    Bind,
    Post,
    If,
    Switch,
    TypeSwitch,
    Case,
    Default,
    TypeCase,
    TypeList,
    Select,
    Comm,
    For,
    ForClause,
    ForRange,
    ForRangeAssign,
    ForRangeDefine,
    Condition,
    Index,
    SliceLow,
    SliceLowHigh,
    SliceLowHighMax,
    SliceAll,
    SliceHigh,
    SliceHighMax,
    Call,
    CallSpread,
    Int,
    Float,
    Imag,
    Rune,
    Text,
    Unary,
    Binary,
    Assert,
    TypeGuard,
}

/// A node: its kind, the numbers of its first and last token, and the numbers of the nodes of its
/// parts from left to right.
#[derive(Drop)]
pub struct Node {
    pub kind: NodeKind,
    pub first: u32,
    pub last: u32,
    pub parts: Parts,
}

/// The tree of a file. `tops` has the top node of each piece between semicolons at bracket depth
/// zero, in turn.
#[derive(Drop)]
pub struct FileTree {
    pub tokens: Row<Token>,
    pub nodes: Row<Node>,
    pub tops: Row<u32>,
}

/// A node of a file, by the numbers of both.
#[derive(Clone, Copy, Debug, PartialEq, Eq, PartialOrd, Ord, Drop)]
pub struct NodeRef {
    pub file: u32,
    pub node: u32,
}
