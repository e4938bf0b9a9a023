//! The names of a file's nodes, by number.
ghost use Rattle.std.specs.Prelude.{◌≡◌, ◌<◌, ◌≤◌, ◌+◌, ◌^◌, IfOk, OnOk, List, ℕ, Some, length, option_map, if◌then◌else◌};
ghost use Rattle.std.specs.Str.{bytes_eq};
ghost use Rattle.scopes.specs.Regions.{is_name, form_of};
ghost use Rattle.file_uses.specs.Numbers.{name_in, found, IsNumbered, IsNumbering};

use go_tree::{FileTree, NodeKind, token_text};
use gv_base::NoMemory;
use std::alloc::Global;
use std::collections::HashMap;

/// The number of each node's name, and one more than the greatest.
#[derive(Drop)]
pub struct Numbers {
    pub of: Vec<usize>,
    pub count: usize,
}

/// Whether a node of this kind is a name. It is asked of each node, and costs less than the role.
fn is_name(kind: NodeKind) -> bool
    ensures { result ≡ is_name (form_of kind) }
{
    match kind {
        NodeKind::Name => true,
        NodeKind::Names
        | NodeKind::Params
        | NodeKind::Param
        | NodeKind::SpreadParam
        | NodeKind::Bind
        | NodeKind::Block
        | NodeKind::List
        | NodeKind::If
        | NodeKind::Switch
        | NodeKind::Select
        | NodeKind::For
        | NodeKind::ForClause
        | NodeKind::ForRange
        | NodeKind::ForRangeAssign
        | NodeKind::Case
        | NodeKind::Comm
        | NodeKind::TypeCase
        | NodeKind::Default
        | NodeKind::TypeSwitch
        | NodeKind::ForRangeDefine
        | NodeKind::FuncDecl
        | NodeKind::MethodDecl
        | NodeKind::FuncLit
        | NodeKind::ConstNames
        | NodeKind::ConstValues
        | NodeKind::ConstTyped
        | NodeKind::VarValues
        | NodeKind::VarTyped
        | NodeKind::VarTypedValues
        | NodeKind::Define
        | NodeKind::Defined
        | NodeKind::Alias
        | NodeKind::Package
        | NodeKind::ImportNamed
        | NodeKind::Field
        | NodeKind::Method
        | NodeKind::Label
        | NodeKind::Break
        | NodeKind::Continue
        | NodeKind::Goto
        | NodeKind::Import
        | NodeKind::ImportGroup
        | NodeKind::ImportPath
        | NodeKind::ImportDot
        | NodeKind::Const
        | NodeKind::ConstGroup
        | NodeKind::Exprs
        | NodeKind::TypeDecl
        | NodeKind::TypeGroup
        | NodeKind::Var
        | NodeKind::VarGroup
        | NodeKind::Variadic
        | NodeKind::Star
        | NodeKind::FuncType
        | NodeKind::StructType
        | NodeKind::InterfaceType
        | NodeKind::MapType
        | NodeKind::Paren
        | NodeKind::RecvChan
        | NodeKind::Selector
        | NodeKind::SliceType
        | NodeKind::ArrayType
        | NodeKind::SendChan
        | NodeKind::ChanType
        | NodeKind::EmbeddedPointer
        | NodeKind::Embedded
        | NodeKind::Value
        | NodeKind::KeyValue
        | NodeKind::Composite
        | NodeKind::DotsType
        | NodeKind::Go
        | NodeKind::Defer
        | NodeKind::Return
        | NodeKind::Fallthrough
        | NodeKind::Assign
        | NodeKind::OpAssign
        | NodeKind::Send
        | NodeKind::Increment
        | NodeKind::Decrement
        | NodeKind::Post
        | NodeKind::TypeList
        | NodeKind::Condition
        | NodeKind::Index
        | NodeKind::SliceLow
        | NodeKind::SliceLowHigh
        | NodeKind::SliceLowHighMax
        | NodeKind::SliceAll
        | NodeKind::SliceHigh
        | NodeKind::SliceHighMax
        | NodeKind::Call
        | NodeKind::CallSpread
        | NodeKind::Int
        | NodeKind::Float
        | NodeKind::Imag
        | NodeKind::Rune
        | NodeKind::Text
        | NodeKind::Unary
        | NodeKind::Binary
        | NodeKind::Assert
        | NodeKind::TypeGuard => false,
    }
}

/// The bytes of the name that a node is, if it is one.
pub fn name_at<'a>(bytes: &'a [u8], tree: &FileTree, at: usize) -> Option<&'a [u8]>
    ensures { option_map (λ o. o.now) result ≡ name_in bytes.now tree.now at }
{
    let node = match tree.nodes.as_slice().get(at) {
        Some(node) => node,
        None => return None,
    };
    if !is_name(node.kind) {
        return None;
    }
    match tree.tokens.as_slice().get(node.first as usize) {
        Some(token) => Some(token_text(bytes, token)),
        None => None,
    }
}

fn find(names: &HashMap<&[u8], usize>, name: &[u8]) -> Option<usize>
    ensures { result ≡ found names.now name.now }
{
    names.get(name).copied()
}

fn keep<'a>(
    names: &mut HashMap<&'a [u8], usize>,
    name: &'a [u8],
    number: usize,
) -> Result<(), NoMemory>
    ensures { OnOk result ((q : List ℕ) → found names.new q ≡ (if bytes_eq name.now q then Some number else found names.old q)) }
{
    names.insert(name, number)?;
    Ok(())
}

/// The number of a name: that which it has, or the next one, which it then has.
fn number_of<'a>(
    names: &mut HashMap<&'a [u8], usize>,
    name: &'a [u8],
    next: usize,
) -> Result<usize, NoMemory>
    ensures { IfOk result (λ n. IsNumbered (Some name.now) (found names.old) (found names.new) next n) }
{
    match find(names, name) {
        Some(number) => Ok(number),
        None => {
            keep(names, name, next)?;
            Ok(next)
        }
    }
}

/// The number of a node's name.
fn number_at<'a>(
    names: &mut HashMap<&'a [u8], usize>,
    bytes: &'a [u8],
    tree: &FileTree,
    at: usize,
    next: usize,
) -> Result<usize, NoMemory>
    ensures { IfOk result (λ n. IsNumbered (name_in bytes.now tree.now at) (found names.old) (found names.new) next n) }
{
    match name_at(bytes, tree, at) {
        Some(name) => {
            let number = number_of(names, name, next)?;
            Ok(number)
        }
        None => Ok(0),
    }
}

/// One more where the number is the next one.
fn after(next: usize, number: usize) -> usize
    requires { next < 2 ^ 62 }
    ensures next { next ≤ result }
    ensures below { number ≤ next → number < result }
    ensures one { result ≤ next + 1 }
{
    if number == next { next + 1 } else { next }
}

pub(crate) fn count_nodes(tree: &FileTree) -> usize
    ensures { result ≡ length tree.now.nodes }
{
    tree.nodes.as_slice().len()
}

/// The number of each node's name. Two nodes have the same number exactly where they have the same name, or none.
pub fn number_names(alloc: Global, bytes: &[u8], tree: &FileTree) -> Result<Numbers, NoMemory>
    requires { length tree.now.nodes ≤ 2 ^ 32 }
    ensures { IfOk result (λ numbers. IsNumbering (name_in bytes.now tree.now) (length tree.now.nodes) numbers.of.items numbers.count) }
{
    let mut names: HashMap<&[u8], usize> = HashMap::new(alloc);
    let mut of = Vec::with_capacity(alloc, count_nodes(tree))?;
    let mut next = 1;
    for at in 0..count_nodes(tree) {
        let number = number_at(&mut names, bytes, tree, at, next)?;
        of.push(number)?;
        next = after(next, number);
    }
    Ok(Numbers { of, count: next })
}
