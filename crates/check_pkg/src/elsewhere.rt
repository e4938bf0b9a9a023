//! Which nodes name struct types of other packages, so that the keys of their literals are fields and no mentions.
ghost use Rattle.std.specs.Prelude.{◌≡◌, ◌<◌, ◌≤◌, ◌^◌, List, IfOk, IfSome, false, length};
ghost use Rattle.std.specs.Option.{option_copied, option_map_or};
ghost use Rattle.object_order.specs.Spots.{place};
ghost use Rattle.package_faces.specs.Interfaces.{id_of};
ghost use Rattle.package_objects.specs.Declares.{AreSmall};
ghost use Rattle.type_model.specs.GoTypes.{GoType, IsOver, type_of, type_at};
ghost use Rattle.type_model.specs.Tables.{IsTable, count, terms_in, types_in, declarations_in};
ghost use Rattle.type_model.specs.declared.term.TypeName.{TypeName as AName};
ghost use Rattle.unit_read.specs.Exports.{mark_in, use_in, IsUseIn};
ghost use Rattle.unit_read.specs.Subjects.{full_of, unit_of, IsRead};
ghost use Rattle.unit_read.specs.Units.{base_of};
ghost use Rattle.check_pkg.specs.Elsewhere.{is_selector, is_struct, has_fields, takes_fields, has_field_keys, is_struct_use, owner_at, exports_struct, names_struct, struct_elsewhere, IsFlagRow, AreFlagRows};

use go_tree::{FileTree, Node, NodeKind, NodeRef, Object};
use gv_base::NoMemory;
use package_faces::{ExportForm, Exported};
use package_objects::part_of;
use std::alloc::Global;
use type_model::{Term, TypeId, TypeTable};
use unit_read::{Subject, exported_of};

fn is_selector(kind: NodeKind) -> bool
    ensures { result ≡ is_selector kind }
{
    match kind {
        NodeKind::Selector => true,
        _ => false,
    }
}

fn is_struct(term: &Term) -> bool
    ensures { (types : List GoType) → result ≡ is_struct (type_of types term.now) }
{
    match term {
        Term::Basic(_) => false,
        Term::Defined(_) => false,
        Term::Pointer(_) => false,
        Term::Slice(_) => false,
        Term::Array(_, _) => false,
        Term::Map(_, _) => false,
        Term::Chan(_, _) => false,
        Term::Func(_) => false,
        Term::Struct(_) => true,
        Term::Interface(_) => false,
    }
}

fn is_struct_at(t: &TypeTable, under: TypeId) -> bool
    requires table { IsTable t.now }
    requires within { under.0 < count t.now }
    ensures { result ≡ is_struct (type_at (types_in t.now) under) }
{
    is_struct(t.term(under))
}

/// Whether the underlying type of a type is a struct.
fn has_fields(t: &TypeTable, id: TypeId) -> bool
    requires table { IsTable t.now }
    requires within { id.0 < count t.now }
    ensures { result ≡ has_fields (declarations_in t.now) (type_at (types_in t.now) id) }
{
    match t.underlying(id) {
        Some(under) => is_struct_at(t, under),
        None => false,
    }
}

/// Whether the literals of a type that has no name have fields for keys: those of a struct, and of a pointer to one where they leave it out.
fn fields_of(t: &TypeTable, under: TypeId, term: &Term) -> bool
    requires table { IsTable t.now }
    requires within { under.0 < count t.now }
    requires over { IsOver under.0 term.now }
    ensures { result ≡ takes_fields (declarations_in t.now) (type_of (types_in t.now) term.now) }
{
    let _ = under;
    match term {
        Term::Basic(_) => false,
        Term::Defined(_) => false,
        Term::Pointer(of) => has_fields(t, *of),
        Term::Slice(_) => false,
        Term::Array(_, _) => false,
        Term::Map(_, _) => false,
        Term::Chan(_, _) => false,
        Term::Func(_) => false,
        Term::Struct(_) => true,
        Term::Interface(_) => false,
    }
}

fn fields_at(t: &TypeTable, under: TypeId) -> bool
    requires table { IsTable t.now }
    requires within { under.0 < count t.now }
    ensures { result ≡ takes_fields (declarations_in t.now) (type_at (types_in t.now) under) }
{
    fields_of(t, under, t.term(under))
}

/// Whether the literals of a type have fields for keys.
fn has_field_keys(t: &TypeTable, id: TypeId) -> bool
    requires table { IsTable t.now }
    requires within { id.0 < count t.now }
    ensures { result ≡ has_field_keys (declarations_in t.now) (type_at (types_in t.now) id) }
{
    match t.underlying(id) {
        Some(under) => fields_at(t, under),
        None => false,
    }
}

fn is_struct_form(t: &TypeTable, form: &ExportForm) -> bool
    requires table { IsTable t.now }
    requires within { (id_of form.now).0 < count t.now }
    ensures { result ≡ is_struct_use (declarations_in t.now) (mark_in (types_in t.now) form.now) }
{
    match form {
        ExportForm::Constant(_, _) => false,
        ExportForm::Variable(_) => false,
        ExportForm::Function(_) => false,
        ExportForm::Own(id) => has_field_keys(t, *id),
        ExportForm::Alias(id) => has_field_keys(t, *id),
    }
}

fn is_struct_export(t: &TypeTable, exported: Option<&Exported>) -> bool
    requires table { IsTable t.now }
    requires within { IfSome (option_copied exported) (IsUseIn (count t.now)) }
    ensures { result ≡ option_map_or (λ e. is_struct_use (declarations_in t.now) (use_in (types_in t.now) e)) (option_copied exported.entry) false }
{
    match exported {
        Some(exported) => is_struct_form(t, &exported.form),
        None => false,
    }
}

/// What stands before the dot.
fn owner_at(u: &Subject, at: NodeRef, node: &Node) -> Option<Object>
    requires { IsRead u.now }
    ensures { result ≡ owner_at (unit_of u.now) at node.now }
{
    match part_of(node, 0) {
        Some(n) => u.object_at(NodeRef {
            file: at.file,
            node: n,
        }),
        None => None,
    }
}

/// Whether the package of an import has a struct type of this name.
fn exports_struct(u: &Subject, t: &TypeTable, name: &[u8], owner: Option<Object>) -> bool
    requires read { IsRead u.now }
    requires table { IsTable t.now }
    requires types { u.now.env.now.types.now ≡ terms_in t.now }
    requires base { (name : AName) → declarations_in t.now name ≡ base_of (full_of u.now) name }
    ensures { result ≡ exports_struct (full_of u.now) name.now owner }
{
    is_struct_export(t, exported_of(u, name, owner))
}

fn names_struct(u: &Subject, t: &TypeTable, at: NodeRef, node: &Node) -> bool
    requires read { IsRead u.now }
    requires table { IsTable t.now }
    requires types { u.now.env.now.types.now ≡ terms_in t.now }
    requires base { (name : AName) → declarations_in t.now name ≡ base_of (full_of u.now) name }
    ensures { result ≡ names_struct (full_of u.now) at node.now }
{
    if is_selector(node.kind) {
        let owner = owner_at(u, at, node);
        return exports_struct(u, t, u.spelled(at.file, node.last), owner);
    }
    false
}

/// Whether a node names a struct type of another package.
fn is_elsewhere(u: &Subject, t: &TypeTable, at: NodeRef) -> bool
    requires read { IsRead u.now }
    requires table { IsTable t.now }
    requires types { u.now.env.now.types.now ≡ terms_in t.now }
    requires base { (name : AName) → declarations_in t.now name ≡ base_of (full_of u.now) name }
    ensures { result ≡ struct_elsewhere (full_of u.now) at }
{
    match u.node_at(at) {
        Some(node) => names_struct(u, t, at, node),
        None => false,
    }
}

fn struct_row(
    alloc: Global,
    u: &Subject,
    t: &TypeTable,
    file: u32,
    end: usize,
) -> Result<Vec<bool>, NoMemory>
    requires read { IsRead u.now }
    requires table { IsTable t.now }
    requires types { u.now.env.now.types.now ≡ terms_in t.now }
    requires base { (name : AName) → declarations_in t.now name ≡ base_of (full_of u.now) name }
    requires few { end ≤ 2 ^ 32 }
    ensures { IfOk result (λ row. IsFlagRow (λ n. struct_elsewhere (full_of u.now) (place file n)) row.items end) }
{
    let mut row = Vec::with_capacity(alloc, end)?;
    for node in 0..end {
        let at = NodeRef {
            file,
            node: node as u32,
        };
        let is = is_elsewhere(u, t, at);
        row.push(is)?;
    }
    Ok(row)
}

fn tree_row(
    alloc: Global,
    u: &Subject,
    t: &TypeTable,
    file: u32,
    tree: &FileTree,
) -> Result<Vec<bool>, NoMemory>
    requires read { IsRead u.now }
    requires table { IsTable t.now }
    requires types { u.now.env.now.types.now ≡ terms_in t.now }
    requires base { (name : AName) → declarations_in t.now name ≡ base_of (full_of u.now) name }
    requires small { length tree.now.nodes ≤ 2 ^ 32 }
    ensures { IfOk result (λ row. IsFlagRow (λ n. struct_elsewhere (full_of u.now) (place file n)) row.items (length tree.now.nodes)) }
{
    let row = struct_row(alloc, u, t, file, tree.nodes.as_slice().len())?;
    Ok(row)
}

/// For each node of each file whether it names a struct type of another package. The types of those packages are declared in the table.
pub fn struct_rows(alloc: Global, u: &Subject, t: &TypeTable) -> Result<Vec<Vec<bool>>, NoMemory>
    requires read { IsRead u.now }
    requires table { IsTable t.now }
    requires types { u.now.env.now.types.now ≡ terms_in t.now }
    requires base { (name : AName) → declarations_in t.now name ≡ base_of (full_of u.now) name }
    requires small { AreSmall u.now.trees.now }
    requires few { length u.now.trees.now ≤ 2 ^ 32 }
    ensures { IfOk result (λ rows. AreFlagRows (struct_elsewhere (full_of u.now)) u.now.trees.now rows.items (length u.now.trees.now)) }
{
    let mut rows = Vec::new(alloc);
    for file in 0..u.trees.len() {
        let row = tree_row(alloc, u, t, file as u32, &u.trees[file])?;
        rows.push(row)?;
    }
    Ok(rows)
}
