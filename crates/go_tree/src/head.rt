//! The head of a file: its package, its imports, and its first build constraint (Go 1.17, "Package
//! clause" and "Import declarations").
ghost use Rattle.std.specs.Prelude.{◌≡◌, ◌++◌, map, get_or, IfOk, OnOk, bytes_eq, codes};
ghost use Rattle.go_tree.specs.Head.{node_at, named, local_of, import_line, is_import, piece_imports, imports_of, head_of};

use crate::constraint::{constraint_in, front};
use crate::import_path::path_of;
use crate::spelling::token_text;
use crate::tree::{FileTree, NodeKind};
use gv_base::{Bytes, NoMemory, Row};
use std::alloc::Global;

/// The name that an import has in its file.
#[derive(Drop)]
pub enum LocalName {
    /// That of the imported package.
    Default,
    Named(Bytes),
    /// `_`.
    Blank,
    /// `.`: the package's exported names themselves.
    Dot,
}

/// One import.
#[derive(Drop)]
pub struct ImportLine {
    /// The value of its literal, empty where that is not one or more segments joined by `/`.
    pub path: Bytes,
    /// The offset of its first token: its name, `.`, or its literal.
    pub at: u32,
    pub local: LocalName,
}

/// The head of a file.
#[derive(Drop)]
pub struct Head {
    /// The package's name.
    pub name: Bytes,
    /// The offset of the name.
    pub name_at: u32,
    /// The imports in turn.
    pub imports: Row<ImportLine>,
    /// The offset of the first line comment before the package clause that begins `//go:build`, or
    /// whose text behind spaces and tabs begins `+build`.
    pub constraint: Option<u32>,
}

fn is_blank(name: &[u8]) -> bool
    ensures { result ≡ bytes_eq name.now (codes "_") }
{
    name == b"_".as_slice()
}

fn named(alloc: Global, name: &[u8]) -> Result<LocalName, NoMemory>
    ensures { IfOk result (λ local. local ≡ named name.now) }
{
    if is_blank(name) {
        return Ok(LocalName::Blank);
    }
    let name = Bytes::of(alloc, name)?;
    Ok(LocalName::Named(name))
}

fn local_of(alloc: Global, kind: NodeKind, name: &[u8]) -> Result<LocalName, NoMemory>
    ensures { IfOk result (λ local. local ≡ local_of kind name.now) }
{
    match kind {
        NodeKind::ImportDot => Ok(LocalName::Dot),
        NodeKind::ImportNamed => {
            let local = named(alloc, name)?;
            Ok(local)
        }
        _ => Ok(LocalName::Default),
    }
}

/// Whether a piece of this kind declares imports.
pub fn is_import(kind: NodeKind) -> bool
    ensures { result ≡ is_import kind }
{
    matches!(kind, NodeKind::Import | NodeKind::ImportGroup)
}

impl FileTree {
    /// One import.
    fn import_line(&self, alloc: Global, source: &[u8], at: u32) -> Result<ImportLine, NoMemory>
        ensures { IfOk result (λ line. line ≡ import_line self.now source.now at) }
    {
        let first = self.first(at);
        let last = self.last(at);
        let path = path_of(alloc, token_text(source, &last))?;
        let local = local_of(alloc, self.kind(at), token_text(source, &first))?;
        Ok(ImportLine {
            path,
            at: first.start,
            local,
        })
    }

    /// Adds the imports of these nodes.
    fn push_lines(
        &self,
        alloc: Global,
        source: &[u8],
        parts: &[u32],
        lines: &mut Vec<ImportLine>,
    ) -> Result<(), NoMemory>
        ensures { OnOk result (lines.new.items ≡ lines.old.items ++ map (import_line self.now source.now) parts.now) }
    {
        for part in parts {
            let line = self.import_line(alloc, source, *part)?;
            lines.push(line)?;
        }
        Ok(())
    }

    /// Adds the imports of a piece.
    fn push_imports(
        &self,
        alloc: Global,
        source: &[u8],
        top: u32,
        lines: &mut Vec<ImportLine>,
    ) -> Result<(), NoMemory>
        ensures { OnOk result (lines.new.items ≡ lines.old.items ++ piece_imports self.now source.now top) }
    {
        if is_import(self.kind(top)) {
            self.push_lines(alloc, source, self.parts(top), lines)?;
        }
        Ok(())
    }

    /// The imports of all pieces.
    fn imports(&self, alloc: Global, source: &[u8]) -> Result<Vec<ImportLine>, NoMemory>
        ensures { IfOk result (λ lines. lines.items ≡ imports_of self.now source.now self.now.tops) }
    {
        let mut lines = Vec::new(alloc);
        for top in self.tops.as_slice() {
            self.push_imports(alloc, source, *top, &mut lines)?;
        }
        Ok(lines)
    }

    /// The node of the package's name: the first part of the first piece.
    fn name_node(&self) -> u32
        ensures { result ≡ get_or (node_at self.now (get_or self.now.tops 0 0)).parts 0 0 }
    {
        number_at(self.parts(number_at(self.tops.as_slice())))
    }

    /// The head of a file: its package's name with its place, its imports, and the first build
    /// constraint before the package clause.
    pub fn head(&self, alloc: Global, source: &[u8]) -> Result<Head, NoMemory>
        ensures { IfOk result (λ head. head ≡ head_of self.now source.now) }
    {
        let token = self.first(self.name_node());
        let name = Bytes::of(alloc, token_text(source, &token))?;
        let imports = self.imports(alloc, source)?;
        let constraint = constraint_in(front(source, self.token(0).start));
        Ok(Head {
            name,
            name_at: token.start,
            imports: Row::new(imports),
            constraint,
        })
    }
}

/// The first number, or 0 of none.
fn number_at(numbers: &[u32]) -> u32
    ensures { result ≡ get_or numbers.now 0 0 }
{
    if numbers.is_empty() { 0 } else { numbers[0] }
}
