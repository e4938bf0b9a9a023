//! What is known of each package before cycles are looked for.
ghost use Rattle.std.specs.Prelude.{◌≡◌, ◌<◌, ◌≤◌, ◌^◌, ◌↔◌, ℕ, List, Some, false, true, length, map, slice_get, cond, IfOk};
ghost use Rattle.std.specs.List.{Contains};
ghost use Rattle.std.specs.List.Sorted.{IsStrictlyIncreasing};
ghost use Rattle.import_graph.specs.Packages.{is_broken, is_empty, imports_path};
ghost use Rattle.import_graph.specs.Tables.{AreAscending, IsDraft, AreDrafts, chosen, row_at};

use crate::fault::is_broken;
use crate::imports::imports;
use go_tree::Head;
use gv_base::{NoMemory, Row, Text};
use std::alloc::Global;

/// What a package has besides its path and its state.
#[derive(Drop)]
pub struct Draft {
    pub stub: bool,
    pub files: Row<u32>,
    pub imports: Row<u32>,
}

/// The numbers of the packages that files import; of broken files none.
fn imports_of(
    alloc: Global,
    heads: &[Option<Head>],
    names: &[Text],
    files: &[u32],
) -> Result<Vec<u32>, NoMemory>
    requires order { AreAscending names.now }
    requires few { length names.now < 2 ^ 32 }
    ensures rising { IfOk result (λ imports. IsStrictlyIncreasing imports.items) }
    ensures imports { IfOk result (λ imports. (n : ℕ) → Contains imports.items n ↔ (is_broken heads.now files.now ≡ false) × ((q : List ℕ) × (slice_get names.now n ≡ Some q) × (imports_path heads.now files.now q ≡ true))) }
{
    if is_broken(heads, files) {
        return Ok(Vec::new(alloc));
    }
    let imports = imports(alloc, heads, names, files)?;
    Ok(imports)
}

pub fn numbers(alloc: Global, files: &[u32]) -> Result<Vec<u32>, NoMemory>
    ensures { IfOk result (λ copy. copy.items ≡ files.now) }
{
    let copy = files.to_vec(alloc)?;
    Ok(copy)
}

fn draft_of(
    alloc: Global,
    heads: &[Option<Head>],
    names: &[Text],
    stub: bool,
    files: &[u32],
) -> Result<Draft, NoMemory>
    requires order { AreAscending names.now }
    requires few { length names.now < 2 ^ 32 }
    ensures { IfOk result (IsDraft heads.now names.now stub files.now) }
{
    let imports = imports_of(alloc, heads, names, files)?;
    let files = numbers(alloc, files)?;
    Ok(Draft {
        stub,
        files: Row::new(files),
        imports: Row::new(imports),
    })
}

fn is_empty(row: &[u32]) -> bool
    ensures { result ≡ is_empty row.now }
{
    match row {
        [] => true,
        [_, ..] => false,
    }
}

fn row_at(rows: &[Vec<u32>], k: usize) -> &[u32]
    ensures { result.now ≡ row_at rows.now k }
{
    if k < rows.len() {
        rows[k].as_slice()
    } else {
        &[]
    }
}

fn chosen<'a>(row: &'a [u32], other: &'a [u32]) -> &'a [u32]
    ensures { result.now ≡ chosen row.now other.now }
{
    if is_empty(row) { other } else { row }
}

/// A draft for each name: of the module's files, or of those under `std` where there are none.
pub fn drafts(
    alloc: Global,
    heads: &[Option<Head>],
    names: &[Text],
    modules: &[Vec<u32>],
    stubs: &[Vec<u32>],
) -> Result<Vec<Draft>, NoMemory>
    requires order { AreAscending names.now }
    requires few { length names.now < 2 ^ 32 }
    ensures { IfOk result (λ drafts. AreDrafts heads.now names.now modules.now stubs.now (length names.now) drafts.items) }
{
    let mut drafts = Vec::new(alloc);
    for k in 0..names.len() {
        let row = row_at(modules, k);
        let draft = draft_of(
            alloc,
            heads,
            names,
            is_empty(row),
            chosen(row, row_at(stubs, k)),
        )?;
        drafts.push(draft)?;
    }
    Ok(drafts)
}
