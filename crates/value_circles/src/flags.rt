//! Flags of nodes, a row for each file.
ghost use Rattle.std.specs.Prelude.{◌≡◌, slice_get, slice_index_or, false};
ghost use Rattle.std.specs.Option.{option_copied};
ghost use Rattle.value_circles.specs.Circles.{flag};

use go_tree::NodeRef;

fn row_of(rows: &[Vec<bool>], file: u32) -> Option<&Vec<bool>>
    ensures { option_copied result ≡ slice_get rows.now file }
{
    rows.get(file as usize)
}

fn flag_in(row: &Vec<bool>, node: u32) -> bool
    ensures { result ≡ slice_index_or row.now.items node false }
{
    let row = row.as_slice();
    if (node as usize) < row.len() {
        row[node as usize]
    } else {
        false
    }
}

/// What a table of flags has for a node.
pub fn flag(rows: &[Vec<bool>], at: NodeRef) -> bool
    ensures { result ≡ flag rows.now at }
{
    match row_of(rows, at.file) {
        Some(row) => flag_in(row, at.node),
        None => false,
    }
}
