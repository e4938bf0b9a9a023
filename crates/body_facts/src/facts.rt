//! What the late rules of bodies are given of a file.
ghost use Rattle.std.specs.Prelude.{◌≡◌, ◌≤◌, ◌^◌, IfOk, length};
ghost use Rattle.go_tree.specs.Pieces.{Spelled};
ghost use Rattle.node_values.specs.Parents.{AreParents};
ghost use Rattle.unit_read.specs.Subjects.{unit_of, IsRead, cell};
ghost use Rattle.label_uses.specs.Read.{AreLabels};
ghost use Rattle.body_rules.specs.Files.{IsFile};
ghost use Rattle.body_rules.specs.Given.{given};
ghost use Rattle.body_facts.specs.Facts.{AreFacts, IsGivenOf};

use crate::label_tables::{count_nodes, denoted_of, idle_of, repeated_of};
use crate::name_tables::{meant_of, panics_of};
use crate::variable_tables::variables_of;
use body_rules::File;
use go_tree::{FileTree, NodeRef};
use gv_base::NoMemory;
use label_uses::Labels;
use node_values::{parents_of, spelled_nodes};
use shadowed_results::shadowed_returns;
use std::alloc::Global;
use unit_read::Subject;

/// Tables by node: the label of each name behind a jump, which nodes are labels that stand second or that no jump
/// denotes, which are calls of `panic` and which declare variables of functions, and what each node means in its file.
#[derive(Drop)]
pub struct Facts {
    pub labels: Vec<Option<usize>>,
    pub repeated: Vec<bool>,
    pub unused: Vec<bool>,
    /// The `return`s without values where a result is shadowed.
    pub shadowed: Vec<bool>,
    pub panics: Vec<bool>,
    pub variables: Vec<bool>,
    pub meant: Vec<Option<usize>>,
}

fn node_parents(alloc: Global, tree: &FileTree) -> Result<Vec<usize>, NoMemory>
    ensures { IfOk result (λ parents. AreParents tree.now.nodes (length tree.now.nodes) parents.items) }
{
    let parents = parents_of(alloc, tree.nodes.as_slice())?;
    Ok(parents)
}

/// The tables of a file, in time in step with its nodes.
pub fn facts_of(
    alloc: Global,
    u: &Subject,
    number: u32,
    bytes: &[u8],
    tree: &FileTree,
    labels: &Labels,
    meant: &Vec<Vec<Option<NodeRef>>>,
) -> Result<Facts, NoMemory>
    requires read { IsRead u.now }
    requires few { length tree.now.nodes ≤ 2 ^ 32 }
    requires spelled { Spelled tree.now.tokens bytes.now tree.now }
    requires labels { AreLabels bytes.now tree.now labels.now }
    ensures { IfOk result (λ f. AreFacts (unit_of u.now) (cell meant.now.items) number bytes.now tree.now f) }
{
    spelled_nodes(tree, bytes);
    let parents = node_parents(alloc, tree)?;
    let nodes = tree.nodes.as_slice();
    let denoted = denoted_of(alloc, bytes, tree, labels)?;
    let repeated = repeated_of(alloc, bytes, tree, labels)?;
    let unused = idle_of(alloc, bytes, tree, labels)?;
    let shadowed = shadowed_returns(alloc, bytes, tree)?;
    let panics = panics_of(alloc, u, number, nodes, &parents)?;
    let variables = variables_of(alloc, u, number, nodes, &parents)?;
    let names = meant_of(alloc, meant, number, count_nodes(tree))?;
    Ok(Facts {
        labels: denoted,
        repeated,
        unused,
        shadowed,
        panics,
        variables,
        meant: names,
    })
}

/// The file with its tables, as the late rules take it.
pub fn file_of<'a>(
    facts: &'a Facts,
    u: &Subject,
    number: u32,
    bytes: &[u8],
    tree: &'a FileTree,
    meant: &Vec<Vec<Option<NodeRef>>>,
) -> File<'a>
    requires few { length tree.now.nodes ≤ 2 ^ 32 }
    requires spelled { Spelled tree.now.tokens bytes.now tree.now }
    requires facts { AreFacts (unit_of u.now) (cell meant.now.items) number bytes.now tree.now facts.now }
    ensures known { IsFile (given result) }
    ensures same { IsGivenOf (unit_of u.now) (cell meant.now.items) number bytes.now tree.now (given result) }
{
    let _ = u;
    let _ = meant;
    spelled_nodes(tree, bytes);
    File {
        number,
        nodes: tree.nodes.as_slice(),
        tokens: tree.tokens.as_slice(),
        labels: &facts.labels,
        repeated: &facts.repeated,
        unused: &facts.unused,
        panics: &facts.panics,
        variables: &facts.variables,
        meant: &facts.meant,
        shadowed: &facts.shadowed,
    }
}
