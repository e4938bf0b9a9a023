//! The work of a run: its nodes, and what their order needs to know.
ghost use Rattle.std.specs.Prelude.{◌≡◌, ◌<◌, ◌/◌, ◌^◌, ◌↔◌, IsTrue};
ghost use Rattle.action_graph.specs.Work.{place_of, package_of, IsAnalyzer, IsNumbered};

use gv_base::Row;

/// A piece of work.
#[derive(Clone, Copy, Debug, PartialEq, Eq, Drop)]
pub enum ActionNode {
    /// The load of the package of this number.
    Load(u32),
    /// The run of the analyzer of this number over the package of this number.
    Run(u8, u32),
}

/// What the order of the work needs of a package.
#[derive(Drop)]
pub struct PackageLine {
    /// The numbers of the packages that it imports.
    pub imports: Row<u32>,
    /// Whether it is fit to be typed: no broken file, no clash of names, no missing import, no cycle.
    pub sound: bool,
    /// Whether it stands under `std`.
    pub stub: bool,
}

fn is_analyzer(number: u8) -> bool
    ensures { IsTrue result ↔ IsAnalyzer number }
{
    if number == 0 {
        return false;
    }
    number < 16
}

/// Whether the node is a load, or a run of an analyzer of 1 to 15.
pub(crate) fn is_numbered(node: ActionNode) -> bool
    ensures { IsTrue result ↔ IsNumbered node }
{
    match node {
        ActionNode::Load(_) => true,
        ActionNode::Run(analyzer, _) => is_analyzer(analyzer),
    }
}

/// The node's place in the order of nodes.
pub(crate) fn place(node: ActionNode) -> usize
    ensures { result ≡ place_of node }
{
    match node {
        ActionNode::Load(package_number) => package_number as usize * 16,
        ActionNode::Run(analyzer, package_number) => {
            package_number as usize * 16 + analyzer as usize
        }
    }
}

/// The node at a place.
pub(crate) fn node_at(place: usize) -> ActionNode
    requires { place < 2 ^ 36 }
    ensures place { place_of result ≡ place }
    ensures package_number { package_of result ≡ place / 16 }
    ensures numbered { IsNumbered result }
{
    let package_number = (place / 16) as u32;
    let analyzer = (place % 16) as u8;
    if analyzer == 0 {
        ActionNode::Load(package_number)
    } else {
        ActionNode::Run(analyzer, package_number)
    }
}
