//! An analyzer: what it reports of a node.
ghost use Rattle.std.specs.Prelude.{◌≡◌, Some, OnOk};
ghost use Rattle.analysis_core.specs.declared.diagnostic.Diagnostic.{Diagnostic as OneDiagnostic};
ghost use Rattle.go_tree.specs.declared.tree.Node.{Node as OneNode};
ghost use Rattle.go_tree.specs.declared.tree.NodeRef.{NodeRef as Place};
ghost use Rattle.typed_marks.specs.declared.item.Item.{Item};
ghost use Rattle.typed_marks.specs.Meanings.{Meaning};
ghost use Rattle.unit_read.specs.Units.{Unit, node_at};
ghost use Rattle.findings.specs.Gains.{Gains};
ghost use Rattle.findings.specs.Passes.{unit_in, marks_in, IsPass};

use crate::passing::Pass;
use analysis_core::Diagnostic;
use go_tree::{Node, NodeRef};
use gv_base::NoMemory;
use std::alloc::Global;

/// What is reported of each node.
pub trait Reports {
    /// What is reported of a node of a package.
    ghost reported: { Self → Unit → (Item → Meaning) → Place → OneNode → OneDiagnostic → Type 0 };

    /// What is kept of the package is right.
    ghost fits: { Self → Unit → (Item → Meaning) → Type 0 };

    /// Adds what is reported of a node.
    fn report_at(
        &self,
        alloc: Global,
        pass: &Pass,
        at: NodeRef,
        node: &Node,
        found: &mut Vec<Diagnostic>,
    ) -> Result<(), NoMemory>
        requires pass { IsPass pass.now }
        requires fits { fits self.now (unit_in pass.now) (marks_in pass.now) }
        requires node { node_at (unit_in pass.now) at ≡ Some node.now }
        ensures { OnOk result (Gains (reported self.now (unit_in pass.now) (marks_in pass.now) at node.now) found.old.items found.new.items) };
}
