//! Which family's rule judges a node.
ghost use Rattle.std.specs.Prelude.{◌≡◌, IfOk};
ghost use Rattle.unit_read.specs.Subjects.{unit_of};
ghost use Rattle.rule_words.specs.Scenes.{IsScene, parts_in, AreSeenOf};
ghost use Rattle.rule_words.specs.Steps.{IsStepOf};
ghost use Rattle.rule_words.specs.Wanting.{wanted_of, IsWantedOf};
ghost use Rattle.type_answers.specs.Coming.{ComesTo};
ghost use Rattle.go_rules.specs.Families.{rule_by};

use crate::clause::judge_clause;
use crate::family::Family;
use crate::functions::judge_function;
use crate::types::judge_type;
use call_rules::judge_call;
use decl_rules::judge_decl;
use go_tree::{Node, NodeRef};
use gv_base::NoMemory;
use literal_rules::judge_literal;
use op_rules::judge_op;
use operator_statements::judge_operation;
use primary_rules::judge_primary;
use rule_words::good::silent;
use rule_words::{Seen, Step, Wanted};
use statement_rules::judge_statement;
use std::alloc::Global;
use typed_marks::State;
use unit_read::Subject;
use variable_rules::judge_variables;

/// A node by the rule of its family, from its parts and from what its place wants.
#[tactic(auto, using(type_answers::proofs::ComingLaws::same_comes))]
pub fn judge_by(
    alloc: Global,
    u: &Subject,
    s: &State,
    by: Family,
    block: usize,
    at: NodeRef,
    node: &Node,
    list: &[Seen],
    w: Wanted,
) -> Result<Step, NoMemory>
    requires scene { IsScene u.now s.now }
    requires parts { AreSeenOf s.now list.now }
    requires wanted { IsWantedOf s.now w }
    ensures comes { IfOk result (ComesTo u.now s.now (rule_by by (unit_of u.now) block at node.now (parts_in s.now list.now) (wanted_of s.now w))) }
    ensures over { IfOk result (IsStepOf s.now) }
{
    match by {
        Family::Operand => judge_op(alloc, u, s, block, at, node, list, w),
        Family::Primary => judge_primary(alloc, u, s, block, at, node, list, w),
        Family::Call => judge_call(alloc, u, s, block, at, node, list, w),
        Family::Literal => judge_literal(alloc, u, s, block, at, node, list, w),
        Family::Function => judge_function(alloc, u, s, block, at, node),
        Family::Type => judge_type(alloc, u, s, block, at, node, list, w),
        Family::Variable => Ok(judge_variables(u, s, block, at, node, list, w)),
        Family::Declaration => judge_decl(alloc, u, s, block, at, node, list, w),
        Family::Statement => Ok(judge_statement(u, s, block, at, node, list, w)),
        Family::Operation => judge_operation(alloc, u, s, block, at, node, list, w),
        Family::Clause => judge_clause(alloc, u, s, at.file),
        Family::Other => Ok(silent()),
    }
}
