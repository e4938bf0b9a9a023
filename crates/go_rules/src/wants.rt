//! What the places of nodes want.
ghost use Rattle.std.specs.Prelude.{◌≡◌};
ghost use Rattle.mark_walk.specs.Telling.{tell};
ghost use Rattle.unit_read.specs.Subjects.{unit_of};
ghost use Rattle.rule_words.specs.Scenes.{sight, IsScene, told_by, IfFound, said, IsMarkOf};
ghost use Rattle.rule_words.specs.Steps.{step_in};
ghost use Rattle.elaborate.specs.Briefs.{step_of, IsBriefOf};
ghost use Rattle.go_rules.specs.Families.{family, wants_by};
ghost use Rattle.go_rules.specs.Stages.{wants_in, wants_of, wants_at, wanted_rule, wished};

use crate::family::{Family, family_of};
use call_rules::want_call;
use decl_rules::want_decl;
use elaborate::Brief;
use elaborate::briefly::silent;
use go_tree::{Node, NodeRef};
use literal_rules::want_literal;
use op_rules::want_op;
use operator_statements::want_operation;
use primary_rules::want_primary;
use rule_words::wanted_by;
use statement_rules::want_statement;
use type_questions::Found;
use typed_marks::{Item, Mark, State, Want};
use typed_tree::Want as Demand;
use unit_read::{Place, Subject};
use variable_rules::want_variable;

fn want_by(
    u: &Subject,
    s: &State,
    by: Family,
    block: usize,
    p: Place,
    around: &Node,
) -> Found<Mark, Item>
    requires { IsScene u.now s.now }
    ensures is { told_by (said s.now) result ≡ tell (sight s.now) (wants_by by (unit_of u.now) block p around.now) }
    ensures over { IfFound result (IsMarkOf s.now) }
{
    match by {
        Family::Operand => want_op(u, s, block, p, around),
        Family::Primary => want_primary(u, s, block, p, around),
        Family::Call => want_call(u, s, block, p, around),
        Family::Literal => want_literal(u, s, block, p, around),
        Family::Function => Found::Is(Mark::Wants(Demand::Type, Want::Free)),
        Family::Type => want_decl(u, s, block, p, around),
        Family::Variable => want_variable(u, s, block, p, around),
        Family::Declaration => want_decl(u, s, block, p, around),
        Family::Statement => want_statement(u, s, block, p, around),
        Family::Operation => want_operation(u, s, block, p, around),
        Family::Clause => Found::Is(Mark::Wants(Demand::Nothing, Want::Free)),
        Family::Other => Found::Is(Mark::Wants(Demand::Nothing, Want::Free)),
    }
}

fn want_in(u: &Subject, s: &State, block: usize, p: Place, around: &Node) -> Found<Mark, Item>
    requires { IsScene u.now s.now }
    ensures is { told_by (said s.now) result ≡ tell (sight s.now) (wants_in (unit_of u.now) block p around.now) }
    ensures over { IfFound result (IsMarkOf s.now) }
{
    want_by(u, s, family_of(around.kind), block, p, around)
}

fn wanted_mark(s: &State, m: Mark) -> Brief
    requires { IsMarkOf s.now m }
    ensures is { step_in s.now (step_of result) ≡ tell (sight s.now) (wished (said s.now m)) }
    ensures over { IsBriefOf s.now result }
{
    let w = wanted_by(s, m);
    Brief::Mark(Mark::Wants(w.demand, w.want))
}

fn wants_of(u: &Subject, s: &State, block: usize, p: Place, around: &Node) -> Brief
    requires { IsScene u.now s.now }
    ensures is { step_in s.now (step_of result) ≡ tell (sight s.now) (wants_of (unit_of u.now) block p around.now) }
    ensures over { IsBriefOf s.now result }
{
    match want_in(u, s, block, p, around) {
        Found::Is(m) => wanted_mark(s, m),
        Found::Wait(item) => Brief::Waits(item),
    }
}

fn wants_at(u: &Subject, s: &State, block: usize, at: NodeRef, p: Place) -> Brief
    requires { IsScene u.now s.now }
    ensures is { step_in s.now (step_of result) ≡ tell (sight s.now) (wants_at (unit_of u.now) block at p) }
    ensures over { IsBriefOf s.now result }
{
    let whole = NodeRef {
        file: at.file,
        node: p.around,
    };
    match u.node_at(whole) {
        Some(around) => wants_of(u, s, block, p, around),
        None => silent(),
    }
}

/// What the place of a node wants.
pub fn wanted(u: &Subject, s: &State, block: usize, at: NodeRef) -> Brief
    requires { IsScene u.now s.now }
    ensures is { step_in s.now (step_of result) ≡ tell (sight s.now) (wanted_rule (unit_of u.now) block at) }
    ensures over { IsBriefOf s.now result }
{
    match u.place_at(at) {
        Some(p) => wants_at(u, s, block, at, p),
        None => silent(),
    }
}
