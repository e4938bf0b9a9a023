//! What the places in type expressions and declarations want.
ghost use Rattle.std.specs.Prelude.{◌≡◌, ◌==◌, Some, if◌then◌else◌};
ghost use Rattle.package_objects.specs.Declares.{part};
ghost use Rattle.typed_tree.specs.declared.place.Want.TheVariants as demands;
ghost use Rattle.typed_marks.specs.declared.state.State.{State};
ghost use Rattle.mark_walk.specs.Telling.{tell, Says};
ghost use Rattle.type_model.specs.Tables.{types_in, count};
ghost use Rattle.typed_marks.specs.Meanings.{Wishes, Free, wish_in, IsWantWithin};
ghost use Rattle.unit_read.specs.Subjects.{unit_of, IsRead};
ghost use Rattle.rule_words.specs.Scenes.{sight, IsScene, told_by, IfFound, said, IsMarkOf};
ghost use Rattle.rule_words.specs.Good.{known_of, AreFactsOf};
ghost use Rattle.rule_words.specs.Wishes.{wants};
ghost use Rattle.decl_rules.specs.Wants.{is_type_slot, assigned_to, wish_by, file_of, declares_names, written_wants, value_wants, or_value, decl_wants};

use crate::forms::{Valuing, valuing_form};
use go_tree::{Node, NodeKind};
use gv_base::Kind;
use package_objects::part_of;
use rule_words::good::{basic_type, known};
use rule_words::look;
use rule_words::modes::is_type;
use type_questions::Found;
use typed_marks::{Facts, Item, Mark, Stage, State, Want};
use typed_tree::Want as Demand;
use unit_read::{Place, Subject};

fn is_type_slot(kind: NodeKind, slot: usize) -> bool
    ensures { result ≡ is_type_slot kind slot }
{
    match kind {
        NodeKind::SliceType => true,
        NodeKind::MapType => true,
        NodeKind::ChanType => true,
        NodeKind::SendChan => true,
        NodeKind::RecvChan => true,
        NodeKind::FuncType => true,
        NodeKind::Params => true,
        NodeKind::Variadic => true,
        NodeKind::Embedded => true,
        NodeKind::EmbeddedPointer => true,
        NodeKind::InterfaceType => true,
        NodeKind::ArrayType => slot == 1,
        NodeKind::Param => slot == 1,
        NodeKind::SpreadParam => slot == 1,
        NodeKind::Field => slot == 1,
        NodeKind::Defined => slot == 1,
        NodeKind::Alias => slot == 1,
        NodeKind::ConstTyped => slot == 1,
        NodeKind::VarTyped => slot == 1,
        NodeKind::Method => slot >= 1,
        NodeKind::FuncDecl => slot >= 1,
        NodeKind::MethodDecl => slot != 1,
        _ => false,
    }
}

fn wants(demand: Demand, want: Want) -> Found<Mark, Item>
    ensures is { (s : State) → told_by (said s) result ≡ Says (Wishes demand (wish_in (types_in s.table) want)) }
    ensures over { (s : State) → IsWantWithin (count s.table) want → IfFound result (IsMarkOf s) }
{
    Found::Is(Mark::Wants(demand, want))
}

fn assigned_to(s: &State, x: Facts) -> Want
    requires { AreFactsOf s.now x }
    ensures is { wish_in (types_in s.now.table) result ≡ assigned_to (known_of s.now x) }
    ensures within { IsWantWithin (count s.now.table) result }
{
    if is_type(x.mode) {
        Want::Assigned(x.of)
    } else {
        Want::Free
    }
}

fn wish_by(s: &State, m: Mark) -> Want
    requires { IsMarkOf s.now m }
    ensures is { wish_in (types_in s.now.table) result ≡ wish_by (said s.now m) }
    ensures within { IsWantWithin (count s.now.table) result }
{
    match known(s, m) {
        Some(x) => assigned_to(s, x),
        None => Want::Free,
    }
}

fn file_of(u: &Subject, block: usize) -> usize
    requires { IsRead u.now }
    ensures { result ≡ file_of (unit_of u.now) block }
{
    match u.passage_at(block) {
        Some(passage) => passage.file as usize,
        None => block,
    }
}

fn written_at(u: &Subject, s: &State, block: usize, demand: Demand, n: u32) -> Found<Mark, Item>
    requires { IsScene u.now s.now }
    ensures is { told_by (said s.now) result ≡ tell (sight s.now) (written_wants (unit_of u.now) block demand (Some n)) }
    ensures over { IfFound result (IsMarkOf s.now) }
{
    match look(u, s, Stage::Placed, file_of(u, block), n) {
        Found::Is(m) => wants(demand, wish_by(s, m)),
        Found::Wait(item) => Found::Wait(item),
    }
}

fn written(
    u: &Subject,
    s: &State,
    block: usize,
    demand: Demand,
    n: Option<u32>,
) -> Found<Mark, Item>
    requires { IsScene u.now s.now }
    ensures is { told_by (said s.now) result ≡ tell (sight s.now) (written_wants (unit_of u.now) block demand n) }
    ensures over { IfFound result (IsMarkOf s.now) }
{
    match n {
        Some(n) => written_at(u, s, block, demand, n),
        None => wants(demand, Want::Free),
    }
}

fn assigned(
    u: &Subject,
    s: &State,
    block: usize,
    p: Place,
    demand: Demand,
    around: &Node,
) -> Found<Mark, Item>
    requires { IsScene u.now s.now }
    ensures is { told_by (said s.now) result ≡ tell (sight s.now) (if p.slot == 2 then written_wants (unit_of u.now) block demand (part around.now 1) else wants demands.Nothing Free) }
    ensures over { IfFound result (IsMarkOf s.now) }
{
    if p.slot == 2 {
        written(u, s, block, demand, part_of(around, 1))
    } else {
        wants(Demand::Nothing, Want::Free)
    }
}

fn freely(s: &State, p: Place, demand: Demand) -> Found<Mark, Item>
    ensures is { told_by (said s.now) result ≡ tell (sight s.now) (if p.slot == 1 then wants demand Free else wants demands.Nothing Free) }
    ensures over { IfFound result (IsMarkOf s.now) }
{
    if p.slot == 1 {
        wants(demand, Want::Free)
    } else {
        wants(Demand::Nothing, Want::Free)
    }
}

fn value(
    u: &Subject,
    s: &State,
    block: usize,
    p: Place,
    around: &Node,
    form: Valuing,
) -> Found<Mark, Item>
    requires { IsScene u.now s.now }
    ensures is { told_by (said s.now) result ≡ tell (sight s.now) (value_wants (unit_of u.now) block p around.now form) }
    ensures over { IfFound result (IsMarkOf s.now) }
{
    match form {
        Valuing::Array => wants(Demand::Operand, Want::Takes(basic_type(s, Kind::Int))),
        Valuing::Constants => freely(s, p, Demand::Constant),
        Valuing::TypedConstants => assigned(u, s, block, p, Demand::Constant, around),
    }
}

fn or_value(u: &Subject, s: &State, block: usize, p: Place, around: &Node) -> Found<Mark, Item>
    requires { IsScene u.now s.now }
    ensures is { told_by (said s.now) result ≡ tell (sight s.now) (or_value (unit_of u.now) block p around.now) }
    ensures over { IfFound result (IsMarkOf s.now) }
{
    match valuing_form(around.kind) {
        Some(form) => value(u, s, block, p, around, form),
        None => wants(Demand::Nothing, Want::Free),
    }
}

/// What the node around wants of what stands at a place in it, or the item for whose mark that waits.
pub fn want_decl(u: &Subject, s: &State, block: usize, p: Place, around: &Node) -> Found<Mark, Item>
    requires { IsScene u.now s.now }
    ensures is { told_by (said s.now) result ≡ tell (sight s.now) (decl_wants (unit_of u.now) block p around.now) }
    ensures over { IfFound result (IsMarkOf s.now) }
{
    if is_type_slot(around.kind, p.slot) {
        wants(Demand::Type, Want::Free)
    } else {
        or_value(u, s, block, p, around)
    }
}

/// Whether the names in a slot are declared there.
pub fn declares_names(kind: NodeKind, slot: usize) -> bool
    ensures { result ≡ declares_names kind slot }
{
    match kind {
        NodeKind::Package => true,
        NodeKind::ImportNamed => true,
        NodeKind::ConstNames => true,
        NodeKind::ConstValues => slot == 0,
        NodeKind::ConstTyped => slot == 0,
        NodeKind::VarValues => slot == 0,
        NodeKind::VarTyped => slot == 0,
        NodeKind::VarTypedValues => slot == 0,
        NodeKind::Defined => slot == 0,
        NodeKind::Alias => slot == 0,
        NodeKind::FuncDecl => slot == 0,
        NodeKind::MethodDecl => slot == 1,
        NodeKind::Method => slot == 0,
        NodeKind::Param => slot == 0,
        NodeKind::SpreadParam => slot == 0,
        NodeKind::Field => slot == 0,
        _ => false,
    }
}
