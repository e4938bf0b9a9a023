//! What defined types are declared with.
ghost use Rattle.std.specs.Prelude.{IfOk, ◌≡◌, true, Some, option_map};
ghost use Rattle.mark_walk.specs.Telling.{Says, tell};
ghost use Rattle.type_model.specs.GoTypes.{is_defined};
ghost use Rattle.type_model.specs.Tables.{IsTable};
ghost use Rattle.typed_marks.specs.declared.item.Stage.TheVariants as stage;
ghost use Rattle.unit_read.specs.Subjects.{unit_of, IsRead};
ghost use Rattle.unit_read.specs.Units.{Unit, is_this, is_among, defined};
ghost use Rattle.rule_words.specs.declared.declaring.Declaring.TheVariants as d;
ghost use Rattle.rule_words.specs.Asking.{item, stands, mark_ask};
ghost use Rattle.rule_words.specs.Declaring.{declaring_in, IsDeclaringAt};
ghost use Rattle.rule_words.specs.Scenes.{sight, IsScene, said, IsMarkOf, type_in, IsTypeOf, MayBeTypeOf};
ghost use Rattle.rule_words.specs.Good.{known_of, AreFactsOf};
ghost use Rattle.decl_rules.specs.Objects.{placed_ask};
ghost use Rattle.decl_rules.specs.Under.{is_error, is_here, is_of_node, written_in, written_type, declared_with, declaring, underlying_rule, written_rule, named_rule, known_rule, own_rule, type_rule, under_rule, IsDeclaringOf};

use crate::methods::add_methods;
use go_tree::NodeRef;
use gv_base::NoMemory;
use package_objects::part_of;
use rule_words::good::known;
use rule_words::{Declaring, look, under_of};
use std::alloc::Global;
use type_model::{Term, TypeId, TypeName};
use type_questions::Found;
use typed_marks::{Facts, Mark, Stage, State};
use unit_read::{Place, Subject};

fn nothing() -> Declaring
    ensures { result ≡ d.Nothing }
{
    Declaring::Nothing
}

fn is_defined(s: &State, of: TypeId) -> bool
    requires table { IsTable s.now.table }
    requires within { IsTypeOf s.now of }
    ensures { result ≡ is_defined (type_in s.now of) }
{
    match s.table.term(of) {
        Term::Defined(_) => true,
        Term::Basic(_) => false,
        Term::Pointer(_) => false,
        Term::Slice(_) => false,
        Term::Array(_, _) => false,
        Term::Map(_, _) => false,
        Term::Chan(_, _) => false,
        Term::Func(_) => false,
        Term::Struct(_) => false,
        Term::Interface(_) => false,
    }
}

/// Once all that the underlying type holds is declared, with the methods in the type's set.
fn declared_with(
    alloc: Global,
    u: &Subject,
    s: &State,
    name: NodeRef,
    of: TypeId,
    under: TypeId,
) -> Result<Declaring, NoMemory>
    requires scene { IsScene u.now s.now }
    requires under { IsTypeOf s.now under }
    ensures is { IfOk result (λ d. declaring_in s.now d ≡ tell (sight s.now) (declared_with (unit_of u.now) name (type_in s.now under))) }
    ensures over { IfOk result (IsDeclaringOf (unit_of u.now) s.now of) }
{
    if is_defined(s, under) {
        return Ok(nothing());
    }
    let mut methods = Vec::new(alloc);
    let waits = add_methods(alloc, u, s, under, name, &mut methods)?;
    match waits {
        Some(item) => Ok(Declaring::Waits(item)),
        None => Ok(Declaring::With(of, under, methods)),
    }
}

fn declaring(
    alloc: Global,
    u: &Subject,
    s: &State,
    name: NodeRef,
    of: TypeId,
    under: Option<TypeId>,
) -> Result<Declaring, NoMemory>
    requires scene { IsScene u.now s.now }
    requires under { MayBeTypeOf s.now under }
    ensures is { IfOk result (λ d. declaring_in s.now d ≡ tell (sight s.now) (declaring (unit_of u.now) name (option_map (type_in s.now) under))) }
    ensures over { IfOk result (IsDeclaringOf (unit_of u.now) s.now of) }
{
    match under {
        Some(under) => {
            let declaring = declared_with(alloc, u, s, name, of, under)?;
            Ok(declaring)
        }
        None => Ok(nothing()),
    }
}

fn underlying(
    alloc: Global,
    u: &Subject,
    s: &State,
    name: NodeRef,
    of: TypeId,
    x: Facts,
) -> Result<Declaring, NoMemory>
    requires scene { IsScene u.now s.now }
    requires facts { AreFactsOf s.now x }
    ensures is { IfOk result (λ d. declaring_in s.now d ≡ tell (sight s.now) (underlying_rule (unit_of u.now) name (known_of s.now x))) }
    ensures over { IfOk result (IsDeclaringOf (unit_of u.now) s.now of) }
{
    match under_of(u, s, x.of) {
        Found::Is(under) => {
            let declaring = declaring(alloc, u, s, name, of, under)?;
            Ok(declaring)
        }
        Found::Wait(item) => Ok(Declaring::Waits(item)),
    }
}

fn written(
    alloc: Global,
    u: &Subject,
    s: &State,
    name: NodeRef,
    of: TypeId,
    m: Mark,
) -> Result<Declaring, NoMemory>
    requires scene { IsScene u.now s.now }
    requires mark { IsMarkOf s.now m }
    ensures is { IfOk result (λ d. declaring_in s.now d ≡ tell (sight s.now) (written_rule (unit_of u.now) name (said s.now m))) }
    ensures over { IfOk result (IsDeclaringOf (unit_of u.now) s.now of) }
{
    match known(s, m) {
        Some(x) => {
            let declaring = underlying(alloc, u, s, name, of, x)?;
            Ok(declaring)
        }
        None => Ok(nothing()),
    }
}

fn written_in(u: &Subject, file: u32, p: Place) -> Option<u32>
    ensures { result ≡ written_in (unit_of u.now) file p }
{
    let at = NodeRef {
        file,
        node: p.around,
    };
    match u.node_at(at) {
        Some(node) => part_of(node, 1),
        None => None,
    }
}

/// The type expression behind the name of a type.
fn written_type(u: &Subject, name: NodeRef) -> Option<u32>
    requires { IsRead u.now }
    ensures { result ≡ written_type (unit_of u.now) name }
{
    match u.place_at(name) {
        Some(p) => written_in(u, name.file, p),
        None => None,
    }
}

fn placed(
    alloc: Global,
    u: &Subject,
    s: &State,
    name: NodeRef,
    of: TypeId,
    n: u32,
) -> Result<Declaring, NoMemory>
    requires { IsScene u.now s.now }
    ensures is { IfOk result (λ d. declaring_in s.now d ≡ tell (sight s.now) (placed_ask (unit_of u.now) name.file (Some n) (written_rule (unit_of u.now) name))) }
    ensures over { IfOk result (IsDeclaringOf (unit_of u.now) s.now of) }
{
    match look(u, s, Stage::Placed, name.file as usize, n) {
        Found::Is(m) => {
            let declaring = written(alloc, u, s, name, of, m)?;
            Ok(declaring)
        }
        Found::Wait(item) => Ok(Declaring::Waits(item)),
    }
}

fn named(
    alloc: Global,
    u: &Subject,
    s: &State,
    name: NodeRef,
    of: TypeId,
) -> Result<Declaring, NoMemory>
    requires { IsScene u.now s.now }
    ensures is { IfOk result (λ d. declaring_in s.now d ≡ tell (sight s.now) (named_rule (unit_of u.now) name)) }
    ensures over { IfOk result (IsDeclaringOf (unit_of u.now) s.now of) }
{
    match written_type(u, name) {
        Some(n) => {
            let declaring = placed(alloc, u, s, name, of, n)?;
            Ok(declaring)
        }
        None => Ok(nothing()),
    }
}

/// Whether this is the name of the predeclared type `error`.
fn is_error(name: &TypeName) -> bool
    ensures { result ≡ is_error name.now }
{
    name.package.as_str().as_bytes() == b"".as_slice()
        && (name.name.as_str().as_bytes() == b"error".as_slice() && name.local == 0)
}

fn is_this(at: NodeRef, other: Option<NodeRef>) -> bool
    ensures { result ≡ is_this at other }
{
    match other {
        Some(other) => at.file == other.file && at.node == other.node,
        None => false,
    }
}

/// Whether the type of a name is declared at a node.
fn is_here(u: &Subject, at: NodeRef, name: &TypeName) -> bool
    requires { IsRead u.now }
    ensures { result ≡ is_here (unit_of u.now) at name.now }
{
    !is_error(name) && is_this(at, u.type_node(name))
}

fn is_of_node(u: &Subject, s: &State, at: NodeRef, of: TypeId) -> bool
    requires read { IsRead u.now }
    requires table { IsTable s.now.table }
    requires within { IsTypeOf s.now of }
    ensures { result ≡ is_of_node (unit_of u.now) at (type_in s.now of) }
{
    match s.table.term(of) {
        Term::Defined(name) => is_here(u, at, name),
        Term::Basic(_) => false,
        Term::Pointer(_) => false,
        Term::Slice(_) => false,
        Term::Array(_, _) => false,
        Term::Map(_, _) => false,
        Term::Chan(_, _) => false,
        Term::Func(_) => false,
        Term::Struct(_) => false,
        Term::Interface(_) => false,
    }
}

fn known_type(
    alloc: Global,
    u: &Subject,
    s: &State,
    name: NodeRef,
    x: Facts,
) -> Result<Declaring, NoMemory>
    requires scene { IsScene u.now s.now }
    requires facts { AreFactsOf s.now x }
    requires stands { stands (unit_of u.now) name.file name.node ≡ true }
    ensures is { IfOk result (λ d. declaring_in s.now d ≡ tell (sight s.now) (known_rule (unit_of u.now) name (known_of s.now x))) }
    ensures over { IfOk result (IsDeclaringAt (unit_of u.now) s.now (item stage.Under name.file name.node)) }
{
    if is_of_node(u, s, name, x.of) {
        let declaring = named(alloc, u, s, name, x.of)?;
        Ok(declaring)
    } else {
        Ok(nothing())
    }
}

/// A type that is refused or cyclic is declared by nothing.
fn own(alloc: Global, u: &Subject, s: &State, name: NodeRef, m: Mark) -> Result<Declaring, NoMemory>
    requires scene { IsScene u.now s.now }
    requires mark { IsMarkOf s.now m }
    requires told { Says (said s.now m) ≡ tell (sight s.now) (mark_ask (unit_of u.now) stage.Object name.file name.node) }
    ensures is { IfOk result (λ d. declaring_in s.now d ≡ tell (sight s.now) (own_rule (unit_of u.now) name (said s.now m))) }
    ensures over { IfOk result (IsDeclaringAt (unit_of u.now) s.now (item stage.Under name.file name.node)) }
{
    match known(s, m) {
        Some(x) => {
            let declaring = known_type(alloc, u, s, name, x)?;
            Ok(declaring)
        }
        None => Ok(nothing()),
    }
}

fn asked(alloc: Global, u: &Subject, s: &State, name: NodeRef) -> Result<Declaring, NoMemory>
    requires { IsScene u.now s.now }
    ensures is { IfOk result (λ d. declaring_in s.now d ≡ tell (sight s.now) (type_rule (unit_of u.now) name)) }
    ensures over { IfOk result (IsDeclaringAt (unit_of u.now) s.now (item stage.Under name.file name.node)) }
{
    match look(u, s, Stage::Object, name.file as usize, name.node) {
        Found::Is(m) => {
            let declaring = own(alloc, u, s, name, m)?;
            Ok(declaring)
        }
        Found::Wait(item) => Ok(Declaring::Waits(item)),
    }
}

/// Whether the name of a defined type stands at a node.
fn is_among(u: &Subject, at: NodeRef) -> bool
    requires { IsRead u.now }
    ensures { result ≡ is_among at (defined (unit_of u.now)) }
{
    u.local_at(at).is_some()
}

/// What the defined type is declared with whose name stands here, or what that waits for.
pub fn judge_under(
    alloc: Global,
    u: &Subject,
    s: &State,
    name: NodeRef,
) -> Result<Declaring, NoMemory>
    requires { IsScene u.now s.now }
    ensures is { IfOk result (λ d. declaring_in s.now d ≡ tell (sight s.now) (under_rule (unit_of u.now) name)) }
    ensures over { IfOk result (IsDeclaringAt (unit_of u.now) s.now (item stage.Under name.file name.node)) }
{
    if is_among(u, name) {
        let declaring = asked(alloc, u, s, name)?;
        Ok(declaring)
    } else {
        Ok(nothing())
    }
}
