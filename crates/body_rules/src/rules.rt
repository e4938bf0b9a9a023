//! The late rules of bodies, each as a test of a node.
ghost use Rattle.std.specs.Prelude.{◌≡◌, ◌<◌, ◌↔◌, ℕ, IsTrue, false, Option, length};
ghost use Rattle.node_values.specs.Flagged.{IsOnly};
ghost use Rattle.late_list.specs.Late.{IsAnswer};
ghost use Rattle.late_list.specs.declared.late.LateRule.{LateRule};
ghost use Rattle.late_list.specs.declared.late.LateRule.TheVariants as r;
ghost use Rattle.gv_base.specs.declared.place.Place.{Place};
ghost use Rattle.body_rules.specs.Asked.{acts_at, is_marked, is_asked};
ghost use Rattle.body_rules.specs.Branches.{Leaves};
ghost use Rattle.body_rules.specs.Endings.{flag_of};
ghost use Rattle.body_rules.specs.Files.{GoesOver, GoesInto, IsStray, IsUnfinished, IsMisplacedFall, IsUnused, IsFaultIn};
ghost use Rattle.body_rules.specs.Given.{given};
ghost use Rattle.body_rules.specs.Jumping.{AreNearest};
ghost use Rattle.body_rules.specs.Views.{IsRead};

use crate::branches::{Branch, Jumping, left_of};
use crate::endings::{ending_at, flag_at, is_closed};
use crate::file::{File, name_of, place_if, place_of};
use crate::jumps::{jumps_into, jumps_over};
use crate::nodes::{acts_at, body_of, brace_of, branch_at, falls_at, goto_label, is_undefined};
use crate::view::View;
use gv_base::Place;
use late_list::{Finds, LateRule};

fn goes_over(v: &View, n: usize) -> bool
    requires { IsRead v.now }
    ensures { IsTrue result ↔ GoesOver (given v.now.file.now) n }
{
    match goto_label(v.file, n) {
        Some(l) => jumps_over(v.file.nodes, &v.blocks, &v.latest, n, l),
        None => false,
    }
}

fn goes_into(v: &View, n: usize) -> bool
    requires { IsRead v.now }
    ensures { IsTrue result ↔ GoesInto (given v.now.file.now) n }
{
    match goto_label(v.file, n) {
        Some(l) => {
            if jumps_over(v.file.nodes, &v.blocks, &v.latest, n, l) {
                return false;
            }
            jumps_into(v.file.nodes, &v.blocks, &v.begins, n, l)
        }
        None => false,
    }
}

/// The innermost nodes that such a word leaves, or functions, if a statement asks for them.
fn nearest<'a>(v: &'a View, which: Branch) -> &'a [Option<usize>]
    requires { IsRead v.now }
    ensures { AreNearest which v.now.file.now.nodes.now result.now }
{
    match which {
        Branch::Break => &v.breaks,
        Branch::Continue => &v.continues,
    }
}

/// What the node n leaves or goes on with by such a word.
fn left_at(v: &View, which: Branch, n: usize) -> Option<usize>
    requires view { IsRead v.now }
    requires node { n < length v.now.file.now.nodes.now }
    ensures { IsOnly (Leaves which v.now.file.now.nodes.now v.now.file.now.labels.now n) result }
{
    let jumping = Jumping {
        which,
        nodes: v.file.nodes,
        labels: v.file.labels,
        parents: &v.parents,
        begins: &v.begins,
        nearest: nearest(v, which),
    };
    left_of(&jumping, n)
}

fn leaves_none(v: &View, which: Branch, n: usize) -> bool
    requires view { IsRead v.now }
    requires node { n < length v.now.file.now.nodes.now }
    ensures { IsTrue result ↔ ((t : ℕ) → Leaves which v.now.file.now.nodes.now v.now.file.now.labels.now n t → ⊥) }
{
    match left_at(v, which, n) {
        Some(_) => false,
        None => true,
    }
}

fn is_stray(v: &View, n: usize) -> bool
    requires { IsRead v.now }
    ensures { IsTrue result ↔ IsStray (given v.now.file.now) n }
{
    if n >= v.file.nodes.len() {
        return false;
    }
    if is_undefined(v.file, n) {
        return false;
    }
    match branch_at(v.file, n) {
        Some(which) => leaves_none(v, which, n),
        None => false,
    }
}

fn is_unfinished(v: &View, n: usize) -> bool
    requires { IsRead v.now }
    ensures { IsTrue result ↔ IsUnfinished (given v.now.file.now) n }
{
    match body_of(v.file, n) {
        Some(b) => !is_closed(ending_at(&v.endings, b)),
        None => false,
    }
}

fn is_misplaced(v: &View, n: usize) -> bool
    requires { IsRead v.now }
    ensures { IsTrue result ↔ IsMisplacedFall (given v.now.file.now) n }
{
    if !falls_at(v.file, n) {
        return false;
    }
    !flag_at(&v.clause_ends, n)
}

fn is_unused(v: &View, n: usize) -> bool
    requires { IsRead v.now }
    ensures { IsTrue result ↔ IsUnused (given v.now.file.now) n }
{
    if n >= v.file.nodes.len() {
        return false;
    }
    if !flag_at(v.file.variables, n) {
        return false;
    }
    !flag_at(&v.read, n)
}

// ---- each with its place

fn redeclared_label(v: &View, n: usize) -> Option<Place>
    ensures { IsAnswer (IsFaultIn (given v.now.file.now) r.RedeclaredLabel n) result }
{
    place_if(flag_at(v.file.repeated, n), place_of(v.file, n))
}

fn unused_variable(v: &View, n: usize) -> Option<Place>
    requires { IsRead v.now }
    ensures { IsAnswer (IsFaultIn (given v.now.file.now) r.UnusedVariable n) result }
{
    place_if(is_unused(v, n), place_of(v.file, n))
}

fn shadowed_result(v: &View, n: usize) -> Option<Place>
    ensures { IsAnswer (IsFaultIn (given v.now.file.now) r.ShadowedResult n) result }
{
    place_if(flag_at(v.file.shadowed, n), place_of(v.file, n))
}

fn missing_return(v: &View, n: usize) -> Option<Place>
    requires { IsRead v.now }
    ensures { IsAnswer (IsFaultIn (given v.now.file.now) r.MissingReturn n) result }
{
    place_if(is_unfinished(v, n), brace_of(v.file, n))
}

fn undefined_label(v: &View, n: usize) -> Option<Place>
    ensures { IsAnswer (IsFaultIn (given v.now.file.now) r.UndefinedLabel n) result }
{
    place_if(is_undefined(v.file, n), name_of(v.file, n))
}

fn unused_label(v: &View, n: usize) -> Option<Place>
    ensures { IsAnswer (IsFaultIn (given v.now.file.now) r.UnusedLabel n) result }
{
    place_if(flag_at(v.file.unused, n), place_of(v.file, n))
}

fn over_variable(v: &View, n: usize) -> Option<Place>
    requires { IsRead v.now }
    ensures { IsAnswer (IsFaultIn (given v.now.file.now) r.OverVariable n) result }
{
    place_if(goes_over(v, n), place_of(v.file, n))
}

fn into_block(v: &View, n: usize) -> Option<Place>
    requires { IsRead v.now }
    ensures { IsAnswer (IsFaultIn (given v.now.file.now) r.IntoBlock n) result }
{
    place_if(goes_into(v, n), place_of(v.file, n))
}

fn misplaced_branch(v: &View, n: usize) -> Option<Place>
    requires { IsRead v.now }
    ensures { IsAnswer (IsFaultIn (given v.now.file.now) r.MisplacedBranch n) result }
{
    place_if(is_stray(v, n), place_of(v.file, n))
}

fn misplaced_fall(v: &View, n: usize) -> Option<Place>
    requires { IsRead v.now }
    ensures { IsAnswer (IsFaultIn (given v.now.file.now) r.MisplacedFallthrough n) result }
{
    place_if(is_misplaced(v, n), place_of(v.file, n))
}

fn find(v: &View, rule: LateRule, n: usize) -> Option<Place>
    requires { IsRead v.now }
    ensures { IsAnswer (IsFaultIn (given v.now.file.now) rule n) result }
{
    match rule {
        LateRule::RedeclaredLabel => redeclared_label(v, n),
        LateRule::UnusedVariable => unused_variable(v, n),
        LateRule::ShadowedResult => shadowed_result(v, n),
        LateRule::MissingReturn => missing_return(v, n),
        LateRule::UndefinedLabel => undefined_label(v, n),
        LateRule::UnusedLabel => unused_label(v, n),
        LateRule::OverVariable => over_variable(v, n),
        LateRule::IntoBlock => into_block(v, n),
        LateRule::MisplacedBranch => misplaced_branch(v, n),
        LateRule::MisplacedFallthrough => misplaced_fall(v, n),
    }
}

// ---- of which nodes rules are asked

fn is_marked(f: &File, n: usize) -> bool
    ensures { result ≡ is_marked (given f.now) n }
{
    if flag_at(f.repeated, n) {
        return true;
    }
    if flag_at(f.unused, n) {
        return true;
    }
    if flag_at(f.shadowed, n) {
        return true;
    }
    flag_at(f.variables, n)
}

fn is_asked(f: &File, n: usize) -> bool
    ensures { result ≡ is_asked (given f.now) n }
{
    if acts_at(f, n) {
        return true;
    }
    is_marked(f, n)
}

/// Whether some rule may find a fault of a node.
fn may_fail(v: &View, n: usize) -> bool
    ensures is { result ≡ is_asked (given v.now.file.now) n }
    ensures none { result ≡ false → (rule : LateRule) → (place : Place) → IsFaultIn (given v.now.file.now) rule n place → ⊥ }
{
    is_asked(v.file, n)
}

impl<'a> Finds for View<'a> {
    ghost IsState = { λ v. IsRead v };

    ghost count = { λ v. length v.file.now.nodes.now };

    ghost IsFault = { λ v. IsFaultIn (given v.file.now) };

    ghost asked = { λ v. is_asked (given v.file.now) };

    fn count(&self) -> usize {
        self.file.nodes.len()
    }

    fn is_asked(&self, n: usize) -> bool {
        may_fail(self, n)
    }

    fn find(&self, rule: LateRule, n: usize) -> Option<Place> {
        find(self, rule, n)
    }
}
