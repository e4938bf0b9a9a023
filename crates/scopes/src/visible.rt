//! What each use denotes: the visible declarations of each name, the innermost last.
ghost use Rattle.std.specs.Prelude.{◌≡◌, ℕ, ◌+◌, ◌<◌, ◌≤◌, ◌&&◌, length, slice_get, slice_index_or, Contains, Some, None, IfOk, OnOk, IsOk, All, true, false, ◌⊎◌, ◌↔◌, IsTrue, replicate, ◌++◌, ◌∷◌, [], take, List};
ghost use Rattle.scopes.specs.Denotes.{Denotes, Answers, IsLaid, IsFlags, HasNames, AreUses, AreAnswered};
ghost use Rattle.scopes.specs.Visible.{Taken, TopLasts, TopTest, VisibleAt, AllVisible, IfRegion, Reached, NoneLeft, AllEmpty};

use gv_base::NoMemory;
use std::alloc::Global;

/// A declaration of a name, by number, and the region of the text in which it may be denoted. A region goes to the
/// end of its block, so that two declarations are of one block where their regions end at one place.
#[derive(Clone, Copy, Debug, PartialEq, Eq, Drop)]
pub struct Declaration {
    pub name: usize,
    pub start: usize,
    pub end: usize,
    /// Whether it stands within a function.
    pub local: bool,
}

/// A use of a name, and its place in the text.
#[derive(Clone, Copy, Debug, PartialEq, Eq, Drop)]
pub struct Use {
    pub name: usize,
    pub at: usize,
}

/// Whether the innermost region ends here or before.
fn top_has_ended(declarations: &[Declaration], stack: &[usize], at: usize) -> bool
    requires { All (λ k. k < length declarations.now) stack.now }
    ensures { TopTest declarations.now at stack.now result }
{
    if let Some(top) = stack.last() {
        let innermost = declarations[*top];
        if innermost.end <= at {
            return true;
        }
    }
    false
}

/// Takes off the declarations whose regions end here or before.
fn leave(declarations: &[Declaration], stack: &mut Vec<usize>, at: usize)
    requires { All (λ k. k < length declarations.now) stack.old.items }
    ensures taken { Taken declarations.now at stack.old.items stack.new.items }
    ensures top { TopLasts declarations.now at stack.new.items }
{
    while top_has_ended(declarations, stack, at) {
        let _ = stack.pop();
    }
}

/// Makes a declaration visible.
fn enter(
    declarations: &[Declaration],
    visible: &mut Vec<Vec<usize>>,
    next: usize,
) -> Result<(), NoMemory>
    requires laid { IsLaid declarations.now }
    requires names { HasNames declarations.now (length visible.old.items) }
    requires region { IfRegion declarations.now next }
    requires visible { VisibleAt declarations.now next next visible.old.items }
    ensures visible { OnOk result (VisibleAt declarations.now next (next + 1) visible.new.items) }
    ensures size { length visible.new.items ≡ length visible.old.items }
{
    let entered = declarations[next];
    let stack = &mut visible[entered.name];
    leave(declarations, stack, entered.start);
    stack.push(next)?;
    Ok(())
}

fn both(a: bool, b: bool) -> bool
    ensures { result ≡ (a && b) }
{
    a && b
}

/// Makes a declaration visible, if it stands within a function and is the first of its name in its block.
fn enter_first(
    declarations: &[Declaration],
    first: &[bool],
    visible: &mut Vec<Vec<usize>>,
    next: usize,
) -> Result<(), NoMemory>
    requires laid { IsLaid declarations.now }
    requires flags { IsFlags declarations.now first.now }
    requires names { HasNames declarations.now (length visible.old.items) }
    requires next { next < length declarations.now }
    requires visible { VisibleAt declarations.now next next visible.old.items }
    ensures visible { OnOk result (VisibleAt declarations.now next (next + 1) visible.new.items) }
    ensures size { length visible.new.items ≡ length visible.old.items }
{
    let declared = declarations[next];
    if both(first[next], declared.local) {
        enter(declarations, visible, next)?;
    }
    Ok(())
}

/// Goes on to a place in the text: makes visible what begins up to there.
fn advance(
    declarations: &[Declaration],
    first: &[bool],
    visible: &mut Vec<Vec<usize>>,
    next: usize,
    at: usize,
) -> Result<usize, NoMemory>
    requires laid { IsLaid declarations.now }
    requires flags { IsFlags declarations.now first.now }
    requires names { HasNames declarations.now (length visible.old.items) }
    requires next { next ≤ length declarations.now }
    requires reached { Reached declarations.now next at visible.old.items }
    ensures reached { IfOk result (λ n. Reached declarations.now n at visible.new.items × NoneLeft declarations.now n at × (n ≤ length declarations.now)) }
    ensures size { length visible.new.items ≡ length visible.old.items }
{
    let mut next = next;
    while next < declarations.len() {
        let entered = declarations[next];
        if entered.start > at {
            break;
        }
        enter_first(declarations, first, visible, next)?;
        next += 1;
    }
    Ok(next)
}

/// The innermost visible declaration of the name.
fn innermost(
    declarations: &[Declaration],
    visible: &mut Vec<Vec<usize>>,
    next: usize,
    sought: Use,
) -> Option<usize>
    requires name { sought.name < length visible.old.items }
    requires reached { Reached declarations.now next sought.at visible.old.items }
    requires none_left { NoneLeft declarations.now next sought.at }
    ensures answers { Answers declarations.now sought result }
    ensures reached { Reached declarations.now next sought.at visible.new.items }
    ensures size { length visible.new.items ≡ length visible.old.items }
{
    let stack = &mut visible[sought.name];
    leave(declarations, stack, sought.at);
    match stack.last() {
        Some(top) => Some(*top),
        None => None,
    }
}

/// A stack for each name, with nothing on it.
fn no_scopes(alloc: Global, names: usize) -> Result<Vec<Vec<usize>>, NoMemory>
    ensures size { IfOk result (λ stacks. length stacks.items ≡ names) }
    ensures empty { IfOk result (λ stacks. AllEmpty stacks.items) }
{
    let mut stacks = Vec::with_capacity(alloc, names)?;
    for _name in 0..names {
        let stack: Vec<usize> = Vec::new(alloc);
        stacks.push(stack)?;
    }
    Ok(stacks)
}

/// Which declaration each use denotes.
pub fn denoted(
    alloc: Global,
    declarations: &[Declaration],
    first: &[bool],
    uses: &[Use],
    names: usize,
) -> Result<Vec<Option<usize>>, NoMemory>
    requires laid { IsLaid declarations.now }
    requires flags { IsFlags declarations.now first.now }
    requires names { HasNames declarations.now names }
    requires uses { AreUses uses.now names }
    ensures { IfOk result (λ answers. AreAnswered declarations.now uses.now answers.items) }
{
    let mut visible = no_scopes(alloc, names)?;
    let mut next = 0;
    let mut answers = Vec::with_capacity(alloc, uses.len())?;
    for sought in uses {
        next = advance(declarations, first, &mut visible, next, sought.at)?;
        let answer = innermost(declarations, &mut visible, next, *sought);
        answers.push(answer)?;
    }
    Ok(answers)
}

/// A use denotes at most one declaration.
pub fn one_denoted()
    ensures { (ds : List Declaration) → IsLaid ds → (u : Use) → (j k : ℕ) → Denotes ds u j → Denotes ds u k → j ≡ k }
{}
