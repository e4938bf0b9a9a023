//! A small example: items that have the mark of the one to which their link leads.
ghost use Rattle.std.specs.Prelude.{◌≡◌, ◌<◌, ◌↔◌, ℕ, List, Option, IfOk, IsTrue, None, Some, set, length, replicate, slice_get};
ghost use Rattle.value_tests.specs.Links.{AreLinks, LeadWithin, IsSome, link_rule, mark_at, no_questions, own_numbers};

use gv_base::NoMemory;
use mark_walk::{Marking, Walked, mark, walk_over};
use std::alloc::Global;
use std::test::Fail;

/// The links of items, and the marks so far.
#[derive(Drop)]
struct Links {
    links: Vec<Option<u32>>,
    marks: Vec<Option<u32>>,
}

/// What a table has for an item.
fn mark_of(marks: &Vec<Option<u32>>, item: u32) -> Option<u32>
    requires { item < length marks.now.items }
    ensures { slice_get marks.now.items item ≡ Some result }
{
    marks[item as usize]
}

fn has_mark(mark: Option<u32>) -> bool
    ensures { IsTrue result ↔ IsSome mark }
{
    mark.is_some()
}

/// Sets a mark.
fn mark_as(marks: &mut Vec<Option<u32>>, item: u32, mark: u32)
    requires { item < length marks.old.items }
    ensures { marks.new.items ≡ set marks.old.items item (Some mark) }
{
    marks[item as usize] = Some(mark);
}

impl Marking for Links {
    type Item = u32;

    ghost Meaning = { ℕ };

    ghost Question = { ⊥ };

    ghost Answer = { ⊥ };

    ghost Subject = { List (Option ℕ) };

    ghost subject = { λ k. k.links.items };

    ghost says = { λ links so_far q x. ⊥ };

    ghost pends = { λ links so_far q i. ⊥ };

    ghost IsItem = { λ links i. i < length links };

    ghost count = { λ links. length links };

    ghost number = { λ links i. i };

    ghost rule = { λ links i. link_rule links i };

    ghost IsState = { λ k. AreLinks k.links.items k.marks.items };

    ghost so_far = { λ k i. mark_at k.marks.items i };

    ghost lasts = { λ links. no_questions };

    ghost numbers = { own_numbers };

    fn count(&self) -> usize {
        self.links.len()
    }

    fn number(&self, item: u32) -> usize {
        item as usize
    }

    fn is_marked(&self, item: u32) -> bool {
        has_mark(mark_of(&self.marks, item))
    }

    fn judge(&mut self, item: u32) -> Result<Option<u32>, NoMemory> {
        match mark_of(&self.links, item) {
            None => {
                mark_as(&mut self.marks, item, item);
                Ok(None)
            }
            Some(other) => match mark_of(&self.marks, other) {
                None => Ok(Some(other)),
                Some(mark) => {
                    mark_as(&mut self.marks, item, mark);
                    Ok(None)
                }
            },
        }
    }
}

/// A mark for each of as many items.
fn no_marks(alloc: Global, count: usize) -> Result<Vec<Option<u32>>, NoMemory>
    ensures { IfOk result (λ marks. marks.items ≡ replicate count None) }
{
    let mut marks = Vec::new(alloc);
    for n in 0..count {
        let _ = n;
        marks.push(None)?;
    }
    Ok(marks)
}

/// Marks the first item: its mark, or 100 more than the number of the item that waits for itself.
fn mark_first(alloc: Global, links: Vec<Option<u32>>) -> Result<Option<u32>, NoMemory>
    requires some { 0 < length links.items }
    requires within { LeadWithin links.items }
{
    let marks = no_marks(alloc, links.len())?;
    let mut kit = Links { links, marks };
    let mut walk = walk_over(alloc, &kit)?;
    let walked = mark(&mut walk, &mut kit, 0)?;
    match walked {
        Walked::Marked => Ok(mark_of(&kit.marks, 0)),
        Walked::Circle(item) => Ok(Some(item.saturating_add(100))),
    }
}

#[test]
fn a_chain_of_links(rt: HostRuntime) -> Result<(), Fail> {
    let alloc = rt.alloc();
    let links = [Some(2), None, Some(1)].to_vec(alloc)?;
    let mark = mark_first(alloc, links)?;
    assert!(rt; mark == Some(1));
    Ok(())
}

#[test]
fn two_items_wait_for_one_another(rt: HostRuntime) -> Result<(), Fail> {
    let alloc = rt.alloc();
    let links = [Some(1), Some(2), Some(1)].to_vec(alloc)?;
    let mark = mark_first(alloc, links)?;
    assert!(rt; mark == Some(101));
    Ok(())
}
