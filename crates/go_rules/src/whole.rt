//! The typing rules of Go.
ghost use Rattle.go_rules.specs.Quiet.{is_quiet};
ghost use Rattle.go_rules.specs.Stages.{rule};
ghost use Rattle.go_rules.specs.Unnamed.{unnamed_in};

use crate::declare::declare_item;
use crate::judge::judge_item;
use crate::quiet::is_quiet_item;
use crate::room::Room;
use crate::unnamed::unnamed_in;
use elaborate::{Brief, Rules};
use gv_base::NoMemory;
use rule_words::Declaring;
use std::alloc::Global;
use typed_marks::{Item, State};
use unit_read::Subject;

/// The typing rules of Go 1.17.
#[derive(Clone, Copy, Debug, PartialEq, Eq, Drop)]
pub struct GoRules;

impl Rules for GoRules {
    type Room = Room;

    ghost rule = { rule };

    ghost quiet = { is_quiet };

    ghost unnamed = { unnamed_in };

    fn room(&self, alloc: Global) -> Room {
        Room::new(alloc)
    }

    fn is_quiet(&self, u: &Subject, item: Item) -> bool {
        is_quiet_item(u, item)
    }

    fn quiet_types(&self, alloc: Global, u: &Subject, block: usize) -> Result<Vec<bool>, NoMemory> {
        let flags = unnamed_in(alloc, u, block)?;
        Ok(flags)
    }

    fn judge(
        &self,
        alloc: Global,
        room: &mut Room,
        u: &Subject,
        s: &State,
        item: Item,
    ) -> Result<Brief, NoMemory> {
        judge_item(alloc, room, u, s, item)
    }

    fn declare(
        &self,
        alloc: Global,
        u: &Subject,
        s: &State,
        item: Item,
    ) -> Result<Declaring, NoMemory> {
        let declaring = declare_item(alloc, u, s, item)?;
        Ok(declaring)
    }
}
