//! Wishes of places in calls.
ghost use Rattle.std.specs.Prelude.{◌≡◌, option_map};
ghost use Rattle.rule_words.specs.Scenes.{type_in, MayBeTypeOf};
ghost use Rattle.rule_words.specs.Wishes.{IsWishOf, wish_of};
ghost use Rattle.builtin_rules.specs.Wishes.{assigned_to};

use type_model::TypeId;
use typed_marks::{State, Want};

// ---- marks

/// A type to which a value is assigned, if there is one.
pub fn assigned_to(s: &State, to: Option<TypeId>) -> Want
    requires to { MayBeTypeOf s.now to }
    ensures is { wish_of s.now result ≡ assigned_to (option_map (type_in s.now) to) }
    ensures within { IsWishOf s.now result }
{
    let _ = s;
    match to {
        Some(to) => Want::Assigned(to),
        None => Want::Free,
    }
}
