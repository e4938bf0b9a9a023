//! What becomes of the reply of a call, over the marks so far.
ghost use Rattle.type_model.specs.Tables.{IsTable};
ghost use Rattle.type_questions.specs.Judging.{IsFoundBy, IsOfTable};

use crate::reached::{Found, Reached};
use crate::seen::Seen;
use type_growth::Reply;
use type_model::TypeTable;

/// A reply's answer; else the item that has to be marked first, or that there is no answer.
pub(crate) fn reach<S: Seen, A>(
    seen: &S,
    t: &TypeTable,
    reply: Reply<A>,
) -> Found<Reached<A>, S::Item>
    requires seen { S.IsSeen seen.now }
    requires table { IsTable t.now }
    requires within { IsOfTable t.now reply }
    ensures { IsFoundBy t.now (S.base (S.subject seen.now)) (S.under (S.subject seen.now)) S.reads (S.so_far seen.now) reply result }
{
    match reply {
        Reply::Is(answer) => Found::Is(Reached::Got(answer)),
        Reply::Waits(id) => match seen.pending(t, id) {
            Some(item) => Found::Wait(item),
            None => Found::Is(Reached::Lost),
        },
    }
}
