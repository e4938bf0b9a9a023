//! Taking the next piece of a script.
ghost use Rattle.std.specs.Prelude.{◌≡◌};
ghost use Rattle.folder.specs.Folders.{OnlyWhereRose};
ghost use Rattle.top_calls.specs.Turn.{TakesPiece};

use crate::session::Session;
use gv_base::Source;
use scripts::LIMIT;

/// How the taking of a piece ended.
#[derive(Clone, Copy, Debug, PartialEq, Eq, Drop)]
pub enum Taken {
    More,
    AtEnd,
    /// The limit stood before the piece.
    Over,
    Fault,
    /// No memory.
    Full,
}

/// The most bytes that are taken at once.
const PIECE: usize = 4096;

/// Takes a piece from the source: while there is room none past the limit, and where there is none one byte.
pub(crate) fn take_piece<I: Source>(session: &mut Session, input: &mut I) -> Taken
    ensures takes { TakesPiece (I.view input.old) (I.view input.new) session.old session.new result }
    ensures fault { OnlyWhereRose (I.view input.old).faults (I.view input.new).faults (result ≡ Taken.Fault) }
{
    let held = session.pending.count();
    let room = LIMIT - session.offset - held;
    let mut piece = [0; PIECE];
    let most = room.min(PIECE).max(1);
    match input.read(&mut piece[..most]) {
        Err(_) => Taken::Fault,
        Ok(0) => Taken::AtEnd,
        Ok(_) if room == 0 => Taken::Over,
        Ok(count) => match session.pending.add(&piece[..count]) {
            Ok(()) => Taken::More,
            Err(_) => Taken::Full,
        },
    }
}
