//! The first build constraint before a file's tokens.
ghost use Rattle.std.specs.Prelude.{◌≡◌, ◌<◌, ◌∷◌, ◌&&◌, ◌||◌, ◌^◌, [], length, take, drop, cond, codes, nat_eq};
ghost use Rattle.std.specs.List.{starts_with};
ghost use Rattle.go_tree.specs.declared.constraint.Comment.TheVariants.{Between, Opened};
ghost use Rattle.go_tree.specs.Constraints.{behind_blanks, is_constraint, comment_step, is_between, constraint_from};

use crate::part::behind;

/// Where a byte stands among comments.
#[derive(Clone, Copy, Debug, PartialEq, Eq, Drop)]
pub enum Comment {
    Between,
    Line,
    /// Behind the slash that opens a block.
    Opened,
    Block,
    /// Behind the star that closes a block.
    Closed,
}

/// What stands behind spaces and tabs.
pub fn behind_blanks(bytes: &[u8]) -> &[u8]
    ensures { result.now ≡ behind_blanks bytes.now }
{
    let mut rest = bytes;
    while let [b' ' | b'\t', more @ ..] = rest {
        rest = more;
    }
    rest
}

fn begins_build(rest: &[u8]) -> bool
    ensures { result ≡ starts_with nat_eq rest.now (codes "//go:build") }
{
    rest.starts_with(b"//go:build")
}

fn begins_plus(rest: &[u8]) -> bool
    ensures { result ≡ starts_with nat_eq rest.now (codes "+build") }
{
    rest.starts_with(b"+build")
}

fn begins_line(rest: &[u8]) -> bool
    ensures { result ≡ starts_with nat_eq rest.now (codes "//") }
{
    rest.starts_with(b"//")
}

fn begins_block(rest: &[u8]) -> bool
    ensures { result ≡ starts_with nat_eq rest.now (codes "/*") }
{
    rest.starts_with(b"/*")
}

fn ends_block(rest: &[u8]) -> bool
    ensures { result ≡ starts_with nat_eq rest.now (codes "*/") }
{
    rest.starts_with(b"*/")
}

fn ends_line(rest: &[u8]) -> bool
    ensures { result ≡ starts_with nat_eq rest.now (10 ∷ []) }
{
    rest.starts_with(b"\n")
}

fn is_plus(rest: &[u8]) -> bool
    ensures { result ≡ (starts_with nat_eq rest.now (codes "//") && starts_with nat_eq (behind_blanks (drop 2 rest.now)) (codes "+build")) }
{
    begins_line(rest) && begins_plus(behind_blanks(behind(rest, 2)))
}

/// Whether the rest begins with a constraint comment.
fn is_constraint(rest: &[u8]) -> bool
    ensures { result ≡ is_constraint rest.now }
{
    begins_build(rest) || is_plus(rest)
}

fn opened(rest: &[u8]) -> Comment
    ensures { result ≡ cond (starts_with nat_eq rest.now (codes "/*")) Opened Between }
{
    if begins_block(rest) {
        Comment::Opened
    } else {
        Comment::Between
    }
}

/// Where a byte leads that begins the rest.
fn comment_step(state: Comment, rest: &[u8]) -> Comment
    ensures { result ≡ comment_step state rest.now }
{
    match state {
        Comment::Between => {
            if begins_line(rest) {
                Comment::Line
            } else {
                opened(rest)
            }
        }
        Comment::Line => {
            if ends_line(rest) {
                Comment::Between
            } else {
                Comment::Line
            }
        }
        Comment::Opened => Comment::Block,
        Comment::Block => {
            if ends_block(rest) {
                Comment::Closed
            } else {
                Comment::Block
            }
        }
        Comment::Closed => Comment::Between,
    }
}

fn is_between(state: Comment) -> bool
    ensures { result ≡ is_between state }
{
    matches!(state, Comment::Between)
}

fn is_found(state: Comment, rest: &[u8]) -> bool
    ensures { result ≡ (is_between state && is_constraint rest.now) }
{
    is_between(state) && is_constraint(rest)
}

/// The offset of the first constraint comment.
pub(crate) fn constraint_in(front: &[u8]) -> Option<u32>
    requires { length front.now < 2 ^ 32 }
    ensures { result ≡ constraint_from Between 0 front.now }
{
    let mut state = Comment::Between;
    for at in 0..front.len() {
        let rest = behind(front, at);
        if is_found(state, rest) {
            return Some(at as u32);
        }
        state = comment_step(state, rest);
    }
    None
}

/// The bytes before an offset.
#[tactic(auto, using(crate::proofs::Heads::take_most))]
pub(crate) fn front(source: &[u8], end: u32) -> &[u8]
    ensures whole { result.now ≡ take end source.now }
    ensures short { length result.now < 2 ^ 32 }
{
    let end = (end as usize).min(source.len());
    &source[..end]
}
