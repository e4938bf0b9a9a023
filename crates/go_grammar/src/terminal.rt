//! Which classes of token a terminal admits.
ghost use Rattle.std.specs.Prelude.{◌≡◌};
ghost use Rattle.go_tree.specs.Terminals.{admits};

use crate::class::level_of;
use go_tree::Terminal;

/// Whether a terminal admits a token of this class.
pub fn admits(terminal: Terminal, class: u8) -> bool
    ensures { result ≡ admits terminal class }
{
    match terminal {
        Terminal::Name => matches!(class, 0 | 76),
        Terminal::Int => matches!(class, 1),
        Terminal::Float => matches!(class, 2),
        Terminal::Imag => matches!(class, 3),
        Terminal::Rune => matches!(class, 4),
        Terminal::Text => matches!(class, 5),
        Terminal::Break => matches!(class, 6),
        Terminal::Case => matches!(class, 7),
        Terminal::Chan => matches!(class, 8),
        Terminal::Const => matches!(class, 9),
        Terminal::Continue => matches!(class, 10),
        Terminal::Default => matches!(class, 11),
        Terminal::Defer => matches!(class, 12),
        Terminal::Else => matches!(class, 13),
        Terminal::Fallthrough => matches!(class, 14),
        Terminal::For => matches!(class, 15),
        Terminal::Func => matches!(class, 16),
        Terminal::Go => matches!(class, 17),
        Terminal::Goto => matches!(class, 18),
        Terminal::If => matches!(class, 19),
        Terminal::Import => matches!(class, 20),
        Terminal::Interface => matches!(class, 21),
        Terminal::Map => matches!(class, 22),
        Terminal::Package => matches!(class, 23),
        Terminal::Range => matches!(class, 24),
        Terminal::Return => matches!(class, 25),
        Terminal::Select => matches!(class, 26),
        Terminal::Struct => matches!(class, 27),
        Terminal::Switch => matches!(class, 28),
        Terminal::Type => matches!(class, 29),
        Terminal::Var => matches!(class, 30),
        Terminal::Semi => matches!(class, 31),
        Terminal::Comma => matches!(class, 32),
        Terminal::Colon => matches!(class, 33),
        Terminal::Dot => matches!(class, 34),
        Terminal::Ellipsis => matches!(class, 35),
        Terminal::LeftParen => matches!(class, 36),
        Terminal::RightParen => matches!(class, 37),
        Terminal::LeftBracket => matches!(class, 38),
        Terminal::RightBracket => matches!(class, 39),
        Terminal::LeftBrace => matches!(class, 40),
        Terminal::RightBrace => matches!(class, 41),
        Terminal::Assign => matches!(class, 42),
        Terminal::Define => matches!(class, 43),
        Terminal::Increment => matches!(class, 44),
        Terminal::Decrement => matches!(class, 45),
        Terminal::Arrow => matches!(class, 46),
        Terminal::Star => matches!(class, 58),
        Terminal::OpAssign => matches!(class, 67),
        Terminal::DotParen => matches!(class, 68),
        Terminal::DotType => matches!(class, 69),
        Terminal::BracketDots => matches!(class, 70),
        Terminal::DefineRange => matches!(class, 71),
        Terminal::AssignRange => matches!(class, 72),
        Terminal::CommaParen => matches!(class, 73),
        Terminal::Sign => matches!(class, 46..=49 | 51 | 63),
        Terminal::Named => matches!(class, 0),
        Terminal::Blank => matches!(class, 76),
        Terminal::Anything => true,
        Terminal::DefineLike => matches!(class, 43 | 71),
        Terminal::NotDefine => !matches!(class, 43 | 71),
        Terminal::AssignLike => matches!(class, 42 | 67 | 72),
        Terminal::NotDot => !matches!(class, 34),
        Terminal::NotBrace => !matches!(class, 40),
        Terminal::TypeStart => matches!(class, 0 | 8 | 16 | 21..=22 | 27 | 36 | 38 | 46 | 58 | 76),
        Terminal::NoType =>
            !matches!(class, 0 | 8 | 16 | 21..=22 | 27 | 35..=36 | 38 | 46 | 58 | 76),
        Terminal::NotTypeStart => !matches!(
            class,
            0 | 8 | 16 | 21..=22 | 27 | 36 | 38 | 46 | 58 | 76
        ),
        Terminal::NamesBefore =>
            matches!(class, 0 | 8 | 16 | 21..=22 | 27 | 35..=36 | 38 | 46 | 58 | 76),
        Terminal::HeadEnd => matches!(class, 31 | 40),
        Terminal::Operator(level) => 1 < level && level < 7 && level_of(class) == level,
    }
}
