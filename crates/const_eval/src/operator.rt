//! The operators of constant expressions (Go 1.17, "Operators and punctuation").
ghost use Rattle.std.specs.Prelude.{◌≡◌};

/// An operator on constants, unary or binary.
#[derive(Clone, Copy, Debug, PartialEq, Eq, Drop)]
pub enum Operator {
    /// `!`
    Not,
    /// `!=`
    NotEqual,
    /// `%`
    Remainder,
    /// `&`
    And,
    /// `&&`
    AndAlso,
    /// `&^`
    AndNot,
    /// `*`
    Multiply,
    /// `+`
    Add,
    /// `-`
    Subtract,
    /// `/`
    Divide,
    /// `<`
    Less,
    /// `<<`
    ShiftLeft,
    /// `<=`
    LessEqual,
    /// `==`
    Equal,
    /// `>`
    Greater,
    /// `>=`
    GreaterEqual,
    /// `>>`
    ShiftRight,
    /// `^`
    Xor,
    /// `|`
    Or,
    /// `||`
    OrElse,
}

/// The operator of each of the 47 marks, in byte order of their spellings.
const OPERATORS: [Option<Operator>; 47] = [
    Some(Operator::Not),
    Some(Operator::NotEqual),
    Some(Operator::Remainder),
    None,
    Some(Operator::And),
    Some(Operator::AndAlso),
    None,
    Some(Operator::AndNot),
    None,
    None,
    None,
    Some(Operator::Multiply),
    None,
    Some(Operator::Add),
    None,
    None,
    None,
    Some(Operator::Subtract),
    None,
    None,
    None,
    None,
    Some(Operator::Divide),
    None,
    None,
    None,
    None,
    Some(Operator::Less),
    None,
    Some(Operator::ShiftLeft),
    None,
    Some(Operator::LessEqual),
    None,
    Some(Operator::Equal),
    Some(Operator::Greater),
    Some(Operator::GreaterEqual),
    Some(Operator::ShiftRight),
    None,
    None,
    None,
    Some(Operator::Xor),
    None,
    None,
    Some(Operator::Or),
    None,
    Some(Operator::OrElse),
    None,
];

impl Operator {
    ghost use Rattle.const_eval.specs.Operators.{operator_of};

    /// The operator of the mark with this number.
    pub fn from_mark(mark: u8) -> Option<Operator>
        ensures { result ≡ operator_of mark }
    {
        let mark = mark as usize;
        if mark < OPERATORS.len() {
            OPERATORS[mark]
        } else {
            None
        }
    }
}
