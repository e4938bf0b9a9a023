//! The typing rules and the limits of the profile: their numbers and their texts.
ghost use Rattle.std.specs.Prelude.{◌≡◌, map, slice_index_or, []};
ghost use Rattle.typed_tree.specs.RuleTexts.{rule_text, limit_text};

/// A rule of the language that a package breaks, by its number.
#[derive(Clone, Copy, Debug, PartialEq, Eq, PartialOrd, Ord, Drop)]
pub struct Rule(pub u8);

/// E1 redeclared
pub const REDECLARED: Rule = Rule(1);

/// E2 bad init
pub const BAD_INIT: Rule = Rule(2);

/// E3 undefined
pub const UNDEFINED: Rule = Rule(3);

/// E4 declaration cycle
pub const DECLARATION_CYCLE: Rule = Rule(4);

/// E5 initialisation cycle
pub const INITIALISATION_CYCLE: Rule = Rule(5);

/// E6 unused variable
pub const UNUSED_VARIABLE: Rule = Rule(6);

/// E7 unused import
pub const UNUSED_IMPORT: Rule = Rule(7);

/// E8 no new variable
pub const NO_NEW_VARIABLE: Rule = Rule(8);

/// E9 not exported by package
pub const NOT_EXPORTED_BY_PACKAGE: Rule = Rule(9);

/// E10 not a type
pub const NOT_A_TYPE: Rule = Rule(10);

/// E11 bad array length
pub const BAD_ARRAY_LENGTH: Rule = Rule(11);

/// E12 bad map key
pub const BAD_MAP_KEY: Rule = Rule(12);

/// E13 bad embedded type
pub const BAD_EMBEDDED_TYPE: Rule = Rule(13);

/// E14 duplicate field or method
pub const DUPLICATE_MEMBER: Rule = Rule(14);

/// E15 embeds no interface
pub const EMBEDS_NO_INTERFACE: Rule = Rule(15);

/// E16 bad receiver
pub const BAD_RECEIVER: Rule = Rule(16);

/// E17 blank used as value
pub const BLANK_USED_AS_VALUE: Rule = Rule(17);

/// E20 no such field or method
pub const NO_SUCH_FIELD_OR_METHOD: Rule = Rule(20);

/// E21 ambiguous selector
pub const AMBIGUOUS_SELECTOR: Rule = Rule(21);

/// E22 needs an address
pub const NEEDS_AN_ADDRESS: Rule = Rule(22);

/// E24 not a value
pub const NOT_A_VALUE: Rule = Rule(24);

/// E25 several values
pub const SEVERAL_VALUES: Rule = Rule(25);

/// E26 nil without a type
pub const NIL_WITHOUT_A_TYPE: Rule = Rule(26);

/// E30 constant overflow
pub const CONSTANT_OVERFLOW: Rule = Rule(30);

/// E31 division by zero
pub const DIVISION_BY_ZERO: Rule = Rule(31);

/// E32 not assignable
pub const NOT_ASSIGNABLE: Rule = Rule(32);

/// E33 mismatched operands
pub const MISMATCHED_OPERANDS: Rule = Rule(33);

/// E34 operator not defined
pub const OPERATOR_NOT_DEFINED: Rule = Rule(34);

/// E35 not comparable
pub const NOT_COMPARABLE: Rule = Rule(35);

/// E36 bad shift count
pub const BAD_SHIFT_COUNT: Rule = Rule(36);

/// E37 shifted operand is not an integer
pub const SHIFTED_OPERAND_IS_NOT_AN_INTEGER: Rule = Rule(37);

/// E39 cannot take address
pub const CANNOT_TAKE_ADDRESS: Rule = Rule(39);

/// E40 not a pointer
pub const NOT_A_POINTER: Rule = Rule(40);

/// E41 cannot index
pub const CANNOT_INDEX: Rule = Rule(41);

/// E42 bad index
pub const BAD_INDEX: Rule = Rule(42);

/// E43 index out of range
pub const INDEX_OUT_OF_RANGE: Rule = Rule(43);

/// E44 cannot slice
pub const CANNOT_SLICE: Rule = Rule(44);

/// E45 slice indexes out of order
pub const INDEXES_OUT_OF_ORDER: Rule = Rule(45);

/// E46 not an interface
pub const NOT_AN_INTERFACE: Rule = Rule(46);

/// E47 impossible type
pub const IMPOSSIBLE_TYPE: Rule = Rule(47);

/// E50 not a function
pub const NOT_A_FUNCTION: Rule = Rule(50);

/// E51 wrong number of arguments
pub const WRONG_NUMBER_OF_ARGUMENTS: Rule = Rule(51);

/// E52 bad ...
pub const BAD_DOTS: Rule = Rule(52);

/// E53 cannot convert
pub const CANNOT_CONVERT: Rule = Rule(53);

/// E54 conversion takes one argument
pub const CONVERSION_TAKES_ONE_ARGUMENT: Rule = Rule(54);

/// E55 bad built-in argument
pub const BAD_BUILTIN_ARGUMENT: Rule = Rule(55);

/// E56 built-in must be called
pub const BUILTIN_MUST_BE_CALLED: Rule = Rule(56);

/// E60 bad literal type
pub const BAD_LITERAL_TYPE: Rule = Rule(60);

/// E61 keys mixed
pub const KEYS_MIXED: Rule = Rule(61);

/// E62 unknown field
pub const UNKNOWN_FIELD: Rule = Rule(62);

/// E63 duplicate key
pub const DUPLICATE_KEY: Rule = Rule(63);

/// E64 wrong number of fields
pub const WRONG_NUMBER_OF_FIELDS: Rule = Rule(64);

/// E65 missing key
pub const MISSING_KEY: Rule = Rule(65);

/// E66 bad index key
pub const BAD_INDEX_KEY: Rule = Rule(66);

/// E67 implicit field not exported
pub const IMPLICIT_FIELD_NOT_EXPORTED: Rule = Rule(67);

/// E70 not a statement
pub const NOT_A_STATEMENT: Rule = Rule(70);

/// E71 not a call
pub const NOT_A_CALL: Rule = Rule(71);

/// E72 cannot assign
pub const CANNOT_ASSIGN: Rule = Rule(72);

/// E73 wrong number of operands
pub const WRONG_NUMBER_OF_OPERANDS: Rule = Rule(73);

/// E76 condition is not boolean
pub const CONDITION_IS_NOT_BOOLEAN: Rule = Rule(76);

/// E77 cannot send
pub const CANNOT_SEND: Rule = Rule(77);

/// E78 cannot receive
pub const CANNOT_RECEIVE: Rule = Rule(78);

/// E79 cannot range
pub const CANNOT_RANGE: Rule = Rule(79);

/// E80 too many range variables
pub const TOO_MANY_RANGE_VARIABLES: Rule = Rule(80);

/// E81 duplicate case
pub const DUPLICATE_CASE: Rule = Rule(81);

/// E85 second default
pub const SECOND_DEFAULT: Rule = Rule(85);

/// E86 bad select case
pub const BAD_SELECT_CASE: Rule = Rule(86);

/// E87 wrong number of results
pub const WRONG_NUMBER_OF_RESULTS: Rule = Rule(87);

/// E88 result is shadowed
pub const RESULT_IS_SHADOWED: Rule = Rule(88);

/// E89 missing return
pub const MISSING_RETURN: Rule = Rule(89);

/// E90 label undefined
pub const LABEL_UNDEFINED: Rule = Rule(90);

/// E91 label unused
pub const LABEL_UNUSED: Rule = Rule(91);

/// E93 jump over variable
pub const JUMP_OVER_VARIABLE: Rule = Rule(93);

/// E94 jump into block
pub const JUMP_INTO_BLOCK: Rule = Rule(94);

/// E95 misplaced break or continue
pub const MISPLACED_BREAK_OR_CONTINUE: Rule = Rule(95);

/// E96 misplaced fallthrough
pub const MISPLACED_FALLTHROUGH: Rule = Rule(96);

/// E97 not constant
pub const NOT_CONSTANT: Rule = Rule(97);

/// E98 bad constant type
pub const BAD_CONSTANT_TYPE: Rule = Rule(98);

/// E99 wrong number of values
pub const WRONG_NUMBER_OF_VALUES: Rule = Rule(99);

/// The number and the text of each rule, by its number; empty where no rule has the number.
#[rattlefmt::skip]
const TEXTS: [&[u8]; 100] = [
    b"",
    b"E1 redeclared",
    b"E2 bad init",
    b"E3 undefined",
    b"E4 declaration cycle",
    b"E5 initialisation cycle",
    b"E6 unused variable",
    b"E7 unused import",
    b"E8 no new variable",
    b"E9 not exported by package",
    b"E10 not a type",
    b"E11 bad array length",
    b"E12 bad map key",
    b"E13 bad embedded type",
    b"E14 duplicate field or method",
    b"E15 embeds no interface",
    b"E16 bad receiver",
    b"E17 blank used as value",
    b"",
    b"",
    b"E20 no such field or method",
    b"E21 ambiguous selector",
    b"E22 needs an address",
    b"",
    b"E24 not a value",
    b"E25 several values",
    b"E26 nil without a type",
    b"",
    b"",
    b"",
    b"E30 constant overflow",
    b"E31 division by zero",
    b"E32 not assignable",
    b"E33 mismatched operands",
    b"E34 operator not defined",
    b"E35 not comparable",
    b"E36 bad shift count",
    b"E37 shifted operand is not an integer",
    b"",
    b"E39 cannot take address",
    b"E40 not a pointer",
    b"E41 cannot index",
    b"E42 bad index",
    b"E43 index out of range",
    b"E44 cannot slice",
    b"E45 slice indexes out of order",
    b"E46 not an interface",
    b"E47 impossible type",
    b"",
    b"",
    b"E50 not a function",
    b"E51 wrong number of arguments",
    b"E52 bad ...",
    b"E53 cannot convert",
    b"E54 conversion takes one argument",
    b"E55 bad built-in argument",
    b"E56 built-in must be called",
    b"",
    b"",
    b"",
    b"E60 bad literal type",
    b"E61 keys mixed",
    b"E62 unknown field",
    b"E63 duplicate key",
    b"E64 wrong number of fields",
    b"E65 missing key",
    b"E66 bad index key",
    b"E67 implicit field not exported",
    b"",
    b"",
    b"E70 not a statement",
    b"E71 not a call",
    b"E72 cannot assign",
    b"E73 wrong number of operands",
    b"",
    b"",
    b"E76 condition is not boolean",
    b"E77 cannot send",
    b"E78 cannot receive",
    b"E79 cannot range",
    b"E80 too many range variables",
    b"E81 duplicate case",
    b"",
    b"",
    b"",
    b"E85 second default",
    b"E86 bad select case",
    b"E87 wrong number of results",
    b"E88 result is shadowed",
    b"E89 missing return",
    b"E90 label undefined",
    b"E91 label unused",
    b"",
    b"E93 jump over variable",
    b"E94 jump into block",
    b"E95 misplaced break or continue",
    b"E96 misplaced fallthrough",
    b"E97 not constant",
    b"E98 bad constant type",
    b"E99 wrong number of values",
];

/// The text of a number, empty where there is none.
fn text_at(texts: &[&'static [u8]], number: usize) -> &'static [u8]
    ensures { result.now ≡ slice_index_or (map (λ text. text.now) texts.now) number [] }
{
    match texts.get(number) {
        Some(text) => text,
        None => b"",
    }
}

impl Rule {
    /// The number and the text of the rule, as `E1 redeclared`; empty for a number that no rule has.
    pub fn text(self) -> &'static [u8]
        ensures { result.now ≡ rule_text self }
    {
        text_at(&TEXTS, self.0 as usize)
    }
}

/// What lies outside the profile, in the order of its numbers.
#[derive(Clone, Copy, Debug, PartialEq, Eq, PartialOrd, Ord, Drop)]
pub enum Limit {
    /// Floating-point literals and types.
    Float,
    /// Imaginary literals, complex types and the built-in functions of complex numbers.
    Complex,
    /// An integer outside 128 bits.
    Wide,
    /// A constant text of more than 65,536 bytes.
    LongText,
    /// A type of more than 10,000 nodes.
    WideType,
    /// The package `unsafe`.
    Unsafe,
    /// The package `C`.
    Cgo,
    /// An import of all names of a package.
    DotImport,
    /// A build constraint.
    BuildConstraint,
}

impl Limit {
    /// What a line says of the limit, as `outside profile: wide`.
    pub fn text(self) -> &'static [u8]
        ensures { result.now ≡ limit_text self }
    {
        match self {
            Limit::Float => b"outside profile: float",
            Limit::Complex => b"outside profile: complex",
            Limit::Wide => b"outside profile: wide",
            Limit::LongText => b"outside profile: long text",
            Limit::WideType => b"outside profile: wide type",
            Limit::Unsafe => b"outside profile: unsafe",
            Limit::Cgo => b"outside profile: cgo",
            Limit::DotImport => b"outside profile: dot import",
            Limit::BuildConstraint => b"outside profile: build constraint",
        }
    }
}
