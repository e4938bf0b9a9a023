//! The analyzers' names and numbers.
ghost use Rattle.std.specs.Prelude.{◌≡◌, ◌≤◌, ◌^◌, ℕ, Some};
ghost use Rattle.analysis_core.specs.declared.analyzer_name.AnalyzerName.{AnalyzerName};
ghost use Rattle.analysis_core.specs.AnalyzerNames.{number_of, name_of, analyzer_numbered, analyzer_named};

/// An analyzer, by its name.
#[derive(Clone, Copy, Debug, PartialEq, Eq, PartialOrd, Ord, Drop)]
pub enum AnalyzerName {
    Assign,
    Bools,
    CopyLocks,
    CtrlFlow,
    NilFunc,
    Printf,
    StringIntConv,
    StructTag,
    Unreachable,
    UnusedResult,
}

impl AnalyzerName {
    /// The analyzers in the order of their numbers.
    pub const ALL: [AnalyzerName; 10] = [
        AnalyzerName::Assign,
        AnalyzerName::Bools,
        AnalyzerName::CopyLocks,
        AnalyzerName::CtrlFlow,
        AnalyzerName::NilFunc,
        AnalyzerName::Printf,
        AnalyzerName::StringIntConv,
        AnalyzerName::StructTag,
        AnalyzerName::Unreachable,
        AnalyzerName::UnusedResult,
    ];

    /// Its number, from 1 to 10.
    pub fn number(self) -> u8
        ensures value { result ≡ number_of self }
        ensures within { (1 ≤ result) × (result ≤ 10) }
    {
        match self {
            AnalyzerName::Assign => 1,
            AnalyzerName::Bools => 2,
            AnalyzerName::CopyLocks => 3,
            AnalyzerName::CtrlFlow => 4,
            AnalyzerName::NilFunc => 5,
            AnalyzerName::Printf => 6,
            AnalyzerName::StringIntConv => 7,
            AnalyzerName::StructTag => 8,
            AnalyzerName::Unreachable => 9,
            AnalyzerName::UnusedResult => 10,
        }
    }

    /// The analyzer of this number. `None` exactly for a number that is none of 1 to 10.
    pub fn of_number(number: u8) -> Option<AnalyzerName>
        ensures { result ≡ analyzer_numbered number }
    {
        match number {
            1 => Some(AnalyzerName::Assign),
            2 => Some(AnalyzerName::Bools),
            3 => Some(AnalyzerName::CopyLocks),
            4 => Some(AnalyzerName::CtrlFlow),
            5 => Some(AnalyzerName::NilFunc),
            6 => Some(AnalyzerName::Printf),
            7 => Some(AnalyzerName::StringIntConv),
            8 => Some(AnalyzerName::StructTag),
            9 => Some(AnalyzerName::Unreachable),
            10 => Some(AnalyzerName::UnusedResult),
            _ => None,
        }
    }

    /// Its name, as it is printed and as words choose it.
    pub fn text(self) -> &'static str
        ensures { result.now ≡ name_of self }
    {
        match self {
            AnalyzerName::Assign => "assign",
            AnalyzerName::Bools => "bools",
            AnalyzerName::CopyLocks => "copylocks",
            AnalyzerName::CtrlFlow => "ctrlflow",
            AnalyzerName::NilFunc => "nilfunc",
            AnalyzerName::Printf => "printf",
            AnalyzerName::StringIntConv => "stringintconv",
            AnalyzerName::StructTag => "structtag",
            AnalyzerName::Unreachable => "unreachable",
            AnalyzerName::UnusedResult => "unusedresult",
        }
    }

    /// The bit of its number, as sets of analyzers have it.
    pub fn bit(self) -> u16
        ensures { result ≡ 2 ^ number_of self }
    {
        match self {
            AnalyzerName::Assign => 2,
            AnalyzerName::Bools => 4,
            AnalyzerName::CopyLocks => 8,
            AnalyzerName::CtrlFlow => 16,
            AnalyzerName::NilFunc => 32,
            AnalyzerName::Printf => 64,
            AnalyzerName::StringIntConv => 128,
            AnalyzerName::StructTag => 256,
            AnalyzerName::Unreachable => 512,
            AnalyzerName::UnusedResult => 1024,
        }
    }
}

/// An analyzer has a number and a name of its own.
pub fn analyzers_are_told()
    ensures numbers { (a : AnalyzerName) → analyzer_numbered (number_of a) ≡ Some a }
    ensures names { (a : AnalyzerName) → analyzer_named (name_of a) ≡ Some a }
    ensures numbered { (n : ℕ) (a : AnalyzerName) → analyzer_numbered n ≡ Some a → number_of a ≡ n }
    ensures once { (a b : AnalyzerName) → name_of a ≡ name_of b → a ≡ b }
{}
