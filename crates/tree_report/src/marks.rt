//! What the lines of marks say.
ghost use Rattle.std.specs.Prelude.{◌≡◌, true, false};
ghost use Rattle.tree_report.specs.Lines.{limit_of, mark_text};

use typed_tree::{Limit, Rule};

/// The limit of a number.
fn limit_of(number: u8) -> Option<Limit>
    ensures { result ≡ limit_of number }
{
    if number == 0 {
        return Some(Limit::Float);
    }
    if number == 1 {
        return Some(Limit::Complex);
    }
    if number == 2 {
        return Some(Limit::Wide);
    }
    if number == 3 {
        return Some(Limit::LongText);
    }
    if number == 4 {
        return Some(Limit::WideType);
    }
    if number == 5 {
        return Some(Limit::Unsafe);
    }
    if number == 6 {
        return Some(Limit::Cgo);
    }
    if number == 7 {
        return Some(Limit::DotImport);
    }
    if number == 8 {
        return Some(Limit::BuildConstraint);
    }
    None
}

/// What the line of a limit says.
fn limit_text(number: u8) -> &'static [u8]
    ensures { result.now ≡ mark_text true number }
{
    match limit_of(number) {
        Some(limit) => limit.text(),
        None => b"",
    }
}

/// What the line of a rule says.
fn rule_text(number: u8) -> &'static [u8]
    ensures { result.now ≡ mark_text false number }
{
    Rule(number).text()
}

/// What the line of a mark says: nothing where no rule or limit has the number.
pub fn mark_text(limit: bool, number: u8) -> &'static [u8]
    ensures { result.now ≡ mark_text limit number }
{
    if limit {
        limit_text(number)
    } else {
        rule_text(number)
    }
}
