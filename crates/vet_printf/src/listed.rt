//! Functions of Go's own packages that print.
ghost use Rattle.std.specs.Prelude.{◌≡◌, ℕ, List, Option, Some, map};
ghost use Rattle.std.specs.Str.{bytes_eq};
ghost use Rattle.findings.specs.Passes.{unit_in, marks_in, IsPass};
ghost use Rattle.own_functions.specs.Functions.{declared_at};
ghost use Rattle.vet_printf.specs.Forwards.{is_fmt_print, is_fmt_printf, is_log_print, is_log_printf, is_fmt_name, is_log_name, is_listed_name, declared_takes, takes_named, is_listed};
ghost use Rattle.vet_printf.specs.Knowing.{IsKnown};

use crate::known::Known;
use crate::taking::takes_kind;
use findings::Pass;
use go_tree::NodeRef;
use own_functions::declared_at;

// ---- names

fn is_word(name: &[u8], word: &str) -> bool
    ensures { result ≡ bytes_eq name.now word.now }
{
    name == word.as_bytes()
}

fn is_fmt_print(name: &[u8]) -> bool
    ensures { result ≡ is_fmt_print name.now }
{
    is_word(name, "Print")
        || (is_word(name, "Println")
            || (is_word(name, "Sprint")
                || (is_word(name, "Sprintln")
                    || (is_word(name, "Fprint") || is_word(name, "Fprintln")))))
}

fn is_fmt_printf(name: &[u8]) -> bool
    ensures { result ≡ is_fmt_printf name.now }
{
    is_word(name, "Printf") || (is_word(name, "Sprintf") || is_word(name, "Fprintf"))
}

fn is_log_print(name: &[u8]) -> bool
    ensures { result ≡ is_log_print name.now }
{
    is_word(name, "Print")
        || (is_word(name, "Println")
            || (is_word(name, "Fatal")
                || (is_word(name, "Fatalln")
                    || (is_word(name, "Panic") || is_word(name, "Panicln")))))
}

fn is_log_printf(name: &[u8]) -> bool
    ensures { result ≡ is_log_printf name.now }
{
    is_word(name, "Printf") || (is_word(name, "Fatalf") || is_word(name, "Panicf"))
}

fn is_fmt_name(kind: u8, name: &[u8]) -> bool
    ensures { result ≡ is_fmt_name kind name.now }
{
    if kind == 1 {
        is_fmt_print(name)
    } else if kind == 2 {
        is_fmt_printf(name)
    } else if kind == 4 {
        is_word(name, "Errorf")
    } else {
        false
    }
}

fn is_log_name(kind: u8, name: &[u8]) -> bool
    ensures { result ≡ is_log_name kind name.now }
{
    if kind == 1 {
        is_log_print(name)
    } else if kind == 2 {
        is_log_printf(name)
    } else {
        false
    }
}

fn is_listed_name(path: &[u8], kind: u8, name: &[u8]) -> bool
    ensures { result ≡ is_listed_name path.now kind name.now }
{
    if is_word(path, "fmt") {
        is_fmt_name(kind, name)
    } else if is_word(path, "log") {
        is_log_name(kind, name)
    } else {
        false
    }
}

// ---- parameters

fn declared_takes(p: &Pass, kind: u8, at: NodeRef) -> bool
    requires { IsPass p.now }
    ensures { result ≡ declared_takes (unit_in p.now) (marks_in p.now) kind at }
{
    match p.subject.node_at(at) {
        Some(node) => takes_kind(p, at.file, node, kind),
        None => false,
    }
}

fn takes_named(p: &Pass, known: &Known<'_, '_>, kind: u8, name: &[u8]) -> bool
    requires pass { IsPass p.now }
    requires known { IsKnown (unit_in p.now) (marks_in p.now) known.now }
    ensures { result ≡ takes_named (declared_at (unit_in p.now)) (unit_in p.now) (marks_in p.now) kind name.now }
{
    match declared_at(p, known.list, known.numbers, name) {
        Some(at) => declared_takes(p, kind, at),
        None => false,
    }
}

/// Whether a function of this name is a listed one of the package, as a function of this kind.
pub(crate) fn is_listed(p: &Pass, known: &Known<'_, '_>, kind: u8, name: &[u8]) -> bool
    requires pass { IsPass p.now }
    requires known { IsKnown (unit_in p.now) (marks_in p.now) known.now }
    ensures { result ≡ is_listed (declared_at (unit_in p.now)) (unit_in p.now) (marks_in p.now) kind name.now }
{
    is_listed_name(p.subject.path, kind, name) && takes_named(p, known, kind, name)
}
