//! The functions of a package by number, with their bodies.
ghost use Rattle.std.specs.Prelude.{◌≡◌, ◌<◌, ◌||◌, ℕ, List, IfOk, codes, length, map, option_map, slice_get};
ghost use Rattle.std.specs.Str.{bytes_eq};
ghost use Rattle.go_tree.specs.Lexeme.{place_of};
ghost use Rattle.unit_read.specs.Index.{found};
ghost use Rattle.findings.specs.Passes.{unit_in};
ghost use Rattle.own_functions.specs.Functions.{functions, names};
ghost use Rattle.own_functions.specs.InCode.{named_in};
ghost use Rattle.vet_never.specs.Listed.{is_log_name, is_listed_name};
ghost use Rattle.vet_never.specs.Knowing.{block_told, body_told, IsFunction, AreFunctions};

use findings::Pass;
use go_tree::NodeRef;
use gv_base::NoMemory;
use never_returns::{Block, Function};
use own_functions::{Declared, block_at, declared_at, nth_name};
use std::alloc::Global;
use std::collections::HashMap;

// ---- listed functions

fn is_word(name: &[u8], word: &str) -> bool
    ensures { result ≡ bytes_eq name.now word.now }
{
    name == word.as_bytes()
}

fn is_panic_name(name: &[u8]) -> bool
    ensures { result ≡ (bytes_eq name.now (codes "Panic") || (bytes_eq name.now (codes "Panicf") || bytes_eq name.now (codes "Panicln"))) }
{
    is_word(name, "Panic") || (is_word(name, "Panicf") || is_word(name, "Panicln"))
}

fn is_log_name(name: &[u8]) -> bool
    ensures { result ≡ is_log_name name.now }
{
    is_word(name, "Fatal")
        || (is_word(name, "Fatalf") || (is_word(name, "Fatalln") || is_panic_name(name)))
}

fn is_listed_name(path: &[u8], name: &[u8]) -> bool
    ensures { result ≡ is_listed_name path.now name.now }
{
    if is_word(path, "os") {
        is_word(name, "Exit")
    } else if is_word(path, "runtime") {
        is_word(name, "Goexit")
    } else if is_word(path, "syscall") {
        is_word(name, "Exit")
    } else if is_word(path, "log") {
        is_log_name(name)
    } else {
        false
    }
}

// ---- bodies

fn block_told(p: &Pass, at: NodeRef) -> Option<Block>
    ensures { result ≡ block_told (unit_in p.now) at }
{
    match block_at(p.subject.nodes_at(at.file), at.node) {
        Some(node) => Some(Block {
            file: at.file,
            node,
        }),
        None => None,
    }
}

fn body_told(
    p: &Pass,
    list: &[Declared],
    numbers: &HashMap<&[u8], usize>,
    name: &[u8],
) -> Option<Block>
    requires list { map named_in list.now ≡ functions (unit_in p.now) }
    requires numbers { (q : List ℕ) → found numbers.now q ≡ place_of (names (unit_in p.now)) q }
    ensures { result ≡ body_told (unit_in p.now) name.now }
{
    match declared_at(p, list, numbers, name) {
        Some(at) => block_told(p, at),
        None => None,
    }
}

fn nth_function(p: &Pass, list: &[Declared], numbers: &HashMap<&[u8], usize>, i: usize) -> Function
    requires list { map named_in list.now ≡ functions (unit_in p.now) }
    requires numbers { (q : List ℕ) → found numbers.now q ≡ place_of (names (unit_in p.now)) q }
    requires there { i < length list.now }
    ensures { IsFunction (unit_in p.now) i result }
{
    let name = nth_name(p, list, i);
    Function {
        listed: is_listed_name(p.subject.path, name),
        body: body_told(p, list, numbers, name),
    }
}

/// The functions of a package by number.
pub(crate) fn functions_by_number(
    alloc: Global,
    p: &Pass,
    list: &[Declared],
    numbers: &HashMap<&[u8], usize>,
) -> Result<Vec<Function>, NoMemory>
    requires list { map named_in list.now ≡ functions (unit_in p.now) }
    requires numbers { (q : List ℕ) → found numbers.now q ≡ place_of (names (unit_in p.now)) q }
    ensures { IfOk result (λ functions. AreFunctions (unit_in p.now) (length list.now) functions.items) }
{
    let mut all = Vec::new(alloc);
    for i in 0..list.len() {
        all.push(nth_function(p, list, numbers, i))?;
    }
    Ok(all)
}
