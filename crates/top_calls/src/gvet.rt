//! The top call: what the words ask for.
ghost use Rattle.std.specs.Prelude.{◌≡◌, ◌⊎◌, ◌≤◌, ◌^◌, ℕ, List, Option, Some, length, map, string_bytes};
ghost use Rattle.top_calls.specs.Calls.{AllSure, Generates, IsDone, LoadCauses, Loads, Serves, WriteCauses, options_of};
ghost use Rattle.top_calls.specs.Due.{IsLawfulKept};
ghost use Rattle.top_calls.specs.Headline.{IsLawfulHeld, IsLeftOff};
ghost use Rattle.top_calls.specs.Workers.{CanWork, DidAtMost, OthersStay, work_of};
ghost use Rattle.words.specs.Grammar.{Asks};
ghost use Rattle.words.specs.declared.asked.Asked.TheVariants as asked;
ghost use Rattle.words.specs.declared.asked.Words.{Words as Asked};

use crate::call::{one_run, session};
use crate::key::key_of;
use crate::lines::say;
use crate::options::ToolOptions;
use crate::stop::{Cut, Stop, USAGE};
use chain_script::chain_script;
use fact_cache::Key;
use gv_base::{Keeper, Sink, Source, SureSource, Tree};
use scripts::Halt;
use std::alloc::Global;
use std::random::RandomSource;
use std::thread::Threads;
use tree_runs::{Kit, one_report_of_a_tree};
use words::{Asked as Command, Words, one_reading, read_words};

/// The options of words.
fn options_of(words: &Words, brief: bool) -> ToolOptions
    ensures { result ≡ options_of words.now brief }
{
    ToolOptions {
        workers: words.workers,
        only: words.only,
        json: words.json,
        brief,
    }
}

/// Writes the script of a chain of so many packages. The result is the number of a status.
fn generate<O: Sink>(alloc: Global, count: u32, output: &mut O) -> u8
    ensures generates { Generates count (O.view output.old) (O.view output.new) result }
    ensures causes { WriteCauses (O.view output.old) (O.view output.new) result }
{
    match chain_script(alloc, count as u64) {
        Err(_) => Stop::Broken(Cut::Memory).number(),
        Ok(script) => match say(&script, output) {
            Ok(()) => Stop::Halted(Halt::Ended, false).number(),
            Err(cut) => Stop::Broken(cut).number(),
        },
    }
}

/// Answers the script of a chain of so many packages. The result is the number of a status.
fn load<K: Keeper, O: Sink, W: Kit + Send, R: Threads + Sync>(
    rt: &R,
    alloc: Global,
    key: Key,
    options: &ToolOptions,
    count: u32,
    keeper: &mut K,
    output: &mut O,
    kits: &mut [W],
) -> u8
where
    W::Loaded: Send,
    requires workers { CanWork options.now.workers kits.old }
    requires room { DidAtMost W.loads W.runs (2 ^ 61) kits.old }
    ensures loads { Loads options.now count (O.view output.old) (O.view output.new) (K.view keeper.old) (K.view keeper.new) (work_of W.loads W.runs options.now.workers kits.old) (work_of W.loads W.runs options.now.workers kits.new) result }
    ensures causes { LoadCauses (O.view output.old) (O.view output.new) (K.view keeper.old) (K.view keeper.new) result }
    ensures lawful { (kept : Option (List ℕ)) → (K.view keeper.old).kept ≡ Some kept → IsLawfulKept kept → IsLawfulHeld (K.view keeper.new).kept }
    ensures others { OthersStay options.now.workers kits.old kits.new }
{
    one_report_of_a_tree();
    match chain_script(alloc, count as u64) {
        Err(_) => Stop::Broken(Cut::Memory).number(),
        Ok(script) => {
            let mut source = SureSource::new(script);
            session(rt, alloc, key, options, keeper, &mut source, output, kits)
        }
    }
}

/// Does what words ask for.
fn serve<T: Tree, K: Keeper, I: Source, O: Sink, W: Kit + Send, R: Threads + Sync>(
    rt: &R,
    alloc: Global,
    key: Key,
    words: &Words,
    tree: &mut T,
    keeper: &mut K,
    input: &mut I,
    output: &mut O,
    kits: &mut [W],
) -> u8
where
    W::Loaded: Send,
    requires workers { CanWork words.now.workers kits.old }
    requires room { DidAtMost W.loads W.runs (2 ^ 61) kits.old }
    ensures serves { Serves words.now (record { source = I.view input.old; sink = O.view output.old; tree = T.view tree.old; keeper = K.view keeper.old; kits = work_of W.loads W.runs words.now.workers kits.old }) (record { source = I.view input.new; sink = O.view output.new; tree = T.view tree.new; keeper = K.view keeper.new; kits = work_of W.loads W.runs words.now.workers kits.new }) result }
    ensures lawful { (kept : Option (List ℕ)) → (K.view keeper.old).kept ≡ Some kept → IsLawfulKept kept → IsLawfulHeld (K.view keeper.new).kept }
    ensures others { OthersStay words.now.workers kits.old kits.new }
    ensures idle { (count : ℕ) → words.now.asked ≡ asked.Gen count → kits.new ≡ kits.old }
{
    match words.asked {
        Command::Session => session(
            rt,
            alloc,
            key,
            &options_of(words, false),
            keeper,
            input,
            output,
            kits,
        ),
        Command::Run(kind) => one_run(
            rt,
            alloc,
            key,
            &options_of(words, false),
            kind,
            tree,
            keeper,
            output,
            kits,
        ),
        Command::Gen(count) => generate(alloc, count, output),
        Command::Load(count) => load(
            rt,
            alloc,
            key,
            &options_of(words, true),
            count,
            keeper,
            output,
            kits,
        ),
    }
}

/// The top call: reads the words, which don't include the program's name, and does what they ask for. The result is the
/// number of a status; for words outside their grammar it is 2, and nothing is touched. The cache's key is drawn from the
/// runtime, and no answer depends on it. As many of the kits as the words choose do the work, the first of them; the
/// others stay as they are.
pub fn gvet<
    R: Threads + Sync + RandomSource,
    T: Tree,
    K: Keeper,
    I: Source,
    O: Sink,
    W: Kit + Send,
>(
    rt: &R,
    alloc: Global,
    words: &[String],
    tree: &mut T,
    keeper: &mut K,
    input: &mut I,
    output: &mut O,
    kits: &mut [W],
) -> u8
where
    W::Loaded: Send,
    requires kits { 64 ≤ length kits.old }
    requires room { DidAtMost W.loads W.runs (2 ^ 61) kits.old }
    ensures usage { ((call : Asked) → Asks (map string_bytes words.now) call → ⊥) → (result ≡ 2) × (tree.new ≡ tree.old) × (keeper.new ≡ keeper.old) × (input.new ≡ input.old) × (output.new ≡ output.old) × (kits.new ≡ kits.old) }
    ensures serves { (call : Asked) → Asks (map string_bytes words.now) call → Serves call (record { source = I.view input.old; sink = O.view output.old; tree = T.view tree.old; keeper = K.view keeper.old; kits = work_of W.loads W.runs call.workers kits.old }) (record { source = I.view input.new; sink = O.view output.new; tree = T.view tree.new; keeper = K.view keeper.new; kits = work_of W.loads W.runs call.workers kits.new }) result }
    ensures complete { (call : Asked) → Asks (map string_bytes words.now) call → AllSure (record { source = I.view input.old; sink = O.view output.old; tree = T.view tree.old; keeper = K.view keeper.old; kits = work_of W.loads W.runs call.workers kits.old }) (record { source = I.view input.new; sink = O.view output.new; tree = T.view tree.new; keeper = K.view keeper.new; kits = work_of W.loads W.runs call.workers kits.new }) → IsDone call call.asked (record { source = I.view input.old; sink = O.view output.old; tree = T.view tree.old; keeper = K.view keeper.old; kits = work_of W.loads W.runs call.workers kits.old }) (record { source = I.view input.new; sink = O.view output.new; tree = T.view tree.new; keeper = K.view keeper.new; kits = work_of W.loads W.runs call.workers kits.new }) result ⊎ IsLeftOff result }
    ensures lawful { (kept : Option (List ℕ)) → (K.view keeper.old).kept ≡ Some kept → IsLawfulKept kept → IsLawfulHeld (K.view keeper.new).kept }
    ensures others { (call : Asked) → Asks (map string_bytes words.now) call → OthersStay call.workers kits.old kits.new }
    ensures idle { (call : Asked) (count : ℕ) → Asks (map string_bytes words.now) call → call.asked ≡ asked.Gen count → kits.new ≡ kits.old }
{
    one_reading();
    match read_words(words) {
        Err(_) => USAGE,
        Ok(words) => serve(
            rt,
            alloc,
            key_of(rt),
            &words,
            tree,
            keeper,
            input,
            output,
            kits,
        ),
    }
}
