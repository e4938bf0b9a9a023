//! Calls over a tree and a keeper in memory: what goes out, what is written and what is kept.
use go_kit::new_kits;
use gv_base::{Fault, MemKeeper, MemSink, MemTree, SureSource};
use std::alloc::Global;
use std::process::Abort;
use std::random::RandomSource;
use std::test::Fail;
use std::thread::Threads;
use top_calls::gvet::gvet;

const BEFORE: &[u8] = b"package a\n\nfunc F(x int) int {\n\tx = x\n\treturn x\n}\n";

const AFTER: &[u8] = b"package a\n\nfunc F(x int) int {\n\t\n\treturn x\n}\n";

const OTHER: &[u8] = b"package a\n\nfunc G(x int) int {\n\tx = x\n\treturn x\n}\n";

/// What the keeper has when a call has ended.
#[derive(Drop)]
enum Keeps {
    /// What it had.
    Same,
    /// The text of a cache.
    Text,
    /// These bytes.
    Bytes(&'static [u8]),
}

/// Words and a script; what the keeper has; the call of the tree that fails, and that of the keeper; what goes out, the status, whether `a.go` is
/// changed, and what is kept.
#[derive(Drop)]
struct Row {
    words: &'static [&'static str],
    script: &'static [u8],
    kept: Option<&'static [u8]>,
    tree_fails: Option<u64>,
    keeper_fails: Option<u64>,
    out: &'static [u8],
    status: u8,
    changed: bool,
    keeps: Keeps,
}

/// A call of these words where nothing fails and nothing is kept before.
const PLAIN: Row = Row {
    words: &[],
    script: b"",
    kept: None,
    tree_fails: None,
    keeper_fails: None,
    out: b"",
    status: 2,
    changed: false,
    keeps: Keeps::Same,
};

const FOUND: &[u8] =
    b"a.go:4:2: assign: self-assignment of x\nb.go:4:2: assign: self-assignment of x\npackages 1, errors 0, diagnostics 2\n";

const JSON: &[u8] =
    b"{\"m\":{\"assign\":[{\"message\":\"self-assignment of x\",\"posn\":\"a.go:4:2\"},{\"message\":\"self-assignment of x\",\"posn\":\"b.go:4:2\"}]}}\n";

const FIXED: &[u8] =
    b"a.go:4:2: assign: applied\nb.go:4:2: assign: applied\nchanged a.go\nchanged b.go\npackages 1, errors 0, fixes 2, skipped 0\n";

const TWO: &[u8] =
    b"packages 2, errors 0, diagnostics 2\nnodes 22, missing 22, loads 2, runs 20\npackages 2, errors 0, diagnostics 2\nnodes 22, missing 0, loads 0, runs 0\n";

const MANY: &[u8] =
    b"packages 200, errors 0, diagnostics 200\nnodes 2200, missing 2200, loads 200, runs 2000\npackages 200, errors 0, diagnostics 200\nnodes 2200, missing 0, loads 0, runs 0\n";

const GENERATED: &[u8] =
    b"put p0/p.go 67\npackage p\n\nconst C = 0\n\nfunc F(x int) int {\n\tx = x\n\treturn x + C\n}\n\nreport\nstats\nreport\nstats\nend\n";

#[rattlefmt::skip]
const ROWS: [Row; 25] = [
    Row { words: &["report"], out: FOUND, status: 1, keeps: Keeps::Text, ..PLAIN },
    Row { words: &["report", "--json"], out: JSON, status: 1, keeps: Keeps::Text, ..PLAIN },
    Row { words: &["--json", "--only=bools", "report"], out: b"{}\n", status: 0, keeps: Keeps::Text, ..PLAIN },
    Row { words: &["facts", "--workers", "64"], out: b"packages 1, errors 0, facts 0\n", status: 0, keeps: Keeps::Text, ..PLAIN },
    Row { words: &["check"], kept: Some(b"rubbish"), out: b"cache ignored\npackages 1, errors 0\n", status: 0, keeps: Keeps::Text, ..PLAIN },
    Row { words: &["fix"], out: FIXED, status: 1, changed: true, keeps: Keeps::Text, ..PLAIN },
    Row { words: &["report"], tree_fails: Some(0), status: 4, ..PLAIN },
    Row { words: &["report"], kept: Some(b"rubbish"), tree_fails: Some(1), out: b"cache ignored\n", status: 4, ..PLAIN },
    Row { words: &["fix"], tree_fails: Some(3), status: 4, ..PLAIN },
    Row { words: &["fix"], tree_fails: Some(4), status: 4, changed: true, ..PLAIN },
    Row { words: &["report"], keeper_fails: Some(0), status: 5, ..PLAIN },
    Row { words: &["report"], keeper_fails: Some(1), out: FOUND, status: 5, ..PLAIN },
    Row { words: &["fix"], keeper_fails: Some(1), out: FIXED, status: 5, changed: true, ..PLAIN },
    Row { words: &["session"], script: b"check\ncheck\n", keeper_fails: Some(2), out: b"packages 0, errors 0\npackages 0, errors 0\n", status: 5, keeps: Keeps::Bytes(b"gvcache 1\n0;0;"), ..PLAIN },
    Row { words: &["session"], script: b"check\n", kept: Some(b"junk"), out: b"cache ignored\npackages 0, errors 0\n", status: 0, keeps: Keeps::Bytes(b"gvcache 1\n0;0;"), ..PLAIN },
    Row { words: &["session"], script: b"check\nput a.go 100\npackage a\n", kept: Some(b"gvcache 1\n0;0;"), out: b"packages 0, errors 0\nscript refused at 6\n", status: 8, ..PLAIN },
    Row { words: &["load", "2", "--workers", "8"], out: TWO, status: 1, keeps: Keeps::Text, ..PLAIN },
    Row { words: &["load", "200"], out: MANY, status: 1, keeps: Keeps::Text, ..PLAIN },
    Row { words: &["load", "200", "--workers", "8"], out: MANY, status: 1, keeps: Keeps::Text, ..PLAIN },
    Row { words: &["gen", "1"], kept: Some(b"rubbish"), tree_fails: Some(0), keeper_fails: Some(0), out: GENERATED, status: 0, ..PLAIN },
    Row { words: &["check", "--workers", "0"], kept: Some(b"rubbish"), tree_fails: Some(0), keeper_fails: Some(0), ..PLAIN },
    Row { words: &["report", "--only", "printf,"], kept: Some(b"rubbish"), tree_fails: Some(0), keeper_fails: Some(0), ..PLAIN },
    Row { words: &["report", "--json", "--json"], kept: Some(b"rubbish"), tree_fails: Some(0), keeper_fails: Some(0), ..PLAIN },
    Row { words: &["load", "1001"], kept: Some(b"rubbish"), tree_fails: Some(0), keeper_fails: Some(0), ..PLAIN },
    PLAIN,
];

fn failing(alloc: Global, call: Option<u64>) -> Result<Vec<Fault>, Fail> {
    let mut list = Vec::new(alloc);
    if let Some(call) = call {
        list.push(Fault {
            call,
            new_stay: false,
        })?;
    }
    Ok(list)
}

pub(super) fn words_of(alloc: Global, words: &[&str]) -> Result<Vec<String>, Fail> {
    let mut list = Vec::new(alloc);
    for word in words {
        list.push(String::from_str(alloc, *word)?)?;
    }
    Ok(list)
}

fn bytes_of(alloc: Global, bytes: Option<&[u8]>) -> Result<Option<Vec<u8>>, Fail> {
    match bytes {
        Some(bytes) => Ok(Some(bytes.to_vec(alloc)?)),
        None => Ok(None),
    }
}

fn keeps_as_told<R: Abort>(rt: &R, row: &Row, now: Option<&[u8]>) -> Result<(), Fail> {
    match row.keeps {
        Keeps::Same => assert!(rt; now == row.kept),
        Keeps::Text => assert!(rt; now.is_some() && now != row.kept),
        Keeps::Bytes(bytes) => assert!(rt; now == Some(bytes)),
    }
    Ok(())
}

fn runs_as_told<R: Threads + Sync + RandomSource + Abort>(
    rt: &R,
    alloc: Global,
    row: &Row,
) -> Result<(), Fail> {
    let words = words_of(alloc, row.words)?;
    let mut tree = MemTree::new(alloc, failing(alloc, row.tree_fails)?);
    tree.put("a.go", BEFORE)?;
    tree.put("b.go", OTHER)?;
    let kept = bytes_of(alloc, row.kept)?;
    let mut keeper = MemKeeper::new(alloc, kept, failing(alloc, row.keeper_fails)?);
    let mut input = SureSource::new(row.script.to_vec(alloc)?);
    let mut output = MemSink::new(Vec::new(alloc), Vec::new(alloc), Vec::new(alloc));
    let mut kits = new_kits(alloc, 64)?;
    let status = gvet(
        rt,
        alloc,
        &words,
        &mut tree,
        &mut keeper,
        &mut input,
        &mut output,
        kits.as_mut_slice(),
    );
    assert_eq!(rt; output.bytes(), row.out);
    assert_eq!(rt; status, row.status);
    let file = if row.changed { AFTER } else { BEFORE };
    assert_eq!(rt; tree.get("a.go"), Some(file));
    keeps_as_told(rt, row, keeper.bytes())
}

#[test]
fn calls_do_as_told(rt: HostRuntime) -> Result<(), Fail> {
    for row in &ROWS {
        runs_as_told(&rt, rt.alloc(), row)?;
    }
    Ok(())
}
