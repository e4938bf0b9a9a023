//! Whole sessions over devices in memory. What no clause says is looked at here: that a call with
//! ample memory answers, and the printed lines.
mod analyses;
mod command_words;
mod facts;
mod folders;
mod hostile;
mod keys;
mod limits;
mod meeting;
mod types;
mod workers;

use go_kit::GoKit;
use gv_base::{MemSink, MemSource, SureKeeper};
use std::alloc::Global;
use std::process::Abort;
use std::random::RandomSource;
use std::test::Fail;
use std::thread::Threads;
use top_calls::call::session;
use top_calls::key::key_of;
use top_calls::options::ToolOptions;
use workers::several_answer;

/// Commands, and the reply to each.
#[rattlefmt::skip]
const COMMANDS: [(&[u8], &[u8]); 10] = [
    (b"stats\n", b"nodes 0, missing 0, loads 0, runs 0\n"),
    (b"check\n", b"packages 0, errors 0\n"),
    (b"put a/b.go 23\npackage a\n\nconst A = A\n\n", b""),
    (b"check\n", b"a/b.go:3:7: E4 declaration cycle\npackages 1, errors 1\n"),
    (b"stats\n", b"nodes 1, missing 1, loads 1, runs 0\n"),
    (b"put a/b.go 10\npackage a\n\n", b""),
    (b"put a.b-c_d/+~@/...go 1\n\n\n", b""),
    (b"check\n", b"packages 1, errors 0\n"),
    (b"del a/b.go\n", b""),
    (b"check\n", b"packages 0, errors 0\n"),
];

/// A script, its output and its status.
type Case = (&'static [u8], &'static [u8], u8);

/// Scripts, and the output and the status of each.
#[rattlefmt::skip]
const SCRIPTS: [Case; 39] = [
    (b"", b"", 0),
    (b"end\nrubbish", b"", 0),
    (b"check\nput a.go 100\npackage a\n", b"packages 0, errors 0\nscript refused at 6\n", 8),
    (b"check\nput a 01\n", b"packages 0, errors 0\nscript refused at 6\n", 8),
    (b"check\nchec", b"packages 0, errors 0\nscript refused at 6\n", 8),
    (b"put a 1234567890\n", b"script refused at 0\n", 8),
    (b"put a 1\nxycheck\n", b"script refused at 0\n", 8),
    (b"put  a 1\nx\n", b"script refused at 0\n", 8),
    (b"del a/../b\n", b"script refused at 0\n", 8),
    (b"del .\n", b"script refused at 0\n", 8),
    (b"del ..\n", b"script refused at 0\n", 8),
    (b"del ...\n", b"", 0),
    (b"del a//b\n", b"script refused at 0\n", 8),
    (b"del /a\n", b"script refused at 0\n", 8),
    (b"del a/\n", b"script refused at 0\n", 8),
    (b"del \n", b"script refused at 0\n", 8),
    (b"del a b\n", b"script refused at 0\n", 8),
    (b"del a:b\n", b"script refused at 0\n", 8),
    (b"Check\n", b"script refused at 0\n", 8),
    (b"check\r\n", b"script refused at 0\n", 8),
    (b"stats\n", b"nodes 0, missing 0, loads 0, runs 0\n", 0),
    (b"stats \n", b"script refused at 0\n", 8),
    (b"stat\n", b"script refused at 0\n", 8),
    (b"report \n", b"script refused at 0\n", 8),
    (b"fix a\n", b"script refused at 0\n", 8),
    (b"fact\n", b"script refused at 0\n", 8),
    (b"facts \n", b"script refused at 0\n", 8),
    (b"fi", b"script refused at 0\n", 8),
    (b"show b.go\n", b"no file b.go\n", 0),
    (b"put a/b 3\nx\ny\nshow a/b\n", b"file a/b 3\nx\ny\n", 0),
    (b"put a 0\n\nshow a\n", b"file a 0\n\n", 0),
    (b"put a 1\nx\ndel a\nshow a\n", b"no file a\n", 0),
    (b"put a 1\nx\nput a 2\nyz\nshow a\nshow b\nshow a\n", b"file a 2\nyz\nno file b\nfile a 2\nyz\n", 0),
    // a path that begins another, and one that it begins
    (b"put a/b 1\nx\nshow a\nshow a/b/c\n", b"no file a\nno file a/b/c\n", 0),
    (b"show a b\n", b"script refused at 0\n", 8),
    (b"show \n", b"script refused at 0\n", 8),
    (b"show\n", b"script refused at 0\n", 8),
    (b"show a", b"script refused at 0\n", 8),
    (b"show ../a\n", b"script refused at 0\n", 8),
];

/// Trees, and the reply to a check of each: rules at their places.
#[rattlefmt::skip]
const TREES: [Case; 15] = [
    (b"put a/a.go 0\n\ncheck\n", b"a/a.go:1:1: syntax error\npackages 1, errors 1\n", 1),
    (b"put a/a.go 39\npackage a\n\nconst A = B + 1\nconst B = A\n\ncheck\n", b"a/a.go:3:7: E4 declaration cycle\na/a.go:4:7: E4 declaration cycle\npackages 1, errors 2\n", 1),
    (b"put a/a.go 35\npackage a\n\nconst A = Z\nconst A = 1\n\ncheck\n", b"a/a.go:3:11: E3 undefined\na/a.go:4:7: E1 redeclared\npackages 1, errors 2\n", 1),
    (b"put a/a.go 77\npackage a\n\nconst A = 170141183460469231731687303715884105727\nconst B = A + 1\n\ncheck\n", b"a/a.go:4:11: outside profile: wide\npackages 1, errors 1\n", 1),
    (b"put a/a.go 21\npackage a\n\nfunc f(){}\ncheck\n", b"packages 1, errors 0\n", 0),
    (b"put a/a.go 39\npackage a\n\nconst A = B\nconst B = B + 1\n\ncheck\n", b"a/a.go:4:7: E4 declaration cycle\npackages 1, errors 1\n", 1),
    (b"put a/b.go 23\npackage a\n\nconst A = 1\n\nput a/a.go 35\npackage a\n\nconst A = 2\nconst B = C\n\nput a/c.go 23\npackage a\n\nconst C = B\n\ncheck\n", b"a/a.go:4:7: E4 declaration cycle\na/b.go:3:7: E1 redeclared\na/c.go:3:7: E4 declaration cycle\npackages 1, errors 3\n", 1),
    (b"put a/a.go 45\npackage a\n\nconst A = 1 +\n\t2 + A0\nconst A0 = 3\nput a/a_test.go 1\nx\nput a/_a.go 1\nx\nput a/notes 1\nx\nput testdata/a.go 1\nx\ncheck\n", b"packages 1, errors 0\n", 0),
    (b"put a/a.go 11\npackage a\n\n\nput a/b.go 10\npackage b\n\ncheck\n", b"a/b.go:1:9: package name differs\npackages 1, errors 1\n", 1),
    (b"put a/a.go 11\npackage a\n\n\nput b/a.go 11\npackage a\n\n\ncheck\n", b"packages 2, errors 0\n", 0),
    (b"put go.mod 9\nmodule m\n\ncheck\n", b"packages 0, errors 0\n", 0),
    (b"put std/a 1\nx\ncheck\n", b"packages 0, errors 0\n", 0),
    (b"put a/a.go 25\npackage a\n\nconst int = 1\n\ncheck\n", b"packages 1, errors 0\n", 0),
    (b"put a/a.go 24\npackage a\n\nconst A = 01\n\ncheck\n", b"packages 1, errors 0\n", 0),
    (b"put a/a.go 39\npackage a\n\nconst A = B + 1\nconst B = A\n\ncheck\ndel a/a.go\ncheck\n", b"a/a.go:3:7: E4 declaration cycle\na/a.go:4:7: E4 declaration cycle\npackages 1, errors 2\npackages 0, errors 0\n", 0),
];

/// Trees of constants of all types, and the reply to a check of each.
#[rattlefmt::skip]
const CONSTANTS: [Case; 10] = [
    (b"put a/a.go 71\npackage a\n\nconst (\n\tA = iota\n\tB\n\tC uint8 = 200 + iota*100\n\tD = B / A\n)\n\ncheck\n", b"a/a.go:6:12: E32 not assignable\na/a.go:7:6: E31 division by zero\npackages 1, errors 2\n", 1),
    (b"put a/a.go 46\npackage a\n\nconst (\n\tA uint8 = 255 + iota\n\tB\n)\n\ncheck\n", b"a/a.go:5:2: E32 not assignable\npackages 1, errors 1\n", 1),
    (b"put a/a.go 94\npackage a\n\nconst (\n\tA, B = iota, -iota\n\t_, _\n\tC, D\n)\nconst S, T = \"a\" + \"b\", C < 3 && D == -2\n\ncheck\n", b"packages 1, errors 0\n", 0),
    (b"put a/a.go 28\n//go:build linux\n\npackage a\n\ncheck\n", b"a/a.go:1:1: outside profile: build constraint\npackages 1, errors 1\n", 1),
    (b"put a/a.go 27\npackage a\n\nimport \"unsafe\"\n\ncheck\n", b"a/a.go:3:8: outside profile: unsafe\npackages 1, errors 1\n", 1),
    (b"put a/a.go 26\npackage a\n\nimport . \"m/q\"\n\nput q/q.go 10\npackage q\n\ncheck\n", b"a/a.go:3:8: outside profile: dot import\npackages 2, errors 1\n", 1),
    (b"put a/a.go 26\npackage a\n\nimport _ \"m/q\"\n\nput q/q.go 10\npackage q\n\ncheck\n", b"packages 2, errors 0\n", 0),
    (b"put a/a.go 25\npackage a\n\nconst A = 1.5\n\ncheck\n", b"a/a.go:3:11: outside profile: float\npackages 1, errors 1\n", 1),
    (b"put q/q.go 31\npackage q\n\nconst N uint8 = 250\n\nput p/p.go 62\npackage p\n\nimport \"m/q\"\n\nconst M = q.N + 10\nconst L = q.N + 5\n\ncheck\n", b"p/p.go:5:11: E30 constant overflow\npackages 2, errors 1\n", 1),
    (b"put a/a.go 39\npackage a\n\nimport \"m/q\"\n\nconst A = q.N\n\nput a/b.go 23\npackage a\n\nconst q = 1\n\nput q/q.go 23\npackage q\n\nconst N = 2\n\ncheck\n", b"a/a.go:3:8: E1 redeclared\na/a.go:3:8: E7 unused import\na/a.go:5:11: E20 no such field or method\npackages 2, errors 3\n", 1),
];

/// Trees of packages that import each other, and the replies to checks and to `stats`.
#[rattlefmt::skip]
const PACKAGES: [Case; 10] = [
    (b"put q/q.go 23\npackage q\n\nconst N = 2\n\nput p/p.go 43\npackage p\n\nimport \"m/q\"\n\nconst M = q.N + 1\n\ncheck\nstats\ncheck\nstats\nput q/q.go 27\npackage q\n\nconst N = 1 + 1\n\ncheck\nstats\nput q/q.go 23\npackage q\n\nconst N = 3\n\ncheck\nstats\n", b"packages 2, errors 0\nnodes 2, missing 2, loads 2, runs 0\npackages 2, errors 0\nnodes 2, missing 0, loads 0, runs 0\npackages 2, errors 0\nnodes 2, missing 1, loads 1, runs 0\npackages 2, errors 0\nnodes 2, missing 2, loads 2, runs 0\n", 0),
    (b"put q/q.go 23\npackage q\n\nconst N = 2\n\nput p/p.go 39\npackage p\n\nimport \"m/q\"\n\nconst M = q.n\n\ncheck\n", b"p/p.go:5:11: E9 not exported by package\npackages 2, errors 1\n", 1),
    (b"put q/q.go 23\npackage q\n\nconst N = 2\n\nput p/p.go 37\npackage p\n\nimport \"m/q\"\n\nconst M = 1\n\ncheck\nstats\n", b"p/p.go:3:8: E7 unused import\npackages 2, errors 1\nnodes 2, missing 2, loads 2, runs 0\n", 1),
    (b"put a/a.go 39\npackage a\n\nimport \"m/b\"\n\nconst A = b.B\n\nput b/b.go 39\npackage b\n\nimport \"m/a\"\n\nconst B = a.A\n\ncheck\n", b"m/a: import cycle\nm/b: import cycle\npackages 2, errors 2\n", 1),
    (b"put q/q.go 23\npackage q\n\nconst N = N\n\nput p/p.go 39\npackage p\n\nimport \"m/q\"\n\nconst M = q.N\n\ncheck\n", b"m/p: blocked by m/q\nq/q.go:3:7: E4 declaration cycle\npackages 2, errors 2\n", 1),
    (b"put p/p.go 39\npackage p\n\nimport \"m/q\"\n\nconst M = q.N\n\ncheck\n", b"p/p.go:3:8: missing import \"m/q\"\npackages 1, errors 1\n", 1),
    (b"put a/a.go 102\npackage a\n\ntype T struct{ n int }\n\nfunc f(x T) bool {\n\tif x == T{} {\n\t\treturn true\n\t}\n\treturn false\n}\n\ncheck\n", b"a/a.go:5:1: syntax error\npackages 1, errors 1\n", 1),
    (b"put a/a.go 26\npackage a\n\nconst S = 'ab'\n\ncheck\n", b"a/a.go:3:11: lexical: bad lexeme\npackages 1, errors 1\n", 1),
    (b"put q/q.go 23\npackage q\n\nconst N = 2\n\ncheck\nput p/p.go 39\npackage p\n\nimport \"m/q\"\n\nconst M = q.N\n\ndel q/q.go\nstats\n", b"packages 1, errors 0\nnodes 1, missing 1, loads 1, runs 0\n", 0),
    // c imports b alone, and uses a field and a method of a type of a: what a declares is in what c's load reads
    (b"put a/a.go 69\npackage a\n\ntype T struct{ N int }\n\nfunc (t T) M() int { return t.N }\n\nput b/b.go 35\npackage b\n\nimport \"m/a\"\n\nvar V a.T\n\nput c/c.go 60\npackage c\n\nimport \"m/b\"\n\nvar W int = b.V.N\n\nvar X = b.V.M()\n\ncheck\nstats\nput a/a.go 82\npackage a\n\ntype T struct{ N int }\n\nfunc (t T) M() int { return t.N }\n\nfunc f() {}\n\ncheck\nstats\nput a/a.go 70\npackage a\n\ntype T struct{ N string }\n\nfunc (t T) M() int { return 1 }\n\ncheck\nstats\n", b"packages 3, errors 0\nnodes 3, missing 3, loads 3, runs 0\npackages 3, errors 0\nnodes 3, missing 1, loads 1, runs 0\nc/c.go:5:13: E32 not assignable\npackages 3, errors 1\nnodes 3, missing 3, loads 3, runs 0\n", 1),
];

/// Trees with a `go.mod` or with packages under `std`, and the replies to checks.
#[rattlefmt::skip]
const MODULES: [Case; 7] = [
    (b"put go.mod 21\nmodule example.com/x\n\nput q/q.go 23\npackage q\n\nconst N = 2\n\nput p/p.go 51\npackage p\n\nimport \"example.com/x/q\"\n\nconst M = q.N\n\ncheck\ndel go.mod\ncheck\n", b"packages 2, errors 0\np/p.go:3:8: missing import \"example.com/x/q\"\npackages 2, errors 1\n", 1),
    (b"put go.mod 29\n// m\nmodule \"x\" // y\nmodule z\nput a.go 22\npackage a\n\nimport \"x\"\n\ncheck\n", b"x: import cycle\npackages 1, errors 1\n", 1),
    (b"put go.mod 11\nmodule a b\n\nput a.go 34\npackage a\n\nconst A = 1\nconst A = B\nput b/b.go 22\npackage b\n\nimport \"a\"\n\ncheck\n", b"a.go:4:7: E1 redeclared\na.go:4:11: E3 undefined\na/b: blocked by a\npackages 2, errors 3\n", 1),
    (b"put std/os/os.go 24\npackage os\n\nconst O = 1\n\nput p/p.go 39\npackage p\n\nimport \"os\"\n\nconst M = os.O\n\ncheck\nstats\n", b"packages 2, errors 0\nnodes 2, missing 2, loads 2, runs 0\n", 0),
    (b"put std/os/os.go 24\npackage os\n\nconst O = Z\n\nput std/a.go 10\npackage a\n\nput p/p.go 39\npackage p\n\nimport \"os\"\n\nconst M = os.O\n\ncheck\n", b"m/p: blocked by os\nstd/os/os.go:3:11: E3 undefined\npackages 3, errors 2\n", 1),
    (b"put std/m/q/q.go 7\npackage\nput q/q.go 23\npackage q\n\nconst N = 2\n\nput p/p.go 39\npackage p\n\nimport \"m/q\"\n\nconst M = q.N\n\ncheck\ndel q/q.go\ncheck\n", b"packages 2, errors 0\nm/p: blocked by m/q\nstd/m/q/q.go:1:1: syntax error\npackages 2, errors 2\n", 1),
    (b"put std/os/os.go 28\npackage os\n\nfunc Exit(int)\n\n\ncheck\n", b"packages 1, errors 0\n", 0),
];

fn answer<R: Threads + Sync + RandomSource>(
    rt: &R,
    alloc: Global,
    script: &[u8],
    failing_reads: &[u64],
    failing_writes: &[u64],
    stalling: &[u64],
) -> Result<(u8, Vec<u8>), Fail> {
    let mut keeper = SureKeeper::new(alloc, None);
    let mut input = MemSource::new(script.to_vec(alloc)?, failing_reads.to_vec(alloc)?);
    let mut output = MemSink::new(
        Vec::new(alloc),
        failing_writes.to_vec(alloc)?,
        stalling.to_vec(alloc)?,
    );
    let options = ToolOptions::PLAIN;
    let status = session(
        rt,
        alloc,
        key_of(rt),
        &options,
        &mut keeper,
        &mut input,
        &mut output,
        &mut [GoKit::new(alloc)],
    );
    Ok((status, output.bytes().to_vec(alloc)?))
}

fn answers<R: Threads + Sync + RandomSource + Abort>(
    rt: &R,
    alloc: Global,
    case: Case,
) -> Result<(), Fail> {
    let (status, out) = answer(rt, alloc, case.0, &[], &[], &[])?;
    assert_eq!(rt; out.as_slice(), case.1);
    assert_eq!(rt; status, case.2);
    several_answer(rt, alloc, case)
}

#[test]
fn answers_scripts(rt: HostRuntime) -> Result<(), Fail> {
    for case in SCRIPTS {
        answers(&rt, rt.alloc(), case)?;
    }
    Ok(())
}

#[test]
fn answers_trees(rt: HostRuntime) -> Result<(), Fail> {
    for case in TREES {
        answers(&rt, rt.alloc(), case)?;
    }
    Ok(())
}

#[test]
fn answers_trees_of_constants(rt: HostRuntime) -> Result<(), Fail> {
    for case in CONSTANTS {
        answers(&rt, rt.alloc(), case)?;
    }
    Ok(())
}

#[test]
fn answers_trees_of_packages(rt: HostRuntime) -> Result<(), Fail> {
    for case in PACKAGES {
        answers(&rt, rt.alloc(), case)?;
    }
    Ok(())
}

#[test]
fn answers_trees_of_modules(rt: HostRuntime) -> Result<(), Fail> {
    for case in MODULES {
        answers(&rt, rt.alloc(), case)?;
    }
    Ok(())
}

/// What is due for the first `cut` bytes of the commands: the replies of those that are whole, and
/// the line for the one that isn't.
fn due_at(alloc: Global, cut: usize) -> Result<(u8, Vec<u8>), Fail> {
    let mut due = Vec::new(alloc);
    let mut at = 0usize;
    let mut found = 0;
    for (command, reply) in COMMANDS {
        let end = at.saturating_add(command.len());
        if cut < end {
            if at < cut {
                let line = format!(in alloc; "script refused at {at}\n")?;
                due.extend_from_slice(line.as_bytes())?;
                found = 8;
            }
            return Ok((found, due));
        }
        due.extend_from_slice(reply)?;
        if !reply.is_empty() && !reply.starts_with(b"nodes") {
            found = if reply.starts_with(b"packages") { 0 } else { 1 };
        }
        at = end;
    }
    Ok((found, due))
}

fn whole_script(alloc: Global) -> Result<Vec<u8>, Fail> {
    let mut script = Vec::new(alloc);
    for (command, _reply) in COMMANDS {
        script.extend_from_slice(command)?;
    }
    Ok(script)
}

#[test]
fn refuses_what_is_cut_short(rt: HostRuntime) -> Result<(), Fail> {
    let script = whole_script(rt.alloc())?;
    for cut in 0..=script.len() {
        let (number, due) = due_at(rt.alloc(), cut)?;
        let (status, out) = answer(&rt, rt.alloc(), &script[..cut], &[], &[], &[])?;
        assert_eq!(rt; out.as_slice(), due.as_slice());
        assert_eq!(rt; status, number);
    }
    Ok(())
}

const THREE_CHECKS: &[u8] = b"check\nput a.go 10\npackage a\n\ncheck\ndel a.go\ncheck\n";

const ALL_REPLIES: &[u8] = b"packages 0, errors 0\npackages 1, errors 0\npackages 0, errors 0\n";

#[test]
fn ends_where_a_device_fails(rt: HostRuntime) -> Result<(), Fail> {
    let dues = [
        (0, b"".as_slice()),
        (1, b"packages 0, errors 0\n".as_slice()),
        (
            2,
            b"packages 0, errors 0\npackages 1, errors 0\n".as_slice(),
        ),
    ];
    for (call, due) in dues {
        let (status, out) = answer(&rt, rt.alloc(), THREE_CHECKS, &[], &[call], &[])?;
        assert_eq!(rt; out.as_slice(), due);
        assert_eq!(rt; status, 6);
        let (status, out) = answer(&rt, rt.alloc(), THREE_CHECKS, &[], &[], &[call])?;
        assert_eq!(rt; out.as_slice(), due);
        assert_eq!(rt; status, 10);
    }
    Ok(())
}

#[test]
fn ends_where_reading_fails(rt: HostRuntime) -> Result<(), Fail> {
    // the calls of reading, of writing and of writing without progress that fail
    let rows: [(&[u64], &[u64], &[u64], &[u8], u8); 3] = [
        (&[2], &[3], &[3], ALL_REPLIES, 0),
        (&[0], &[], &[], b"", 3),
        (&[1], &[], &[], ALL_REPLIES, 3),
    ];
    for (reads, writes, stalls, due, number) in rows {
        let (status, out) = answer(&rt, rt.alloc(), THREE_CHECKS, reads, writes, stalls)?;
        assert_eq!(rt; out.as_slice(), due);
        assert_eq!(rt; status, number);
    }
    Ok(())
}
