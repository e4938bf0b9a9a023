//! Trees in which analyzers find something.
use super::{Case, answers};
use std::test::Fail;

/// The replies to reports and fixes, and the files after these.
#[rattlefmt::skip]
const ANALYSES: [Case; 8] = [
    (b"report\n", b"packages 0, errors 0, diagnostics 0\n", 0),
    (b"fix\n", b"packages 0, errors 0, fixes 0, skipped 0\n", 0),
    (b"facts\n", b"packages 0, errors 0, facts 0\n", 0),
    // facts alone, and no diagnostic, though there is one
    (b"put a/a.go 36\npackage a\n\nfunc g(x int) {\n\tx = x\n}\n\nfacts\nreport\n", b"packages 1, errors 0, facts 0\na/a.go:4:2: assign: self-assignment of x\npackages 1, errors 0, diagnostics 1\n", 1),
    (b"put a/a.go 99\npackage a\n\nfunc f() int\n\nfunc g(x, y int, a []int) {\n\tx = x\n\tx, y = x, 1\n\ta[f()] = a[f()]\n\t_ = y\n}\n\nreport\nreport\nfix\nshow a/a.go\nshow b.go\nfix\ncheck\n", b"a/a.go:6:2: assign: self-assignment of x\na/a.go:7:2: assign: self-assignment of x\npackages 1, errors 0, diagnostics 2\na/a.go:6:2: assign: self-assignment of x\na/a.go:7:2: assign: self-assignment of x\npackages 1, errors 0, diagnostics 2\na/a.go:6:2: assign: applied\nchanged a/a.go\npackages 1, errors 0, fixes 1, skipped 0\nfile a/a.go 94\npackage a\n\nfunc f() int\n\nfunc g(x, y int, a []int) {\n\t\n\tx, y = x, 1\n\ta[f()] = a[f()]\n\t_ = y\n}\n\nno file b.go\npackages 1, errors 0, fixes 0, skipped 0\npackages 1, errors 0\n", 0),
    (b"put a/a.go 73\npackage a\n\nfunc f(a []int, n int) {\n\ta[string(n)[0]] = a[string(n)[0]]\n}\n\nfix\nshow a/a.go\n", b"a/a.go:4:2: assign: applied\na/a.go:4:4: stringintconv: skipped, overlaps a/a.go:4:2\na/a.go:4:22: stringintconv: skipped, overlaps a/a.go:4:2\nchanged a/a.go\npackages 1, errors 0, fixes 1, skipped 2\nfile a/a.go 40\npackage a\n\nfunc f(a []int, n int) {\n\t\n}\n\n", 1),
    (b"put q/q.go 46\npackage q\n\nconst N = -int8(5)\nvar V int = \"x\"\n\nput p/p.go 62\npackage p\n\nimport \"m/q\"\n\nvar W = q.V\n\nfunc f(x int) { x = x }\n\nreport\n", b"m/p: blocked by m/q\nq/q.go:4:13: E32 not assignable\npackages 2, errors 2, diagnostics 0\n", 1),
    (b"put b/b.go 36\npackage b\n\nfunc g(x int) {\n\tx = x\n}\n\nput a/a.go 36\npackage a\n\nfunc g(x int) {\n\tx = x\n}\n\nput a/z.go 10\npackage a\n\nfix\nshow a/z.go\nreport\n", b"a/a.go:4:2: assign: applied\nb/b.go:4:2: assign: applied\nchanged a/a.go\nchanged b/b.go\npackages 2, errors 0, fixes 2, skipped 0\nfile a/z.go 10\npackage a\n\npackages 2, errors 0, diagnostics 0\n", 0),
];

#[test]
fn answers_trees_of_analyzers(rt: HostRuntime) -> Result<(), Fail> {
    for case in ANALYSES {
        answers(&rt, rt.alloc(), case)?;
    }
    Ok(())
}
