//! Packages that import packages with types.
use super::{Case, answers};
use std::test::Fail;

/// Trees of packages with types across them, and the replies: what runs again is what reads of the change.
#[rattlefmt::skip]
const TYPES: [Case; 4] = [
    (b"put r/r.go 58\npackage r\n\ntype U struct{}\n\nfunc (U) N() int { return 1 }\n\nput q/q.go 35\npackage q\n\nimport \"m/r\"\n\nvar V r.U\n\nput p/p.go 45\npackage p\n\nimport \"m/q\"\n\nvar X int = q.V.N()\n\ncheck\nstats\nput r/r.go 62\npackage r\n\ntype U struct{}\n\nfunc (U) N() string { return \"\" }\n\ncheck\nstats\n", b"packages 3, errors 0\nnodes 3, missing 3, loads 3, runs 0\np/p.go:5:13: E32 not assignable\npackages 3, errors 1\nnodes 3, missing 3, loads 3, runs 0\n", 1),
    (b"put r/r.go 58\npackage r\n\ntype U struct{}\n\nfunc (U) N() int { return 1 }\n\nput q/q.go 35\npackage q\n\nimport \"m/r\"\n\nvar V r.U\n\nput p/p.go 45\npackage p\n\nimport \"m/q\"\n\nvar X int = q.V.N()\n\ncheck\nput r/r.go 58\npackage r\n\ntype U struct{}\n\nfunc (U) N() int { return 2 }\n\ncheck\nstats\nput r/r.go 75\npackage r\n\ntype U struct{}\n\nfunc (U) N() int { return 1 }\n\ntype unseen int\n\ncheck\nstats\n", b"packages 3, errors 0\npackages 3, errors 0\nnodes 3, missing 1, loads 1, runs 0\npackages 3, errors 0\nnodes 3, missing 1, loads 1, runs 0\n", 0),
    (b"put r/r.go 58\npackage r\n\ntype U struct{}\n\nfunc (U) N() int { return 1 }\n\nput q/q.go 50\npackage q\n\nimport \"m/r\"\n\nvar v r.U\n\nvar V = v.N()\n\nput p/p.go 41\npackage p\n\nimport \"m/q\"\n\nvar X int = q.V\n\ncheck\nput r/r.go 65\npackage r\n\ntype U struct{ x int }\n\nfunc (U) N() int { return 1 }\n\ncheck\nstats\n", b"packages 3, errors 0\npackages 3, errors 0\nnodes 3, missing 2, loads 2, runs 0\n", 0),
    (b"put go.mod 21\nmodule example.com/x\n\nput q/q.go 46\npackage q\n\nconst N = -int8(5)\nvar V int = \"x\"\n\nput p/p.go 74\npackage p\n\nimport \"example.com/x/q\"\n\nvar W = q.V\n\nfunc f(x int) { x = x }\n\ncheck\n", b"example.com/x/p: blocked by example.com/x/q\nq/q.go:4:13: E32 not assignable\npackages 2, errors 2\n", 1),
];

#[test]
fn answers_trees_of_types(rt: HostRuntime) -> Result<(), Fail> {
    for case in TYPES {
        answers(&rt, rt.alloc(), case)?;
    }
    Ok(())
}
