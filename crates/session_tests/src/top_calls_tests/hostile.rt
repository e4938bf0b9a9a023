//! Devices that fail at each of their calls, and kept bytes that are cut short or changed.
use super::folders::words_of;
use fact_cache::Cache;
use go_kit::new_kits;
use gv_base::{Fault, MemKeeper, MemSink, MemTree, SureSource};
use std::alloc::Global;
use std::process::Abort;
use std::random::RandomSource;
use std::test::Fail;
use std::thread::Threads;
use top_calls::gvet::gvet;
use top_calls::key::key_of;

/// What fails or takes nothing in a call, each at the number of a call of that device.
#[derive(Drop)]
struct Hostile {
    tree: Vec<Fault>,
    keeper: Vec<Fault>,
    sink: Vec<u64>,
    stalls: Vec<u64>,
}

fn nothing(alloc: Global) -> Hostile {
    Hostile {
        tree: Vec::new(alloc),
        keeper: Vec::new(alloc),
        sink: Vec::new(alloc),
        stalls: Vec::new(alloc),
    }
}

/// The status of a call, what went out, and what is kept.
#[derive(Drop)]
struct Ended {
    status: u8,
    out: Vec<u8>,
    kept: Option<Vec<u8>>,
}

/// A call over a tree of one file, of which a fix changes one line.
fn ends<R: Threads + Sync + RandomSource>(
    rt: &R,
    alloc: Global,
    words: &[&str],
    script: &[u8],
    kept: Option<Vec<u8>>,
    hostile: Hostile,
) -> Result<Ended, Fail> {
    let words = words_of(alloc, words)?;
    let Hostile {
        tree,
        keeper,
        sink,
        stalls,
    } = hostile;
    let mut tree = MemTree::new(alloc, tree);
    tree.put("a.go", b"package a\n\nfunc F(x int) {\n\tx = x\n}\n")?;
    let mut keeper = MemKeeper::new(alloc, kept, keeper);
    let mut input = SureSource::new(script.to_vec(alloc)?);
    let mut output = MemSink::new(Vec::new(alloc), sink, stalls);
    let mut kits = new_kits(alloc, 64)?;
    let status = gvet(
        rt,
        alloc,
        &words,
        &mut tree,
        &mut keeper,
        &mut input,
        &mut output,
        kits.as_mut_slice(),
    );
    let kept = match keeper.bytes() {
        Some(bytes) => Some(bytes.to_vec(alloc)?),
        None => None,
    };
    Ok(Ended {
        status,
        out: output.bytes().to_vec(alloc)?,
        kept,
    })
}

fn fault(alloc: Global, call: u64, new_stay: bool) -> Result<Vec<Fault>, Fail> {
    let mut list = Vec::new(alloc);
    list.push(Fault { call, new_stay })?;
    Ok(list)
}

fn number(alloc: Global, call: u64) -> Result<Vec<u64>, Fail> {
    let mut list = Vec::new(alloc);
    list.push(call)?;
    Ok(list)
}

/// A fix lists, reads and writes in the tree, fetches and stores, and writes one reply; behind these nothing fails.
#[test]
fn each_fault_of_a_fix_has_its_status(rt: HostRuntime) -> Result<(), Fail> {
    let alloc = rt.alloc();
    for call in 0..4u64 {
        let mut hostile = nothing(alloc);
        hostile.tree = fault(alloc, call, false)?;
        let ended = ends(&rt, alloc, &["fix"], b"", None, hostile)?;
        assert_eq!(rt; ended.status, if call < 3 { 4 } else { 1 });
        let mut hostile = nothing(alloc);
        hostile.keeper = fault(alloc, call, false)?;
        let ended = ends(&rt, alloc, &["fix"], b"", None, hostile)?;
        assert_eq!(rt; ended.status, if call < 2 { 5 } else { 1 });
        let mut hostile = nothing(alloc);
        hostile.sink = number(alloc, call)?;
        let ended = ends(&rt, alloc, &["fix"], b"", None, hostile)?;
        assert_eq!(rt; ended.status, if call < 1 { 6 } else { 1 });
        let mut hostile = nothing(alloc);
        hostile.stalls = number(alloc, call)?;
        let ended = ends(&rt, alloc, &["fix"], b"", None, hostile)?;
        assert_eq!(rt; ended.status, if call < 1 { 10 } else { 1 });
    }
    Ok(())
}

/// What a check over these kept bytes says: whether they are a cache goes out first.
fn checks_over<R: Threads + Sync + RandomSource + Abort>(
    rt: &R,
    alloc: Global,
    kept: Vec<u8>,
) -> Result<(), Fail> {
    let spelled = Cache::decode(alloc, key_of(rt), &kept)?.is_some();
    let ended = ends(rt, alloc, &["check"], b"", Some(kept), nothing(alloc))?;
    assert_eq!(rt; ended.status, 0);
    assert!(rt; ended.out.starts_with(b"cache ignored\n") == !spelled);
    assert!(rt; ended.out.ends_with(b"packages 1, errors 0\n") || spelled);
    Ok(())
}

#[test]
fn kept_bytes_that_are_cut_short_or_changed(rt: HostRuntime) -> Result<(), Fail> {
    let alloc = rt.alloc();
    let ended = ends(
        &rt,
        alloc,
        &["report", "--only=assign"],
        b"",
        None,
        nothing(alloc),
    )?;
    let kept = ended.kept.expect(&rt, "kept");
    for cut in 0..kept.len() {
        checks_over(&rt, alloc, kept.as_slice()[..cut].to_vec(alloc)?)?;
        let mut changed = kept.as_slice()[..cut].to_vec(alloc)?;
        changed.push(b'9')?;
        changed.extend_from_slice(&kept.as_slice()[cut + 1..])?;
        checks_over(&rt, alloc, changed)?;
    }
    Ok(())
}

/// Three packages, of which two see the first, and an edit of it.
const EDIT: &[u8] =
    b"put r/r.go 58\npackage r\n\ntype U struct{}\n\nfunc (U) N() int { return 1 }\n\nput q/q.go 35\npackage q\n\nimport \"m/r\"\n\nvar V r.U\n\nput p/p.go 45\npackage p\n\nimport \"m/q\"\n\nvar X int = q.V.N()\n\nreport\nstats\nput r/r.go 62\npackage r\n\ntype U struct{}\n\nfunc (U) N() string { return \"\" }\n\nreport\nstats\n";

/// Which store of a session fails, whether the new bytes stay, and what the next session over that keeper does anew.
const STORES: [(u64, bool, &[u8], &[u8]); 4] = [
    (
        1,
        false,
        b"nodes 33, missing 33, loads 3, runs 30\n",
        b"nodes 23, missing 23, loads 3, runs 20\n",
    ),
    (
        1,
        true,
        b"nodes 33, missing 0, loads 0, runs 0\n",
        b"nodes 23, missing 23, loads 3, runs 20\n",
    ),
    (
        2,
        false,
        b"nodes 33, missing 0, loads 0, runs 0\n",
        b"nodes 23, missing 23, loads 3, runs 20\n",
    ),
    (
        2,
        true,
        b"nodes 33, missing 0, loads 0, runs 0\n",
        b"nodes 23, missing 0, loads 0, runs 0\n",
    ),
];

#[test]
fn the_next_session_after_a_store_that_failed(rt: HostRuntime) -> Result<(), Fail> {
    let alloc = rt.alloc();
    for (store, new_stay, first, second) in STORES {
        let mut hostile = nothing(alloc);
        hostile.keeper = fault(alloc, store, new_stay)?;
        let cut = ends(&rt, alloc, &["session"], EDIT, None, hostile)?;
        assert_eq!(rt; cut.status, 5);
        let next = ends(&rt, alloc, &["session"], EDIT, cut.kept, nothing(alloc))?;
        assert_eq!(rt; next.status, 1);
        let mut due = b"packages 3, errors 0, diagnostics 0\n".to_vec(alloc)?;
        due.extend_from_slice(first)?;
        due.extend_from_slice(
            b"p/p.go:5:13: E32 not assignable\npackages 3, errors 1, diagnostics 0\n",
        )?;
        due.extend_from_slice(second)?;
        assert_eq!(rt; next.out.as_slice(), due.as_slice());
    }
    Ok(())
}
