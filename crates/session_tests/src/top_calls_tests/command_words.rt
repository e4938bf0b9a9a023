//! Words, standard input and output, and the names of statuses.
use go_kit::{GoKit, new_kits};
use gv_base::{MemSink, MemSource, SureKeeper, SureTree};
use scripts::Halt;
use std::alloc::Global;
use std::random::RandomSource;
use std::test::Fail;
use std::thread::Threads;
use top_calls::adapters::{StdSink, StdSource};
use top_calls::call::session;
use top_calls::gvet::gvet;
use top_calls::key::key_of;
use top_calls::options::ToolOptions;
use top_calls::stop::{Cut, NO_MEMORY, Stop, USAGE, status_name};

fn status_of<R: Threads + Sync + RandomSource>(
    rt: &R,
    alloc: Global,
    words: &[&str],
) -> Result<(u8, usize), Fail> {
    let mut list = Vec::new(alloc);
    for word in words {
        list.push(String::from_str(alloc, *word)?)?;
    }
    let mut tree = SureTree::new(alloc);
    let mut keeper = SureKeeper::new(alloc, None);
    let mut input = MemSource::new(b"check\n".to_vec(alloc)?, Vec::new(alloc));
    let mut output = MemSink::new(Vec::new(alloc), Vec::new(alloc), Vec::new(alloc));
    let mut kits = new_kits(alloc, 64)?;
    let status = gvet(
        rt,
        alloc,
        &list,
        &mut tree,
        &mut keeper,
        &mut input,
        &mut output,
        kits.as_mut_slice(),
    );
    Ok((status, output.bytes().len()))
}

#[test]
fn reads_its_words(rt: HostRuntime) -> Result<(), Fail> {
    let rows: [(&[&str], u8, usize); 7] = [
        (&["session"], 0, 21),
        (&[], 2, 0),
        (&["check"], 0, 21),
        (&["report", "fix"], 2, 0),
        (&["gen", "0"], 2, 0),
        (&["session", "session"], 2, 0),
        (&["session "], 2, 0),
    ];
    for (words, number, written) in rows {
        assert_eq!(rt; status_of(&rt, rt.alloc(), words)?, (number, written));
    }
    Ok(())
}

#[test]
fn reads_and_writes_by_std(rt: HostRuntime) -> Result<(), Fail> {
    let mut written = Vec::new(rt.alloc());
    let mut keeper = SureKeeper::new(rt.alloc(), None);
    let mut input = StdSource::new(b"check\ncheck\n".as_slice());
    let mut output = StdSink::new(&mut written);
    let options = ToolOptions::PLAIN;
    let status = session(
        &rt,
        rt.alloc(),
        key_of(&rt),
        &options,
        &mut keeper,
        &mut input,
        &mut output,
        &mut [GoKit::new(rt.alloc())],
    );
    assert_eq!(rt; status, 0);
    assert_eq!(rt;
        written.as_slice(),
        b"packages 0, errors 0\npackages 0, errors 0\n".as_slice()
    );
    Ok(())
}

/// Each way a call ends, its number and its name.
const ENDS: [(Stop, u8, &str); 11] = [
    (Stop::Halted(Halt::Ended, false), 0, ""),
    (Stop::Halted(Halt::Ended, true), 1, ""),
    (Stop::Broken(Cut::Source), 3, "source fault"),
    (Stop::Broken(Cut::Tree), 4, "tree fault"),
    (Stop::Broken(Cut::Keeper), 5, "keeper fault"),
    (Stop::Broken(Cut::Sink), 6, "sink fault"),
    (Stop::Broken(Cut::Memory), 7, "no memory"),
    (Stop::Halted(Halt::Refused, false), 8, "script refused"),
    (Stop::Halted(Halt::TooLong, false), 9, "input too long"),
    (Stop::Broken(Cut::Stalled), 10, "sink stuck"),
    (Stop::Broken(Cut::Circle), 12, "rules in a circle"),
];

#[test]
fn names_each_status(rt: HostRuntime) -> Result<(), Fail> {
    for (stop, number, name) in ENDS {
        assert_eq!(rt; stop.number(), number);
        assert_eq!(rt; status_name(number), name);
    }
    assert_eq!(rt; status_name(USAGE), "usage");
    assert_eq!(rt; status_name(NO_MEMORY), "no memory");
    for number in [0, 1, 11, 13, 255] {
        assert_eq!(rt; status_name(number), "");
    }
    Ok(())
}

#[test]
fn plain_options_choose_each_analyzer(rt: HostRuntime) -> Result<(), Fail> {
    let plain = ToolOptions::PLAIN;
    assert_eq!(rt; plain.workers, 1);
    assert!(rt; !plain.json);
    assert!(rt; !plain.brief);
    // 2 + 4 + 8 + .. + 1024: a bit for each of the numbers from 1 to 10
    assert_eq!(rt; plain.only, 2046);
    Ok(())
}
