//! Files and sinks, in memory and of the system. That the file opened is the one named is tested here, since no
//! contract can say it.

use crate::in_memory::held;
use bb_outside::{
    Failed, FileFault, Files, KeptFiles, KeptRead, MemFiles, MemSink, QuietFiles, QuietSink, Sink,
    StdFiles, StdOut, Take, put_all,
};
use std::alloc::Global;
use std::fs;
use std::process::Abort;
use std::rc::Rc;
use std::test::Fail;

// Two of the three files have one name.
const THREE: [(&str, &[u8]); 3] = [("a", b"first"), ("b", b"other"), ("a", b"twice")];

fn expect_read<R: Abort>(
    rt: &R,
    read: Result<Rc<Vec<u8>>, FileFault>,
    want: Option<&str>,
    name: &str,
) {
    match (read, want) {
        (Ok(bytes), Some(text)) => assert!(rt; bytes.as_slice() == text.as_bytes(), "{name}"),
        (Err(FileFault::Failed), None) => {}
        _ => assert!(rt; false, "{name}"),
    }
}

#[test]
fn files_in_memory_fail_by_the_number_of_the_call(rt: HostRuntime) -> Result<(), Fail> {
    let alloc = rt.alloc();
    let mut files = MemFiles::new(held(alloc, &THREE)?, [1].to_vec(alloc)?);
    for (name, limit, want) in [
        ("a", 9, Some("first")),
        ("a", 9, None),
        ("a", 9, Some("first")),
        ("b", 2, Some("ot")),
        ("b", 0, Some("")),
        ("none", 9, Some("")),
    ] {
        expect_read(&rt, files.read(alloc, name, limit), want, name);
    }
    Ok(())
}

#[test]
fn quiet_files_give_what_they_hold(rt: HostRuntime) -> Result<(), Fail> {
    let alloc = rt.alloc();
    let mut files = QuietFiles::new(held(alloc, &THREE)?);
    for (name, limit, want) in [
        ("a", 9, "first"),
        ("b", 2, "ot"),
        ("b", 0, ""),
        ("none", 9, ""),
    ] {
        expect_read(&rt, files.read(alloc, name, limit), Some(want), name);
    }
    Ok(())
}

#[test]
fn a_sink_in_memory_follows_its_plan(rt: HostRuntime) -> Result<(), Fail> {
    let alloc = rt.alloc();
    let plan = [Take::Some(5), Take::Some(0), Take::Fail].to_vec(alloc)?;
    let mut sink = MemSink::new(alloc, plan);
    sink.reserve(12)?;
    assert_eq!(rt; put_all(&mut sink, b"rung ternary"), Err(Failed));
    assert_eq!(rt; sink.bytes(), b"rung t".as_slice());
    assert_eq!(rt; sink.put(b"ernary"), Ok(6));
    assert_eq!(rt; sink.put(b"\n"), Err(Failed));
    sink.reserve(1)?;
    assert_eq!(rt; put_all(&mut sink, b"\n"), Ok(()));
    assert_eq!(rt; sink.bytes(), b"rung ternary\n".as_slice());
    Ok(())
}

#[test]
fn a_quiet_sink_counts_what_it_takes(rt: HostRuntime) {
    let mut sink = QuietSink::new();
    assert_eq!(rt; sink.put(b"rung "), Ok(5));
    assert_eq!(rt; sink.put(b""), Ok(0));
    assert_eq!(rt; put_all(&mut sink, b"ternary"), Ok(()));
    assert_eq!(rt; sink.taken(), 12);
}

/// Names, limits and results, in the order of the reads.
pub fn expect_reads<R: Abort>(rt: &R, reads: &[KeptRead], want: &[(&str, u64, Option<&[u8]>)]) {
    assert_eq!(rt; reads.len(), want.len());
    for (found, (name, limit, gave)) in reads.iter().zip(want) {
        assert!(rt; found.name.as_str() == *name, "{name}");
        assert_eq!(rt; found.limit, *limit);
        match (&found.gave, gave) {
            (Some(bytes), Some(text)) => assert!(rt; bytes.as_slice() == *text, "{name}"),
            (None, None) => {}
            _ => assert!(rt; false, "{name}"),
        }
    }
}

const PATH: &str = "bb_outside_read_test.txt";

fn are_read<F: Files>(files: &mut F, alloc: Global, limits: [u64; 2]) -> bool {
    let [first, second] = limits;
    files.read(alloc, PATH, first).is_ok() & files.read(alloc, PATH, second).is_ok()
}

#[test]
fn a_real_file_is_read_up_to_the_limit_and_kept(rt: HostRuntime) -> Result<(), Fail> {
    fs::write(&rt, PATH, "module top;")?;
    let mut files = KeptFiles::new(rt.alloc(), StdFiles::new(rt));
    let whole = are_read(&mut files, rt.alloc(), [100, 6]);
    fs::remove_file(&rt, PATH)?;
    assert!(rt; whole);
    expect_read(&rt, files.read(rt.alloc(), PATH, 100), None, "missing");
    expect_read(&rt, files.read(rt.alloc(), ".", 100), None, "folder");
    let (all, six) = (b"module top;".as_slice(), b"module".as_slice());
    let want = [
        (PATH, 100, Some(all)),
        (PATH, 6, Some(six)),
        (PATH, 100, None),
        (".", 100, None),
    ];
    expect_reads(&rt, files.reads(), &want);
    Ok(())
}

#[test]
fn standard_output_takes_a_piece(rt: HostRuntime) {
    let mut out = StdOut::new(rt.stdout());
    assert_eq!(rt; put_all(&mut out, b"verdict equal\n"), Ok(()));
    assert_eq!(rt; out.put(b""), Ok(0));
}
