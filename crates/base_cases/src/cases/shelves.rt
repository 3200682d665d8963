//! Shelves of texts and sinks of bytes, in memory and real ones.

use super::telling::expect;
use shelf_io::{
    Shelf, ShelfFailed, ShelfMemory, ShelfReal, SinkFailed, SinkMemory, SinkReal, TakeFault,
    put_all, take_text,
};
use std::alloc::Global;
use std::fs;
use std::test::Fail;

/// A shelf that holds `abc` and, behind it, `later` under the name `c`, and no bytes under `empty`.
fn shelf(alloc: Global, fails: &[u64]) -> Option<ShelfMemory> {
    let mut texts = Vec::new(alloc);
    for (name, text) in [("c", "abc"), ("empty", ""), ("c", "later")] {
        let name = String::from_str(alloc, name).ok()?;
        let text = Vec::from_slice(alloc, text.as_bytes()).ok()?;
        texts.push((name, text)).ok()?;
    }
    Some(ShelfMemory::new(texts, 1, Vec::from_slice(alloc, fails).ok()?))
}

/// Whether the text of a name is this one, or why it isn't given.
fn is_text<H: Shelf>(
    alloc: Global,
    shelf: &mut H,
    name: &str,
    most: u8,
    wanted: &str,
) -> Result<bool, TakeFault> {
    let text = take_text(alloc, shelf, name, usize::from(most))?;
    Ok(text.as_slice() == wanted.as_bytes())
}

#[test]
fn takes_texts(rt: HostRuntime) -> Result<(), Fail> {
    let alloc = rt.alloc();
    let mut texts = shelf(alloc, &[]).ok_or("no memory")?;
    for (name, most, text, wanted) in [
        ("c", 3, "abc", Ok(true)),
        ("empty", 0, "", Ok(true)),
        ("c", 2, "", Err(TakeFault::TooLong)),
        ("d", 3, "", Err(TakeFault::ReadFault)),
    ] {
        let taken = is_text(alloc, &mut texts, name, most, text);
        expect(&rt, name, taken, wanted);
    }
    Ok(())
}

/// Whether the first and the second taking of a text give it, where the shelf fails at a call.
fn taken_twice(alloc: Global, call: u64) -> Option<[Result<bool, TakeFault>; 2]> {
    let mut texts = shelf(alloc, &[call])?;
    let first = is_text(alloc, &mut texts, "c", 3, "abc");
    Some([first, is_text(alloc, &mut texts, "c", 3, "abc")])
}

#[test]
fn fails_at_listed_calls(rt: HostRuntime) {
    let fault = Err(TakeFault::ReadFault);
    // The first call opens, the fifth finds the end, and the sixth opens again.
    for (call, wanted) in [
        (1, [fault, Ok(true)]),
        (5, [fault, Ok(true)]),
        (6, [Ok(true), fault]),
        (7, [Ok(true), fault]),
        (11, [Ok(true), Ok(true)]),
    ] {
        expect(&rt, call, taken_twice(rt.alloc(), call), Some(wanted));
    }
}

#[test]
fn puts_all(rt: HostRuntime) -> Result<(), Fail> {
    let alloc = rt.alloc();
    let fails = Vec::from_slice(alloc, &[5u64])?;
    let mut sink = SinkMemory::new(alloc, 5, 1, fails)?;
    for (bytes, answer, written) in [
        ("ab", Ok(()), "ab"),
        ("", Ok(()), "ab"),
        ("cde", Err(SinkFailed), "abcd"),
        ("ef", Err(SinkFailed), "abcde"),
    ] {
        let put = put_all(&mut sink, bytes.as_bytes());
        let wanted = (answer, written.as_bytes());
        expect(&rt, bytes, (put, sink.bytes()), wanted);
    }
    Ok(())
}

#[test]
fn reads_files(rt: HostRuntime) -> Result<(), Fail> {
    let alloc = rt.alloc();
    let name = "shelf_io_text";
    fs::write(&rt, name, b"abc".as_slice())?;
    let mut files = ShelfReal::new(&rt);
    for (most, wanted) in [(3, Ok(true)), (2, Err(TakeFault::TooLong))] {
        let taken = is_text(alloc, &mut files, name, most, "abc");
        expect(&rt, most, taken, wanted);
    }
    fs::remove_file(&rt, name)?;
    let gone = is_text(alloc, &mut files, name, 3, "abc");
    expect(&rt, "a file that is gone", gone, Err(TakeFault::ReadFault));
    expect(&rt, "standard input", files.open("-"), Ok(()));
    expect(&rt, "the same again", files.open("-"), Err(ShelfFailed));
    Ok(())
}

#[test]
fn prints(rt: HostRuntime) {
    let mut sink = SinkReal::new(&rt);
    let put = put_all(&mut sink, b"written by the real sink\n");
    expect(&rt, "standard output", put, Ok(()));
}
