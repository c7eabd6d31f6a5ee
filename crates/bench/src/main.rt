// Runs the library on its largest inputs, as often as its first argument says, and prints what it found.
#![tactic(auto)]

use records::Head;
use std::alloc::{AllocError, Global};
use std::env;
use std::time::Instant;

// A book of 4096 names that differ only in their last four bytes.
fn large_book(heap: Global) -> Result<Vec<u8>, AllocError> {
    let mut book = Vec::new(heap);
    for number in 0..4096u16 {
        let head = Head {
            length: 70,
            kind: number,
        };
        book.extend_from_slice(&head.bytes())?;
        book.extend_from_slice(&[b'n'; 60])?;
        book.extend_from_slice(format!(in heap; "{number:04o}")?.as_bytes())?;
    }
    Ok(book)
}

// Prints how long one check of a book takes, by so many of them.
fn time_check(rt: &HostRuntime, book: &[u8], repeats: u32) -> anyhow::Result<()> {
    let start = Instant::now(rt)?;
    for _ in 0..repeats {
        let _ = labels::check(book);
    }
    let time = start.elapsed(rt)?.as_nanos();
    if let Some(time) = time.checked_div(u128::from(repeats)) {
        println!(rt; "one check takes {time} ns")?;
    }
    Ok(())
}

// How many checks are to be timed: what the first argument says, or none.
fn read_repeats(rt: &HostRuntime) -> anyhow::Result<u32> {
    match env::args(rt)?.nth(1) {
        Some(word) => Ok(word.as_str().parse()?),
        None => Ok(0),
    }
}

fn main(rt: HostRuntime) -> anyhow::Result<()> {
    // The argument is read first, so that a faulty one leaves nothing printed.
    let repeats = read_repeats(&rt)?;
    let book = large_book(rt.alloc())?;
    let records = labels::check(book.as_slice())?;
    println!(rt; "a book of {} bytes has {records} records", book.len())?;
    if repeats > 0 {
        time_check(&rt, book.as_slice(), repeats)?;
    }
    Ok(())
}
