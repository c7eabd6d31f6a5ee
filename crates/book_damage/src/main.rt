// Checks every truncation and every change of one byte of a small label book.
#![tactic(auto)]

use refusals::Refusal;
use std::io;
use std::io::{BufWriter, Write};

// Two entries, 16 `w1` and 17 `door`.
const BOOK: [u8; 18] = *b"\x08\x00\x00\x00\x10\x00w1\x0a\x00\x00\x00\x11\x00door";

// Not by the refusal's own `Display`: what this program writes names no cause, and parts all by commas.
fn print_answer<W: Write>(out: &mut W, answer: Result<usize, Refusal>) -> io::Result<()> {
    match answer {
        Ok(count) => writeln!(out, "ok {count}"),
        Err(refusal) => {
            let (cause, layer, byte, steps) = refusal.numbers();
            writeln!(
                out,
                "refused {cause}, layer {layer}, byte {byte}, steps {steps}"
            )
        }
    }
}

// The book with another byte.
fn changed(at: usize, value: u8) -> [u8; 18] {
    let mut book = BOOK;
    if at < book.len() {
        book[at] = value;
    }
    book
}

// One line for each run of values of a byte that are answered alike.
fn change_byte<W: Write>(out: &mut W, at: usize) -> io::Result<()> {
    let mut last = None;
    for value in 0..=255u8 {
        let answer = labels::check(&changed(at, value));
        if last != Some(answer) {
            write!(out, "byte {at} from {value}: ")?;
            print_answer(out, answer)?;
            last = Some(answer);
        }
    }
    Ok(())
}

fn main(rt: HostRuntime) -> anyhow::Result<()> {
    let mut out = BufWriter::new(rt.alloc(), rt.stdout())?;
    for length in 0..=BOOK.len() {
        write!(out, "cut to {length}: ")?;
        print_answer(&mut out, labels::check(&BOOK[0..length]))?;
    }
    for at in 0..BOOK.len() {
        change_byte(&mut out, at)?;
    }
    out.flush()?;
    Ok(())
}
