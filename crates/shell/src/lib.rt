// The script language of the program: lines, operands, and answers as text.
#![tactic(auto)]

use desk::Desk;
use lines::{Lines, is_blank};
use std::alloc::Global;
use std::io;
use std::io::Write;

mod command;
mod desk;
mod failure;
mod lines;
mod operands;
mod print;
mod search;

/// Obeys a script line by line, writes what it answers, and says whether every line was understood.
// Kept as a `bool`: that a line was not understood is an answer, and ends nothing.
pub fn run<W: Write>(heap: Global, script: &[u8], out: &mut W) -> io::Result<bool> {
    let mut desk = Desk::new(heap, out);
    let mut understood = true;
    for line in Lines::new(script) {
        if !is_blank(line) {
            understood &= desk.obey(line)?;
        }
    }
    Ok(understood)
}
