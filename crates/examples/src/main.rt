// Obeys the script on standard input: published examples, and every prefix of three texts.
#![tactic(auto)]

use std::io::{BufWriter, Read, Write};

// Kept as the same lines that `vectors` has: a function for both would be public with nothing to promise, since no contract speaks of what is read or written.
fn main(rt: HostRuntime) -> anyhow::Result<()> {
    let mut script = Vec::new(rt.alloc());
    rt.stdin().read_to_end(&mut script)?;
    let mut out = BufWriter::new(rt.alloc(), rt.stdout())?;
    let _ = shell::run(rt.alloc(), script.as_slice(), &mut out)?;
    out.flush()?;
    Ok(())
}
