// The program: obeys the script in a file, or on standard input.
#![tactic(auto)]

use anyhow::ensure;
use std::io::{BufWriter, Read, Write};
use std::{env, fs};

// The script: the file that the first argument names, or standard input.
fn read_script(rt: &HostRuntime) -> anyhow::Result<Vec<u8>> {
    if let Some(path) = env::args(rt)?.nth(1) {
        return Ok(fs::read(rt, path.as_str())?);
    }
    let mut script = Vec::new(rt.alloc());
    rt.stdin().read_to_end(&mut script)?;
    Ok(script)
}

fn obey(rt: &HostRuntime) -> anyhow::Result<()> {
    let script = read_script(rt)?;
    let mut out = BufWriter::new(rt.alloc(), rt.stdout())?;
    let understood = shell::run(rt.alloc(), script.as_slice(), &mut out)?;
    out.flush()?;
    ensure!(understood, "some lines were not understood");
    Ok(())
}

fn main(rt: HostRuntime) -> anyhow::Result<()> {
    obey(&rt)
}
