// Prints the outlines of the scripts in data/, one after the other: every outcome occurs, and the examples are among them. The file `stdout`
// has the right answers. The Rust crate `vectors` makes it with the scripts.
#![tactic(auto)]

use std::fs;
use std::io::{Result, Write};

// The scripts are a.gr, b.gr and so on.
fn main(rt: HostRuntime) -> Result<()> {
    for letter in b'a'..=b'v' {
        script(&rt, letter)?;
    }
    Ok(())
}

fn script(rt: &HostRuntime, letter: u8) -> Result<()> {
    let path = format!(in rt.alloc(); "{}.gr", char::from(letter))?;
    let source = fs::read(rt, path.as_str())?;
    print(rt, &source)
}

fn print(rt: &HostRuntime, source: &[u8]) -> Result<()> {
    let mut out = [0u8; form::OUTLINE_BYTES];
    let n = form::outline(source, &mut out);
    rt.stdout().write_all(&out[..n])
}
