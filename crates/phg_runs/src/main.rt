// Runs each command of the file `commands`, one a line, its words separated by one blank.
#![tactic(auto)]

ghost use Rattle.std.specs.Prelude.{◌≡◌, ◌≤◌, length, take};

use std::rt::Files;
use std::{fs, io};

fn main(rt: HostRuntime) -> io::Result<()> {
    let mut text = [0u8; 4096];
    let n = input::fill(&mut fs::open(&rt, "commands")?, &mut text)?;
    for line in text[..n].split_inclusive(|b| *b == b'\n') {
        run(&rt, line)?;
    }
    Ok(())
}

// Prints a line and runs it.
fn run(rt: &(impl Files + Input + Print), text: &[u8]) -> io::Result<()> {
    print!(rt; "$ ")?;
    rt.write_all(text)?;
    let mut line = [0u8; 4096];
    let n = separate(text, &mut line);
    command::call(rt, &line[..n], rt)
}

// Copies a line without its end, a byte 0 for each blank, and answers its length.
fn separate(text: &[u8], line: &mut [u8]) -> usize
    ensures within { result ≤ length line.new }
    ensures front { result ≡ length (take result line.new) }
{
    let words = text.strip_suffix(b"\n").unwrap_or(text);
    for (byte, b) in line.iter_mut().zip(words) {
        *byte = if *b == b' ' { 0 } else { *b };
    }
    words.len().min(line.len())
}
