// The command that the arguments are.
#![tactic(auto)]

use std::env::FillError;
use std::io;
use std::rt::Env;

fn main(rt: HostRuntime) -> io::Result<()> {
    let mut line = [0u8; 65536];
    let errors = rt.stderr();
    match join(&rt, &mut line) {
        Some(words) => command::call(&rt, words, &errors),
        None => println!(errors; "phg: these words are too long: write a table as @FILE"),
    }
}

// Puts the arguments into a line of zeros, each with a byte 0 behind it, and answers them without
// the last of these bytes; none where the line has no byte left behind them.
fn join<'a>(rt: &impl Env, line: &'a mut [u8]) -> Option<&'a [u8]> {
    let mut end = 0;
    // Each argument takes a byte at least.
    for i in 1..=line.len() {
        if line.len() <= end {
            return None;
        }
        match rt.arg(i, &mut line[end..]) {
            Ok(n) => end += n + 1,
            Err(FillError::NotPresent) => return Some(&line[..end.saturating_sub(1)]),
            Err(FillError::TooLong) => return None,
        }
    }
    None
}
