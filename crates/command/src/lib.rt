// What a command line does. Its words are separated by a byte 0. Answers go to the standard output,
// and what is wrong with the call itself to `errors`.
#![tactic(auto)]

use commands::{Call, Command};
use std::io;
use std::rt::Files;

mod answers;
mod circuits;
mod commands;
mod complaints;
mod digits;
mod files;
mod tables;
mod words;

// An `Err` is a write to the standard output or to `errors` that failed: what was printed before it
// stands, and nothing follows.
pub fn call(rt: &(impl Files + Input + Print), line: &[u8], errors: &impl Print) -> io::Result<()> {
    let name = words::word(line, 0);
    let Some(command) = Command::named(name) else {
        return complaints::unknown(errors, name);
    };
    if command == Command::Help {
        return answers::usage(rt);
    }
    let call = Call::new(command, line);
    if !call.is_complete() {
        return complaints::form(errors, command);
    }
    match command {
        Command::Spectrum | Command::Build | Command::Judge => tables::call(rt, call, errors),
        _ => circuits::call(rt, call, errors),
    }
}
