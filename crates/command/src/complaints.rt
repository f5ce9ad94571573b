// What is wrong with the call itself, in one line that says what to write instead.
use crate::commands::Command;
use std::io;

// The word is bytes that need not be text.
pub(crate) fn write(errors: &impl Print, word: &[u8], instead: &str) -> io::Result<()> {
    print!(errors; "phg: ")?;
    errors.write_all(word)?;
    println!(errors; "{instead}")
}

pub(crate) fn unknown(errors: &impl Print, name: &[u8]) -> io::Result<()> {
    write(
        errors,
        name,
        " is no command: write spectrum, build, read, run, count, fold, compare, judge, list or help",
    )
}

// The words that a command takes.
pub(crate) fn form(errors: &impl Print, command: Command) -> io::Result<()> {
    println!(errors; "phg: write phg {}", command.form())
}
