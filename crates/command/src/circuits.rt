// The commands that take a circuit file first.
use crate::commands::{Call, Command};
use crate::{answers, files};
use circuit::Header;
use fold::Folded;
use refusal::Refusal;
use running::{Counted, Ran};
use std::io;
use std::rt::Files;
use verdict::Verdict;

pub(crate) fn call(
    rt: &(impl Files + Input + Print),
    call: Call,
    errors: &impl Print,
) -> io::Result<()> {
    let mut room = [0; files::FILE_ROOM];
    prove!(room.len() == 8 + 4 * 2048 + 1);
    let Some(file) = files::load(rt, call.word(0), &mut room, errors)? else {
        return Ok(());
    };
    let next = call.word(1);
    match call.command {
        Command::Read => read(rt, file),
        Command::Run => run(rt, file, next, errors),
        Command::Count => count(rt, file),
        Command::Fold => fold(rt, file, next, errors),
        Command::List => list(rt, file, call.option, next, errors),
        _ => compare(rt, file, next, call.option, errors),
    }
}

fn read(rt: &impl Print, file: &[u8]) -> io::Result<()> {
    match circuit::read(file) {
        Err(r) => answers::refused(rt, r),
        Ok(Header { wires, gates }) => println!(rt; "wires {wires} gates {gates}"),
    }
}

fn run(rt: &impl Print, file: &[u8], word: &[u8], errors: &impl Print) -> io::Result<()> {
    let Some(start) = files::number(word, errors)? else {
        return Ok(());
    };
    match running::run(file, start) {
        Err(r) => answers::refused(rt, r),
        Ok(Ran { state, phase }) => println!(rt; "end {state} phase {phase}"),
    }
}

fn count(rt: &impl Print, file: &[u8]) -> io::Result<()> {
    match running::count(file) {
        Err(r) => answers::refused(rt, r),
        Ok(
            Counted {
                cnots,
                phases,
                score,
                inverters,
            },
        ) => println!(rt; "cnots {cnots} phases {phases} score {score} inverters {inverters}"),
    }
}

fn fold(
    rt: &(impl Files + Print),
    file: &[u8],
    name: &[u8],
    errors: &impl Print,
) -> io::Result<()> {
    let mut out = [0; files::FILE_ROOM];
    match fold::fold(file, &mut out) {
        Err(r) => answers::refused(rt, r),
        Ok(
            Folded {
                length,
                before,
                after,
            },
        ) => {
            if files::store(rt, name, &out[..length], errors)? {
                println!(rt; "length {length} score {before} to {after}")?;
                return answers::wrote(rt, length);
            }
            Ok(())
        }
    }
}

// Room for the coefficients of 10 wires.
pub(crate) const WORK_ROOM: usize = 1024;

pub(crate) fn compared(
    rt: &impl Print,
    found: Result<Verdict, Refusal>,
    differences: bool,
    work: &[u16],
) -> io::Result<()> {
    match found {
        Err(r) => answers::refused(rt, r),
        Ok(verdict) => {
            answers::verdict(rt, verdict)?;
            if differences {
                return answers::differences(rt, work);
            }
            Ok(())
        }
    }
}

fn compare(
    rt: &(impl Files + Input + Print),
    file: &[u8],
    name: &[u8],
    differences: bool,
    errors: &impl Print,
) -> io::Result<()> {
    let mut room = [0; files::FILE_ROOM];
    let Some(other) = files::load(rt, name, &mut room, errors)? else {
        return Ok(());
    };
    let mut work = [0; WORK_ROOM];
    prove!(work.len() == running::MASKS);
    let found = verdict::compare(file, other, &mut work);
    compared(rt, found, differences, &work)
}

// Room for the text of every file.
const TEXT_ROOM: usize = 64 + 32 * 2048;

// No name is standard output.
fn list(
    rt: &(impl Files + Print),
    file: &[u8],
    wrapped: bool,
    name: &[u8],
    errors: &impl Print,
) -> io::Result<()> {
    let mut text = [0; TEXT_ROOM];
    prove!(text.len() == 65600);
    match listing::list(file, wrapped, &mut text) {
        Err(r) => answers::refused(rt, r),
        Ok(length) => {
            let lines = &text[..length];
            if name.is_empty() {
                return rt.write_all(lines);
            }
            if files::store(rt, name, lines, errors)? {
                return answers::wrote(rt, length);
            }
            Ok(())
        }
    }
}
