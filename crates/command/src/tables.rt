// The commands that take a table.
use crate::commands::{Call, Command};
use crate::{answers, circuits, files};
use std::io;
use std::rt::Files;

pub(crate) fn call(
    rt: &(impl Files + Input + Print),
    call: Call,
    errors: &impl Print,
) -> io::Result<()> {
    let mut room = [0; files::TABLE_ROOM];
    prove!(room.len() == 32 + 1);
    let Some((n, table)) = files::table(rt, call.word(0), call.word(1), &mut room, errors)? else {
        return Ok(());
    };
    let last = call.word(2);
    match call.command {
        Command::Spectrum => spectrum(rt, n, table),
        Command::Build => build(rt, n, table, last, errors),
        _ => judge(rt, n, table, last, call.option, errors),
    }
}

fn spectrum(rt: &impl Print, n: u8, table: &[u8]) -> io::Result<()> {
    let mut out = [0i32; 256];
    match spectrum::spectrum(n, table, &mut out) {
        Err(r) => answers::refused(rt, r),
        Ok(entries) => answers::signed(rt, &out[..entries]),
    }
}

fn build(
    rt: &(impl Files + Print),
    n: u8,
    table: &[u8],
    name: &[u8],
    errors: &impl Print,
) -> io::Result<()> {
    let mut out = [0u8; 4096];
    match build::build(n, table, &mut out) {
        Err(r) => answers::refused(rt, r),
        Ok(length) => {
            if files::store(rt, name, &out[..length], errors)? {
                return answers::wrote(rt, length);
            }
            Ok(())
        }
    }
}

fn judge(
    rt: &(impl Files + Input + Print),
    n: u8,
    table: &[u8],
    name: &[u8],
    differences: bool,
    errors: &impl Print,
) -> io::Result<()> {
    let mut room = [0; files::FILE_ROOM];
    let Some(file) = files::load(rt, name, &mut room, errors)? else {
        return Ok(());
    };
    let mut work = [0; circuits::WORK_ROOM];
    let found = verdict::judge(n, table, file, &mut work);
    circuits::compared(rt, found, differences, &work)
}
