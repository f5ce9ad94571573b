// Files by name, and inputs that words name.
use crate::{complaints, digits};
use std::io::ErrorKind;
use std::rt::Files;
use std::{fs, io};

// A file of 2,048 gates has 8,200 bytes, so that 8,201 decide.
pub(crate) const FILE_ROOM: usize = 8201;

// The largest table has 32 bytes, so that 33 decide.
pub(crate) const TABLE_ROOM: usize = 33;

const STANDARD_INPUT: &[u8] = b"-";

// The text of a name: std opens no file whose name is not UTF-8.
fn text(name: &[u8]) -> io::Result<&str> {
    str::from_utf8(name).map_err(|_| io::Error::from(ErrorKind::InvalidInput))
}

fn read<'a>(rt: &(impl Files + Input), name: &[u8], room: &'a mut [u8]) -> io::Result<&'a [u8]> {
    let size = if name == STANDARD_INPUT {
        input::fill(&mut rt.reader(), room)?
    } else {
        input::fill(&mut fs::open(rt, text(name)?)?, room)?
    };
    Ok(&room[..size])
}

// A file that can't be read is a complaint.
pub(crate) fn load<'a>(
    rt: &(impl Files + Input),
    name: &[u8],
    room: &'a mut [u8],
    errors: &impl Print,
) -> io::Result<Option<&'a [u8]>> {
    match read(rt, name, room) {
        Ok(file) => Ok(Some(file)),
        Err(_) => {
            complaints::write(
                errors,
                name,
                " can't be read: name a file that can, or - for standard input",
            )?;
            Ok(None)
        }
    }
}

// The table of a word: hexadecimal digits, two a byte, or @ and a file's name.
fn load_table<'a>(
    rt: &(impl Files + Input),
    word: &[u8],
    room: &'a mut [u8],
    errors: &impl Print,
) -> io::Result<Option<&'a [u8]>> {
    if let [b'@', name @ ..] = word {
        return load(rt, name, room, errors);
    }
    if digits::are_bytes(word) {
        let length = digits::put_bytes(word, room);
        return Ok(Some(&room[..length]));
    }
    complaints::write(
        errors,
        word,
        " is no table: write hexadecimal digits, two a byte, or @FILE",
    )?;
    Ok(None)
}

// A word that is no number is a complaint.
pub(crate) fn number(word: &[u8], errors: &impl Print) -> io::Result<Option<u16>> {
    let number = digits::decimal(word);
    if number.is_none() {
        complaints::write(errors, word, " is no number: write decimal digits")?;
    }
    Ok(number)
}

// A number of variables and a table, by the words N and TABLE.
pub(crate) fn table<'a>(
    rt: &(impl Files + Input),
    count: &[u8],
    digits: &[u8],
    room: &'a mut [u8],
    errors: &impl Print,
) -> io::Result<Option<(u8, &'a [u8])>> {
    let Some(n) = number(count, errors)? else {
        return Ok(None);
    };
    let Some(table) = load_table(rt, digits, room, errors)? else {
        return Ok(None);
    };
    Ok(Some((digits::narrow(n), table)))
}

// The name of standard input is no file's.
fn write(rt: &impl Files, name: &[u8], bytes: &[u8]) -> io::Result<()> {
    if name == STANDARD_INPUT {
        return Err(io::Error::from(ErrorKind::InvalidInput));
    }
    fs::write(rt, text(name)?, bytes)
}

// Whether the file was written; a file that can't be is a complaint.
pub(crate) fn store(
    rt: &impl Files,
    name: &[u8],
    bytes: &[u8],
    errors: &impl Print,
) -> io::Result<bool> {
    if write(rt, name, bytes).is_err() {
        complaints::write(errors, name, " can't be written: name a file that can")?;
        return Ok(false);
    }
    Ok(true)
}
