// The words of a line.
use crate::request::{OPERATIONS, Tally};
use refusal::{Numbered, Refusal};
use std::io;

pub(crate) fn number(rt: &impl Print, n: usize) -> io::Result<()> {
    print!(rt; " {n}")
}

// Few bytes in hexadecimal behind an x, many by their number and digest.
pub(crate) fn bytes(rt: &impl Print, data: &[u8]) -> io::Result<()> {
    if 16 < data.len() {
        return print!(rt; " {} bytes {:08x}", data.len(), digest(data));
    }
    print!(rt; " x")?;
    for b in data {
        print!(rt; "{b:02x}")?;
    }
    Ok(())
}

// FNV-1a, 32 bits.
fn digest(data: &[u8]) -> u32 {
    data.iter().fold(2166136261, |found, b| {
        (found ^ u32::from(*b)).wrapping_mul(16777619)
    })
}

// An answer's first value.
pub(crate) fn answers(rt: &impl Print, value: usize) -> io::Result<()> {
    print!(rt; ": answers {value}")
}

pub(crate) fn refused(rt: &impl Print, r: Refusal) -> io::Result<()> {
    let told = Numbered::from(r);
    print!(rt;
        ": refused {} side {} position {} reason {}",
        told.number, told.side, told.position, told.reason
    )
}

// How many cases each operation had, and all together.
pub(crate) fn totals(rt: &impl Print, tally: &Tally, cases: usize) -> io::Result<()> {
    for (op, n) in OPERATIONS.iter().zip(tally) {
        println!(rt; "{op:8} {n}")?;
    }
    println!(rt; "{cases} cases compared")
}
