// Requests: a header of ten bytes, then two payloads.
use std::{fmt, io};

#[derive(Clone, Copy)]
pub enum Operation {
    Spectrum,
    Check,
    Value,
    Decode,
    GateAt,
    Read,
    Run,
    Count,
    Build,
    Fold,
    List,
    Oracle,
    Compare,
    Judge,
    Printout,
    Refused,
}

// In the order of their numbers.
pub(crate) const OPERATIONS: [Operation; 16] = [
    Operation::Spectrum,
    Operation::Check,
    Operation::Value,
    Operation::Decode,
    Operation::GateAt,
    Operation::Read,
    Operation::Run,
    Operation::Count,
    Operation::Build,
    Operation::Fold,
    Operation::List,
    Operation::Oracle,
    Operation::Compare,
    Operation::Judge,
    Operation::Printout,
    Operation::Refused,
];

impl fmt::Display for Operation {
    fn fmt<W: fmt::Write>(&self, f: &mut fmt::Formatter<W>) -> fmt::Result {
        f.pad(match self {
            Operation::Spectrum => "spectrum",
            Operation::Check => "check",
            Operation::Value => "value",
            Operation::Decode => "decode",
            Operation::GateAt => "gate_at",
            Operation::Read => "read",
            Operation::Run => "run",
            Operation::Count => "count",
            Operation::Build => "build",
            Operation::Fold => "fold",
            Operation::List => "list",
            Operation::Oracle => "oracle",
            Operation::Compare => "compare",
            Operation::Judge => "judge",
            Operation::Printout => "printout",
            Operation::Refused => "refused",
        })
    }
}

// How many cases each operation had.
pub type Tally = [usize; 16];

// The operation, a, and in two bytes each b, the room and the lengths of the payloads.
pub type Header = [u8; 10];

// The longest payload that is served.
pub(crate) const PAYLOAD: usize = 8300;

#[derive(Clone, Copy)]
pub struct Request {
    // What runs, and what the line and the tally name: they differ where the number is above 15.
    pub op: Operation,
    pub named: Operation,
    pub a: u8,
    pub b: u16,
    pub room: u16,
    // The lengths of the payloads.
    pub first: u16,
    pub second: u16,
}

impl Request {
    pub(crate) fn of(header: Header) -> Request {
        Request {
            op: numbered(header[0]),
            named: numbered(header[0] % 16),
            a: header[1],
            b: u16::from_be_bytes([header[2], header[3]]),
            room: u16::from_be_bytes([header[4], header[5]]),
            first: u16::from_be_bytes([header[6], header[7]]),
            second: u16::from_be_bytes([header[8], header[9]]),
        }
    }
}

// The operation of a number. One above 15 counts.
fn numbered(number: u8) -> Operation {
    OPERATIONS
        .get(usize::from(number))
        .copied()
        .unwrap_or(Operation::Count)
}

// Reads a payload to the front of the room; none where it is longer.
pub(crate) fn payload<'a>(
    rt: &impl Input,
    length: u16,
    room: &'a mut [u8],
) -> io::Result<Option<&'a [u8]>> {
    let Some(bytes) = room.get_mut(..usize::from(length)) else {
        return Ok(None);
    };
    input::fill(&mut rt.reader(), bytes)?;
    Ok(Some(bytes))
}
