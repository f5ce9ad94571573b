// Document 01, "Circuit file": the file, its gates, the reader, and the writer of its parts.
#![tactic(auto)]

mod decoder;
mod file;
mod gates;
mod place;
mod reader;
mod writer;

pub use decoder::decode;
pub use file::Circuit;
pub use gates::{Gates, gate_at, good_gate};
pub use place::Writer;
pub use reader::{read, read_side};
pub use writer::{put_gate, put_header, put_header_of};

// A gate is one of CNOT or phase; in a file of version 2 it may be an inverter (02 §12).
#[derive(Clone, Copy, PartialEq, Eq)]
pub enum Gate {
    Cnot { control: u8, target: u8 },
    Phase { wire: u8, angle: u16 },
    Inverter { wire: u8 },
}

// A gate with its position from 0.
#[derive(Clone, Copy, PartialEq, Eq)]
pub struct Placed {
    pub position: usize,
    pub gate: Gate,
}

// What the reader answers of a file.
#[derive(Clone, Copy, PartialEq, Eq)]
pub struct Header {
    pub wires: u8,
    pub gates: usize,
}
