// The words of OpenQASM 2.0 and of a refusal: what the lines are written from, and what their lengths are counted from.
pub(crate) const VERSION: [u8; 14] = *b"OPENQASM 2.0;\n";

pub(crate) const INCLUDE: [u8; 22] = *b"include \"qelib1.inc\";\n";

// Before the number of wires.
pub(crate) const REGISTER: [u8; 7] = *b"qreg q[";

// Before the wire of a Hadamard.
pub(crate) const HADAMARD: [u8; 4] = *b"h q[";

// Before a CNOT's control, and between it and the target.
pub(crate) const CNOT: [u8; 5] = *b"cx q[";

pub(crate) const TARGET: [u8; 4] = *b"],q[";

// Before a phase gate's K, between K and D, and between D and the wire.
pub(crate) const PHASE: [u8; 3] = *b"u1(";

pub(crate) const OVER: [u8; 4] = *b"*pi/";

pub(crate) const WIRE: [u8; 4] = *b") q[";

// Before the wire of an inverter.
pub(crate) const INVERTER: [u8; 4] = *b"x q[";

// What ends a line that names a wire.
pub(crate) const CLOSING: [u8; 3] = *b"];\n";

// Before the number of a refusal, and what ends that line.
pub(crate) const REFUSED: [u8; 8] = *b"refused ";

pub(crate) const NEWLINE: [u8; 1] = *b"\n";
