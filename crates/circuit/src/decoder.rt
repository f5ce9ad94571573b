// A gate from its four bytes, or the reason why they are none.
ghost use Rattle.std.specs.Prelude.{◌≡◌, ◌+◌, ◌*◌};
ghost use Rattle.circuit.specs.Gates.{bad_kind, bad_wire, equal_wires, bad_spare, gate_said, decoded};
ghost use Rattle.circuit.specs.Working.{bad, low_bad, high_bad};

use crate::{Gate, Placed};
use refusal::Reason;

// 16 bits, high byte first.
pub(crate) fn sixteen_bits(high: u8, low: u8) -> u16
    ensures { result ≡ high * 256 + low }
{
    u16::from_be_bytes([high, low])
}

fn bad_kind(version: u16, kind: u8) -> bool
    ensures { result ≡ bad_kind version kind }
{
    (kind != 1) & (kind != 2) & ((kind != 3) | (version != 2))
}

fn bad_wire(w: u8, kind: u8, a: u8, b: u8) -> bool
    ensures { result ≡ bad_wire w kind a b }
{
    (a >= w) | ((kind == 1) & (b >= w))
}

fn equal_wires(kind: u8, a: u8, b: u8) -> bool
    ensures { result ≡ equal_wires kind a b }
{
    (kind == 1) & (a == b)
}

fn bad_spare(kind: u8, b: u8, c: u8) -> bool
    ensures { result ≡ bad_spare kind b c }
{
    ((kind == 1) & (c != 0)) | ((kind == 3) & ((b != 0) | (c != 0)))
}

// Whether four bytes are no gate on `w` wires: those of a kind below 3.
fn low_bad(w: u8, kind: u8, a: u8, b: u8, c: u8) -> bool
    ensures { result ≡ low_bad w kind a b c }
{
    (kind == 0) | bad_wire(w, kind, a, b) | equal_wires(kind, a, b) | ((kind == 1) & (c != 0))
}

// And those of a kind from 3 on.
fn high_bad(version: u16, w: u8, kind: u8, a: u8, b: u8, c: u8) -> bool
    ensures { result ≡ high_bad version w kind a b c }
{
    bad_kind(version, kind) | (a >= w) | (b != 0) | (c != 0)
}

// Both. No branch depends on which of CNOT and phase it is: in a circuit that is hard to foretell. The kinds from 3 on are
// apart because a good version 1 file has none of them.
pub(crate) fn is_bad(version: u16, w: u8, kind: u8, a: u8, b: u8, c: u8) -> bool
    ensures { result ≡ bad version w kind a b c }
{
    if kind < 3 {
        return low_bad(w, kind, a, b, c);
    }
    high_bad(version, w, kind, a, b, c)
}

// The gate of four bytes that are good.
pub(crate) fn gate_of(kind: u8, a: u8, b: u8, c: u8) -> Gate
    ensures { result ≡ gate_said kind a b c }
{
    if kind == 1 {
        return Gate::Cnot {
            control: a,
            target: b,
        };
    }
    if kind == 3 {
        return Gate::Inverter { wire: a };
    }
    let angle = sixteen_bits(b, c);
    Gate::Phase { wire: a, angle }
}

// The gate of four bytes on `w` wires in a file of that version, or the first of the four reasons why it is bad.
pub fn decode(
    version: u16,
    w: u8,
    position: usize,
    kind: u8,
    a: u8,
    b: u8,
    c: u8,
) -> Result<Placed, Reason>
    ensures { result ≡ decoded version w position kind a b c }
{
    if bad_kind(version, kind) {
        return Err(Reason::Kind);
    }
    if bad_wire(w, kind, a, b) {
        return Err(Reason::Wire);
    }
    if equal_wires(kind, a, b) {
        return Err(Reason::Equal);
    }
    if bad_spare(kind, b, c) {
        return Err(Reason::Spare);
    }
    let gate = gate_of(kind, a, b, c);
    Ok(Placed { position, gate })
}
