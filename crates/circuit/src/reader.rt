// A file's checks.
ghost use Rattle.std.specs.Prelude.{◌≡◌, ◌+◌, ◌*◌, ◌≤◌, length, drop};
ghost use Rattle.refusal.specs.Names.{bad_gate};
ghost use Rattle.circuit.specs.Gates.{first_bad};
ghost use Rattle.circuit.specs.File.{wires_of, reason_at, ReadsSide, Reads};

use crate::Header;
use crate::decoder::{is_bad, sixteen_bits};
use crate::gates::{four_at, gate_at};
use refusal::{Cause, Refusal};

// The position of the first bad gate, or `gates` where none is bad.
fn first_bad(file: &[u8], version: u16, gates: usize) -> usize
    requires { 8 + 4 * gates ≤ length file.now }
    ensures { result ≡ first_bad version (wires_of file.now) gates 0 (drop 8 file.now) }
{
    for i in 0..gates {
        let [kind, a, b, c] = four_at(file, i);
        if is_bad(version, file[5], kind, a, b, c) {
            return i;
        }
    }
    gates
}

// Three bytes as one number, high byte first.
fn mark(high: u8, middle: u8, low: u8) -> u32
    ensures { result ≡ (high * 256 + middle) * 256 + low }
{
    u32::from_be_bytes([0, high, middle, low])
}

// The refusal for the bad gate at position `i`, with the decoder's reason.
fn bad_gate(file: &[u8], side: u8, i: usize) -> Refusal
    ensures { result ≡ bad_gate side i (reason_at file.now i) }
{
    Refusal {
        cause: Cause::Gate,
        side,
        position: i,
        reason: gate_at(file, i).err(),
    }
}

// The wires and the gate count of the file that is given as this side, or the refusal of the first check that fails.
pub fn read_side(file: &[u8], side: u8) -> Result<Header, Refusal>
    ensures { ReadsSide side file.now result }
{
    if file.len() < 8 {
        return Err(Refusal::of_side(Cause::Short, side));
    }
    if mark(file[0], file[1], file[2]) != 0x504847 {
        return Err(Refusal::of_side(Cause::Mark, side));
    }
    let version = sixteen_bits(file[3], file[4]);
    if version == 0 {
        return Err(Refusal::of_side(Cause::Version, side));
    }
    if version > 2 {
        return Err(Refusal::of_side(Cause::Version, side));
    }
    let wires = file[5];
    if wires == 0 {
        return Err(Refusal::of_side(Cause::Wires, side));
    }
    if wires > 10 {
        return Err(Refusal::of_side(Cause::Wires, side));
    }
    let gates = sixteen_bits(file[6], file[7]) as usize;
    if gates > 2048 {
        return Err(Refusal::of_side(Cause::Count, side));
    }
    if file.len() != 8 + 4 * gates {
        return Err(Refusal::of_side(Cause::Length, side));
    }
    let bad = first_bad(file, version, gates);
    if bad < gates {
        return Err(bad_gate(file, side, bad));
    }
    Ok(Header { wires, gates })
}

// The same of a call's only file.
pub fn read(file: &[u8]) -> Result<Header, Refusal>
    ensures { Reads file.now result }
{
    read_side(file, 0)
}
