// A gate's four bytes and the header's eight, written.
ghost use Rattle.std.specs.Prelude.{◌≡◌};
ghost use Rattle.circuit.specs.Bytes.{put_at};
ghost use Rattle.circuit.specs.Gates.{gate_bytes};
ghost use Rattle.circuit.specs.File.{header_bytes};
ghost use Rattle.circuit.specs.Working.{header_of};

use crate::Gate;
use crate::decoder::sixteen_bits;

// Bytes at `at`; where they do not all fit, nothing is written. No Writer: what `put_gate` ensures holds for every place.
fn put(bytes: &[u8], out: &mut [u8], at: usize)
    ensures { out.new ≡ put_at bytes.now at out.old }
{
    if bytes.len() <= out.len() && at <= out.len() - bytes.len() {
        out[at..at + bytes.len()].copy_from_slice(bytes);
    }
}

// A gate's four bytes.
pub(crate) fn gate_bytes(gate: Gate) -> [u8; 4]
    ensures { result ≡ gate_bytes gate }
{
    match gate {
        Gate::Cnot { control, target } => [1, control, target, 0],
        Gate::Phase { wire, angle } => [2, wire, (angle / 256) as u8, (angle % 256) as u8],
        Gate::Inverter { wire } => [3, wire, 0, 0],
    }
}

// A gate's four bytes at `at`; where they do not all fit, nothing is written.
pub fn put_gate(gate: Gate, out: &mut [u8], at: usize)
    ensures { out.new ≡ put_at (gate_bytes gate) at out.old }
{
    put(&gate_bytes(gate), out, at)
}

// A header's eight bytes.
fn header_bytes(version: u16, wires: u8, gates: u16) -> [u8; 8]
    ensures { result ≡ header_bytes version wires gates }
{
    [
        0x50,
        0x48,
        0x47,
        (version / 256) as u8,
        (version % 256) as u8,
        wires,
        (gates / 256) as u8,
        (gates % 256) as u8,
    ]
}

// A file's header at the front; where it does not fit, nothing is written.
pub fn put_header(version: u16, wires: u8, gates: u16, out: &mut [u8])
    ensures { out.new ≡ put_at (header_bytes version wires gates) 0 out.old }
{
    put(&header_bytes(version, wires, gates), out, 0)
}

// A file's header with another number of gates, at the front; nothing is written where the file has no header or where it does not fit.
pub fn put_header_of(file: &[u8], gates: u16, out: &mut [u8])
    ensures { out.new ≡ put_at (header_of file.now gates) 0 out.old }
{
    if file.len() < 8 {
        return;
    }
    let version = sixteen_bits(file[3], file[4]);
    // byte 5 of a file is its wires
    put_header(version, file[5], gates, out)
}
