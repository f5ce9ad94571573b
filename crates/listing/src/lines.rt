// The lines of a listing, and how long they are.
ghost use Rattle.std.specs.Prelude.{◌≡◌, ◌+◌, ◌/◌, ◌^◌, ◌≤◌, length};
ghost use Rattle.circuit.specs.Working.{Wrote};
ghost use Rattle.listing.specs.Fractions.{over, fraction_of};
ghost use Rattle.listing.specs.Listing.{head_lines, wrap_line, cnot_line, phase_line, gate_line};
ghost use Rattle.listing.specs.Working.{head_length, cnot_length, phase_length, inverter_length};

use crate::text::{digits, put_last, put_numbered, put_text};
use crate::words;
use circuit::{Gate, Writer};

// How often an angle and 32,768 can both be halved.
fn halvings(angle: u16) -> u16
    ensures { (result ≤ 15) × (over (angle / 2 ^ result) (32768 / 2 ^ result) ≡ fraction_of angle) }
{
    (angle | 32768).trailing_zeros() as u16
}

// The length of the three header lines.
pub(crate) fn head_length(wires: u8) -> usize
    ensures { result ≡ head_length wires }
{
    words::VERSION.len()
        + words::INCLUDE.len()
        + words::REGISTER.len()
        + digits(wires as u16)
        + words::CLOSING.len()
}

// The three header lines.
pub(crate) fn put_head(wires: u8, writer: &mut Writer)
    requires { writer.old.at + length (head_lines wires) ≤ length writer.old.out.now }
    ensures wrote { Wrote (head_lines wires) writer.old.at writer.old.out.now writer.new.at writer.new.out.now }
    ensures same_reference { writer.new.out.ghost_name ≡ writer.old.out.ghost_name }
{
    put_text(&words::VERSION, writer);
    put_text(&words::INCLUDE, writer);
    put_last(&words::REGISTER, wires as u16, writer);
}

// The length of the h line on the last wire, if wrapped.
pub(crate) fn wrap_length(wrapped: bool, wires: u8) -> usize
    requires { 1 ≤ wires }
    ensures { result ≡ length (wrap_line wrapped wires) }
{
    if wrapped {
        return words::HADAMARD.len() + digits((wires - 1) as u16) + words::CLOSING.len();
    }
    0
}

// If wrapped, the h line on the last wire.
pub(crate) fn put_wrap(wrapped: bool, wires: u8, writer: &mut Writer)
    requires le_wires { 1 ≤ wires }
    requires wires_in_bounds { writer.old.at + length (wrap_line wrapped wires) ≤ length writer.old.out.now }
    ensures wrote { Wrote (wrap_line wrapped wires) writer.old.at writer.old.out.now writer.new.at writer.new.out.now }
    ensures same_reference { writer.new.out.ghost_name ≡ writer.old.out.ghost_name }
{
    if wrapped {
        put_last(&words::HADAMARD, (wires - 1) as u16, writer);
    }
}

fn cnot_length(control: u8, target: u8) -> usize
    ensures { result ≡ cnot_length control target }
{
    words::CNOT.len()
        + digits(control as u16)
        + words::TARGET.len()
        + digits(target as u16)
        + words::CLOSING.len()
}

fn phase_length(wire: u8, above: u16, below: u16) -> usize
    ensures { result ≡ phase_length wire above below }
{
    words::PHASE.len()
        + digits(above)
        + words::OVER.len()
        + digits(below)
        + words::WIRE.len()
        + digits(wire as u16)
        + words::CLOSING.len()
}

fn inverter_length(wire: u8) -> usize
    ensures { result ≡ inverter_length wire }
{
    words::INVERTER.len() + digits(wire as u16) + words::CLOSING.len()
}

// The length of a gate's line.
pub(crate) fn line_length(gate: Gate) -> usize
    ensures { result ≡ length (gate_line gate) }
{
    match gate {
        Gate::Cnot { control, target } => cnot_length(control, target),
        Gate::Phase { wire, angle } => {
            let twos = halvings(angle);
            phase_length(wire, angle >> twos, 32768 >> twos)
        }
        Gate::Inverter { wire } => inverter_length(wire),
    }
}

fn put_cnot(control: u8, target: u8, writer: &mut Writer)
    requires { writer.old.at + length (cnot_line control target) ≤ length writer.old.out.now }
    ensures wrote { Wrote (cnot_line control target) writer.old.at writer.old.out.now writer.new.at writer.new.out.now }
    ensures same_reference { writer.new.out.ghost_name ≡ writer.old.out.ghost_name }
{
    put_numbered(&words::CNOT, control as u16, writer);
    put_last(&words::TARGET, target as u16, writer);
}

fn put_phase(wire: u8, above: u16, below: u16, writer: &mut Writer)
    requires { writer.old.at + length (phase_line wire (over above below)) ≤ length writer.old.out.now }
    ensures wrote { Wrote (phase_line wire (over above below)) writer.old.at writer.old.out.now writer.new.at writer.new.out.now }
    ensures same_reference { writer.new.out.ghost_name ≡ writer.old.out.ghost_name }
{
    put_numbered(&words::PHASE, above, writer);
    put_numbered(&words::OVER, below, writer);
    put_last(&words::WIRE, wire as u16, writer);
}

// A gate's line.
pub(crate) fn put_gate(gate: Gate, writer: &mut Writer)
    requires { writer.old.at + length (gate_line gate) ≤ length writer.old.out.now }
    ensures wrote { Wrote (gate_line gate) writer.old.at writer.old.out.now writer.new.at writer.new.out.now }
    ensures same_reference { writer.new.out.ghost_name ≡ writer.old.out.ghost_name }
{
    match gate {
        Gate::Cnot { control, target } => put_cnot(control, target, writer),
        Gate::Phase { wire, angle } => {
            let twos = halvings(angle);
            put_phase(wire, angle >> twos, 32768 >> twos, writer)
        }
        Gate::Inverter { wire } => put_last(&words::INVERTER, wire as u16, writer),
    }
}
