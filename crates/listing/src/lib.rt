// Document 01, "Listing": a circuit as OpenQASM 2.0.
#![tactic(auto)]

use circuit::{Circuit, Writer};
use refusal::{Cause, Refusal};

mod lines;
mod loose;
mod text;
mod words;

ghost use Rattle.std.specs.Prelude.{◌≡◌, ◌+◌, ◌≤◌, leb, length};
ghost use Rattle.circuit.specs.File.{gates_of};
ghost use Rattle.circuit.specs.Working.{Wrote};
ghost use Rattle.listing.specs.Listing.{gate_lines, listing_of_file, refused_line, Lists, Writes};
ghost use Rattle.listing.specs.Working.{longest_line};

// The length of the lines of a circuit's gates.
fn lines_length(circuit: &Circuit) -> usize
    ensures { result ≡ length (gate_lines (gates_of circuit.now.file.now)) }
{
    let mut total: usize = 0;
    for gate in circuit.gates() {
        total += lines::line_length(gate);
    }
    total
}

// No line of a gate is longer: K and D have five digits at most, a good file's wire has one.
fn longest_line() -> usize
    ensures { result ≡ longest_line }
{
    words::PHASE.len() + words::OVER.len() + words::WIRE.len() + words::CLOSING.len() + 11
}

// Whether a circuit's listing fits `room` bytes. The lines are measured only where room is short.
fn fits(circuit: &Circuit, wrapped: bool, room: usize) -> bool
    ensures { result ≡ leb (length (listing_of_file wrapped circuit.now.file.now)) room }
{
    let wires = circuit.wires();
    let frame = lines::head_length(wires) + 2 * lines::wrap_length(wrapped, wires);
    if frame + longest_line() * circuit.gate_count() <= room {
        return true;
    }
    frame + lines_length(circuit) <= room
}

// The lines of a circuit's gates.
fn put_gates(circuit: &Circuit, writer: &mut Writer)
    requires { writer.old.at + length (gate_lines (gates_of circuit.now.file.now)) ≤ length writer.old.out.now }
    ensures wrote { Wrote (gate_lines (gates_of circuit.now.file.now)) writer.old.at writer.old.out.now writer.new.at writer.new.out.now }
    ensures same_reference { writer.new.out.ghost_name ≡ writer.old.out.ghost_name }
{
    for gate in circuit.gates() {
        lines::put_gate(gate, writer);
    }
}

// The text of a circuit at the front of out, or a refusal.
pub fn list(file: &[u8], wrapped: bool, out: &mut [u8]) -> Result<usize, Refusal>
    ensures { Lists wrapped file.now out.old result out.new }
{
    let circuit = Circuit::read(file, 0)?;
    if loose::is_loose(&circuit, wrapped) {
        return Err(Cause::Loose.into());
    }
    if !fits(&circuit, wrapped, out.len()) {
        return Err(Cause::Room.into());
    }
    let wires = circuit.wires();
    let mut writer = Writer { out, at: 0 };
    lines::put_head(wires, &mut writer);
    lines::put_wrap(wrapped, wires, &mut writer);
    put_gates(&circuit, &mut writer);
    lines::put_wrap(wrapped, wires, &mut writer);
    Ok(writer.at)
}

// The line that says a refusal's number, at the front of out, or refusal 13.
pub fn refused_line(number: u8, out: &mut [u8]) -> Result<usize, Refusal>
    ensures { Writes (refused_line number) out.old result out.new }
{
    let number = number as u16;
    if out.len() < words::REFUSED.len() + text::digits(number) + words::NEWLINE.len() {
        return Err(Cause::Room.into());
    }
    let mut writer = Writer { out, at: 0 };
    text::put_numbered(&words::REFUSED, number, &mut writer);
    writer.put(&words::NEWLINE);
    Ok(writer.at)
}
