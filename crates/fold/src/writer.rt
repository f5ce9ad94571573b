// The folded gates, written.
ghost use Rattle.std.specs.Prelude.{◌≡◌, ◌+◌, ◌≤◌, length, slice_index, slice_set};
ghost use Rattle.circuit.specs.Working.{Wrote};
ghost use Rattle.circuit.specs.Gates.{bytes_of};
ghost use Rattle.circuit.specs.File.{wires_of, gates_of};
ghost use Rattle.running.specs.Working.{totals_of, met, numbers_after};
ghost use Rattle.fold.specs.Fold.{folded, kept};
ghost use Rattle.fold.specs.Working.{taken_from, found, left, leaves};

use circuit::{Circuit, Gate, Writer};

// Takes a group's total: the entry becomes 0, so that later gates of the group find 0.
fn take(totals: &mut [u16], group: u16) -> u16
    ensures value { result ≡ slice_index totals.old group }
    ensures totals_after { totals.new ≡ slice_set totals.old group 0 }
{
    let n = group as usize;
    if n < totals.len() {
        let total = totals[n];
        totals[n] = 0;
        return total;
    }
    0
}

// A phase gate with its group's total.
fn phase(wire: u8, total: u16) -> Option<Gate>
    ensures { leaves result ≡ kept wire total }
{
    if total == 0 {
        return None;
    }
    Some(Gate::Phase { wire, angle: total })
}

// What becomes of a gate whose group's total is taken from the row.
fn fold_gate(gate: Gate, held: &mut [u16], totals: &mut [u16]) -> Option<Gate>
    ensures held_after { held.new ≡ numbers_after gate held.old }
    ensures totals_after { totals.new ≡ taken_from (met gate held.old) totals.old }
    ensures result_value { leaves result ≡ left (found (met gate held.old) totals.old) gate }
{
    match gate {
        Gate::Cnot { control, target } => {
            running::mix(held, control, target);
            Some(Gate::Cnot { control, target })
        }
        Gate::Phase { wire, angle: _ } => {
            let group = running::held_at(held, wire);
            phase(wire, take(totals, group))
        }
        Gate::Inverter { wire } => {
            running::invert(held, wire);
            Some(Gate::Inverter { wire })
        }
    }
}

// What is left of a gate.
fn put_left(left: Option<Gate>, writer: &mut Writer)
    requires { writer.old.at + length (bytes_of (leaves left)) ≤ length writer.old.out.now }
    ensures wrote { Wrote (bytes_of (leaves left)) writer.old.at writer.old.out.now writer.new.at writer.new.out.now }
    ensures same_reference { writer.new.out.ghost_name ≡ writer.old.out.ghost_name }
{
    if let Some(gate) = left {
        writer.put_gate(gate);
    }
}

// The folded gates.
pub(crate) fn write_gates(circuit: &Circuit, totals: &mut [u16], writer: &mut Writer)
    requires summed { totals.old ≡ totals_of circuit.now.file.now }
    requires fits { writer.old.at + length (bytes_of (folded (wires_of circuit.now.file.now) (gates_of circuit.now.file.now))) ≤ length writer.old.out.now }
    ensures wrote { Wrote (bytes_of (folded (wires_of circuit.now.file.now) (gates_of circuit.now.file.now))) writer.old.at writer.old.out.now writer.new.at writer.new.out.now }
    ensures same_reference { writer.new.out.ghost_name ≡ writer.old.out.ghost_name }
{
    let mut held = running::own_held();
    for gate in circuit.gates() {
        let left = fold_gate(gate, &mut held, totals);
        put_left(left, writer);
    }
}
