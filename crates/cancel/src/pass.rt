// One pass over the gates. What is kept is a stack: a row of positions, the last gate's on top.
ghost use Rattle.std.specs.Prelude.{◌≡◌, ◌≤◌, ◌&&◌, ltb, length};
ghost use Rattle.circuit.specs.declared.Gate.TheVariants.{Cnot};
ghost use Rattle.circuit.specs.File.{count_of};
ghost use Rattle.circuit.specs.Working.{said_at};
ghost use Rattle.cancel.specs.Cancel.{twins};
ghost use Rattle.cancel.specs.Working.{stack, meets, Remains};

use circuit::{Circuit, Gate};

// How many gates are kept, and how many pairs have gone.
#[derive(Drop)]
pub(crate) struct Kept {
    pub(crate) gates: usize,
    pub(crate) pairs: usize,
}

// Whether a gate is the CNOT of that control and target.
fn is_cnot(gate: Gate, control: u8, target: u8) -> bool
    ensures { result ≡ twins (Cnot control target) gate }
{
    match gate {
        Gate::Cnot {
            control: c,
            target: t,
        } => (control == c) & (target == t),
        Gate::Phase { .. } | Gate::Inverter { .. } => false,
    }
}

// Whether two gates are the same CNOT: `==` would hold of two phases and two inverters too.
fn are_twins(one: Gate, other: Gate) -> bool
    ensures { result ≡ twins one other }
{
    match one {
        Gate::Cnot { control, target } => is_cnot(other, control, target),
        Gate::Phase { .. } | Gate::Inverter { .. } => false,
    }
}

// Whether the gate at `i` goes with the last that is kept: one removal more is allowed, and they are twins.
fn goes(file: &[u8], kept: &[u16], i: usize, pairs: usize, most: usize) -> bool
    ensures { result ≡ (ltb pairs most && meets (stack file.now kept.now (length kept.now)) (said_at file.now i)) }
{
    if most <= pairs {
        return false;
    }
    if kept.len() == 0 {
        return false;
    }
    let last = kept[kept.len() - 1] as usize;
    are_twins(circuit::good_gate(file, last), circuit::good_gate(file, i))
}

// Leaves the positions of the gates that are kept at the front of the row: a gate goes with its twin or is kept.
pub(crate) fn pass(circuit: &Circuit, most: usize, row: &mut [u16]) -> Kept
    requires { count_of circuit.now.file.now ≤ length row.old }
    ensures { Remains circuit.now.file.now most row.new result.gates result.pairs }
{
    let mut kept: usize = 0;
    let mut pairs: usize = 0;
    // by position, since positions are what is kept
    for i in 0..circuit.gate_count() {
        if goes(circuit.file, &row[..kept], i, pairs, most) {
            kept -= 1;
            pairs += 1;
        } else {
            row[kept] = i as u16;
            kept += 1;
        }
    }
    Kept { gates: kept, pairs }
}
