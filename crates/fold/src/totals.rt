// The totals of the groups, one for each mask and flip: how many stay, and what they score.
ghost use Rattle.std.specs.Prelude.{◌≡◌, ◌≤◌, length, replicate};
ghost use Rattle.circuit.specs.File.{gates_of};
ghost use Rattle.circuit.specs.Working.{walked};
ghost use Rattle.running.specs.Working.{most_groups, totals_of, At, numbers_after, met, add_met, sum_step};
ghost use Rattle.fold.specs.Working.{staying, kept_in, score_in};

use circuit::{Circuit, Gate};

// As many groups as ten wires can have: 2^10 masks, each with a flip or without (02 §12).
pub(crate) const GROUPS: usize = 2048;

// An angle added, wrapping, to a group's total.
fn add_angle(totals: &mut [u16], group: u16, angle: u16)
    ensures { totals.new ≡ add_met (At group angle) totals.old }
{
    let n = group as usize;
    if n < totals.len() {
        totals[n] = totals[n].wrapping_add(angle);
    }
}

// One gate: it changes what wires hold, or its angle is added where it meets what its wire holds.
fn add_gate(gate: Gate, held: &mut [u16], totals: &mut [u16])
    ensures held_after { held.new ≡ numbers_after gate held.old }
    ensures totals_after { totals.new ≡ add_met (met gate held.old) totals.old }
{
    match gate {
        Gate::Cnot { control, target } => running::mix(held, control, target),
        Gate::Phase { wire, angle } => {
            let group = running::held_at(held, wire);
            add_angle(totals, group, angle)
        }
        Gate::Inverter { wire } => running::invert(held, wire),
    }
}

// All gates of a circuit.
fn add_gates(circuit: &Circuit, held: &mut [u16], totals: &mut [u16])
    ensures { (held.new, totals.new) ≡ walked sum_step (gates_of circuit.now.file.now) (held.old, totals.old) }
{
    for gate in circuit.gates() {
        add_gate(gate, held, totals);
    }
}

// The wrapped sum of each group of a circuit, into a row of zeros that is lent: one that is answered stands on the stack three times.
pub(crate) fn totals_of(circuit: &Circuit, totals: &mut [u16])
    requires { totals.old ≡ replicate most_groups 0 }
    ensures { totals.new ≡ totals_of circuit.now.file.now }
{
    let mut held = running::own_held();
    add_gates(circuit, &mut held, totals);
}

// How many groups stay, and the score of what stays.
#[derive(Drop)]
pub(crate) struct Tally {
    pub(crate) kept: u16,
    pub(crate) score: u16,
}

// 1 for a total with which its group's first gate stays.
fn stays(total: u16) -> u16
    ensures { result ≡ staying total }
{
    if total == 0 { 0 } else { 1 }
}

pub(crate) fn tally_of(totals: &[u16]) -> Tally
    requires { length totals.now ≤ most_groups }
    ensures { (result.kept ≡ kept_in totals.now) × (result.score ≡ score_in totals.now) }
{
    let mut kept: u16 = 0;
    let mut score: u16 = 0;
    for total in totals {
        kept += stays(*total);
        score += running::scored(*total);
    }
    Tally { kept, score }
}
