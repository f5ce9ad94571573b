// A phase of a on a flipped mask adds a constant a and minus a on the mask (02 §12): what each mask has, and the constant, gate by gate.
ghost use Rattle.std.specs.Prelude.{◌≡◌, ◌*◌, ◌%◌};
ghost use Rattle.circuit.specs.File.{gates_of};
ghost use Rattle.circuit.specs.Working.{walked};
ghost use Rattle.running.specs.Working.{At, numbers_after, met, met_by};
ghost use Rattle.coefficients.specs.Working.{signed_by, sign_met, turned_of, sign_step};

use circuit::{Circuit, Gate};

// The angle added, wrapping, or taken off where there is a flip.
fn signed_sum(flip: u16, sum: u16, angle: u16) -> u16
    ensures { result ≡ signed_by flip sum angle }
{
    if flip == 0 {
        return sum.wrapping_add(angle);
    }
    sum.wrapping_sub(angle)
}

// What an angle makes of its mask's sum.
fn add_signed(signed: &mut [u16], group: u16, angle: u16)
    ensures { signed.new ≡ sign_met (At group angle) signed.old }
{
    let m = (group / 2) as usize;
    if m < signed.len() {
        signed[m] = signed_sum(group % 2, signed[m], angle);
    }
}

// What it adds to the constant: the angle where there is a flip.
fn turned(group: u16, angle: u16) -> u16
    ensures { result ≡ turned_of group angle }
{
    angle * (group % 2)
}

// One gate: it changes what wires hold, or its angle is added where it meets what its wire holds. Answered is what it
// adds to the constant.
fn add_gate(gate: Gate, held: &mut [u16], signed: &mut [u16]) -> u16
    ensures held_after { held.new ≡ numbers_after gate held.old }
    ensures signed_after { signed.new ≡ sign_met (met gate held.old) signed.old }
    ensures value { result ≡ met_by turned_of (met gate held.old) }
{
    match gate {
        Gate::Cnot { control, target } => {
            running::mix(held, control, target);
            0
        }
        Gate::Phase { wire, angle } => {
            let group = running::held_at(held, wire);
            add_signed(signed, group, angle);
            turned(group, angle)
        }
        Gate::Inverter { wire } => {
            running::invert(held, wire);
            0
        }
    }
}

// All gates of a circuit; answered is the constant.
pub(crate) fn add_gates(circuit: &Circuit, held: &mut [u16], signed: &mut [u16]) -> u16
    ensures { (held.new, signed.new, result) ≡ walked sign_step (gates_of circuit.now.file.now) (held.old, signed.old, 0) }
{
    let mut constant: u16 = 0;
    for gate in circuit.gates() {
        constant = constant.wrapping_add(add_gate(gate, held, signed));
    }
    constant
}
