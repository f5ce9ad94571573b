// A run of a circuit on one starting state.
ghost use Rattle.std.specs.Prelude.{◌≡◌, ◌<◌};
ghost use Rattle.numbers.specs.Bits.{bit};
ghost use Rattle.circuit.specs.Working.{Sound};
ghost use Rattle.circuit.specs.File.{gates_of};
ghost use Rattle.running.specs.Run.{stepped, added, end_from, phase_from, Runs};
ghost use Rattle.running.specs.Masks.{most_wires};

use crate::Ran;
use circuit::{Circuit, Gate};
use numbers::power;
use refusal::{Cause, Refusal};

fn bit_of(state: u16, wire: u8) -> u16
    requires { wire < most_wires }
    ensures { result ≡ bit state wire }
{
    (state >> wire) % 2
}

// The state after a gate.
fn step(gate: Gate, state: u16) -> u16
    requires { Sound most_wires gate }
    ensures { result ≡ stepped gate state }
{
    match gate {
        Gate::Cnot { control, target } => state ^ (bit_of(state, control) << target),
        Gate::Phase { wire: _, angle: _ } => state,
        Gate::Inverter { wire } => state ^ (1 << wire),
    }
}

// What a gate adds to the phase.
fn turn(gate: Gate, state: u16) -> u16
    requires { Sound most_wires gate }
    ensures { result ≡ added gate state }
{
    match gate {
        Gate::Cnot {
            control: _,
            target: _,
        } => 0,
        Gate::Phase { wire, angle } => angle * bit_of(state, wire),
        Gate::Inverter { wire: _ } => 0,
    }
}

// The run of a circuit's gates.
fn run_gates(circuit: &Circuit, start: u16) -> Ran
    ensures { (result.state ≡ end_from (gates_of circuit.now.file.now) start) × (result.phase ≡ phase_from (gates_of circuit.now.file.now) start) }
{
    let mut state: u16 = start;
    let mut phase: u16 = 0;
    for gate in circuit.gates() {
        phase = phase.wrapping_add(turn(gate, state));
        state = step(gate, state);
    }
    Ran { state, phase }
}

// The end state and the total phase of a run from `start`, or a refusal.
pub fn run(file: &[u8], start: u16) -> Result<Ran, Refusal>
    ensures { Runs file.now start result }
{
    let circuit = Circuit::read(file, 0)?;
    if (start as usize) >= power(circuit.wires()) {
        return Err(Cause::State.into());
    }
    Ok(run_gates(&circuit, start))
}
