// The count of a circuit's gates.
ghost use Rattle.std.specs.Prelude.{◌≡◌, [], ◌∷◌};
ghost use Rattle.circuit.specs.File.{gates_of};
ghost use Rattle.running.specs.Run.{free_turn, scores, cnots, phases, score, inverters, Counts, counted};

use crate::Counted;
use circuit::{Circuit, Gate};
use refusal::Refusal;

// Multiples of this angle are free (02 §2): quarter and half turns.
const FREE_TURN: u16 = 16384;

// 1 where a phase gate of that angle scores.
pub fn scored(angle: u16) -> u16
    ensures { result ≡ scores free_turn angle }
{
    if angle % FREE_TURN == 0 { 0 } else { 1 }
}

// What one gate counts.
#[derive(Drop)]
struct Tally {
    cnots: u16,
    score: u16,
    inverters: u16,
}

fn own(cnots: u16, score: u16, inverters: u16) -> Tally
    ensures { (result.cnots ≡ cnots) × (result.score ≡ score) × (result.inverters ≡ inverters) }
{
    Tally {
        cnots,
        score,
        inverters,
    }
}

fn counts_of(gate: Gate) -> Tally
    ensures { (result.cnots ≡ cnots (gate ∷ [])) × (result.score ≡ score (gate ∷ [])) × (result.inverters ≡ inverters (gate ∷ [])) }
{
    match gate {
        Gate::Cnot {
            control: _,
            target: _,
        } => own(1, 0, 0),
        Gate::Phase { wire: _, angle } => own(0, scored(angle), 0),
        Gate::Inverter { wire: _ } => own(0, 0, 1),
    }
}

// The counts of a circuit's gates.
pub fn count_gates(circuit: &Circuit) -> Counted
    ensures { result ≡ counted (gates_of circuit.now.file.now) }
{
    let mut cnots: u16 = 0;
    let mut score: u16 = 0;
    let mut inverters: u16 = 0;
    for gate in circuit.gates() {
        let own = counts_of(gate);
        cnots += own.cnots;
        score += own.score;
        inverters += own.inverters;
    }
    let phases = circuit.gate_count() - ((cnots + inverters) as usize);
    Counted {
        cnots: cnots as usize,
        phases,
        score: score as usize,
        inverters: inverters as usize,
    }
}

// The CNOTs, the phase gates, the score and the inverters of a file, or a refusal.
pub fn count(file: &[u8]) -> Result<Counted, Refusal>
    ensures { Counts file.now result }
{
    Ok(count_gates(&Circuit::read(file, 0)?))
}
