// Each answer as six numbers.
ghost use Rattle.std.specs.Prelude.{◌≡◌, ℕ, List, [], ◌∷◌};
ghost use Rattle.refusal.specs.Contract.{said_of, values, answer_says};
ghost use Rattle.verdict.specs.Judging.{verdict_values};
ghost use Rattle.c_interface.specs.Numbers.{numbers_of, gate_numbers, decoded_numbers};

use cancel::Cancelled;
use circuit::{Gate, Header, Placed};
use fold::Folded;
use refusal::{Reason, Refusal};
use running::{Counted, Ran};
use verdict::Verdict;

// What an operation answers where it does not refuse.
pub(crate) trait Values {
    ghost list: { Self → List ℕ };

    fn numbers(self) -> [u64; 6]
        ensures { result ≡ numbers_of (values (list self)) };
}

pub(crate) fn told<V: Values>(answer: Result<V, Refusal>) -> [u64; 6]
    ensures { result ≡ numbers_of (answer_says V.list answer) }
{
    match answer {
        Ok(answered) => answered.numbers(),
        Err(refusal) => refused(refusal),
    }
}

fn refused(r: Refusal) -> [u64; 6]
    ensures { result ≡ numbers_of (said_of r) }
{
    [
        r.cause.number() as u64,
        r.side as u64,
        r.position as u64,
        r.reason.map_or(0, Reason::number) as u64,
        0,
        0,
    ]
}

impl Values for () {
    ghost list = { λ _. [] };

    fn numbers(self) -> [u64; 6] {
        [0, 0, 0, 0, 0, 0]
    }
}

// A number of entries, or a length.
impl Values for usize {
    ghost list = { λ n. n ∷ [] };

    fn numbers(self) -> [u64; 6] {
        [0, self as u64, 0, 0, 0, 0]
    }
}

impl Values for Header {
    ghost list = { λ h. h.wires ∷ h.gates ∷ [] };

    fn numbers(self) -> [u64; 6] {
        [0, self.wires as u64, self.gates as u64, 0, 0, 0]
    }
}

impl Values for Ran {
    ghost list = { λ r. r.state ∷ r.phase ∷ [] };

    fn numbers(self) -> [u64; 6] {
        [0, self.state as u64, self.phase as u64, 0, 0, 0]
    }
}

impl Values for Counted {
    ghost list = { λ c. c.cnots ∷ c.phases ∷ c.score ∷ c.inverters ∷ [] };

    fn numbers(self) -> [u64; 6] {
        [
            0,
            self.cnots as u64,
            self.phases as u64,
            self.score as u64,
            self.inverters as u64,
            0,
        ]
    }
}

impl Values for Folded {
    ghost list = { λ a. a.length ∷ a.before ∷ a.after ∷ [] };

    fn numbers(self) -> [u64; 6] {
        [
            0,
            self.length as u64,
            self.before as u64,
            self.after as u64,
            0,
            0,
        ]
    }
}

impl Values for Cancelled {
    ghost list = { λ a. a.length ∷ a.pairs ∷ [] };

    fn numbers(self) -> [u64; 6] {
        [0, self.length as u64, self.pairs as u64, 0, 0, 0]
    }
}

impl Values for Verdict {
    ghost list = { verdict_values };

    fn numbers(self) -> [u64; 6] {
        match self {
            Verdict::Same => [0, 0, 0, 0, 0, 0],
            Verdict::Different {
                state,
                first,
                second,
                phase,
            } => [
                0,
                1,
                state as u64,
                first as u64,
                second as u64,
                phase as u64,
            ],
        }
    }
}

pub(crate) fn decoded(answer: Result<Placed, Reason>) -> [u64; 6]
    ensures { result ≡ decoded_numbers answer }
{
    match answer {
        Ok(placed) => gate_numbers(placed.position as u64, placed.gate),
        Err(reason) => [0, reason.number() as u64, 0, 0, 0, 0],
    }
}

fn gate_numbers(position: u64, gate: Gate) -> [u64; 6]
    ensures { result ≡ gate_numbers position gate }
{
    match gate {
        Gate::Cnot { control, target } => [1, control as u64, target as u64, position, 0, 0],
        Gate::Phase { wire, angle } => [2, wire as u64, angle as u64, position, 0, 0],
        Gate::Inverter { wire } => [3, wire as u64, 0, position, 0, 0],
    }
}
