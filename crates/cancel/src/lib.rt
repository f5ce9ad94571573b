// Document 02, §9: equal CNOTs beside each other go, pair by pair.
#![tactic(auto)]

ghost use Rattle.cancel.specs.Cancel.{Cancels};

use circuit::Circuit;
use refusal::{Cause, Refusal};

mod pass;
mod writer;

// As many gates as a file can have.
const GATES: usize = 2048;

// The most removals that a caller may allow.
const MOST_ALLOWED: u16 = 2048;

// What the cancelling answers: the new file's length, and how many pairs went.
#[derive(Clone, Copy, PartialEq, Eq)]
pub struct Cancelled {
    pub length: usize,
    pub pairs: usize,
}

// The file without the pairs that go at the front of out, or a refusal.
pub fn cancel(file: &[u8], most: u16, out: &mut [u8]) -> Result<Cancelled, Refusal>
    ensures { Cancels file.now most out.old result out.new }
{
    let circuit = Circuit::read(file, 0)?;
    if most > MOST_ALLOWED {
        return Err(Cause::Allow.into());
    }
    let mut row = [0u16; GATES];
    let kept = pass::pass(&circuit, most as usize, &mut row);
    let length = 8 + 4 * kept.gates;
    if out.len() < length {
        return Err(Cause::Room.into());
    }
    circuit::put_header_of(file, kept.gates as u16, out);
    writer::write_gates(file, &row[..kept.gates], out);
    Ok(Cancelled {
        length,
        pairs: kept.pairs,
    })
}
