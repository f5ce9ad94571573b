// Document 01, "Running, counting, folding": phase gates that meet the same mask and flip become one.
#![tactic(auto)]

ghost use Rattle.std.specs.Prelude.{◌≡◌};
ghost use Rattle.fold.specs.Fold.{Folds};

use circuit::{Circuit, Writer};
use refusal::{Cause, Refusal};

mod totals;
mod writer;

// What the folding answers: the new file's length, and the scores before and after.
#[derive(Clone, Copy, PartialEq, Eq)]
pub struct Folded {
    pub length: usize,
    pub before: usize,
    pub after: usize,
}

// The folded file at the front of out, or a refusal.
pub fn fold(file: &[u8], out: &mut [u8]) -> Result<Folded, Refusal>
    ensures { Folds file.now out.old result out.new }
{
    let circuit = Circuit::read(file, 0)?;
    let counted = running::count_gates(&circuit);
    let mut totals = [0; totals::GROUPS];
    totals::totals_of(&circuit, &mut totals);
    let tally = totals::tally_of(&totals);
    let kept = counted.cnots + counted.inverters + (tally.kept as usize);
    let length = 8 + 4 * kept;
    if out.len() < length {
        return Err(Cause::Room.into());
    }
    circuit::put_header(circuit.version(), circuit.wires(), kept as u16, out);
    let mut writer = Writer { out, at: 8 };
    writer::write_gates(&circuit, &mut totals, &mut writer);
    Ok(Folded {
        length,
        before: counted.score,
        after: tally.score as usize,
    })
}
