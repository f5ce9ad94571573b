// Two circuits compared, and one judged against a table: both sides are summed up, and the two summaries judged.
ghost use Rattle.std.specs.Prelude.{◌≡◌, length};
ghost use Rattle.running.specs.Masks.{most_masks};
ghost use Rattle.verdict.specs.Judging.{Compares, Judges};

use crate::Verdict;
use crate::summaries::judge_summaries;
use crate::summary::Summary;
use coefficients::STARTS;
use refusal::Refusal;
use running::MASKS;

// Whether two circuits do the same, or the lowest starting state at which they part, and how. The
// front of work becomes the first's coefficients minus the second's.
pub fn compare(first: &[u8], second: &[u8], work: &mut [u16]) -> Result<Verdict, Refusal>
    ensures { Compares first.now second.now work.old result work.new }
{
    let mut first_row = empty();
    let mut first_ends = [0u16; STARTS];
    let mut second_row = empty();
    let mut second_ends = [0u16; STARTS];
    let wires = coefficients::summarise(first, 0, &mut first_row, &mut first_ends)?.wires;
    let width = coefficients::summarise(second, 1, &mut second_row, &mut second_ends)?.wires;
    judge_summaries(
        &Summary {
            wires,
            row: &first_row,
            ends: &first_ends,
        },
        &Summary {
            wires: width,
            row: &second_row,
            ends: &second_ends,
        },
        work,
    )
}

// Whether a circuit is the oracle of a table, or the lowest starting state at which it is not, and how.
pub fn judge(n: u8, table: &[u8], file: &[u8], work: &mut [u16]) -> Result<Verdict, Refusal>
    ensures { Judges n table.now file.now work.old result work.new }
{
    let mut ideal_row = empty();
    let mut ideal_ends = [0u16; STARTS];
    let mut row = empty();
    let mut ends = [0u16; STARTS];
    coefficients::summarise_ideal(n, table, &mut ideal_row, &mut ideal_ends)?;
    let wires = coefficients::summarise(file, 0, &mut row, &mut ends)?.wires;
    judge_summaries(
        &Summary {
            wires,
            row: &row,
            ends: &ends,
        },
        &Summary {
            wires: n + 1,
            row: &ideal_row,
            ends: &ideal_ends,
        },
        work,
    )
}

// A row to be lent.
fn empty() -> [u16; MASKS]
    ensures { length result ≡ most_masks }
{
    [0u16; MASKS]
}
