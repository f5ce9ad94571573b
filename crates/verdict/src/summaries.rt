// Two summaries judged by their numbers alone.
ghost use Rattle.std.specs.Prelude.{◌≡◌, ◌≤◌, length};
ghost use Rattle.numbers.specs.Sums.{list};
ghost use Rattle.numbers.specs.Turn.{difference};
ghost use Rattle.coefficients.specs.Working.{entry};
ghost use Rattle.verdict.specs.Working.{summary, JudgesSummaries};

use crate::Verdict;
use crate::scan::scan;
use crate::summary::Summary;
use refusal::{Cause, Refusal};

// Refused where the wires differ or the work slice is short; else the front of work becomes the first's coefficients
// minus the second's.
pub(crate) fn judge_summaries(
    first: &Summary,
    second: &Summary,
    work: &mut [u16],
) -> Result<Verdict, Refusal>
    ensures { JudgesSummaries first.now.wires (summary first.now.row.now first.now.ends.now) second.now.wires (summary second.now.row.now second.now.ends.now) work.old result work.new }
{
    if first.wires != second.wires {
        return Err(Cause::Unlike.into());
    }
    let size = numbers::power(first.wires);
    if work.len() < size {
        return Err(Cause::Room.into());
    }
    subtract(first.row, second.row, &mut work[..size]);
    Ok(scan(first, second))
}

// First minus second at each place of the work slice.
fn subtract(first: &[u16], second: &[u16], work: &mut [u16])
    requires { (length work.old ≤ length first.now) × (length work.old ≤ length second.now) }
    ensures { work.new ≡ list (length work.old) (λ s. difference (entry first.now s) (entry second.now s)) }
{
    // of what is written through a `zip` of `iter_mut` a proof knows nothing: `returns` stays open
    for (s, entry) in work.iter_mut().enumerate() {
        *entry = first[s].wrapping_sub(second[s]);
    }
}
