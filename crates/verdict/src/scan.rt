// The lowest place where two summaries differ, and how.
ghost use Rattle.std.specs.Prelude.{◌≡◌, ◌*◌, ◌<◌, ◌≤◌, length};
ghost use Rattle.numbers.specs.Search.{least};
ghost use Rattle.numbers.specs.Working.{unlike};
ghost use Rattle.coefficients.specs.Working.{entry};
ghost use Rattle.verdict.specs.Working.{end_of, summary, lowest_place, judged};

use crate::Verdict;
use crate::summary::Summary;

// The verdict at the lowest place where the summaries differ: both ends there, and first minus second.
pub(crate) fn scan(first: &Summary, second: &Summary) -> Verdict
    requires { first.now.wires ≡ second.now.wires }
    ensures { result ≡ judged first.now.wires (summary first.now.row.now first.now.ends.now) (summary second.now.row.now second.now.ends.now) }
{
    let state = lowest_place(first, second);
    if state < numbers::power(first.wires) {
        return Verdict::Different {
            state: state as u16,
            first: end_at(first, state),
            second: end_at(second, state),
            phase: first.row[state].wrapping_sub(second.row[state]),
        };
    }
    Verdict::Same
}

// The lowest place of unlike coefficients, or of unlike ends, start 0's standing at 0 and wire i's at 2^i; 2^w where all
// are alike.
fn lowest_place(first: &Summary, second: &Summary) -> usize
    requires { first.now.wires ≡ second.now.wires }
    ensures { result ≡ lowest_place first.now.wires (summary first.now.row.now first.now.ends.now) (summary second.now.row.now second.now.ends.now) }
{
    let place = first_unlike(first.row, second.row, numbers::power(first.wires));
    let listed = first_unlike(first.ends, second.ends, first.wires as usize + 1);
    let start = (1usize << listed) / 2;
    if place < start { place } else { start }
}

// The first of `count` places where two rows differ, or `count`. Both are cut here, and not at each of the two calls.
fn first_unlike(a: &[u16], b: &[u16], count: usize) -> usize
    requires { (count ≤ length a.now) × (count ≤ length b.now) }
    ensures { result ≡ least (unlike (entry a.now) (entry b.now)) count 0 }
{
    a[..count]
        .iter()
        .zip(&b[..count])
        .position(|(x, y)| x != y)
        .unwrap_or(count)
}

// Where a state ends: the exclusive or of its bits' ends, with start 0's where they are evenly many.
fn end_at(side: &Summary, state: usize) -> u16
    ensures { result ≡ end_of side.now.wires (entry side.now.ends.now) state }
{
    let starts = side.wires as usize + 1;
    let bits = state.count_ones() as usize;
    let mut end = where_set((bits + 1) % 2, side.ends[0]);
    for (wire, own) in side.ends[1..starts].iter().enumerate() {
        end ^= where_set((state >> wire) % 2, *own);
    }
    end
}

fn where_set(bit: usize, end: u16) -> u16
    requires { bit < 2 }
    ensures { result ≡ bit * end }
{
    if bit == 0 { 0 } else { end }
}
