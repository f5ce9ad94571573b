// The ideal of a table summed up.
ghost use Rattle.std.specs.Prelude.{◌≡◌, ℕ, ◌+◌, ◌*◌, ◌^◌, ◌≤◌, length};
ghost use Rattle.numbers.specs.Sums.{list};
ghost use Rattle.table.specs.Table.{value_at};
ghost use Rattle.circuit.specs.Bytes.{put_at};
ghost use Rattle.coefficients.specs.Coefficients.{listed_start, most_starts, ideal_coefficient};
ghost use Rattle.coefficients.specs.Summaries.{SummarisesIdeal};

use crate::sums::gather;
use crate::{STARTS, empty};
use refusal::Refusal;

// The ideal's coefficients and the ends of its listed starts, each at the front of a slice where they fit, or the
// refusal of the table. Below wire n's own set there are no coefficients, and the ideal ends as it starts.
pub fn summarise_ideal(
    n: u8,
    table: &[u8],
    row: &mut [u16],
    ends: &mut [u16],
) -> Result<(), Refusal>
    ensures { SummarisesIdeal n table.now row.old ends.old result row.new ends.new }
{
    table::check(n, table)?;
    let half = numbers::power(n);
    let size = half + half;
    let mut ideal = empty();
    put_ideal(table, &mut ideal[half..size]);
    put(&ideal[..size], row);
    let starts = listed_starts();
    put(&starts[..n as usize + 2], ends);
    Ok(())
}

// Start 0, then each wire's own.
fn listed_starts() -> [u16; STARTS]
    ensures { result ≡ list most_starts listed_start }
{
    [0, 1, 2, 4, 8, 16, 32, 64, 128, 256, 512]
}

// The coefficients of the sets with wire n: at each set the half turns of the sets that lie in it.
fn put_ideal(table: &[u8], v: &mut [u16])
    requires { length v.old ≤ 256 }
    ensures { (n : ℕ) → length v.old ≡ 2 ^ n → v.new ≡ list (2 ^ n) (λ s. ideal_coefficient n (value_at table.now) (2 ^ n + s)) }
{
    put_turns(table, v);
    gather(v, false)
}

// Half a turn at each x of f(x) = 1.
fn put_turns(table: &[u8], v: &mut [u16])
    ensures { v.new ≡ list (length v.old) (λ x. 32768 * value_at table.now x) }
{
    for (x, angle) in v.iter_mut().enumerate() {
        *angle = 32768 * table::value(table, x) as u16;
    }
}

// Numbers at the front of a slice; where they do not fit, nothing is written.
fn put(values: &[u16], out: &mut [u16])
    ensures { out.new ≡ put_at values.now 0 out.old }
{
    let size = values.len();
    if size <= out.len() {
        out[..size].copy_from_slice(values);
    }
}
