// Document 01, "Spectrum": the Walsh-Hadamard spectrum of a truth table.
#![tactic(auto)]

ghost use Rattle.std.specs.Prelude.{◌≡◌, ℕ, ◌^◌, ◌+◌, ◌<◌, ◌≤◌, ◌++◌, ◌+ℤ◌, ◌-ℤ◌, length, pos, nat_abs};
ghost use Rattle.numbers.specs.Sums.{list};
ghost use Rattle.numbers.specs.Turn.{flip};
ghost use Rattle.table.specs.Table.{value_at};
ghost use Rattle.spectrum.specs.Spectrum.{Transforms};
ghost use Rattle.spectrum.specs.Working.{transformed, sum_and_difference, sums_and_differences, Tame, Paired};

use refusal::{Cause, Refusal};

// Puts s_0 to s_(2^n - 1) at the front of out and answers 2^n.
pub fn spectrum(n: u8, table: &[u8], out: &mut [i32]) -> Result<usize, Refusal>
    ensures { Transforms n table.now out.old result out.new }
{
    table::check(n, table)?;
    let entries = numbers::power(n);
    if out.len() < entries {
        return Err(Cause::Room.into());
    }
    write_signs(table, &mut out[..entries]);
    transform(&mut out[..entries]);
    Ok(entries)
}

// Entry x becomes +1, or -1 where f(x) is 1.
fn write_signs(table: &[u8], out: &mut [i32])
    ensures { out.new ≡ list (length out.old) (λ x. flip (value_at table.now x) (pos 1)) }
{
    for (x, entry) in out.iter_mut().enumerate() {
        *entry = sign(table::value(table, x));
    }
}

fn sign(value: u8) -> i32
    requires { value < 2 }
    ensures { result ≡ flip value (pos 1) }
{
    if value == 0 { 1 } else { -1 }
}

// H_n by halves: each half is transformed, then the two are added and subtracted.
fn transform(row: &mut [i32])
    requires { Tame row.old }
    ensures { (n : ℕ) → length row.old ≡ 2 ^ n → row.new ≡ transformed n row.old }
{
    if row.len() == 4 {
        four(row);
        return;
    }
    let half = row.len() / 2;
    if 0 < half {
        let (front, back) = row.split_at_mut(half);
        transform(front);
        transform(back);
        add_and_subtract(front, back);
    }
}

// H_2, straight: the base of the recursion.
fn four(row: &mut [i32])
    requires four_entries { length row.old ≡ 4 }
    requires tame { Tame row.old }
    ensures { (n : ℕ) → length row.old ≡ 2 ^ n → row.new ≡ transformed n row.old }
{
    let (front, back) = row.split_at_mut(2);
    two(front);
    two(back);
    add_and_subtract(front, back);
}

// H_1: the sum of two entries and their difference.
fn two(row: &mut [i32])
    requires two_entries { length row.old ≡ 2 }
    requires paired { Paired 1 row.old }
    ensures { row.new ≡ sum_and_difference 0 1 row.old }
{
    let (first, second) = row.split_at_mut(1);
    add_and_subtract(first, second);
}

// The sums of the halves' entries into the first half, their differences into the second.
fn add_and_subtract(front: &mut [i32], back: &mut [i32])
    requires same_length { length back.old ≡ length front.old }
    requires paired { Paired (length front.old) (front.old ++ back.old) }
    ensures { front.new ++ back.new ≡ sums_and_differences (length front.old) (front.old ++ back.old) }
{
    // By index, since after a zip a proof does not know what was written through iter_mut.
    for (i, first) in front.iter_mut().enumerate() {
        add_and_subtract_two(first, &mut back[i]);
    }
}

// The same of two entries.
fn add_and_subtract_two(first: &mut i32, second: &mut i32)
    requires { nat_abs first.old + nat_abs second.old ≤ 2147483647 }
    ensures sum { first.new ≡ first.old +ℤ second.old }
    ensures difference { second.new ≡ first.old -ℤ second.old }
{
    let difference = *first - *second;
    *first += *second;
    *second = difference;
}
