// Document 01, "Numbers and conventions": packed truth tables, and refusals 1 to 3.
#![tactic(auto)]

ghost use Rattle.std.specs.Prelude.{◌≡◌, ◌^◌, ◌-◌, ◌≤◌, ◌<◌, min, get_or};
ghost use Rattle.numbers.specs.Bits.{bit};
ghost use Rattle.table.specs.Table.{value_at, Checks};

use refusal::{Cause, Refusal};

// Whether `table` is the packed table of a function of n variables.
pub fn check(n: u8, table: &[u8]) -> Result<(), Refusal>
    ensures { Checks n table.now result }
{
    if n == 0 {
        return Err(Cause::Vars.into());
    }
    if 8 < n {
        return Err(Cause::Vars.into());
    }
    if table.len() != bytes(n) {
        return Err(Cause::Table.into());
    }
    let first = table[0];
    if used(n) <= first as u16 {
        return Err(Cause::Pad.into());
    }
    Ok(())
}

// f(x); 0 past the table's end.
pub fn value(table: &[u8], x: usize) -> u8
    ensures { result ≡ value_at table.now x }
{
    bit_of(byte_at(table, x / 8), x % 8)
}

fn bit_of(byte: u8, place: usize) -> u8
    requires { place < 8 }
    ensures { result ≡ bit byte place }
{
    (byte >> place) % 2
}

fn byte_at(table: &[u8], i: usize) -> u8
    ensures { result ≡ get_or table.now i 0 }
{
    table.get(i).copied().unwrap_or(0)
}

// The table's length.
fn bytes(n: u8) -> usize
    requires { n ≤ 8 }
    ensures { result ≡ 2 ^ (n - 3) }
{
    if n < 3 { 1 } else { numbers::power(n - 3) }
}

// What the first byte is below where its unused bits are 0.
fn used(n: u8) -> u16
    requires { n ≤ 8 }
    ensures { result ≡ 2 ^ min (2 ^ n) 8 }
{
    match n {
        0 => 2,
        1 => 4,
        2 => 16,
        _ => 256,
    }
}
