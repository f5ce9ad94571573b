// Document 01, "Numbers and conventions": what the other crates compute with.
#![tactic(auto)]

ghost use Rattle.std.specs.Prelude.{◌≡◌, ◌%◌, ◌^◌, length, slice_index, unsigned_abs};
ghost use Rattle.numbers.specs.Sums.{list};
ghost use Rattle.numbers.specs.Turn.{difference};

// 2^k, modulo 2^64.
pub fn power(k: u8) -> usize
    ensures { result ≡ 2 ^ k % 2 ^ 64 }
{
    1usize.checked_shl(u32::from(k)).unwrap_or(0)
}

// How far x is from 0.
pub fn magnitude(x: i32) -> u32
    ensures { result ≡ unsigned_abs x }
{
    x.unsigned_abs()
}

// Each angle of the row becomes its opposite.
pub fn negate(row: &mut [u16])
    ensures { row.new ≡ list (length row.old) (λ k. difference 0 (slice_index row.old k)) }
{
    for angle in row.iter_mut() {
        *angle = angle.wrapping_neg();
    }
}
