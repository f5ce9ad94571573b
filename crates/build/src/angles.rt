// theta_k from s_k.
ghost use Rattle.std.specs.Prelude.{◌≡◌, ℕ, ◌≤◌, length, pos, slice_index_or, unsigned_abs};
ghost use Rattle.numbers.specs.Sums.{list};
ghost use Rattle.numbers.specs.Turn.{wrap};
ghost use Rattle.spectrum.specs.Spectrum.{angle};

// The angle of each coefficient.
pub(crate) fn write_angles(n: u8, coefficients: &[i32], out: &mut [u16])
    requires n_bound { n ≤ 8 }
    requires same_length { length out.old ≡ length coefficients.now }
    requires small { (k : ℕ) → unsigned_abs (slice_index_or coefficients.now k (pos 0)) ≤ 256 }
    ensures { out.new ≡ list (length out.old) (λ k. angle n (slice_index_or coefficients.now k (pos 0))) }
{
    let scale = numbers::power(14 - n) as i32;
    // By index, since after a zip a proof does not know what was written through iter_mut.
    for (k, angle) in out.iter_mut().enumerate() {
        *angle = wrapped(coefficients[k] * scale);
    }
}

// A whole number of units of either sign, as an angle.
fn wrapped(units: i32) -> u16
    ensures { result ≡ wrap units }
{
    units.rem_euclid(65536) as u16
}
