// Sums by halves: at each set, the entries of the sets that contain it, or of those that lie in it.
ghost use Rattle.std.specs.Prelude.{◌≡◌, ℕ, ◌+◌, ◌*◌, ◌%◌, ◌^◌, ◌<◌, ◌≤◌, length};
ghost use Rattle.numbers.specs.Sums.{list};
ghost use Rattle.running.specs.Masks.{most_masks};
ghost use Rattle.coefficients.specs.Working.{entry, gathered, joined, in_blocks};

// Blocks of one entry at first, then each two neighbours made one, until one block is left. `up` is a flag and no
// closure: the definitions `gathered` and `joined` take it, and each of its two steps is one call.
pub(crate) fn gather(v: &mut [u16], up: bool)
    requires { length v.old ≤ most_masks }
    ensures { (n : ℕ) → length v.old ≡ 2 ^ n → v.new ≡ gathered up n v.old }
{
    let mut half: usize = 1;
    // a size that doubles is no index: no iterator steps so
    while half < v.len() {
        join_blocks(v, half, up);
        half += half;
    }
}

// Each two neighbouring blocks of `half` entries become one.
fn join_blocks(v: &mut [u16], half: usize, up: bool)
    requires { (0 < half) × (half ≤ length v.old) × (length v.old ≤ most_masks) }
    ensures { (c : ℕ) → length v.old ≡ c * (half + half) → v.new ≡ in_blocks (joined up half) (half + half) c v.old }
{
    // of what is written through `chunks_exact_mut` a proof knows nothing: `returns` stays open
    let size = half + half;
    for block in 0..v.len() / size {
        let start = block * size;
        join_halves(&mut v[start..start + size], half, up);
    }
}

// The two halves, one added to the other: the upper to the lower if `up`.
fn join_halves(v: &mut [u16], half: usize, up: bool)
    requires { half + half ≡ length v.old }
    ensures { v.new ≡ joined up half v.old }
{
    let (lower, upper) = v.split_at_mut(half);
    if up {
        add_row(lower, upper);
    } else {
        add_row(upper, lower);
    }
}

// Each entry of the one row is added to the other's at its place.
fn add_row(to: &mut [u16], from: &[u16])
    requires { length to.old ≡ length from.now }
    ensures { to.new ≡ list (length to.old) (λ i. (entry to.old i + entry from.now i) % 65536) }
{
    // of what is written through a `zip` of `iter_mut` a proof knows nothing: `returns` stays open
    for (i, sum) in to.iter_mut().enumerate() {
        *sum = sum.wrapping_add(from[i]);
    }
}
