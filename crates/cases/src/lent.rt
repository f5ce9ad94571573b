// Slices lent to an operation: what they hold before it, and their bytes after it.
ghost use Rattle.std.specs.Prelude.{◌≤◌, length};

use crate::print;
use std::io;

// The most entries of each kind that are lent.
pub(crate) const WORK: usize = 1100;

pub(crate) const SUMS: usize = 600;

// What stands at i before the operation. It comes again after so many entries.
const PERIOD: usize = 251;

fn start(i: usize) -> u8 {
    ((i % PERIOD * 37 + 11) % PERIOD) as u8
}

pub(crate) fn fill<T: From<u8> + Copy>(lent: &mut [T]) {
    for (i, entry) in lent.iter_mut().enumerate().take(PERIOD) {
        *entry = T::from(start(i));
    }
    for i in PERIOD..lent.len() {
        lent[i] = lent[i - PERIOD];
    }
}

pub(crate) fn print_bytes(rt: &impl Print, bytes: &[u8]) -> io::Result<()> {
    print!(rt; ";")?;
    print::bytes(rt, bytes)
}

// Two bytes an entry, the higher first.
pub(crate) fn print_work(rt: &impl Print, lent: &[u16]) -> io::Result<()>
    requires { length lent.now ≤ WORK }
{
    let mut bytes = [0; 2 * WORK];
    for (i, entry) in lent.iter().enumerate() {
        bytes[2 * i..2 * i + 2].copy_from_slice(&entry.to_be_bytes());
    }
    print_bytes(rt, &bytes[..2 * lent.len()])
}

// The sums in 16 bits each. One that needs more is shown as the nearest that fits, which no
// spectrum has.
pub(crate) fn print_sums(rt: &impl Print, sums: &[i32]) -> io::Result<()>
    requires { length sums.now ≤ SUMS }
{
    let mut shown = [0; SUMS];
    for (entry, sum) in shown.iter_mut().zip(sums) {
        *entry = pattern(*sum);
    }
    print_work(rt, &shown[..sums.len()])
}

fn pattern(sum: i32) -> u16 {
    let size = numbers::magnitude(sum);
    if sum < 0 {
        (size.min(32768) as u16).wrapping_neg()
    } else {
        size.min(32767) as u16
    }
}
