// Fixed words and numbers, written as text.
ghost use Rattle.std.specs.Prelude.{◌≡◌, cond, [], ◌++◌, ◌+◌, ◌%◌, ◌≤◌, ltb, length};
ghost use Rattle.circuit.specs.Working.{Wrote};
ghost use Rattle.listing.specs.Text.{digit, decimal};
ghost use Rattle.listing.specs.Words.{words};

use crate::words::CLOSING;
use circuit::Writer;

// How many digits a number has.
pub(crate) fn digits(n: u16) -> usize
    ensures { (result ≡ length (decimal n)) × (result ≤ 5) }
{
    match n {
        0..=9 => 1,
        10..=99 => 2,
        100..=999 => 3,
        1000..=9999 => 4,
        _ => 5,
    }
}

// Text at the writer's place, as `Writer::put` puts it where it fits: without that question a listing takes half the time.
pub(crate) fn put_text(text: &[u8], writer: &mut Writer)
    requires { writer.old.at + length text.now ≤ length writer.old.out.now }
    ensures wrote { Wrote text.now writer.old.at writer.old.out.now writer.new.at writer.new.out.now }
    ensures same_reference { writer.new.out.ghost_name ≡ writer.old.out.ghost_name }
{
    let end = writer.at + text.len();
    writer.out[writer.at..end].copy_from_slice(text);
    writer.at = end;
}

// A number's last digit.
fn put_digit(n: u16, writer: &mut Writer)
    requires { writer.old.at + length (digit (n % 10)) ≤ length writer.old.out.now }
    ensures wrote { Wrote (digit (n % 10)) writer.old.at writer.old.out.now writer.new.at writer.new.out.now }
    ensures same_reference { writer.new.out.ghost_name ≡ writer.old.out.ghost_name }
{
    writer.out[writer.at] = 48 + ((n % 10) as u8);
    writer.at += 1;
}

// The same of a number but 0. Of 0 nothing: it would be a leading zero.
fn put_leading(n: u16, writer: &mut Writer)
    requires { writer.old.at + length (cond (ltb 0 n) (digit (n % 10)) []) ≤ length writer.old.out.now }
    ensures wrote { Wrote (cond (ltb 0 n) (digit (n % 10)) []) writer.old.at writer.old.out.now writer.new.at writer.new.out.now }
    ensures same_reference { writer.new.out.ghost_name ≡ writer.old.out.ghost_name }
{
    if n == 0 {
        return;
    }
    put_digit(n, writer);
}

// A number in decimal, without leading zeros: its first digit is at the highest power of ten that it reaches.
fn put_decimal(n: u16, writer: &mut Writer)
    requires { writer.old.at + length (decimal n) ≤ length writer.old.out.now }
    ensures wrote { Wrote (decimal n) writer.old.at writer.old.out.now writer.new.at writer.new.out.now }
    ensures same_reference { writer.new.out.ghost_name ≡ writer.old.out.ghost_name }
{
    put_leading(n / 10000, writer);
    put_leading(n / 1000, writer);
    put_leading(n / 100, writer);
    put_leading(n / 10, writer);
    put_digit(n, writer);
}

// A fixed word, then a number.
pub(crate) fn put_numbered(word: &[u8], n: u16, writer: &mut Writer)
    requires { writer.old.at + length (word.now ++ decimal n) ≤ length writer.old.out.now }
    ensures wrote { Wrote (word.now ++ decimal n) writer.old.at writer.old.out.now writer.new.at writer.new.out.now }
    ensures same_reference { writer.new.out.ghost_name ≡ writer.old.out.ghost_name }
{
    put_text(word, writer);
    put_decimal(n, writer);
}

// The same, and what ends the line.
pub(crate) fn put_last(word: &[u8], n: u16, writer: &mut Writer)
    requires { writer.old.at + length ((word.now ++ decimal n) ++ words.closing) ≤ length writer.old.out.now }
    ensures wrote { Wrote ((word.now ++ decimal n) ++ words.closing) writer.old.at writer.old.out.now writer.new.at writer.new.out.now }
    ensures same_reference { writer.new.out.ghost_name ≡ writer.old.out.ghost_name }
{
    put_numbered(word, n, writer);
    put_text(&CLOSING, writer);
}
