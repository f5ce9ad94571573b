// What callers in C link: each function of c_interface under its own name, as the C interface needs it. phg.h has the rules that a caller keeps, and what the numbers say.
#![tactic(auto)]

ghost use Rattle.std.specs.Prelude.{◌≡◌, eqb, not};
ghost use Rattle.table.specs.Table.{value_at, checked_says, Checks};
ghost use Rattle.spectrum.specs.Spectrum.{transformed_says, Transforms};
ghost use Rattle.circuit.specs.Gates.{decoded};
ghost use Rattle.circuit.specs.File.{reading_says, Reads};
ghost use Rattle.running.specs.Run.{ran_says, Runs, counted_says, Counts};
ghost use Rattle.build.specs.Construction.{built_says, Builds};
ghost use Rattle.fold.specs.Fold.{folded_says, Folds};
ghost use Rattle.cancel.specs.Cancel.{cancelled_says, Cancels};
ghost use Rattle.verdict.specs.Judging.{compared_says, Compares, Judges};
ghost use Rattle.listing.specs.Listing.{listed_says, Lists};
ghost use Rattle.oracle_listing.specs.Oracle.{ListsOracle};
ghost use Rattle.c_interface.specs.Numbers.{Tells, TellsAnswer, decoded_numbers};

#[unsafe(no_mangle)]
pub extern "C" fn phg_check(n: u8, table: &[u8], answer: &mut [u64; 6])
    ensures { TellsAnswer (Checks n table.now) checked_says answer.new }
{
    c_interface::phg_check(n, table, answer)
}

// f(x); 0 past the table's end.
#[unsafe(no_mangle)]
pub extern "C" fn phg_value(table: &[u8], x: usize) -> u8
    ensures { result ≡ value_at table.now x }
{
    c_interface::phg_value(table, x)
}

#[unsafe(no_mangle)]
pub extern "C" fn phg_spectrum(n: u8, table: &[u8], out: &mut [i32], answer: &mut [u64; 6])
    ensures { Tells (Transforms n table.now out.old) transformed_says answer.new out.new }
{
    c_interface::phg_spectrum(n, table, out, answer)
}

#[unsafe(no_mangle)]
pub extern "C" fn phg_decode(
    version: u16,
    w: u8,
    position: usize,
    kind: u8,
    a: u8,
    b: u8,
    c: u8,
    answer: &mut [u64; 6],
)
    ensures { answer.new ≡ decoded_numbers (decoded version w position kind a b c) }
{
    c_interface::phg_decode(version, w, position, kind, a, b, c, answer)
}

#[unsafe(no_mangle)]
pub extern "C" fn phg_read(file: &[u8], answer: &mut [u64; 6])
    ensures { TellsAnswer (Reads file.now) reading_says answer.new }
{
    c_interface::phg_read(file, answer)
}

#[unsafe(no_mangle)]
pub extern "C" fn phg_run(file: &[u8], start: u16, answer: &mut [u64; 6])
    ensures { TellsAnswer (Runs file.now start) ran_says answer.new }
{
    c_interface::phg_run(file, start, answer)
}

#[unsafe(no_mangle)]
pub extern "C" fn phg_count(file: &[u8], answer: &mut [u64; 6])
    ensures { TellsAnswer (Counts file.now) counted_says answer.new }
{
    c_interface::phg_count(file, answer)
}

#[unsafe(no_mangle)]
pub extern "C" fn phg_build(n: u8, table: &[u8], out: &mut [u8], answer: &mut [u64; 6])
    ensures { Tells (Builds n table.now out.old) built_says answer.new out.new }
{
    c_interface::phg_build(n, table, out, answer)
}

#[unsafe(no_mangle)]
pub extern "C" fn phg_fold(file: &[u8], out: &mut [u8], answer: &mut [u64; 6])
    ensures { Tells (Folds file.now out.old) folded_says answer.new out.new }
{
    c_interface::phg_fold(file, out, answer)
}

#[unsafe(no_mangle)]
pub extern "C" fn phg_cancel(file: &[u8], most: u16, out: &mut [u8], answer: &mut [u64; 6])
    ensures { Tells (Cancels file.now most out.old) cancelled_says answer.new out.new }
{
    c_interface::phg_cancel(file, most, out, answer)
}

#[unsafe(no_mangle)]
pub extern "C" fn phg_compare(first: &[u8], second: &[u8], work: &mut [u16], answer: &mut [u64; 6])
    ensures { Tells (Compares first.now second.now work.old) compared_says answer.new work.new }
{
    c_interface::phg_compare(first, second, work, answer)
}

#[unsafe(no_mangle)]
pub extern "C" fn phg_judge(
    n: u8,
    table: &[u8],
    file: &[u8],
    work: &mut [u16],
    answer: &mut [u64; 6],
)
    ensures { Tells (Judges n table.now file.now work.old) compared_says answer.new work.new }
{
    c_interface::phg_judge(n, table, file, work, answer)
}

// Wrapped where `wrapped` is not 0.
#[unsafe(no_mangle)]
pub extern "C" fn phg_list(file: &[u8], wrapped: u8, out: &mut [u8], answer: &mut [u64; 6])
    ensures { Tells (Lists (not (eqb wrapped 0)) file.now out.old) listed_says answer.new out.new }
{
    c_interface::phg_list(file, wrapped, out, answer)
}

#[unsafe(no_mangle)]
pub extern "C" fn phg_list_oracle(n: u8, table: &[u8], out: &mut [u8], answer: &mut [u64; 6])
    ensures { Tells (ListsOracle n table.now out.old) listed_says answer.new out.new }
{
    c_interface::phg_list_oracle(n, table, out, answer)
}
