// The lines of an answer, on standard output.
use refusal::{Cause, Refusal};
use std::io;
use verdict::Verdict;

pub(crate) fn refused(rt: &impl Print, r: Refusal) -> io::Result<()> {
    print!(rt;
        "refused {} {} side {} position {}",
        r.cause.number(),
        r.cause,
        r.side,
        r.position
    )?;
    if let Some(reason) = r.reason {
        print!(rt; " reason {reason}")?;
    }
    println!(rt; ": {}", rule(r.cause))
}

// The words of a row of document 01's table, or of a refusal of 02.
fn rule(cause: Cause) -> &'static str {
    match cause {
        Cause::Vars => "n is 0 or above 8",
        Cause::Table => "the table's length is wrong",
        Cause::Pad => "an unused table bit is 1",
        Cause::Short => "the file is under 8 bytes",
        Cause::Mark => "the mark is wrong",
        Cause::Version => "the version is neither 1 nor 2",
        Cause::Wires => "the wires are 0 or above 10",
        Cause::Count => "the gate count is above 2048",
        Cause::Length => "the file's length is not 8 + 4 times the gate count",
        Cause::Gate => "some gate is bad",
        Cause::State => "the start is not below 2^w",
        Cause::Unlike => "the wire counts differ",
        Cause::Room => "the room is too small",
        Cause::Loose => "a wire does not end as it starts",
        Cause::Allow => "the allowance is above 2048",
    }
}

pub(crate) fn wrote(rt: &impl Print, length: usize) -> io::Result<()> {
    println!(rt; "wrote {length} bytes")
}

// The numbers of a row, one a line.
pub(crate) fn signed(rt: &impl Print, row: &[i32]) -> io::Result<()> {
    for x in row {
        println!(rt; "{x}")?;
    }
    Ok(())
}

pub(crate) fn verdict(rt: &impl Print, found: Verdict) -> io::Result<()> {
    match found {
        Verdict::Same => println!(rt; "same"),
        Verdict::Different {
            state,
            first,
            second,
            phase,
        } => println!(rt; "different at {state} ends {first} {second} phase {phase}"),
    }
}

// A line for each entry that is not 0.
pub(crate) fn differences(rt: &impl Print, work: &[u16]) -> io::Result<()> {
    for (state, difference) in work.iter().enumerate() {
        if *difference != 0 {
            println!(rt; "{state} {difference}")?;
        }
    }
    Ok(())
}

pub(crate) fn usage(rt: &impl Print) -> io::Result<()> {
    print!(rt;
        "phg spectrum N TABLE                    the spectrum, one number a line
phg build N TABLE OUT                   writes the circuit of the table's oracle
phg read FILE                           wires and gates
phg run FILE START                      end state and phase
phg count FILE                          CNOTs, phase gates, score and inverters
phg fold FILE OUT                       folds the phase gates and writes the file
phg compare [--differences] FILE FILE   whether two circuits do the same
phg judge [--differences] N TABLE FILE  whether a circuit is the table's oracle
phg list [--wrapped] FILE [OUT]         the circuit as OpenQASM 2.0
N and START are decimal. TABLE is hexadecimal digits, two a byte, as 08, or @ and a
file's name. The name - is standard input.
"
    )
}
