// Each operation on a request, and its answer as the paper's values, in the contracts' order.
use crate::print::{answers, number, refused};
use crate::request::{Operation, Request};
use crate::{lent, print};
use circuit::{Gate, Header, Placed};
use fold::Folded;
use refusal::{Reason, Refusal};
use running::{Counted, Ran};
use std::io;
use verdict::Verdict;

pub(crate) fn line(rt: &impl Print, r: Request, first: &[u8], second: &[u8]) -> io::Result<()> {
    print!(rt; "{:8} {} {} {}", r.named, r.a, r.b, r.room)?;
    print::bytes(rt, first)?;
    print::bytes(rt, second)?;
    match r.op {
        Operation::Spectrum => spectrum(rt, r.a, r.room, first)?,
        Operation::Build
        | Operation::Fold
        | Operation::List
        | Operation::Oracle
        | Operation::Printout
        | Operation::Refused => lend_bytes(rt, r.op, r.a, r.room, first)?,
        Operation::Compare | Operation::Judge => {
            lend_work(rt, r.op, r.a, r.room, first, second)?
        }
        _ => lend_nothing(rt, r.op, r.a, r.b, first)?,
    }
    println!(rt)
}

// A check answers no values.
fn lend_nothing(rt: &impl Print, op: Operation, a: u8, b: u16, first: &[u8]) -> io::Result<()> {
    match op {
        Operation::Check => match table::check(a, first) {
            Ok(()) => print!(rt; ": answers"),
            Err(refusal) => refused(rt, refusal),
        },
        Operation::Value => answers(rt, table::value(first, b as usize) as usize),
        Operation::Decode => decode(rt, a, b as usize, first),
        Operation::GateAt => gate(rt, circuit::gate_at(first, b as usize)),
        _ => read(rt, op, a, b, first),
    }
}

// The version in two bytes, then the gate's four.
fn decode(rt: &impl Print, w: u8, position: usize, first: &[u8]) -> io::Result<()> {
    if first.len() == 6 {
        let version = u16::from_be_bytes([first[0], first[1]]);
        let answer = circuit::decode(version, w, position, first[2], first[3], first[4], first[5]);
        return gate(rt, answer);
    }
    Ok(())
}

// 1, control, target and position of a CNOT; 2, wire, angle and position of a phase; 3, wire, 0 and position of an
// inverter; 0 and the reason for bad.
fn gate(rt: &impl Print, answer: Result<Placed, Reason>) -> io::Result<()> {
    match answer {
        Ok(placed) => {
            let gate = placed.gate;
            match gate {
                Gate::Cnot { control, target } => {
                    answers(rt, 1)?;
                    number(rt, control as usize)?;
                    number(rt, target as usize)?
                }
                Gate::Phase { wire, angle } => {
                    answers(rt, 2)?;
                    number(rt, wire as usize)?;
                    number(rt, angle as usize)?
                }
                Gate::Inverter { wire } => {
                    answers(rt, 3)?;
                    number(rt, wire as usize)?;
                    number(rt, 0)?
                }
            }
            number(rt, placed.position)
        }
        Err(reason) => {
            answers(rt, 0)?;
            number(rt, reason.number() as usize)
        }
    }
}

// 01's reader, or what it is made of where another side is asked for.
fn reading(side: u8, file: &[u8]) -> Result<Header, Refusal> {
    if side == 0 {
        return circuit::read(file);
    }
    circuit::read_side(file, side)
}

// Wires and gates; end state and phase; CNOTs, phase gates, score and inverters.
fn read(rt: &impl Print, op: Operation, side: u8, start: u16, file: &[u8]) -> io::Result<()> {
    match op {
        Operation::Read => match reading(side, file) {
            Ok(Header { wires, gates }) => {
                answers(rt, wires as usize)?;
                number(rt, gates)
            }
            Err(refusal) => refused(rt, refusal),
        },
        Operation::Run => match running::run(file, start) {
            Ok(Ran { state, phase }) => {
                answers(rt, state as usize)?;
                number(rt, phase as usize)
            }
            Err(refusal) => refused(rt, refusal),
        },
        _ => match running::count(file) {
            Ok(
                Counted {
                    cnots,
                    phases,
                    score,
                    inverters,
                },
            ) => {
                answers(rt, cnots)?;
                number(rt, phases)?;
                number(rt, score)?;
                number(rt, inverters)
            }
            Err(refusal) => refused(rt, refusal),
        },
    }
}

// The number of entries.
fn spectrum(rt: &impl Print, n: u8, room: u16, table: &[u8]) -> io::Result<()> {
    let mut out = [0; lent::SUMS];
    let Some(out) = out.get_mut(..usize::from(room)) else {
        return Ok(());
    };
    lent::fill(out);
    match spectrum::spectrum(n, table, out) {
        Ok(entries) => answers(rt, entries)?,
        Err(refusal) => refused(rt, refusal)?,
    }
    lent::print_sums(rt, out)
}

fn lend_bytes(rt: &impl Print, op: Operation, a: u8, room: u16, first: &[u8]) -> io::Result<()> {
    let mut out = [0; 65536];
    let out = &mut out[..usize::from(room)];
    lent::fill(out);
    write(rt, op, a, first, out)?;
    lent::print_bytes(rt, out)
}

// The length of what is written; after it for a fold the scores before and after.
fn write(rt: &impl Print, op: Operation, a: u8, first: &[u8], out: &mut [u8]) -> io::Result<()> {
    match op {
        Operation::Build => match build::build(a, first, out) {
            Ok(length) => answers(rt, length),
            Err(refusal) => refused(rt, refusal),
        },
        Operation::Fold => match fold::fold(first, out) {
            Ok(
                Folded {
                    length,
                    before,
                    after,
                },
            ) => {
                answers(rt, length)?;
                number(rt, before)?;
                number(rt, after)
            }
            Err(refusal) => refused(rt, refusal),
        },
        Operation::List => text(rt, listing::list(first, a == 1, out)),
        Operation::Oracle => text(rt, oracle_listing::oracle_listing(first, out)),
        Operation::Printout => text(rt, oracle_listing::printout(first, out)),
        _ => text(rt, listing::refused_line(a, out)),
    }
}

fn text(rt: &impl Print, answer: Result<usize, Refusal>) -> io::Result<()> {
    match answer {
        Ok(length) => answers(rt, length),
        Err(refusal) => refused(rt, refusal),
    }
}

fn lend_work(
    rt: &impl Print,
    op: Operation,
    a: u8,
    room: u16,
    first: &[u8],
    second: &[u8],
) -> io::Result<()> {
    let mut work = [0; lent::WORK];
    let Some(work) = work.get_mut(..usize::from(room)) else {
        return Ok(());
    };
    lent::fill(work);
    settle(rt, op, a, first, second, work)?;
    lent::print_work(rt, work)
}

fn settle(
    rt: &impl Print,
    op: Operation,
    a: u8,
    first: &[u8],
    second: &[u8],
    work: &mut [u16],
) -> io::Result<()> {
    match op {
        Operation::Compare => verdict(rt, verdict::compare(first, second, work)),
        _ => verdict(rt, verdict::judge(a, first, second, work)),
    }
}

// 0 for Same; 1, the state, both ends and the phase for Different.
fn verdict(rt: &impl Print, answer: Result<Verdict, Refusal>) -> io::Result<()> {
    match answer {
        Ok(verdict) => match verdict {
            Verdict::Same => answers(rt, 0),
            Verdict::Different {
                state,
                first,
                second,
                phase,
            } => {
                answers(rt, 1)?;
                number(rt, state as usize)?;
                number(rt, first as usize)?;
                number(rt, second as usize)?;
                number(rt, phase as usize)
            }
        },
        Err(refusal) => refused(rt, refusal),
    }
}
