// Runs every operation on requests from standard input and prints a line for each:
// NAME A B ROOM FIRST SECOND: answers VALUE ..; SLICE
// NAME A B ROOM FIRST SECOND: refused NUMBER side SIDE position POSITION reason REASON; SLICE
#![tactic(auto)]

mod lent;
mod operation;
mod print;
mod request;

use request::Request;
use std::io;

// The most requests that are served, so that the loop has an end.
const MOST: usize = 65536;

fn main(rt: HostRuntime) -> io::Result<()> {
    let mut tally = [0; 16];
    for cases in 0..MOST {
        let mut header = [0; 10];
        if input::fill(&mut rt.reader(), &mut header)? < header.len() {
            return print::totals(&rt, &tally, cases);
        }
        let request = Request::of(header);
        let op = request.named as usize;
        tally[op] += 1;
        serve(&rt, request)?;
    }
    Ok(())
}

// A request that is too long prints no line, which the comparison finds.
fn serve(rt: &(impl Input + Print), r: Request) -> io::Result<()> {
    let mut first = [0; request::PAYLOAD];
    let mut second = [0; request::PAYLOAD];
    let first = request::payload(rt, r.first, &mut first)?;
    let second = request::payload(rt, r.second, &mut second)?;
    if let (Some(first), Some(second)) = (first, second) {
        return operation::line(rt, r, first, second);
    }
    Ok(())
}
