// Document 01, "Numbered refusals": the causes by name, and what a refusal returns.
#![tactic(auto)]

ghost use Rattle.std.specs.Prelude.{◌≡◌, Some};
ghost use Rattle.refusal.specs.Names.{refusal, refusal_at, number_of, reason_number, cause_name, reason_name, numbered, numbered_by};

use std::fmt;

// Each with its number in 01's table; those from 14 on are 02's.
#[derive(Clone, Copy, PartialEq, Eq)]
pub enum Cause {
    Vars = 1,
    Table = 2,
    Pad = 3,
    Short = 4,
    Mark = 5,
    Version = 6,
    Wires = 7,
    Count = 8,
    Length = 9,
    Gate = 10,
    State = 11,
    Unlike = 12,
    Room = 13,
    Loose = 17,
    Allow = 18,
}

impl Cause {
    pub fn number(self) -> u8
        ensures { result ≡ number_of self }
    {
        self as u8
    }
}

// By its name in the table.
impl fmt::Display for Cause {
    ghost output = { λ cause. Some (cause_name cause) };

    fn fmt<W: fmt::Write>(&self, f: &mut fmt::Formatter<W>) -> fmt::Result {
        f.write_str(match self {
            Cause::Vars => "VARS",
            Cause::Table => "TABLE",
            Cause::Pad => "PAD",
            Cause::Short => "SHORT",
            Cause::Mark => "MARK",
            Cause::Version => "VERSION",
            Cause::Wires => "WIRES",
            Cause::Count => "COUNT",
            Cause::Length => "LENGTH",
            Cause::Gate => "GATE",
            Cause::State => "STATE",
            Cause::Unlike => "UNLIKE",
            Cause::Room => "ROOM",
            Cause::Loose => "LOOSE",
            Cause::Allow => "ALLOW",
        })
    }
}

// What is wrong with a bad gate: its kind, a wire, equal wires or the spare byte.
#[derive(Clone, Copy, PartialEq, Eq)]
pub enum Reason {
    Kind = 1,
    Wire = 2,
    Equal = 3,
    Spare = 4,
}

impl Reason {
    pub fn number(self) -> u8
        ensures { result ≡ reason_number self }
    {
        self as u8
    }
}

// `side` says which of a call's several like inputs is refused, from 0; `position` is that of the
// first bad gate and `reason` what is wrong with it: 0 and none for every cause but Gate.
#[derive(Clone, Copy, PartialEq, Eq)]
pub struct Refusal {
    pub cause: Cause,
    pub side: u8,
    pub position: usize,
    pub reason: Option<Reason>,
}

impl fmt::Display for Reason {
    ghost output = { λ reason. Some (reason_name reason) };

    fn fmt<W: fmt::Write>(&self, f: &mut fmt::Formatter<W>) -> fmt::Result {
        f.write_str(match self {
            Reason::Kind => "kind",
            Reason::Wire => "wire",
            Reason::Equal => "equal",
            Reason::Spare => "spare",
        })
    }
}

impl Refusal {
    // The refusal of the input that is given as this side, with no gate to name.
    pub fn of_side(cause: Cause, side: u8) -> Refusal
        ensures { result ≡ refusal_at cause side 0 }
    {
        Refusal {
            cause,
            side,
            position: 0,
            reason: None,
        }
    }
}

// The same of a call's first or only input.
impl From<Cause> for Refusal {
    ghost from_gives = { λ cause result. result ≡ refusal cause };

    fn from(cause: Cause) -> Refusal {
        Refusal::of_side(cause, 0)
    }
}

// A refusal in 01's numbers, as it is told at the edges.
#[derive(Clone, Copy, PartialEq, Eq)]
pub struct Numbered {
    pub number: u8,
    pub side: u8,
    pub position: usize,
    pub reason: u8,
}

impl From<Refusal> for Numbered {
    ghost from_gives = { λ refused result. result ≡ numbered refused };

    fn from(refused: Refusal) -> Numbered {
        Numbered {
            number: refused.cause.number(),
            side: refused.side,
            position: refused.position,
            reason: refused.reason.map_or(0, Reason::number),
        }
    }
}

// The same of a call's first or only input, with no gate to name, by any number: one that no cause has, too.
pub fn by(number: u8) -> Numbered
    ensures { result ≡ numbered_by number }
{
    Numbered {
        number,
        side: 0,
        position: 0,
        reason: 0,
    }
}
