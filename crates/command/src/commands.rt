// The commands by name, and which words each takes.
ghost use Rattle.std.specs.Prelude.{◌≤◌};
ghost use Rattle.command.specs.Commands.{Named};

use crate::words;

#[derive(Clone, Copy, PartialEq, Eq)]
pub enum Command {
    // These take a table;
    Spectrum,
    Build,
    Judge,
    // these a circuit file first.
    Compare,
    List,
    Read,
    Run,
    Count,
    Fold,
    Help,
}

impl Command {
    // No name is help.
    pub(crate) fn named(name: &[u8]) -> Option<Command>
        ensures { Named name.now result }
    {
        match name {
            b"spectrum" => Some(Command::Spectrum),
            b"build" => Some(Command::Build),
            b"judge" => Some(Command::Judge),
            b"compare" => Some(Command::Compare),
            b"list" => Some(Command::List),
            b"read" => Some(Command::Read),
            b"run" => Some(Command::Run),
            b"count" => Some(Command::Count),
            b"fold" => Some(Command::Fold),
            b"help" | b"" => Some(Command::Help),
            _ => None,
        }
    }

    // Whether the word is the option that may stand before the others.
    pub(crate) fn is_option(self, word: &[u8]) -> bool {
        match self {
            Command::Judge | Command::Compare => matches!(word, b"--differences"),
            Command::List => matches!(word, b"--wrapped"),
            _ => false,
        }
    }

    // Whether it takes so many words behind its name and its option.
    pub(crate) fn takes(self, words: usize) -> bool {
        match self {
            Command::Read | Command::Count => words == 1,
            Command::List => words == 1 || words == 2,
            Command::Build | Command::Judge => words == 3,
            _ => words == 2,
        }
    }

    // Its words, as the usage has them.
    pub(crate) fn form(self) -> &'static str {
        match self {
            Command::Spectrum => "spectrum N TABLE",
            Command::Build => "build N TABLE OUT",
            Command::Judge => "judge [--differences] N TABLE FILE",
            Command::Compare => "compare [--differences] FILE FILE",
            Command::List => "list [--wrapped] FILE [OUT]",
            Command::Read => "read FILE",
            Command::Run => "run FILE START",
            Command::Count => "count FILE",
            Command::Fold => "fold FILE OUT",
            Command::Help => "help",
        }
    }
}

// A line whose first word names a command.
#[derive(Clone, Copy)]
pub struct Call<'a> {
    pub(crate) command: Command,
    line: &'a [u8],
    // Whether the command's option stands before the other words.
    pub(crate) option: bool,
}

impl<'a> Call<'a> {
    pub(crate) fn new(command: Command, line: &'a [u8]) -> Call<'a> {
        Call {
            command,
            line,
            option: command.is_option(words::word(line, 1)),
        }
    }

    // How many of its words are options.
    fn options(self) -> usize
        ensures { result ≤ 1 }
    {
        usize::from(self.option)
    }

    // The word k behind the name and the option, from 0; empty where there is none.
    pub(crate) fn word(self, k: usize) -> &'a [u8]
        requires { k ≤ 2 }
    {
        words::word(self.line, 1 + self.options() + k)
    }

    // Whether the command takes so many words.
    pub(crate) fn is_complete(self) -> bool {
        let others = words::others(self.line);
        self.command.takes(others.saturating_sub(self.options()))
    }
}
