// sheetdump [FORMAT]: reads words from standard input and lists the row of things that they hold.
// Without an argument the format's name stands on the first line of the input.
#![tactic(auto)]

use formats::{Counted, Tagged};
use rows::listing;
use std::alloc::{AllocError, Global};
use std::io::Read;
use std::process::ExitCode;
use std::str::FromStr;
use std::{env, io, str};
use thiserror::Error;
use wordtext::{Failure, Position, Problem, first_line, parse};

// What keeps the row from being listed.
#[derive(Debug, Drop, Error)]
enum Trouble {
    #[error("more than one argument; usage: sheetdump [counted|tagged] < words")]
    TooManyArguments,
    #[error("no such format: the first argument, or without one line 1 of the input, is counted or tagged")]
    UnknownFormat,
    #[error("{1}: {0}")]
    BadWord(Problem, Position),
    #[error("out of memory")]
    NoMemory(#[from(alloc)] AllocError),
    #[error(transparent)]
    Unread(#[from] io::Error),
}

impl Trouble {
    // Why the text gives no words, and where the first bad one stands.
    fn of_words(failure: Failure, text: &[u8]) -> Trouble {
        match failure {
            Failure::Bad(fault) => Trouble::BadWord(fault.problem, Position::of(text, fault.from)),
            Failure::NoMemory => Trouble::NoMemory(AllocError),
        }
    }
}

// A format, by its name.
#[derive(Clone, Copy)]
enum Name {
    Counted,
    Tagged,
}

impl FromStr for Name {
    type Err = Trouble;

    fn from_str(name: &str) -> Result<Name, Trouble> {
        match name.trim() {
            "counted" => Ok(Name::Counted),
            "tagged" => Ok(Name::Tagged),
            _ => Err(Trouble::UnknownFormat),
        }
    }
}

impl Name {
    // The format that the first line of the text names, and where the words begin.
    fn on_first_line(text: &[u8]) -> Result<(Name, usize), Trouble> {
        let end = first_line(text);
        let line = str::from_utf8(&text[..end]).map_err(|_| Trouble::UnknownFormat)?;
        Ok((line.parse()?, end))
    }

    // The format that the command line names, if it does.
    fn from_arguments(rt: &HostRuntime) -> Result<Option<Name>, Trouble> {
        let mut arguments = env::args(rt)?.skip(1);
        match (arguments.next(), arguments.next()) {
            (None, _) => Ok(None),
            (Some(name), None) => Ok(Some(name.as_str().parse()?)),
            (Some(_), Some(_)) => Err(Trouble::TooManyArguments),
        }
    }

    // A `match`, since `Format` has constants, so that there is no `dyn Format`.
    fn listing(self, heap: Global, words: &[u32]) -> Result<String, AllocError> {
        match self {
            Name::Counted => listing(heap, &Counted, words),
            Name::Tagged => listing(heap, &Tagged, words),
        }
    }
}

// The whole listing, or what is wrong: nothing is listed half.
fn run(rt: &HostRuntime) -> Result<String, Trouble> {
    let heap = rt.alloc();
    let argument = Name::from_arguments(rt)?;
    let mut text = Vec::new(heap);
    rt.stdin().read_to_end(&mut text)?;
    let (format, start) = match argument {
        Some(format) => (format, 0),
        None => Name::on_first_line(&text)?,
    };
    let words = parse(heap, &text, start).map_err(|failure| Trouble::of_words(failure, &text))?;
    Ok(format.listing(heap, &words)?)
}

fn main(rt: HostRuntime) -> io::Result<ExitCode> {
    match run(&rt) {
        Ok(listing) => {
            print!(rt; "{listing}")?;
            Ok(ExitCode::SUCCESS)
        }
        Err(trouble) => {
            eprintln!(rt; "sheetdump: {trouble}")?;
            Ok(ExitCode::FAILURE)
        }
    }
}
