// How the program carries out the words of its call, and the lines of standard input.
use crate::command::{Command, USAGE};
use crate::session::Session;
use crate::table_text::StoreKind;
use console::failure::Failure;
use slices::pile::fresh_pile;
use slices::sliced::Sliced;
use std::process::ExitCode;
use std::rt::{Clock, Env, Files};
use std::{env, io};
use stores::listing::Listing;

/// What takes the lines of standard input.
pub trait LineTaker {
    /// Does what the words of a line say. Fails with the usage if they say nothing that is taken.
    fn take<'a>(
        &mut self,
        rt: &(impl Files + Print + Eprint + Clock + AllocGlobal),
        words: &[&'a str],
    ) -> Result<(), Failure<'a>>;
}

/// Runs the program with the words of its call. Ends with status 1 where the call fails, once its
/// message is printed; where the words cannot be read or nothing can be printed, with that error.
pub fn run(
    rt: &(impl Env + Input + Files + Print + Eprint + Clock + AllocGlobal),
) -> io::Result<ExitCode> {
    let mut args = env::args(rt)?;
    let _program = args.next();
    let args: Vec<String> = args.collect(rt.alloc())?;
    match call(rt, args.as_slice()) {
        Ok(()) => Ok(ExitCode::SUCCESS),
        Err(failure) => {
            println!(rt; "{failure}")?;
            Ok(ExitCode::FAILURE)
        }
    }
}

// Carries out what the call's words say.
fn call<'a>(
    rt: &(impl Input + Files + Print + Eprint + Clock + AllocGlobal),
    args: &'a [String],
) -> Result<(), Failure<'a>> {
    let words: Vec<&str> = args.iter().map(|arg| arg.as_str()).collect(rt.alloc())?;
    match words.as_slice() {
        ["script"] => Ok(take_lines(rt, &mut Script::new())?),
        ["session"] => session(rt, StoreKind::Listing),
        ["session", store] => session(rt, store.parse()?),
        words => Command::parse(words)?.carry_out(rt),
    }
}

// Takes the calls of a tap over a store from standard input.
fn session<'a>(
    rt: &(impl Input + Files + Print + Eprint + Clock + AllocGlobal),
    store: StoreKind,
) -> Result<(), Failure<'a>> {
    match store {
        StoreKind::Listing => take_lines(rt, &mut Session::new(Listing::new()))?,
        StoreKind::Sliced => take_lines(rt, &mut Session::new(Sliced::new()))?,
        StoreKind::Pile => take_lines(rt, &mut Session::new(fresh_pile()))?,
    }
    Ok(())
}

// Any commands, and the calls of one tap between them. A script is no command, so a script has no
// script in it.
#[derive(Drop)]
struct Script {
    session: Session<Listing>,
}

impl Script {
    fn new() -> Script {
        Script {
            session: Session::new(Listing::new()),
        }
    }
}

impl LineTaker for Script {
    fn take<'a>(
        &mut self,
        rt: &(impl Files + Print + Eprint + Clock + AllocGlobal),
        words: &[&'a str],
    ) -> Result<(), Failure<'a>> {
        match self.session.carry_out(rt, words) {
            Some(done) => done,
            None => Command::parse(words)?.carry_out(rt),
        }
    }
}

// Takes the lines of standard input one after the other, each printed before what it says. Blank lines
// and lines that begin with `#` are skipped. A line that fails says why and is passed over; only the end
// of the input, of the output or of the memory ends it.
fn take_lines(
    rt: &(impl Input + Files + Print + Eprint + Clock + AllocGlobal),
    taker: &mut impl LineTaker,
) -> io::Result<()> {
    for line in rt.lines(rt.alloc()) {
        let line = line?;
        let text = line.as_str().trim();
        if text.is_empty() || text.starts_with('#') {
            continue;
        }
        println!(rt; "> {text}")?;
        take_line(rt, taker, text)?;
    }
    Ok(())
}

fn take_line(
    rt: &(impl Files + Print + Eprint + Clock + AllocGlobal),
    taker: &mut impl LineTaker,
    text: &str,
) -> io::Result<()> {
    let words: Vec<&str> = text.split_whitespace().collect(rt.alloc())?;
    match taker.take(rt, words.as_slice()) {
        Ok(()) => Ok(()),
        Err(Failure::System(why)) => Err(why),
        Err(failure) => println!(rt; "{failure}"),
    }
}
