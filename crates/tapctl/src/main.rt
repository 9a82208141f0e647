// tapctl: graph files, plans, stores and taps at the command line. `tapctl` alone prints how it is
// called.

#![tactic(auto)]

mod command;
mod compare_text;
mod demo;
mod demo_graph;
mod job;
mod packets;
mod plan_words;
mod program;
mod reading_text;
mod session;
mod table_text;
mod time_text;
mod walk_text;

use crate::program::run;
use std::io;
use std::process::ExitCode;

fn main(rt: HostRuntime) -> io::Result<ExitCode> {
    run(&rt)
}
