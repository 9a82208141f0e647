// The commands of the program: how they are written, and what each does.
use crate::compare_text::Comparison;
use crate::demo::demo;
use crate::job::Job;
use crate::packets::Detail;
use crate::plan_words::plan_of;
use crate::table_text::{NoStore, StoreKind, print_table};
use crate::walk_text::print_walks;
use console::basic::Basic;
use console::failure::Failure;
use console::files::{bytes_of, graph_of, put};
use plans::count::row_count;
use plans::read::read_plan;
use refusals::refusal::Refusal;
use std::rt::{Clock, Files};

/// What the program can be told to do.
#[derive(Clone, Copy)]
pub enum Command<'w, 'a> {
    Basic(Basic<'a>),
    Walk {
        file: &'a str,
        packets: &'a str,
    },
    Plan {
        file: &'a str,
        out: &'a str,
        chains: &'w [&'a str],
    },
    Table {
        file: &'a str,
        plan: &'a str,
        store: StoreKind,
    },
    Read(ReadFiles<'a>),
    Compare(CompareFiles<'a>),
    Demo,
}

/// What packets are read for: what they are read as is printed, or how long the reading takes.
#[derive(Clone, Copy)]
pub enum Purpose {
    Print(Detail),
    Time,
}

/// The files of a graph, a plan and packets, the store of the tap that reads, and what for.
#[derive(Clone, Copy)]
pub struct ReadFiles<'a> {
    file: &'a str,
    plan: &'a str,
    packets: &'a str,
    store: StoreKind,
    purpose: Purpose,
}

/// The files of a graph, of the plans of two taps, and of packets.
#[derive(Clone, Copy)]
pub struct CompareFiles<'a> {
    file: &'a str,
    left: &'a str,
    right: &'a str,
    packets: &'a str,
}

impl<'w, 'a> Command<'w, 'a> {
    /// The command that the words say. Fails with the usage if the first word is no command's, or if
    /// the command takes more words or fewer, or another store.
    pub fn parse(words: &'w [&'a str]) -> Result<Command<'w, 'a>, Failure<'a>> {
        match words {
            ["walk", file, packets] => Ok(Command::Walk {
                file: *file,
                packets: *packets,
            }),
            ["plan", file, out, chains @ ..] => Ok(Command::Plan {
                file: *file,
                out: *out,
                chains,
            }),
            ["table", file, plan] => Ok(Command::Table {
                file: *file,
                plan: *plan,
                store: StoreKind::Listing,
            }),
            ["table", file, plan, store] => Ok(Command::Table {
                file: *file,
                plan: *plan,
                store: store.parse()?,
            }),
            ["compare", file, left, right, packets] => Ok(Command::Compare(CompareFiles {
                file: *file,
                left: *left,
                right: *right,
                packets: *packets,
            })),
            ["demo"] => Ok(Command::Demo),
            ["read", "--summary", words @ ..] => Command::read(
                words,
                Purpose::Print(Detail::Summary),
            ),
            ["read", words @ ..] => Command::read(words, Purpose::Print(Detail::Packets)),
            ["time", words @ ..] => Command::read(words, Purpose::Time),
            words => Basic::parse(words)
                .map(Command::Basic)
                .ok_or(Failure::Usage(USAGE)),
        }
    }

    // The command to read packets that the words behind it say.
    fn read(words: &[&'a str], purpose: Purpose) -> Result<Command<'w, 'a>, Failure<'a>> {
        let (files, store) = match words {
            [files @ .., store] if files.len() == 3 => (files, store.parse()?),
            files => (files, StoreKind::Listing),
        };
        match files {
            [file, plan, packets] => Ok(Command::Read(ReadFiles {
                file: *file,
                plan: *plan,
                packets: *packets,
                store,
                purpose,
            })),
            _ => Err(Failure::Usage(USAGE)),
        }
    }

    /// Carries out the command.
    pub fn carry_out(
        self,
        rt: &(impl Files + Print + Eprint + Clock + AllocGlobal),
    ) -> Result<(), Failure<'a>> {
        match self {
            Command::Basic(command) => command.carry_out(rt),
            Command::Walk { file, packets } => walk(rt, file, packets),
            Command::Plan { file, out, chains } => plan(rt, file, out, chains),
            Command::Table { file, plan, store } => table(rt, file, plan, store),
            Command::Read(files) => files.carry_out(rt),
            Command::Compare(files) => files.carry_out(rt),
            Command::Demo => demo(rt),
        }
    }
}

impl<'a> ReadFiles<'a> {
    // Reads the packets by a tap.
    fn carry_out(
        self,
        rt: &(impl Files + Print + Eprint + Clock + AllocGlobal),
    ) -> Result<(), Failure<'a>> {
        let file = bytes_of(rt, self.file)?;
        let plan = bytes_of(rt, self.plan)?;
        let packets = bytes_of(rt, self.packets)?;
        let job = Job {
            file: file.as_slice(),
            plan: plan.as_slice(),
            packets: packets.as_slice(),
        };
        match self.purpose {
            Purpose::Print(detail) => job.print(rt, self.store, detail),
            Purpose::Time => job.print_times(rt, self.store),
        }
    }
}

impl<'a> CompareFiles<'a> {
    // Reads the packets by two taps side by side.
    fn carry_out(
        self,
        rt: &(impl Files + Print + Eprint + AllocGlobal),
    ) -> Result<(), Failure<'a>> {
        let file = bytes_of(rt, self.file)?;
        let left = bytes_of(rt, self.left)?;
        let right = bytes_of(rt, self.right)?;
        let packets = bytes_of(rt, self.packets)?;
        let comparison = Comparison {
            file: file.as_slice(),
            left: left.as_slice(),
            right: right.as_slice(),
            packets: packets.as_slice(),
        };
        comparison.print(rt)
    }
}

impl<'a> From<NoStore> for Failure<'a> {
    fn from(_word: NoStore) -> Failure<'a> {
        Failure::Usage(USAGE)
    }
}

// Walks a packet, or each packet of a capture, through the graph.
fn walk<'a>(
    rt: &(impl Files + Print + Eprint + AllocGlobal),
    file: &'a str,
    packets: &'a str,
) -> Result<(), Failure<'a>> {
    let graph = graph_of(rt, file)?;
    let packets = bytes_of(rt, packets)?;
    print_walks(rt, &graph, packets.as_slice())
}

// Writes a plan for the graph, with the chains that the words say.
fn plan<'a>(
    rt: &(impl Files + Print + Eprint + AllocGlobal),
    file: &'a str,
    out: &'a str,
    chains: &[&'a str],
) -> Result<(), Failure<'a>> {
    let graph = graph_of(rt, file)?;
    let plan = plan_of(rt.alloc(), &graph, chains)?;
    let chains = read_plan(&graph, plan.as_slice()).map_err(Refusal::from)?;
    let rows = row_count(&graph, &chains);
    put(rt, out, plan.as_slice())?;
    let count = plan.len();
    println!(rt; "written: {count} bytes to {out}; graph and plan need {rows} rows")?;
    Ok(())
}

// Shows the rows of graph and plan.
fn table<'a>(
    rt: &(impl Files + Print + Eprint + AllocGlobal),
    file: &'a str,
    plan: &'a str,
    store: StoreKind,
) -> Result<(), Failure<'a>> {
    let file = bytes_of(rt, file)?;
    let plan = bytes_of(rt, plan)?;
    print_table(rt, file.as_slice(), plan.as_slice(), store)
}

/// How the program is called.
pub const USAGE: &str = "usage: tapctl COMMAND
  check FILE               says whether the graph file is accepted, or why it is refused
  show FILE                shows the graph's nodes, lengths, lookup bytes and rows
  copy FILE OUT            reads the graph, writes it to OUT, and compares the two files
  walk FILE PACKETS        walks a packet, or those of a capture, through the graph, header by header
  plan FILE OUT [CHAIN..]  writes a plan for the graph to OUT, with the chains given, as 0:1 or 2:3,4
  table FILE PLAN [STORE]  shows the rows of graph and plan, for a store: listing, sliced or pile
  read [--summary] FILE PLAN PACKETS [STORE]
                           loads graph and plan into a tap, reads a packet or those of a capture by questions
                           to the store, and prints the marks, the endings and the report
  time FILE PLAN PACKETS [STORE]
                           times loads of graph and plan into a tap, and reads of the packets over and over
  compare FILE PLAN PLAN PACKETS
                           reads the packets by two taps, one for each plan, and prints the questions of both
  demo                     goes the whole way with a graph that the program makes: from its file to the report of a tap
  stores                   fills and asks the stores, and prints what they say side by side
  session [STORE]          one tap, told what to do by lines of standard input: load FILE PLAN, read PACKETS, report
  script                   takes commands from standard input, one to a line, and such lines of a session between them";
