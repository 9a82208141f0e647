// The basic commands: how they are written, and what each does.
use crate::failure::Failure;
use crate::files::{bytes_of, copy_of, graph_of, put};
use crate::graph_text::{print_accepted, print_graph};
use crate::store_table::print_stores;
use std::rt::Files;

/// What the program can be told to do with graph files and stores.
#[derive(Clone, Copy)]
pub enum Basic<'a> {
    Check { file: &'a str },
    Show { file: &'a str },
    Copy { file: &'a str, out: &'a str },
    Stores,
}

impl<'a> Basic<'a> {
    /// The basic command that the words say. None if the first word is no such command's, or if the
    /// command takes more words or fewer.
    // An Option and no error: words that are no basic command may be another.
    pub fn parse(words: &[&'a str]) -> Option<Basic<'a>> {
        match words {
            ["check", file] => Some(Basic::Check { file: *file }),
            ["show", file] => Some(Basic::Show { file: *file }),
            ["copy", file, out] => Some(Basic::Copy {
                file: *file,
                out: *out,
            }),
            ["stores"] => Some(Basic::Stores),
            _ => None,
        }
    }

    /// Carries out the command.
    pub fn carry_out(self, rt: &(impl Files + Print + AllocGlobal)) -> Result<(), Failure<'a>> {
        match self {
            Basic::Check { file } => Ok(print_accepted(rt, &graph_of(rt, file)?)?),
            Basic::Show { file } => Ok(print_graph(rt, &graph_of(rt, file)?)?),
            Basic::Copy { file, out } => copy(rt, file, out),
            Basic::Stores => print_stores(rt),
        }
    }
}

// Writes the graph of the file to OUT, reads OUT again and compares it with the file.
fn copy<'a>(
    rt: &(impl Files + Print + AllocGlobal),
    file: &'a str,
    out: &'a str,
) -> Result<(), Failure<'a>> {
    let bytes = bytes_of(rt, file)?;
    let written = copy_of(rt.alloc(), bytes.as_slice())?;
    put(rt, out, written.as_slice())?;
    let copied = bytes_of(rt, out)?;
    if copied.as_slice() != bytes.as_slice() {
        return Err(Failure::Differs);
    }
    let count = copied.len();
    println!(rt; "copied: {count} bytes, the same in {out} as in {file}")?;
    Ok(())
}
