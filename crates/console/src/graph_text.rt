// Graphs as a person reads them.
use crate::counts::row_count;
use crate::hex::Hex;
use graphs::graph::{Graph, Length, Node, Rows};
use graphs::named::named;
use patterns::row::Target;
use std::{fmt, io};

/// Prints how many nodes and rows an accepted graph has.
pub fn print_accepted(rt: &impl Print, graph: &Graph) -> io::Result<()> {
    let nodes = Count(graph.named_nodes().len(), "node");
    let rows = Count(row_count(graph), "row");
    println!(rt; "accepted: {nodes}, {rows}")
}

/// Prints the graph's nodes, each with its length, its lookup bytes and its rows.
pub fn print_graph(rt: &(impl Print + AllocGlobal), graph: &Graph) -> io::Result<()> {
    for (n, node) in graph.named_nodes().iter().enumerate() {
        println!(rt; "node {n}: {}", node.kind)?;
        println!(rt; "  length  {}", LengthText(node.length))?;
        print_lookup(rt, node)?;
        print_rows(rt, graph, node)?;
    }
    Ok(())
}

fn print_lookup(rt: &impl Print, node: &Node) -> io::Result<()> {
    match node.lookup() {
        [] => println!(rt; "  lookup  none"),
        [place] => println!(rt; "  lookup  byte {place}"),
        [first, rest @ ..] => {
            print!(rt; "  lookup  bytes {first}")?;
            for place in rest {
                print!(rt; ", {place}")?;
            }
            println!(rt; "")
        }
    }
}

fn print_rows(rt: &(impl Print + AllocGlobal), graph: &Graph, node: &Node) -> io::Result<()> {
    match &node.rows {
        Rows::Ternary(rows) => {
            for (k, row) in named(rows, node.row_count).iter().enumerate() {
                let key = TernaryText(row.value, row.mask, node.place_count);
                print_row(rt, graph, k, key, row.target)?;
            }
        }
        Rows::Range(rows) => {
            for (k, row) in named(rows, node.row_count).iter().enumerate() {
                print_row(rt, graph, k, RangeText(row.low, row.high), row.target)?;
            }
        }
    }
    Ok(())
}

fn print_row(
    rt: &(impl Print + AllocGlobal),
    graph: &Graph,
    k: usize,
    key: impl fmt::Display + Drop,
    target: Target,
) -> io::Result<()> {
    let key = key.to_string(rt.alloc())?;
    let target = TargetText(target, graph);
    println!(rt; "  row {k:<2}  {key:<23}  {target}")
}

// So many of what a word names.
#[derive(Clone, Copy)]
struct Count(usize, &'static str);

impl fmt::Display for Count {
    fn fmt<W: fmt::Write>(&self, f: &mut fmt::Formatter<W>) -> fmt::Result {
        match self {
            Count(1, word) => write!(f, "1 {word}"),
            Count(count, word) => write!(f, "{count} {word}s"),
        }
    }
}

// The length of a header: its bytes, or how they are counted.
#[derive(Clone, Copy)]
struct LengthText(Length);

impl fmt::Display for LengthText {
    fn fmt<W: fmt::Write>(&self, f: &mut fmt::Formatter<W>) -> fmt::Result {
        match self.0 {
            Length::Fixed(length) => write!(f, "{}", Count(usize::from(length), "byte")),
            Length::Counted {
                place,
                mask,
                shift,
                unit,
                base,
            } => {
                if base > 0 {
                    write!(f, "{base} + ")?;
                }
                if shift > 0 {
                    return write!(f, "{unit} x ((byte {place} & 0x{mask:02X}) >> {shift})");
                }
                write!(f, "{unit} x (byte {place} & 0x{mask:02X})")
            }
        }
    }
}

// A value and a mask over so many lookup bytes, the first topmost.
#[derive(Clone, Copy)]
struct TernaryText(u32, u32, u8);

impl fmt::Display for TernaryText {
    fn fmt<W: fmt::Write>(&self, f: &mut fmt::Formatter<W>) -> fmt::Result {
        let TernaryText(value, mask, places) = *self;
        if places == 0 {
            return write!(f, "always");
        }
        let value = value.to_be_bytes();
        let mask = mask.to_be_bytes();
        let (value, mask) = (named(&value, places), named(&mask, places));
        write!(f, "0x{} / 0x{}", Hex(value), Hex(mask))
    }
}

// The keys from a low one to a high one, over two lookup bytes.
#[derive(Clone, Copy)]
struct RangeText(u16, u16);

impl fmt::Display for RangeText {
    fn fmt<W: fmt::Write>(&self, f: &mut fmt::Formatter<W>) -> fmt::Result {
        let RangeText(low, high) = *self;
        write!(f, "0x{low:04X}..0x{high:04X}")
    }
}

/// Where a row of the graph leads, the node with its kind.
// A type of its own: a target does not know its graph.
#[derive(Clone, Copy)]
pub struct TargetText<'a>(pub Target, pub &'a Graph);

impl fmt::Display for TargetText<'_> {
    fn fmt<W: fmt::Write>(&self, f: &mut fmt::Formatter<W>) -> fmt::Result {
        match self.0 {
            Target::Node(n) => match self.1.named_nodes().get(usize::from(n)) {
                Some(node) => write!(f, "-> node {n} ({})", node.kind),
                None => write!(f, "-> node {n}"),
            },
            Target::Done => write!(f, "done"),
            Target::Dropped => write!(f, "dropped"),
        }
    }
}
