// The rows of a graph and a plan as a person reads them.
use compiler::compile::compile;
use compiler::fault::LoadFault;
use compiler::program::{CHAIN_BASE, Head, Program};
use console::failure::Failure;
use console::graph_text::TargetText;
use console::hex::Hex;
use graph_reader::read::read_graph;
use graphs::graph::Graph;
use plans::chains::Chain;
use refusals::refusal::Refusal;
use slices::pile::fresh_pile;
use slices::sliced::Sliced;
use std::alloc::Global;
use std::str::FromStr;
use std::{fmt, io};
use stores::listing::Listing;
use stores::question::Row;
use stores::store::Store;
use walks::action::Action;

// The headings of the columns whose texts differ in length.
const NODE: &str = "node";

const TARGET: &str = "target";

const NUMBERS: &str = "value / mask";

/// The stores that a table can be made for.
#[derive(Clone, Copy)]
pub enum StoreKind {
    Listing,
    Sliced,
    Pile,
}

/// A word that names no store.
#[derive(Clone, Copy)]
pub struct NoStore;

impl FromStr for StoreKind {
    type Err = NoStore;

    fn from_str(word: &str) -> Result<StoreKind, NoStore> {
        match word {
            "listing" => Ok(StoreKind::Listing),
            "sliced" => Ok(StoreKind::Sliced),
            "pile" => Ok(StoreKind::Pile),
            _ => Err(NoStore),
        }
    }
}

/// Compiles graph and plan into a store, and prints the rows with their actions. Refused by 1 to 9.
pub fn print_table<'a>(
    rt: &(impl Print + AllocGlobal),
    file: &[u8],
    plan: &[u8],
    kind: StoreKind,
) -> Result<(), Failure<'a>> {
    let capacity = capacity_of(file, plan, kind).map_err(Refusal::from)?;
    let graph = read_graph(file)?;
    let mut listing = Listing::new();
    let mut program = Program::none();
    compile(file, plan, &mut listing, &mut program).map_err(Refusal::from)?;
    let lines = lines_of(rt.alloc(), &graph, &program, listing.rows())?;
    print_lines(rt, lines.as_slice())?;
    let rows = listing.held();
    println!(rt; "{rows} rows of the {capacity} that the store can have")?;
    Ok(())
}

// The capacity of a store that takes the rows. Refused by 1 to 9.
fn capacity_of(file: &[u8], plan: &[u8], kind: StoreKind) -> Result<u16, LoadFault> {
    match kind {
        StoreKind::Listing => capacity_in(file, plan, &mut Listing::new()),
        StoreKind::Sliced => capacity_in(file, plan, &mut Sliced::new()),
        StoreKind::Pile => capacity_in(file, plan, &mut fresh_pile()),
    }
}

fn capacity_in<S: Store>(file: &[u8], plan: &[u8], store: &mut S) -> Result<u16, LoadFault> {
    compile(file, plan, store, &mut Program::none())?;
    Ok(store.capacity())
}

// A row with its action, in words.
#[derive(Drop)]
struct Line {
    state: u8,
    nodes: String,
    headers: usize,
    target: String,
    numbers: String,
    bits: String,
}

// The rows of the program, each in words.
fn lines_of<'a>(
    heap: Global,
    graph: &Graph,
    program: &Program,
    rows: &[Row],
) -> Result<Vec<Line>, Failure<'a>> {
    let mut lines = Vec::new(heap);
    for (row, action) in rows.iter().zip(program.actions.as_slice().iter()) {
        let state = row.state.number();
        let look = Look { program, state };
        let pattern = Pattern {
            value: row.value,
            mask: row.mask,
            width: look.width(),
        };
        lines.push(Line {
            state,
            nodes: look.to_string(heap)?,
            headers: usize::from(action.beyond) + 1,
            target: ActionText(*action, graph).to_string(heap)?,
            numbers: NumbersText(pattern).to_string(heap)?,
            bits: PatternBitsText(pattern).to_string(heap)?,
        })?;
    }
    Ok(lines)
}

// Prints the lines below a heading, each column as wide as its widest text.
fn print_lines(rt: &impl Print, lines: &[Line]) -> io::Result<()> {
    let widths = Widths::of(lines);
    let node = Padded(NODE, widths.nodes);
    let target = Padded(TARGET, widths.target);
    let numbers = Padded(NUMBERS, widths.numbers);
    println!(rt; "place  state  {node}  headers  {target}  {numbers}  bit by bit")?;
    for (place, line) in lines.iter().enumerate() {
        let (state, headers) = (line.state, line.headers);
        let nodes = Padded(line.nodes.as_str(), widths.nodes);
        let target = Padded(line.target.as_str(), widths.target);
        let numbers = Padded(line.numbers.as_str(), widths.numbers);
        let bits = line.bits.as_str();
        println!(rt; "{place:>5}  {state:>5}  {nodes}  {headers:>7}  {target}  {numbers}  {bits}")?;
    }
    Ok(())
}

// How wide the columns are whose texts differ in length.
#[derive(Clone, Copy)]
struct Widths {
    nodes: usize,
    target: usize,
    numbers: usize,
}

impl Widths {
    // As wide as the heading and each of the lines.
    fn of(lines: &[Line]) -> Widths {
        let mut widths = Widths {
            nodes: NODE.len(),
            target: TARGET.len(),
            numbers: NUMBERS.len(),
        };
        for line in lines {
            widths.nodes = widths.nodes.max(line.nodes.len());
            widths.target = widths.target.max(line.target.len());
            widths.numbers = widths.numbers.max(line.numbers.len());
        }
        widths
    }
}

// A text, and spaces behind it up to a width.
#[derive(Clone, Copy)]
struct Padded<'a>(&'a str, usize);

impl fmt::Display for Padded<'_> {
    fn fmt<W: fmt::Write>(&self, f: &mut fmt::Formatter<W>) -> fmt::Result {
        let Padded(text, width) = *self;
        f.write_str(text)?;
        for _ in text.len()..width {
            f.write_char(' ')?;
        }
        Ok(())
    }
}

// The head of a node; none past the program's nodes.
fn head_of(program: &Program, node: u8) -> Option<Head> {
    program.heads.as_slice().get(usize::from(node)).copied()
}

// How many lookup bytes a node has.
fn places_of(program: &Program, node: u8) -> usize {
    head_of(program, node).map_or(0, |head| head.own_lookups().len())
}

// A state of a program, which names the nodes that its rows are over.
#[derive(Clone, Copy)]
struct Look<'a> {
    program: &'a Program,
    state: u8,
}

impl Look<'_> {
    // The node of the state, and its chain from the first chained state on.
    fn nodes(&self) -> (u8, Chain) {
        match self.state.checked_sub(CHAIN_BASE) {
            Some(node) => {
                let head = head_of(self.program, node);
                (node, head.map_or(Chain::none(), |head| head.chain))
            }
            None => (self.state, Chain::none()),
        }
    }

    // How many lookup bytes the rows are over: those of the node and of its chain.
    fn width(&self) -> usize {
        let (node, chain) = self.nodes();
        let own = places_of(self.program, node);
        let behind = chain.named_nodes().iter();
        behind.fold(own, |width, next| {
            width.saturating_add(places_of(self.program, *next))
        })
    }
}

// The nodes by number and kind.
impl fmt::Display for Look<'_> {
    fn fmt<W: fmt::Write>(&self, f: &mut fmt::Formatter<W>) -> fmt::Result {
        let (node, chain) = self.nodes();
        write!(f, "{}", NodeText(node, self.program))?;
        for next in chain.named_nodes() {
            write!(f, " + {}", NodeText(*next, self.program))?;
        }
        Ok(())
    }
}

// A node by number and kind.
#[derive(Clone, Copy)]
struct NodeText<'a>(u8, &'a Program);

impl fmt::Display for NodeText<'_> {
    fn fmt<W: fmt::Write>(&self, f: &mut fmt::Formatter<W>) -> fmt::Result {
        let node = self.0;
        match head_of(self.1, node) {
            Some(head) => write!(f, "{node} {}", head.kind),
            None => write!(f, "{node}"),
        }
    }
}

// Where an action leads.
#[derive(Clone, Copy)]
struct ActionText<'a>(Action, &'a Graph);

impl fmt::Display for ActionText<'_> {
    fn fmt<W: fmt::Write>(&self, f: &mut fmt::Formatter<W>) -> fmt::Result {
        match self.0.target {
            Some(target) => write!(f, "{}", TargetText(target, self.1)),
            None => write!(f, "none"),
        }
    }
}

// A value and a mask over so many bytes from the top.
#[derive(Clone, Copy)]
struct Pattern {
    value: u64,
    mask: u64,
    width: usize,
}

// A pattern in hex.
#[derive(Clone, Copy)]
struct NumbersText(Pattern);

impl fmt::Display for NumbersText {
    fn fmt<W: fmt::Write>(&self, f: &mut fmt::Formatter<W>) -> fmt::Result {
        let values = self.0.value.to_be_bytes();
        let masks = self.0.mask.to_be_bytes();
        let width = self.0.width.min(values.len());
        if width == 0 {
            return f.write_char('-');
        }
        write!(f, "{} / {}", Hex(&values[..width]), Hex(&masks[..width]))
    }
}

// A pattern bit by bit, the bytes apart.
#[derive(Clone, Copy)]
struct PatternBitsText(Pattern);

impl fmt::Display for PatternBitsText {
    fn fmt<W: fmt::Write>(&self, f: &mut fmt::Formatter<W>) -> fmt::Result {
        if self.0.width == 0 {
            return f.write_str("always");
        }
        let values = self.0.value.to_be_bytes();
        let masks = self.0.mask.to_be_bytes();
        let bytes = values.iter().zip(masks.iter()).take(self.0.width);
        for (place, (value, mask)) in bytes.enumerate() {
            if place > 0 {
                f.write_char(' ')?;
            }
            write!(f, "{}", BitsText(*value, *mask))?;
        }
        Ok(())
    }
}

// The bits of a byte, from the top: x where the mask does not look.
#[derive(Clone, Copy)]
struct BitsText(u8, u8);

impl fmt::Display for BitsText {
    fn fmt<W: fmt::Write>(&self, f: &mut fmt::Formatter<W>) -> fmt::Result {
        let BitsText(value, mask) = *self;
        for bit in [0x80, 0x40, 0x20, 0x10, 8, 4, 2, 1] {
            f.write_char(match (mask & bit, value & bit) {
                (0, _) => 'x',
                (_, 0) => '0',
                _ => '1',
            })?;
        }
        Ok(())
    }
}
