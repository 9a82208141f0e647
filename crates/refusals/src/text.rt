// Refusals in words.
ghost use Rattle.std.specs.Prelude.{◌≡◌, Some};
ghost use Rattle.refusals.specs.Names.{layer_name};
ghost use Rattle.refusals.specs.Words.{place_text, line_of, refusal_text};

use crate::refusal::{Layer, Refusal};
use std::fmt;

impl fmt::Display for Layer {
    ghost output = { λ layer. Some (layer_name layer) };

    fn fmt<W: fmt::Write>(&self, f: &mut fmt::Formatter<W>) -> fmt::Result {
        f.pad(match self {
            Layer::File => "file",
            Layer::Graph => "graph",
            Layer::Plan => "plan",
            Layer::Store => "store",
            Layer::Read => "read",
            Layer::Walk => "walk",
            Layer::Writing => "writing",
            Layer::Field => "field",
            Layer::Payload => "payload",
        })
    }
}

// What a refusal's place names: nothing, a pair, a node and perhaps a part of it, or a number of rows.
#[derive(Clone, Copy)]
enum Place {
    Nowhere,
    Pair(u16),
    Node(u16),
    NodeByte(u16, u16),
    NodeRow(u16, u16),
    NodeOffset(u16, u16),
    Rows(u16),
    RowsOrMore(u16),
}

// Behind a comma; nothing where the number names none.
impl fmt::Display for Place {
    ghost output = { λ place. Some (place_text place) };

    fn fmt<W: fmt::Write>(&self, f: &mut fmt::Formatter<W>) -> fmt::Result {
        match self {
            Place::Nowhere => Ok(()),
            Place::Pair(pair) => write!(f, ", pair {pair}"),
            Place::Node(node) => write!(f, ", node {node}"),
            Place::NodeByte(node, byte) => write!(f, ", node {node}, byte {byte}"),
            Place::NodeRow(node, row) => write!(f, ", node {node}, row {row}"),
            Place::NodeOffset(node, offset) => write!(f, ", node {node}, offset {offset}"),
            Place::Rows(rows) => write!(f, ", {rows} rows"),
            Place::RowsOrMore(rows) => write!(f, ", {rows} rows or more"),
        }
    }
}

// Its number, its layer, its place and what is wrong there. What it refuses or ends is said before it.
impl fmt::Display for Refusal {
    ghost output = { λ refusal. Some (refusal_text refusal) };

    fn fmt<W: fmt::Write>(&self, f: &mut fmt::Formatter<W>) -> fmt::Result {
        let number = self.number;
        let layer = self.layer;
        let place = self.place();
        let meaning = self.meaning();
        write!(f, "number {number}, layer {layer}{place}: {meaning}")
    }
}

impl Refusal {
    // What the two numbers of the place name, by the refusal's number.
    fn place(&self) -> Place
        ensures { result ≡ (line_of self.now).place }
    {
        let first = self.first;
        let second = self.second;
        match self.number {
            2 => Place::Pair(first),
            3 => Place::NodeByte(first, second),
            4 | 5 => Place::NodeRow(first, second),
            6..=8 => Place::Node(first),
            9 if first == u16::MAX => Place::RowsOrMore(first),
            9 if first > 0 => Place::Rows(first),
            13..=16 => Place::NodeOffset(first, second),
            _ => Place::Nowhere,
        }
    }

    // What the number says.
    fn meaning(&self) -> &'static str
        ensures { result.now ≡ (line_of self.now).meaning }
    {
        match self.number {
            1 => "the file's size, its node count or its byte 1 is wrong",
            2 => "the pair's offset or length is not that of the node's record",
            3 => "a byte of the record is out of its range",
            4 => "the row leads to a node that is no later one of the graph",
            5 => "an earlier row of the node covers the row",
            6 => "the fixed length is under the minimum of the node's kind",
            7 => "the plan has not 4 bytes a node, or a node's count or an unused byte is wrong",
            8 => "the chain breaks a rule",
            // A load's place is the number of its rows; one row has none.
            9 if self.first > 0 => "they are more than 512, or than the store can have",
            9 => "the store takes no more rows",
            10 => "the packet has more than 9600 bytes",
            11 if self.layer == Layer::Read => "there is room for fewer than 32 marks",
            11 => "the area is shorter than the longest graph file, 5762 bytes",
            12 => "nothing is loaded",
            13 => "a byte that is read, or the header's end, lies outside the packet",
            14 => "the header is shorter than the minimum of its kind",
            15 => "no row of the node fits",
            16 => "the deciding row drops the packet",
            17 => "the mark's kind is unknown, or the part lies outside the packet",
            _ => "the number is not in use",
        }
    }
}
