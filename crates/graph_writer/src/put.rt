// The bytes of a graph's file, put into an area part by part.
ghost use Rattle.std.specs.Prelude.{◌≡◌, ℕ, ◌+◌, ◌*◌, ◌<◌, ◌≤◌, List, ◌++◌, map, length};
ghost use Rattle.std.specs.List.{flat_map};
ghost use Rattle.octets.specs.Writing.{written};
ghost use Rattle.graphs.specs.View.{node_view};
ghost use Rattle.graph_reader.specs.Encoding.{two, length_bytes, target_bytes, ternary_bytes, range_bytes, sort_byte, pairs_from};
ghost use Rattle.graph_writer.specs.Writing.{record_for};
ghost use Rattle.graph_writer.specs.Parts.{place_byte, head_of, Counted, file_for};

use graphs::graph::{Length, Node, Rows};
use graphs::named::named;
use patterns::row::{RangeRow, Target, TernaryRow};

// Writes bytes to the front of an area; the rest stays.
fn put(area: &mut [u8], bytes: &[u8])
    requires { length bytes.now ≤ length area.old }
    ensures { area.new ≡ written area.old 0 bytes.now }
{
    area[..bytes.len()].copy_from_slice(bytes);
}

// Bytes 1 to 7 of a record.
fn length_bytes(length: Length) -> [u8; 7]
    ensures { result ≡ length_bytes length }
{
    match length {
        Length::Fixed(n) => [0, n, 0, 0, 0, 0, 0],
        Length::Counted {
            place,
            mask,
            shift,
            unit,
            base,
        } => [1, place, mask, shift, unit, base, 0],
    }
}

// The byte of lookup place j; zero behind the count.
fn place_byte(node: &Node, j: u8) -> u8
    requires { j < 4 }
    ensures { result ≡ place_byte node.now.place_count node.now.places j }
{
    if j < node.place_count {
        node.places[usize::from(j)]
    } else {
        0
    }
}

// Byte 13 of a record.
fn sort_byte(node: &Node) -> u8
    ensures { result ≡ sort_byte (node_view node.now).rows }
{
    match &node.rows {
        Rows::Ternary(_) => 0,
        Rows::Range(_) => 1,
    }
}

// The first 16 bytes of a node's record.
fn head_of(node: &Node) -> [u8; 16]
    ensures is { result ≡ head_of node.now }
    ensures four { length node.now.places ≡ 4 }
{
    let [counted, a, b, c, d, e, zero] = length_bytes(node.length);
    [
        u8::from(node.kind),
        counted,
        a,
        b,
        c,
        d,
        e,
        zero,
        node.place_count,
        place_byte(node, 0),
        place_byte(node, 1),
        place_byte(node, 2),
        place_byte(node, 3),
        sort_byte(node),
        node.row_count,
        0,
    ]
}

// Bytes 8 and 9 of a row.
fn target_bytes(target: Target) -> [u8; 2]
    ensures { result ≡ target_bytes target }
{
    match target {
        Target::Node(t) => [0, t],
        Target::Done => [1, 0],
        Target::Dropped => [2, 0],
    }
}

// The ten bytes of a row.
trait RowBytes: Copy {
    ghost said: { Self → List ℕ };

    fn row_bytes(self) -> [u8; 10]
        ensures { result ≡ said self };
}

impl RowBytes for TernaryRow {
    ghost said = { ternary_bytes };

    fn row_bytes(self) -> [u8; 10] {
        let [a, b, c, d] = self.value.to_be_bytes();
        let [e, f, g, h] = self.mask.to_be_bytes();
        let [sort, to] = target_bytes(self.target);
        [a, b, c, d, e, f, g, h, sort, to]
    }
}

impl RowBytes for RangeRow {
    ghost said = { range_bytes };

    fn row_bytes(self) -> [u8; 10] {
        let [a, b] = self.low.to_be_bytes();
        let [c, d] = self.high.to_be_bytes();
        let [sort, to] = target_bytes(self.target);
        [a, b, c, d, 0, 0, 0, 0, sort, to]
    }
}

// Writes rows one behind the other to the front of an area; the rest stays.
fn put_rows<R: RowBytes>(rows: &[R], area: &mut [u8])
    requires { 10 * length rows.now ≤ length area.old }
    ensures { area.new ≡ written area.old 0 (flat_map R.said rows.now) }
{
    // By index and no `as_chunks_mut`, which was tried: behind that loan a proof knows the area's
    // length and not its bytes.
    for (k, row) in rows.iter().enumerate() {
        put(&mut area[10 * k..], &row.row_bytes());
    }
}

// Writes a node's record to the front of an area, and answers its length; the rest stays.
pub(crate) fn put_record(node: &Node, area: &mut [u8]) -> usize
    requires { 176 ≤ length area.old }
    ensures is { result ≡ length (record_for node.now) }
    ensures rows { Counted node.now result }
    ensures area { area.new ≡ written area.old 0 (record_for node.now) }
{
    put(area, &head_of(node));
    match &node.rows {
        Rows::Ternary(rows) => put_rows(named(rows, node.row_count), &mut area[16..]),
        Rows::Range(rows) => put_rows(named(rows, node.row_count), &mut area[16..]),
    }
    16 + 10 * node.row_total()
}

// Writes the nodes' records one behind the other to the front of an area, and answers their length.
fn put_records(nodes: &[Node], area: &mut [u8]) -> usize
    requires { 176 * length nodes.now ≤ length area.old }
    ensures is { result ≡ length (flat_map record_for nodes.now) }
    ensures area { area.new ≡ written area.old 0 (flat_map record_for nodes.now) }
{
    let mut size = 0;
    for node in nodes {
        size += put_record(node, &mut area[size..]);
    }
    size
}

// The four bytes of a pair.
fn pair_bytes(offset: u16, size: u16) -> [u8; 4]
    ensures { result ≡ two offset ++ two size }
{
    let [a, b] = offset.to_be_bytes();
    let [c, d] = size.to_be_bytes();
    [a, b, c, d]
}

// Writes the nodes' pairs to the front of an area; the first record begins at `from`.
fn put_pairs(nodes: &[Node], area: &mut [u8], from: usize)
    requires room { 4 * length nodes.now ≤ length area.old }
    requires short { from + 176 * length nodes.now < 65536 }
    ensures { area.new ≡ written area.old 0 (pairs_from from (map node_view nodes.now)) }
{
    let mut next = from;
    // By index, as in `put_rows`.
    for (n, node) in nodes.iter().enumerate() {
        let size = 16 + 10 * node.row_total();
        put(&mut area[4 * n..], &pair_bytes(next as u16, size as u16));
        next += size;
    }
}

pub(crate) fn put_file(nodes: &[Node], area: &mut [u8]) -> usize
    requires few { length nodes.now ≤ 32 }
    requires room { 5762 ≤ length area.old }
    ensures is { result ≡ length (file_for nodes.now) }
    ensures area { area.new ≡ written area.old 0 (file_for nodes.now) }
{
    let begin = 2 + 4 * nodes.len();
    put(area, &[nodes.len() as u8, 0]);
    put_pairs(nodes, &mut area[2..], begin);
    begin + put_records(nodes, &mut area[begin..])
}
