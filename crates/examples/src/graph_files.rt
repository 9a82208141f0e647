// Graph files read, refused, written and copied.
use crate::sample::{FOUR_NODES, RANGES};
use graph_reader::read::read_graph;
use graph_writer::copy::copy_graph;
use graph_writer::write::write_graph;
use graphs::graph::{Graph, Length};
use patterns::row::Target;
use refusals::refusal::{Layer, Refusal};
use std::test::Fail;

// What a file is refused for.
fn refused(file: &[u8]) -> Option<Refusal> {
    read_graph(file).err().map(Refusal::from)
}

// A byte of the four-node file and another value for it; the number, layer and place that it is refused
// by.
const DAMAGED: [(usize, u8, u8, Layer, u16, u16); 28] = [
    (0, 0, 1, Layer::File, 0, 0),
    (0, 33, 1, Layer::File, 0, 0),
    (1, 1, 1, Layer::File, 0, 0),
    (3, 19, 2, Layer::File, 0, 0),
    (5, 45, 2, Layer::File, 0, 0),
    (7, 65, 2, Layer::File, 1, 0),
    (17, 27, 2, Layer::File, 3, 0),
    (32, 2, 2, Layer::File, 0, 0),
    (18, 11, 3, Layer::File, 0, 0),
    (19, 2, 3, Layer::File, 0, 1),
    (20, 0, 3, Layer::File, 0, 2),
    (21, 1, 3, Layer::File, 0, 3),
    (26, 5, 3, Layer::File, 0, 8),
    (27, 64, 3, Layer::File, 0, 9),
    (31, 2, 3, Layer::File, 0, 13),
    (33, 1, 3, Layer::File, 0, 15),
    (38, 0x7f, 3, Layer::File, 0, 16),
    (36, 1, 3, Layer::File, 0, 18),
    (40, 1, 3, Layer::File, 0, 22),
    (42, 3, 3, Layer::File, 0, 24),
    (63, 1, 3, Layer::File, 0, 45),
    (102, 64, 3, Layer::File, 2, 2),
    (104, 8, 3, Layer::File, 2, 4),
    (105, 0, 3, Layer::File, 2, 5),
    (107, 1, 3, Layer::File, 2, 7),
    (89, 1, 4, Layer::Graph, 1, 0),
    (89, 4, 4, Layer::Graph, 1, 0),
    (20, 13, 6, Layer::Graph, 0, 0),
];

#[test]
fn damaged_files_are_refused_at_their_place(rt: HostRuntime) {
    assert_eq!(rt; refused(&FOUR_NODES), None);
    assert_eq!(rt; refused(&[]), Some(Refusal::new(1, Layer::File)));
    for (place, byte, number, layer, first, second) in DAMAGED {
        let mut file = FOUR_NODES;
        if place < file.len() {
            file[place] = byte;
        }
        assert_eq!(rt;
            refused(&file),
            Some(Refusal::at(number, layer, first, second))
        );
    }
}

// The first node's rows stand from 34 on, ten bytes each; its last row goes first.
#[test]
fn a_row_behind_the_catch_all_is_covered(rt: HostRuntime) {
    let mut file = FOUR_NODES;
    file[34..44].copy_from_slice(&FOUR_NODES[54..64]);
    file[44..64].copy_from_slice(&FOUR_NODES[34..54]);
    assert_eq!(rt; refused(&file), Some(Refusal::at(5, Layer::Graph, 0, 1)));
    // Both rows of the other file: 0 to 0x05ff, then 0x0100 to 0x0200.
    let mut ranges = RANGES;
    ranges[32..36].copy_from_slice(&[1, 0, 2, 0]);
    assert_eq!(rt; refused(&ranges), Some(Refusal::at(5, Layer::Graph, 0, 1)));
    // Low above high, told at the first byte of low.
    ranges[34] = 0;
    assert_eq!(rt; refused(&ranges), Some(Refusal::at(3, Layer::File, 0, 26)));
}

// Node, key and target of the four-node graph: the key's upper bytes are the lookup bytes.
const DECIDED: [(u8, u32, Option<Target>); 8] = [
    (0, 0x8100_0000, Some(Target::Node(1))),
    (0, 0x0800_0000, Some(Target::Node(2))),
    (0, 0x86dd_0000, Some(Target::Dropped)),
    (1, 0x0806_0000, Some(Target::Done)),
    (2, 0x4000_0600, Some(Target::Node(3))),
    (2, 0x0001_0600, Some(Target::Done)),
    (3, 0, Some(Target::Done)),
    (4, 0, None),
];

#[test]
fn the_first_fitting_row_decides(rt: HostRuntime) -> Result<(), Fail> {
    let graph = read_graph(&FOUR_NODES)?;
    for (node, key, target) in DECIDED {
        assert_eq!(rt; graph.decide(node, key), target);
    }
    let ranges = read_graph(&RANGES)?;
    assert_eq!(rt; ranges.decide(0, 0x05ff_ffff), Some(Target::Done));
    assert_eq!(rt; ranges.decide(0, 0x0600_0000), None);
    assert_eq!(rt; ranges.decide(0, 0x0800_0000), Some(Target::Dropped));
    Ok(())
}

#[test]
fn a_copy_is_the_same_file(rt: HostRuntime) -> Result<(), Fail> {
    let mut area = vec![in rt.alloc(); 0xaa; 6000]?;
    assert_eq!(rt; copy_graph(&FOUR_NODES, &mut area)?, 162);
    assert!(rt; area.len() == 6000);
    assert!(rt; &area[0..162] == &FOUR_NODES[0..162]);
    assert_eq!(rt; area[162], 0xaa);
    match copy_graph(&FOUR_NODES, &mut area[0..5761]) {
        Ok(_) => {
            assert!(rt; false);
            Ok(())
        },
        Err(fault) => {
            assert_eq!(rt; Refusal::from(fault), Refusal::new(11, Layer::Writing));
            Ok(())
        },
    }
}

// What writing the graph is refused for.
fn unwritten(rt: &HostRuntime, graph: &Graph) -> Result<Option<Refusal>, Fail> {
    let mut area = vec![in rt.alloc(); 0; 5762]?;
    Ok(write_graph(graph, &mut area).err().map(Refusal::from))
}

#[test]
fn an_unsound_graph_is_not_written(rt: HostRuntime) -> Result<(), Fail> {
    let sound = read_graph(&FOUR_NODES)?;
    assert_eq!(rt; unwritten(&rt, &sound)?, None);
    let mut many = sound;
    many.count = 33;
    assert_eq!(rt; unwritten(&rt, &many)?, Some(Refusal::new(1, Layer::File)));
    let mut places = sound;
    places.nodes[0].place_count = 5;
    assert_eq!(rt;
        unwritten(&rt, &places)?,
        Some(Refusal::at(3, Layer::File, 0, 8))
    );
    let mut rows = sound;
    rows.nodes[1].row_count = 17;
    assert_eq!(rt;
        unwritten(&rt, &rows)?,
        Some(Refusal::at(3, Layer::File, 1, 14))
    );
    let mut short = sound;
    short.nodes[0].length = Length::Fixed(13);
    assert_eq!(rt;
        unwritten(&rt, &short)?,
        Some(Refusal::at(6, Layer::Graph, 0, 0))
    );
    Ok(())
}
