// How many rows graph and plan need, and which stores can hold them.
use crate::limited::Limited;
use crate::made::{ranges, wide};
use compiler::compile::compile;
use compiler::program::Program;
use examples::sample::FOUR_NODES;
use graph_writer::write::write_graph;
use graphs::graph::Graph;
use refusals::refusal::{Layer, Refusal};
use slices::sliced::Sliced;
use stores::listing::Listing;
use stores::pair::Pair;
use stores::store::Store;

// A file and a plan, loaded into a store: the rows that it then holds, or the refusal.
fn loaded<S: Store>(file: &[u8], plan: &[u8], store: &mut S) -> Result<u16, Refusal> {
    compile(file, plan, store, &mut Program::none()).map_err(Refusal::from)?;
    Ok(store.held())
}

// The same for a graph.
fn loaded_graph<S: Store>(graph: &Graph, plan: &[u8], store: &mut S) -> Result<u16, Refusal> {
    let mut file = [0; 5762];
    let size = write_graph(graph, &mut file).map_err(Refusal::from)?;
    loaded(&file[..size.min(5762)], plan, store)
}

// Number 9, at the rows that are needed.
fn too_many(rows: u16) -> Refusal {
    Refusal::at(9, Layer::Store, rows, 0)
}

// The bytes with which the plan of the sample begins, a store's capacity, and the rows that are loaded,
// or else those that are needed.
const SAMPLE_ROOM: [(u8, u8, u16, Result<u16, u16>); 6] = [
    (0, 0, 8, Ok(8)),
    (0, 0, 7, Err(8)),
    (1, 1, 14, Ok(13)),
    (1, 1, 13, Ok(13)),
    (1, 1, 12, Err(13)),
    (1, 1, 0, Err(13)),
];

#[test]
fn the_sample_needs_eight_rows_and_with_its_plan_thirteen(rt: HostRuntime) {
    for (count, behind, capacity, rows) in SAMPLE_ROOM {
        let plan = [count, behind, 0, 0, 0, 0, 0, 0, 0, 0, 0, 0, 0, 0, 0, 0];
        let mut store = Limited::new(capacity);
        assert_eq!(rt;
            loaded(&FOUR_NODES, &plan, &mut store),
            rows.map_err(too_many)
        );
    }
}

// The rows of the last of 32 nodes, a store's capacity, and the rows that are loaded, or else those that
// are needed. With x rows of the last node they are 1 + 30 × 16 + x by themselves, and 1 + 1 × 16 more
// with the chain: 498 + x.
const WIDE_ROOM: [(u8, u16, Result<u16, u16>); 3] = [
    (14, 512, Ok(512)),
    (14, 511, Err(512)),
    (15, 512, Err(513)),
];

#[test]
fn no_more_than_512_rows_are_loaded(rt: HostRuntime) {
    let mut plan = [0; 128];
    plan[0] = 1;
    plan[1] = 1;
    for (last, capacity, rows) in WIDE_ROOM {
        let mut store = Limited::new(capacity);
        assert_eq!(rt;
            loaded_graph(&wide(last), &plan, &mut store),
            rows.map_err(too_many)
        );
    }
    let mut large = Pair::new(Sliced::new(), Listing::new());
    assert_eq!(rt; loaded_graph(&wide(14), &plan, &mut large), Ok(512));
    assert_eq!(rt;
        loaded_graph(&wide(15), &plan, &mut large),
        Err(too_many(513))
    );
    assert_eq!(rt; large.capacity(), 576);
}

// Four nodes of 30 pieces, 120 rows. With the chain of one node 30 + 30 × 30 more, with that of two
// 30 + 30 × 930, and with that of three 30 + 30 × 27,930, which is over 65,535.
const CHAINS: [([u8; 4], u16); 3] = [
    ([1, 1, 0, 0], 1050),
    ([2, 1, 2, 0], 28050),
    ([3, 1, 2, 3], 65535),
];

#[test]
fn many_rows_are_told_up_to_65535(rt: HostRuntime) {
    let mut store = Listing::new();
    assert_eq!(rt; loaded_graph(&ranges(), &[0; 16], &mut store), Ok(120));
    for (chain, rows) in CHAINS {
        let [a, b, c, d] = chain;
        let plan = [a, b, c, d, 0, 0, 0, 0, 0, 0, 0, 0, 0, 0, 0, 0];
        let loaded = loaded_graph(&ranges(), &plan, &mut store);
        assert_eq!(rt; loaded, Err(too_many(rows)));
    }
    assert_eq!(rt; store.held(), 120);
}
