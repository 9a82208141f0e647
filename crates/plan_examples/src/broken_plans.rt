// Plans that are refused by 7 and 8, and at which node.
use crate::made::{line, ranges};
use examples::sample::FOUR_NODES;
use graph_reader::read::read_graph;
use graphs::graph::Graph;
use plans::fault::PlanFault;
use plans::read::read_plan;
use std::test::Fail;

// What a plan for a graph is refused for.
fn fault_of(graph: &Graph, plan: &[u8]) -> Option<PlanFault> {
    read_plan(graph, plan).err()
}

// Plans for the sample whose bytes are wrong, and the node that is told: the lowest.
const WRONG_BYTES: [([u8; 16], u8); 6] = [
    // A count over 3.
    ([0, 0, 0, 0, 0, 0, 0, 0, 4, 0, 0, 0, 0, 0, 0, 0], 2),
    // A byte that is not zero behind the nodes that the count names.
    ([0, 0, 0, 0, 0, 1, 0, 0, 0, 0, 0, 0, 0, 0, 0, 0], 1),
    ([1, 1, 2, 0, 0, 0, 0, 0, 0, 0, 0, 0, 0, 0, 0, 0], 0),
    ([0, 0, 0, 0, 0, 0, 0, 0, 0, 0, 0, 0, 0, 0, 0, 1], 3),
    // Two nodes are wrong.
    ([0, 0, 0, 0, 0, 0, 0, 1, 0, 0, 0, 0, 4, 0, 0, 0], 1),
    // An earlier chain breaks a rule, which is told only once all bytes are right.
    ([1, 3, 0, 0, 0, 0, 0, 0, 0, 0, 0, 0, 4, 0, 0, 0], 3),
];

// Plans for the sample that break a rule, and the node that is told: the lowest.
const BROKEN_RULES: [([u8; 16], u8); 8] = [
    // Node 3, node 0 itself and node 9, which is none, are no targets of node 0.
    ([1, 3, 0, 0, 0, 0, 0, 0, 0, 0, 0, 0, 0, 0, 0, 0], 0),
    ([1, 0, 0, 0, 0, 0, 0, 0, 0, 0, 0, 0, 0, 0, 0, 0], 0),
    ([1, 9, 0, 0, 0, 0, 0, 0, 0, 0, 0, 0, 0, 0, 0, 0], 0),
    // IPv4 has a counted length: behind the tag, at the end of a chain, and before one.
    ([0, 0, 0, 0, 1, 2, 0, 0, 0, 0, 0, 0, 0, 0, 0, 0], 1),
    ([2, 1, 2, 0, 0, 0, 0, 0, 0, 0, 0, 0, 0, 0, 0, 0], 0),
    ([0, 0, 0, 0, 0, 0, 0, 0, 1, 3, 0, 0, 0, 0, 0, 0], 2),
    // Two chains break a rule; the first keeps them and the second does not.
    ([1, 3, 0, 0, 1, 2, 0, 0, 0, 0, 0, 0, 0, 0, 0, 0], 0),
    ([1, 1, 0, 0, 1, 2, 0, 0, 0, 0, 0, 0, 0, 0, 0, 0], 1),
];

#[test]
fn plans_of_the_sample_are_refused_at_their_nodes(rt: HostRuntime) -> Result<(), Fail> {
    let Ok(graph) = read_graph(&FOUR_NODES) else {
        return Err(Fail::new("the sample is accepted"));
    };
    for (plan, node) in WRONG_BYTES {
        assert_eq!(rt; fault_of(&graph, &plan), Some(PlanFault::Shape { node }));
    }
    for (plan, node) in BROKEN_RULES {
        assert_eq!(rt; fault_of(&graph, &plan), Some(PlanFault::Rule { node }));
    }
    let size = Some(PlanFault::Shape { node: 4 });
    assert_eq!(rt; fault_of(&graph, &[]), size);
    assert_eq!(rt; fault_of(&graph, &[0; 15]), size);
    assert_eq!(rt; fault_of(&graph, &[4; 17]), size);
    assert_eq!(rt; fault_of(&graph, &[0; 16]), None);
    Ok(())
}

// The lookup bytes of four nodes, each of which leads to the next, and whether node 0 may have the
// other three as its chain.
const WIDTHS: [([u8; 4], bool); 5] = [
    ([2, 2, 2, 2], true),
    ([0, 0, 4, 4], true),
    ([2, 2, 2, 3], false),
    ([3, 2, 2, 2], false),
    ([4, 4, 1, 0], false),
];

#[test]
fn a_chain_looks_up_eight_bytes_at_most(rt: HostRuntime) {
    let whole = [3, 1, 2, 3, 0, 0, 0, 0, 0, 0, 0, 0, 0, 0, 0, 0];
    let at_first = Some(PlanFault::Rule { node: 0 });
    for (widths, kept) in WIDTHS {
        let expected = if kept { None } else { at_first };
        assert_eq!(rt; fault_of(&line(widths), &whole), expected);
    }
    assert_eq!(rt; fault_of(&ranges(), &whole), None);
    let behind = [0, 0, 0, 0, 2, 2, 3, 0, 0, 0, 0, 0, 0, 0, 0, 0];
    let at_second = Some(PlanFault::Rule { node: 1 });
    assert_eq!(rt; fault_of(&line([4, 4, 4, 0]), &behind), None);
    assert_eq!(rt; fault_of(&line([0, 4, 4, 1]), &behind), at_second);
    let skipping = [2, 1, 3, 0, 0, 0, 0, 0, 0, 0, 0, 0, 0, 0, 0, 0];
    assert_eq!(rt; fault_of(&line([1, 1, 1, 1]), &skipping), at_first);
}
