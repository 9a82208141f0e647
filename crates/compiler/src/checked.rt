// A graph and a plan that may be loaded.
use graphs::graph::Graph;
use plans::chains::Chains;

// The graph of a file, and the chains of a plan.
#[derive(Clone, Copy)]
pub struct Checked {
    pub graph: Graph,
    pub chains: Chains,
}
