// Reading a plan.
ghost use Rattle.std.specs.Prelude.{◌≡◌, ℕ, ◌==◌, ◌*◌, ◌≤◌, length, IfOk};
ghost use Rattle.std.specs.List.{list_all};
ghost use Rattle.refusals.specs.Searching.{fault_of};
ghost use Rattle.refusals.specs.Least.{Answers};
ghost use Rattle.graphs.specs.View.{graph_view};
ghost use Rattle.plans.specs.Chains.{chain_itself, chain_at, chain_in, chain_of};
ghost use Rattle.plans.specs.Faults.{of_plan};
ghost use Rattle.plans.specs.Refusals.{PlanApplies, Says};
ghost use Rattle.plans.specs.Checking.{chain_right, ruled, keeps, size_fault, chains_fault, rules_fault, plan_fault};

use crate::chains::{Chain, Chains};
use crate::fault::PlanFault;
use crate::nodes::{any_to, is_fixed};
use crate::path::Path;
use graphs::graph::Graph;

/// The bytes of a key: as many lookup bytes may a node and its chain have together.
pub const KEY: usize = 8;

/// The plan that the bytes say for a graph: four for each node that the graph's count names, the
/// number of nodes behind it and three nodes. Refused by 7 (size, or the bytes of a node), then by 8
/// (a chain that breaks a rule), at the lowest node.
pub fn read_plan(graph: &Graph, bytes: &[u8]) -> Result<Chains, PlanFault>
    ensures is { fault_of result ≡ plan_fault (graph_view graph.now) bytes.now }
    ensures answers { Answers of_plan (PlanApplies (graph_view graph.now) bytes.now) (Says (graph_view graph.now) bytes.now) result }
{
    check_size(graph.size(), bytes)?;
    let chains = chains_in(graph.size(), bytes)?;
    check_rules(graph, &chains)?;
    Ok(chains)
}

// Refused by 7: the size.
fn check_size(count: u8, bytes: &[u8]) -> Result<(), PlanFault>
    ensures { fault_of result ≡ size_fault count bytes.now }
{
    if bytes.len() != 4 * usize::from(count) {
        return Err(PlanFault::Shape { node: count });
    }
    Ok(())
}

impl Chain {
    // Whether the count is in its range and each byte behind the nodes that it names is zero.
    fn is_right(&self) -> bool
        ensures { result ≡ chain_right self.now }
    {
        self.nodes
            .get(usize::from(self.count)..)
            .is_some_and(all_zero)
    }
}

// Whether each of the bytes is zero.
fn all_zero(bytes: &[u8]) -> bool
    ensures { result ≡ list_all (λ byte. byte == 0) bytes.now }
{
    bytes.iter().all(|byte| *byte == 0)
}

// The chains that the bytes say, four bytes for each node. Refused by 7: the first node whose bytes
// are wrong.
fn chains_in(count: u8, bytes: &[u8]) -> Result<Chains, PlanFault>
    requires few { count ≤ 32 }
    requires size { length bytes.now ≡ 4 * count }
    ensures fault { fault_of result ≡ chains_fault count bytes.now }
    ensures whole { (n : ℕ) → IfOk result (λ chains. chain_itself chains n ≡ chain_at bytes.now n) }
    ensures says { IfOk result (λ chains. chain_of chains ≡ chain_in bytes.now) }
{
    let mut plan = Chains::none();
    let (fours, _) = bytes.as_chunks::<4>();
    // By place: of a loop over `iter_mut` zipped with the fours, which was tried, no invariant can name
    // the chains.
    for (node, four) in fours.iter().enumerate() {
        let chain = Chain::from(*four);
        if !chain.is_right() {
            return Err(PlanFault::Shape { node: node as u8 });
        }
        plan.chains[node] = chain;
    }
    Ok(plan)
}

// Refused by 8: the first node whose chain breaks a rule.
fn check_rules(graph: &Graph, chains: &Chains) -> Result<(), PlanFault>
    ensures { fault_of result ≡ rules_fault (graph_view graph.now) (chain_of chains.now) (length (graph_view graph.now)) }
{
    for node in 0..graph.size() {
        let chain = chains.chain(node);
        if !Path::new(graph, node, chain.named_nodes()).keeps_rules() {
            return Err(PlanFault::Rule { node });
        }
    }
    Ok(())
}

impl<'a> Path<'a> {
    /// Whether the node and its chain keep the rules; a node without a chain breaks none.
    pub fn keeps_rules(&self) -> bool
        ensures { result ≡ keeps (graph_view self.now.graph.now) self.now.node self.now.behind.now }
    {
        self.behind.is_empty() || self.ruled(KEY)
    }

    // Whether the node and the nodes behind it keep the rules, where `room` lookup bytes are free.
    fn ruled(&self, room: usize) -> bool
        ensures { result ≡ ruled (graph_view self.now.graph.now) room self.now.node self.now.behind.now }
    {
        let here = self.here();
        let width = here.lookup().len();
        if !is_fixed(here.length) || width > room {
            return false;
        }
        match self.rest() {
            None => true,
            Some(rest) => any_to(&here, rest.node) && rest.ruled(room - width),
        }
    }
}
