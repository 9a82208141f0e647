// What a reader keeps beside a store: the nodes without their rows, and the rows' actions.
ghost use Rattle.std.specs.Prelude.{◌≡◌, ℕ, ◌<◌, [], length, slice_index_or};
ghost use Rattle.headers.specs.Table.{minimum_in, standard_table};
ghost use Rattle.graphs.specs.View.{graph_view};
ghost use Rattle.walks.specs.Plans.{Keeps, Lawful};
ghost use Rattle.plans.specs.Chains.{chain_of};
ghost use Rattle.compiler.specs.Held.{held};
ghost use Rattle.compiler.specs.Programs.{head_view, HeadOf, Stands};

use crate::checked::Checked;
use crate::few::Few;
use crate::lookups::{LOOKUPS, put_lookups};
use graphs::graph::{Length, NODES};
use graphs::named::named;
use headers::kinds::Kind;
use headers::table::KindTable;
use plans::chains::Chain;
use plans::path::Path;
use plans::window::{needs, window};
use walks::action::Action;

/// The most rows of a graph and a plan.
pub const ROWS: usize = 512;

/// The states whose rows are over a node and its chain begin here, with that of node 0.
pub const CHAIN_BASE: u8 = 32;

/// What a reader keeps of a node: its kind and length rule; its chain, and the bytes that both take
/// from a packet; the places of the lookup bytes of both, counted from the node's start, the node's own
/// first, and how many of them are its own; the fewest bytes that hold all that a step at the node
/// reads; and the fewest that a header of its kind has. So a read finds none of these out anew.
#[derive(Clone, Copy)]
pub struct Head {
    pub kind: Kind,
    pub length: Length,
    pub chain: Chain,
    pub window: u16,
    pub lookups: Few<u16, LOOKUPS>,
    pub own_count: u8,
    pub needs: u16,
    pub minimum: u8,
}

/// What a reader keeps of a graph and a plan: the nodes, each without its rows, what stands for a node
/// past the last, and the actions beside the rows of the store, in the order of the rows.
#[derive(Clone, Copy)]
pub struct Program {
    pub heads: Few<Head, NODES>,
    pub blank: Head,
    pub actions: Few<Action, ROWS>,
}

impl Program {
    /// The program of no nodes.
    pub fn none() -> Program
        ensures { Stands (minimum_in standard_table) result [] (λ n. []) }
    {
        let blank = Head::blank(&KindTable::standard());
        Program {
            heads: Few::new(blank),
            blank,
            actions: Few::new(Action {
                beyond: 0,
                target: None,
            }),
        }
    }
}

impl Head {
    /// What stands for a node past the last.
    pub(crate) fn blank(table: &KindTable) -> Head
        ensures { HeadOf (minimum_in table.now) [] (λ n. []) 0 result }
    {
        let kind = Kind::Ethernet;
        Head {
            kind,
            length: Length::Fixed(0),
            chain: Chain::none(),
            window: 0,
            lookups: Few::new(0),
            own_count: 0,
            needs: 0,
            minimum: table.minimum(kind),
        }
    }

    /// The places of the node's own lookup bytes.
    pub fn own_lookups(&self) -> &[u16]
        ensures { result.now ≡ (head_view self.now).places }
    {
        named(self.lookups.as_slice(), self.own_count)
    }

    // Node n of a graph, with its chain.
    fn of(table: &KindTable, checked: &Checked, node: u8) -> Head
        requires { Keeps (graph_view checked.now.graph) node (chain_of checked.now.chains node) }
        ensures { HeadOf (minimum_in table.now) (graph_view checked.now.graph) (chain_of checked.now.chains) node result }
    {
        let graph = &checked.graph;
        let here = graph.node(node);
        let chain = checked.chains.chain(node);
        let path = Path::new(graph, node, chain.named_nodes());
        let mut lookups = Few::new(0);
        put_lookups(&path, 0, &mut lookups);
        Head {
            kind: here.kind,
            length: here.length,
            chain,
            window: window(graph, node, &chain),
            lookups,
            own_count: here.lookup().len() as u8,
            needs: needs(&here),
            minimum: table.minimum(here.kind),
        }
    }
}

// The nodes of a graph, each with its chain. What stands past the last is given.
pub(crate) fn heads_of(table: &KindTable, checked: &Checked, blank: Head) -> Few<Head, NODES>
    requires { Lawful (graph_view checked.now.graph) (chain_of checked.now.chains) }
    ensures each { (n : ℕ) → n < length (held result) → HeadOf (minimum_in table.now) (graph_view checked.now.graph) (chain_of checked.now.chains) n (slice_index_or (held result) n blank) }
    ensures count { length (held result) ≡ length (graph_view checked.now.graph) }
{
    let mut heads = Few::new(blank);
    for n in 0..checked.graph.size() {
        heads.push(Head::of(table, checked, n));
    }
    heads
}
