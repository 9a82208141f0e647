// A plan in memory.
ghost use Rattle.std.specs.Prelude.{◌≡◌, ℕ, ◌≤◌, length, replicate};
ghost use Rattle.plans.specs.Chains.{nodes_of, no_chain, chain_itself, chain_of, chain_at};

use graphs::graph::NODES;
use graphs::named::named;

/// The most nodes of a chain.
pub const BEHIND: usize = 3;

/// The nodes behind a node that are taken in one look with it: as many as are counted.
// An array with its count: a plan's byte may say more than there are, and that is refused by 7.
#[derive(Clone, Copy)]
pub struct Chain {
    pub count: u8,
    pub nodes: [u8; BEHIND],
}

/// A plan: for each node its chain.
#[derive(Clone, Copy)]
pub struct Chains {
    pub chains: [Chain; NODES],
}

impl Chain {
    /// The chain of no nodes.
    pub fn none() -> Chain
        ensures { result ≡ no_chain }
    {
        Chain {
            count: 0,
            nodes: [0; BEHIND],
        }
    }

    /// The nodes that the chain's count names.
    pub fn named_nodes(&self) -> &[u8]
        ensures is { result.now ≡ nodes_of self.now }
        ensures few { length result.now ≤ 3 }
    {
        named(&self.nodes, self.count)
    }
}

/// The chain that a node's four bytes say: how many nodes are behind it, and three nodes.
impl From<[u8; 4]> for Chain {
    ghost from_gives = { λ four r. r ≡ chain_at four 0 };

    fn from(four: [u8; 4]) -> Chain {
        let [count, a, b, c] = four;
        Chain {
            count,
            nodes: [a, b, c],
        }
    }
}

impl Chains {
    /// The plan without chains.
    pub fn none() -> Chains
        ensures is { result ≡ record { chains = replicate 32 no_chain } }
        ensures says { (n : ℕ) → chain_itself result n ≡ no_chain }
    {
        Chains {
            chains: [Chain::none(); NODES],
        }
    }

    /// The chain of a node; that of no nodes where the plan has none.
    pub fn chain(&self, node: u8) -> Chain
        ensures is { result ≡ chain_itself self.now node }
        ensures says { nodes_of result ≡ chain_of self.now node }
    {
        self.chains
            .get(usize::from(node))
            .copied()
            .unwrap_or(Chain::none())
    }
}
