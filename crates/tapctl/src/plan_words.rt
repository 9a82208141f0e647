// A plan made from words.
use console::failure::Failure;
use graphs::graph::Graph;
use std::alloc::Global;

/// The bytes of a plan for the graph: four for each node, all zero but for the chains that the words
/// say, as `0:1` or `2:3,4`. Fails at a word that says no chain of one of the graph's nodes.
pub fn plan_of<'a>(heap: Global, graph: &Graph, words: &[&'a str]) -> Result<Vec<u8>, Failure<'a>> {
    let mut bytes = vec![in heap; 0u8; 4 * graph.named_nodes().len()]?;
    let (chains, _) = bytes.as_mut_slice().as_chunks_mut::<4>();
    for word in words {
        let no_chain = Failure::NoChain { word: *word };
        let (node, chain) = chain_of_word(word).ok_or(no_chain)?;
        *chains.get_mut(usize::from(node)).ok_or(no_chain)? = chain;
    }
    Ok(bytes)
}

// The node of a word, and its chain's four bytes. None if the word says no chain of up to three nodes.
fn chain_of_word(word: &str) -> Option<(u8, [u8; 4])> {
    let (node, chain) = word.split_once(':')?;
    Some((node.parse().ok()?, chain_of(chain)?))
}

// A chain's four bytes: how many nodes, and the nodes. None if the word says more than three, or
// something else than nodes.
fn chain_of(word: &str) -> Option<[u8; 4]> {
    let count = word.split(',').count();
    if count > 3 {
        return None;
    }
    let mut chain = [count as u8, 0, 0, 0];
    for (place, node) in chain[1..].iter_mut().zip(word.split(',')) {
        *place = node.parse().ok()?;
    }
    Some(chain)
}
