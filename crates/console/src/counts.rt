// How large a graph is.
ghost use Rattle.std.specs.Prelude.{◌≡◌};
ghost use Rattle.graphs.specs.View.{graph_view};
ghost use Rattle.console.specs.Counts.{row_total};

use graphs::graph::Graph;

/// How many rows the graph's nodes have together.
pub fn row_count(graph: &Graph) -> usize
    ensures { result ≡ row_total (graph_view graph.now) }
{
    graph
        .named_nodes()
        .iter()
        .map(|node| node.row_total())
        .sum()
}
