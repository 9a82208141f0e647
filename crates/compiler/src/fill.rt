// All rows of a graph and a plan, put into any store.
ghost use Rattle.std.specs.Prelude.{◌≡◌, ◌<◌, ◌≤◌, map, length, Ok};
ghost use Rattle.graphs.specs.View.{graph_view};
ghost use Rattle.walks.specs.Rows.{entries, store_row};
ghost use Rattle.compiler.specs.Sinks.{sink_of, Room, Filled, line_of};
ghost use Rattle.compiler.specs.Filled.{all_rows, rows_alone, rows_chained};

use crate::checked::Checked;
use crate::program::CHAIN_BASE;
use crate::sink::Sink;
use crate::start::Start;
use plans::path::Path;
use stores::fault::StoreFault;
use stores::state::State;
use stores::store::Store;

impl<S: Store> Sink<'_, S> {
    // Puts the rows of graph and plan into the store, in order, and their actions beside them: first
    // those of each node by itself. The store has room for them.
    pub(crate) fn fill(&mut self, checked: &Checked) -> Result<(), StoreFault>
        requires { Room (sink_of S.Store.meaning self.old) (all_rows checked.now) }
        ensures answered { result ≡ Ok tt }
        ensures filled { Filled S.Store.meaning self.old self.new (map line_of (all_rows checked.now)) }
    {
        self.fill_alone(checked)?;
        self.fill_chained(checked)?;
        Ok(())
    }

    // Puts the rows of each node by itself into the store, under the node's own state.
    fn fill_alone(&mut self, checked: &Checked) -> Result<(), StoreFault>
        requires { Room (sink_of S.Store.meaning self.old) (rows_alone checked.now) }
        ensures answered { result ≡ Ok tt }
        ensures filled { Filled S.Store.meaning self.old self.new (map line_of (rows_alone checked.now)) }
    {
        for node in 0..checked.graph.size() {
            self.fill_state(node, &Path::new(&checked.graph, node, &[]))?;
        }
        Ok(())
    }

    // Puts the rows of each node with its chain into the store, under the state of both; none where it
    // has no chain.
    fn fill_chained(&mut self, checked: &Checked) -> Result<(), StoreFault>
        requires { Room (sink_of S.Store.meaning self.old) (rows_chained checked.now) }
        ensures answered { result ≡ Ok tt }
        ensures filled { Filled S.Store.meaning self.old self.new (map line_of (rows_chained checked.now)) }
    {
        for node in 0..checked.graph.size() {
            let chain = checked.chains.chain(node);
            let path = Path::new(&checked.graph, node, chain.named_nodes());
            if path.behind.is_empty() {
                continue;
            }
            self.fill_state(CHAIN_BASE + node, &path)?;
        }
        Ok(())
    }

    // Puts the rows of a node and a chain into the store, under a state.
    fn fill_state(&mut self, number: u8, path: &Path) -> Result<(), StoreFault>
        requires number { number < 64 }
        requires short { length path.now.behind.now ≤ 3 }
        requires room { Room (sink_of S.Store.meaning self.old) (map (store_row number) (entries (graph_view path.now.graph.now) path.now.node path.now.behind.now)) }
        ensures answered { result ≡ Ok tt }
        ensures filled { Filled S.Store.meaning self.old self.new (map line_of (map (store_row number) (entries (graph_view path.now.graph.now) path.now.node path.now.behind.now))) }
    {
        let state = State::new(number).unwrap();
        self.emit(path, &Start::new(state))
    }
}
