// The rows of a node and the chain behind it, put into any store.
ghost use Rattle.std.specs.Prelude.{◌≡◌, map, Ok};
ghost use Rattle.graphs.specs.View.{graph_view};
ghost use Rattle.walks.specs.Rows.{entries};
ghost use Rattle.compiler.specs.Sinks.{sink_of, Room, Filled, line_as, Ready};

use crate::cursor::Cursor;
use crate::sink::Sink;
use crate::start::Start;
use plans::path::Path;
use stores::fault::StoreFault;
use stores::store::Store;

impl<S: Store> Sink<'_, S> {
    // Puts the rows of a node and the chain behind it into the store, each begun by `start`, and their
    // actions beside them. The store has room for them.
    pub(crate) fn emit(&mut self, path: &Path, start: &Start) -> Result<(), StoreFault>
        requires ready { Ready path.now.behind.now start.now }
        requires room { Room (sink_of S.Store.meaning self.old) (entries (graph_view path.now.graph.now) path.now.node path.now.behind.now) }
        ensures answered { result ≡ Ok tt }
        ensures filled { Filled S.Store.meaning self.old self.new (map (line_as start.now) (entries (graph_view path.now.graph.now) path.now.node path.now.behind.now)) }
    {
        let here = path.here();
        let width = here.lookup().len();
        for piece in Cursor::new(&here) {
            let longer = start.longer(piece, width);
            if let Some(rest) = path.rest_to(piece.target) {
                let passed = longer.passed();
                self.emit(&rest, &passed)?;
                self.put(&passed, None)?;
            } else {
                self.put(&longer, Some(piece.target))?;
            }
        }
        Ok(())
    }
}
