// Where the lookup bytes of a node and its chain lie.
ghost use Rattle.std.specs.Prelude.{◌≡◌, ◌+◌, ◌*◌, ◌≤◌, ◌++◌, map, length};
ghost use Rattle.graphs.specs.View.{graph_view};
ghost use Rattle.walks.specs.Plans as plan;
ghost use Rattle.compiler.specs.Held.{held};
ghost use Rattle.compiler.specs.Programs.{looked_up};

use crate::few::Few;
use plans::path::Path;
use plans::window::fixed_size;

/// The most lookup bytes of a node and its chain.
pub const LOOKUPS: usize = 8;

// Puts the places of a path's lookup bytes behind others, each counted from so many bytes before the
// path begins.
pub(crate) fn put_lookups(path: &Path, from: u16, lookups: &mut Few<u16, LOOKUPS>)
    requires room { length (held lookups.old) + plan.lookups (graph_view path.now.graph.now) path.now.node path.now.behind.now ≤ 8 }
    requires near { from + 256 * length path.now.behind.now ≤ 65279 }
    ensures { held lookups.new ≡ held lookups.old ++ map (λ i. from + i) (looked_up (graph_view path.now.graph.now) path.now.node path.now.behind.now) }
{
    let here = path.here();
    for place in here.lookup() {
        lookups.push(from + u16::from(*place));
    }
    if let Some(rest) = path.rest() {
        put_lookups(&rest, from + fixed_size(here.length), lookups);
    }
}
