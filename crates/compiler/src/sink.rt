// A store that is being filled, and the actions beside its rows.
ghost use Rattle.std.specs.Prelude.{◌≡◌, [], ◌∷◌, Ok};
ghost use Rattle.compiler.specs.Sinks.{sink_of, Room, Emptied, Filled, line_with};

use crate::few::Few;
use crate::program::ROWS;
use crate::start::Start;
use patterns::row::Target;
use stores::fault::StoreFault;
use stores::store::Store;
use walks::action::Action;

// A store, and the actions beside its rows, both lent until all rows are put.
#[derive(Drop)]
pub struct Sink<'a, S> {
    pub store: &'a mut S,
    pub actions: &'a mut Few<Action, ROWS>,
}

impl<S: Store> Sink<'_, S> {
    // Leaves no rows in the store, and no actions.
    pub(crate) fn empty(&mut self)
        ensures { Emptied S.Store.meaning self.old self.new }
    {
        self.store.wipe();
        self.actions.clear();
    }

    // Puts the row that ends here into the store, and its action beside it. Without a target it is a
    // closing row: only the first part.
    pub(crate) fn put(&mut self, start: &Start, target: Option<Target>) -> Result<(), StoreFault>
        requires { Room (sink_of S.Store.meaning self.old) (target ∷ []) }
        ensures answered { result ≡ Ok tt }
        ensures filled { Filled S.Store.meaning self.old self.new (line_with start.now target ∷ []) }
    {
        self.store.append(&start.row())?;
        self.actions.push(Action {
            beyond: start.beyond,
            target,
        });
        Ok(())
    }
}
