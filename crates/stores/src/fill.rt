// Filling any store.
ghost use Rattle.std.specs.Prelude.{◌≡◌};
ghost use Rattle.stores.specs.Meaning.{appended_each};
ghost use Rattle.stores.specs.Filled.{all_taken};

use crate::fault::StoreFault;
use crate::question::Row;
use crate::store::Store;

/// Appends the rows in order. Refused by 9 if they are more than are taken: as many as are taken
/// then stand in the store.
pub fn fill<S: Store>(store: &mut S, rows: &[Row]) -> Result<(), StoreFault>
    ensures answered { result ≡ all_taken (S.Store.meaning store.old) rows.now }
    ensures after { S.Store.meaning store.new ≡ appended_each (S.Store.meaning store.old) rows.now }
{
    for row in rows {
        store.append(row)?;
    }
    Ok(())
}
