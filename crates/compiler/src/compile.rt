// Loading a graph file and a plan into any store.
ghost use Rattle.std.specs.Prelude.{◌≡◌, ℕ, ◌≤◌, [], map, length, Ok, OnErr};
ghost use Rattle.refusals.specs.Searching.{fault_of, unless};
ghost use Rattle.refusals.specs.Least.{Answers};
ghost use Rattle.headers.specs.Table.{minimum_in, standard_table};
ghost use Rattle.graphs.specs.View.{graph_view};
ghost use Rattle.stores.specs.Fits.{fits};
ghost use Rattle.compiler.specs.Filled.{all_rows};
ghost use Rattle.walks.specs.Plans.{Lawful, store_count};
ghost use Rattle.plans.specs.Chains.{chain_of};
ghost use Rattle.compiler.specs.Faults.{of_load};
ghost use Rattle.compiler.specs.Programs.{most_rows, Stands};
ghost use Rattle.compiler.specs.Loading.{roomy, LoadApplies, load_fault, storing, Loaded, Loadable};

use crate::checked::Checked;
use crate::fault::LoadFault;
use crate::program::{Head, Program, ROWS, heads_of};
use crate::sink::Sink;
use graph_reader::read::read_graph_by;
use headers::table::KindTable;
use plans::count::row_count;
use plans::read::read_plan;
use stores::fault::StoreFault;
use stores::store::Store;

// File and plan are two arguments throughout: a caller, also one in C, hands over each by itself.

/// Reads a graph file and a plan, fills the store with their rows in place of its own, and writes
/// what a reader keeps beside them. Refused by 1 to 6 as the file is, by 7 and 8 as the plan is, then
/// by 9 if the rows are more than 512 or than the store can have; a refused call changes nothing.
pub fn compile<S: Store>(
    file: &[u8],
    plan: &[u8],
    store: &mut S,
    program: &mut Program,
) -> Result<(), LoadFault>
    ensures is { fault_of result ≡ load_fault (minimum_in standard_table) file.now plan.now (S.Store.meaning store.old).capacity }
    ensures answers { Answers of_load (LoadApplies (minimum_in standard_table) file.now plan.now (S.Store.meaning store.old).capacity) (λ _. Loaded (minimum_in standard_table) file.now plan.now (S.Store.meaning store.old) (S.Store.meaning store.new) program.new) result }
    ensures kept { OnErr result ((store.new ≡ store.old) × (program.new ≡ program.old)) }
{
    compile_by(&KindTable::standard(), file, plan, store, program)
}

/// The same with a given table of kinds, which says the fewest bytes of each kind.
pub fn compile_by<S: Store>(
    table: &KindTable,
    file: &[u8],
    plan: &[u8],
    store: &mut S,
    program: &mut Program,
) -> Result<(), LoadFault>
    ensures is { fault_of result ≡ load_fault (minimum_in table.now) file.now plan.now (S.Store.meaning store.old).capacity }
    ensures answers { Answers of_load (LoadApplies (minimum_in table.now) file.now plan.now (S.Store.meaning store.old).capacity) (λ _. Loaded (minimum_in table.now) file.now plan.now (S.Store.meaning store.old) (S.Store.meaning store.new) program.new) result }
    ensures kept { OnErr result ((store.new ≡ store.old) × (program.new ≡ program.old)) }
{
    let checked = check(table, file, plan, store.capacity())?;
    load(table, &checked, store, program)?;
    Ok(())
}

// The graph of the file and the chains of the plan. Refused by 1 to 9.
fn check(table: &KindTable, file: &[u8], plan: &[u8], capacity: u16) -> Result<Checked, LoadFault>
    ensures is { fault_of result ≡ load_fault (minimum_in table.now) file.now plan.now capacity }
    ensures answers { Answers of_load (LoadApplies (minimum_in table.now) file.now plan.now capacity) (λ checked. Loadable (minimum_in table.now) file.now plan.now capacity checked) result }
{
    let graph = read_graph_by(table, file)?;
    let chains = read_plan(&graph, plan)?;
    check_room(row_count(&graph, &chains), capacity)?;
    Ok(Checked { graph, chains })
}

// Refused by 9: too many rows, at their number.
fn check_room(rows: u16, capacity: u16) -> Result<(), LoadFault>
    ensures { fault_of result ≡ unless (roomy rows capacity) (LoadFault.TooMany rows) }
{
    if usize::from(rows) > ROWS || rows > capacity {
        return Err(LoadFault::TooMany { rows });
    }
    Ok(())
}

// Fills the wiped store and writes the program. The store has room.
fn load<S: Store>(
    table: &KindTable,
    checked: &Checked,
    store: &mut S,
    program: &mut Program,
) -> Result<(), StoreFault>
    requires few { store_count (graph_view checked.now.graph) (chain_of checked.now.chains) ≤ most_rows }
    requires room { store_count (graph_view checked.now.graph) (chain_of checked.now.chains) ≤ (S.Store.meaning store.old).capacity }
    requires lawful { Lawful (graph_view checked.now.graph) (chain_of checked.now.chains) }
    requires past { (n : ℕ) → length (graph_view checked.now.graph) ≤ n → chain_of checked.now.chains n ≡ [] }
    ensures answered { result ≡ Ok tt }
    ensures rows { S.Store.meaning store.new ≡ storing (S.Store.meaning store.old) (all_rows checked.now) }
    ensures holds { (S.Store.meaning store.new).rows ≡ map (λ r. fits r.row) (all_rows checked.now) }
    ensures stands { Stands (minimum_in table.now) program.new (graph_view checked.now.graph) (chain_of checked.now.chains) }
{
    let actions = &mut program.actions;
    let mut sink = Sink { store, actions };
    sink.empty();
    sink.fill(checked)?;
    program.blank = Head::blank(table);
    program.heads = heads_of(table, checked, program.blank);
    Ok(())
}
