// The records of an extraction, written at the end from the lent tree, the trees after both passes and the tables.
#![tactic(auto)]

ghost use Rattle.tree.specs.Tree.{encode};
ghost use Rattle.state.specs.Cells.{Good};
ghost use Rattle.records.specs.Writes.{WroteFor, Placing, BothRead, records_in};

mod bindings; // the binding ids of a pattern
mod collected; // collected records
mod lazy; // lazy records and forced sources
mod literals; // literals by their places
mod namespaces; // what became of namespace imports
mod parts; // the parts of an import
mod places; // where the imports stand
mod sources; // the imports of a source

use collected::put_collected;
use lazy::{put_forced, put_lazies};
use state::Tables;

// Writes the records at 0: collected, lazy, forced. `work` and `out` are the trees after the first and the second pass.
pub fn put_records(tree: &[u8], work: &[u8], out: &[u8], t: &Tables, records: &mut [u8]) -> usize
    ensures { WroteFor (λ x. Placing tree.now work.now x × BothRead work.now out.now)
        (λ s. encode (records_in work.now out.now s)) t.now.cells records.old 0 records.new result }
{
    let content = writer::open_field(records, 0, 0x02);
    let lazies = put_collected(tree, work, out, t, records, content);
    let forced = put_lazies(tree, work, t, records, lazies);
    let p = put_forced(t, records, forced);
    writer::close_field(records, 0, p);
    p
}
