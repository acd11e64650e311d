// Demand 3's first sentence for hosts: the exported calls one after the other, the second lent the files of the scope that came back.
ghost use Rattle.std.specs.Prelude.{◌≡◌, ◌≤◌, length};
ghost use Rattle.modes.specs.Bits.{modes_of};
ghost use Rattle.tree.specs.Layout.{two_at, field_in};
ghost use Rattle.writer.specs.Wrote.{Wrote};
ghost use Rattle.extraction.specs.Answer.{lent_as, room_in};
ghost use Rattle.resolving.specs.Answer.{lent_as as records_as};
ghost use Rattle.tychodrel.specs.Calls.{resolve_call, LeavesList};
ghost use Rattle.corollaries.specs.Hosts.{files_back, LeavesBoth};

use crate::{PairError, front, wide};
use tychodrel::{tychodrel_extract, tychodrel_resolve};
use writer::put;

// Extracts what a module imports, and resolves the records that stand in their buffer, lent the files of the scope that came back and the
// same modes and table.
pub fn extract_then_resolve(
    files: &[u8],
    file: u16,
    modes: u32,
    externals: &[u8],
    table: &[u8],
    tree: &[u8],
    scope: &mut [u8; 770],
    work: &mut [u8],
    out: &mut [u8],
    records: &mut [u8],
    after: &mut [u8; 770],
    list: &mut [u8],
) -> Result<(), PairError>
    ensures { LeavesBoth files.now (lent_as file (modes_of modes) externals.now table.now tree.now)
        (room_in work.old out.old records.old) (length list.old) scope.new out.new
        records.new after.new list.new result }
{
    let mut report = [0u8; 32];
    let a = tychodrel_extract(
        files,
        file,
        modes,
        externals,
        table,
        tree,
        scope,
        &mut report,
        work,
        out,
        records,
    );
    if a != 0 {
        return Err(PairError::NotExtracted);
    }
    let b = resolve_with(scope, modes, table, records, after, &mut report, list);
    if b != 0 {
        return Err(PairError::NotListed);
    }
    Ok(())
}

// Resolves the records at the front of a buffer, lent the files in a scope's bytes.
fn resolve_with(
    scope: &[u8; 770],
    modes: u32,
    table: &[u8],
    records: &[u8],
    after: &mut [u8; 770],
    report: &mut [u8; 32],
    list: &mut [u8],
) -> u64
    requires { (two_at scope.now 0 ≤ 256) × (length scope.now ≡ 770) }
    ensures { LeavesList
        (resolve_call (files_back scope.now) (records_as (modes_of modes) table.now (field_in records.now)) (length list.old)) result
        after.new report.new list.new }
{
    let mut files = [0u8; 512];
    let n = put_files(scope, &mut files);
    let end = front(records);
    tychodrel_resolve(
        &files[0..n],
        modes,
        table,
        &records[0..end],
        after,
        report,
        list,
    )
}

// Puts the files in a scope's bytes into a buffer, and answers how many bytes they are.
fn put_files(scope: &[u8], files: &mut [u8]) -> usize
    requires { (two_at scope.now 0 ≤ 256) × (length scope.now ≡ 770) }
    ensures { Wrote files.old 0 (files_back scope.now) files.new result }
{
    let n = wide(scope[0]) * 256 + wide(scope[1]);
    let mut to = 0;
    for i in 0..n {
        to = put(files, to, scope[2 + 3 * i]);
        to = put(files, to, scope[3 + 3 * i]);
    }
    to
}
