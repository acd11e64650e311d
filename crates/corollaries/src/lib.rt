// The theorems of the functions themselves. Each function here makes calls and ensures what a theorem says of them, so that the
// sentence stands on the contracts of what it speaks of: where one is weakened, this crate is no longer proved. Nothing calls them.
#![tactic(auto)]

pub mod exported; // the exported calls, for hosts

ghost use Rattle.std.specs.Prelude.{◌≡◌, [], ◌<◌, ◌≤◌, length, take};
ghost use Rattle.scope.specs.ScopeValue.{modules_of};
ghost use Rattle.tree.specs.Layout.{field_in};
ghost use Rattle.extraction.specs.Answer.{lent_as, room_in};
ghost use Rattle.resolving_rules.specs.Call.{resolving};
ghost use Rattle.resolving.specs.Answer.{lent_as as records_as, left as left_list};
ghost use Rattle.theorems.specs.Lists.{requests, requests_all, sets, reads, reads_esm, extracts, resolves};
ghost use Rattle.corollaries.specs.Functions.{HandsBack, Exact, Pairs};

use extraction::{Lent, extract_import_info};
use modes::Modes;
use resolving::{Resolution, resolve_imports};
use scope::id::{FileName, ModuleId};
use scope::{Mark, NoSuchModule, Scope};

// Which of two calls refused.
#[derive(Clone, Copy, PartialEq, Eq)]
pub enum PairError {
    NotExtracted,
    NotListed,
}

// The scopes after extraction and after resolving.
#[derive(Drop)]
pub struct Pair {
    pub extracted: Scope,
    pub resolved: Scope,
    pub answer: Result<(), PairError>,
}

// Extracts what a module imports, and resolves the records that stand in their buffer, with the same modes and table and in the scope handed on.
pub fn extract_and_resolve(
    scope: Scope,
    file: FileName,
    modes: Modes,
    lent: &Lent,
    work: &mut [u8],
    out: &mut [u8],
    records: &mut [u8],
    list: &mut [u8],
) -> Pair
    ensures { Pairs (lent_as file.0 modes lent.now.externals.now lent.now.table.now lent.now.tree.now)
        (room_in work.old out.old records.old) (length list.old) scope out.new
        records.new list.new result }
{
    let r = extract_import_info(scope, file, modes, lent, work, out, records);
    let extracted = r.scope;
    match r.answer {
        Ok(()) => {
            let q = resolve_front(extracted, modes, lent.table, records, list);
            let resolved = q.scope;
            match q.answer {
                Ok(()) => Pair {
                    extracted,
                    resolved,
                    answer: Ok(()),
                },
                Err(_) => Pair {
                    extracted,
                    resolved,
                    answer: Err(PairError::NotListed),
                },
            }
        },
        Err(_) => Pair {
            extracted,
            resolved: extracted,
            answer: Err(PairError::NotExtracted),
        },
    }
}

// Resolves the records at the front of a buffer.
fn resolve_front(
    scope: Scope,
    modes: Modes,
    table: &[u8],
    records: &[u8],
    list: &mut [u8],
) -> Resolution
    ensures { left_list result list.new ≡ resolving (records_as modes table.now (field_in records.now)) (length list.old)
        (modules_of scope) }
{
    let end = front(records);
    resolve_imports(scope, modes, table, &records[0..end], list)
}

fn wide(x: u8) -> usize
    ensures { (result ≡ x) × (result < 256) }
{
    x as usize
}

// Where the field at the front of a buffer ends, or the buffer.
fn front(s: &[u8]) -> usize
    ensures { (take result s.now ≡ field_in s.now) × (result ≤ length s.now) }
{
    if s.len() < 3 {
        return s.len();
    }
    let end = 3 + wide(s[1]) * 256 + wide(s[2]);
    if end < s.len() { end } else { s.len() }
}

// The calls of a list, one by one: each hands its scope back.

pub fn request_file(scope: Scope, file: FileName) -> Scope
    ensures { HandsBack (requests file) scope result }
{
    let g = scope.gen_id(file);
    g.scope
}

pub fn request_files(scope: Scope, files: &[u8]) -> Scope
    ensures { HandsBack (requests_all files.now) scope result }
{
    let g = scope.gen_ids(files);
    g.scope
}

pub fn set_mark(scope: Scope, kind: Mark, id: ModuleId) -> Scope
    ensures { HandsBack (sets kind id) scope result }
{
    match kind {
        Mark::Loaded => {
            let m = scope.mark_as_loaded(id);
            m.scope
        },
        Mark::Stored => {
            let m = scope.store_module(id);
            m.scope
        },
        Mark::Cjs => {
            let m = scope.mark_as_cjs(id);
            m.scope
        },
        Mark::Wrapping => {
            let m = scope.mark_as_wrapping_required(id);
            m.scope
        },
    }
}

pub fn read_mark(scope: Scope, kind: Mark, id: ModuleId) -> Scope
    ensures { HandsBack (reads kind id) scope result }
{
    match kind {
        Mark::Loaded => {
            let _ = scope.is_loaded(id);
            scope
        },
        Mark::Stored => {
            let _ = scope.is_stored(id);
            scope
        },
        Mark::Cjs => {
            let _ = scope.is_cjs(id);
            scope
        },
        Mark::Wrapping => {
            let _ = scope.should_be_wrapped_with_a_fn(id);
            scope
        },
    }
}

pub fn read_esm(scope: Scope, id: ModuleId) -> Scope
    ensures { HandsBack (reads_esm id) scope result }
{
    let _ = scope.wrapped_esm_id(id);
    scope
}

pub fn extract(
    scope: Scope,
    file: FileName,
    modes: Modes,
    lent: &Lent,
    work: &mut [u8],
    out: &mut [u8],
    records: &mut [u8],
) -> Scope
    ensures { HandsBack
        (extracts (lent_as file.0 modes lent.now.externals.now lent.now.table.now lent.now.tree.now)
        (room_in work.old out.old records.old)) scope result }
{
    let e = extract_import_info(scope, file, modes, lent, work, out, records);
    e.scope
}

pub fn resolve(scope: Scope, modes: Modes, table: &[u8], records: &[u8], list: &mut [u8]) -> Scope
    ensures { HandsBack (resolves (records_as modes table.now records.now) (length list.old)) scope result }
{
    let e = resolve_imports(scope, modes, table, records, list);
    e.scope
}

// A scope that no call was made on.
pub fn fresh() -> Scope
    ensures { modules_of result ≡ [] }
{
    Scope::new()
}

// Whether a module is to be wrapped: exact after any calls from a fresh scope on.
pub fn wrapped_exactly(scope: Scope, id: ModuleId) -> Result<bool, NoSuchModule>
    ensures { Exact id scope result }
{
    scope.should_be_wrapped_with_a_fn(id)
}
