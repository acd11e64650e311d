// Resolving of records: sources get their modules, specifiers their resolved form. Port of swc_bundler's `bundler/load.rs`,
// `resolve_imports`.
#![tactic(auto)]

ghost use Rattle.std.specs.Prelude.{◌≡◌, length};
ghost use Rattle.report.specs.Counts.{no_counts};
ghost use Rattle.scope.specs.ScopeValue.{modules_of};
ghost use Rattle.tree.specs.declared.grammar.Set.TheVariants.{Records as records-set};
ghost use Rattle.tree.specs.Read.{read};
ghost use Rattle.inputs.specs.Table.{rows_in};
ghost use Rattle.writer.specs.Finished.{zeroed};
ghost use Rattle.resolving_rules.specs.Call.{resolving};
ghost use Rattle.resolving_rules.specs.Resolve.{sources_in};
ghost use Rattle.resolving.specs.Records.{RecordsRead, records_in};
ghost use Rattle.resolving.specs.Numbers.{NumbersAll};
ghost use Rattle.resolving.specs.declared.ResolveError.TheVariants.{Unread as unread, TooManyFiles as too_many};
ghost use Rattle.resolving.specs.Answer.{lent_as, left, left_by, UnreadAs};
ghost use Rattle.resolving.specs.Stages.{lists_of, NumberedBy, listed_left};

mod sources; // the records with a source, and their numbers
pub mod specifiers; // specifiers, resolved
mod list; // the resolved list

use list::put_list;
use modes::Modes;
use report::{Report, no_counts};
use scope::Scope;
use sources::{TooManyFilesAt, number_sources};
use specifiers::Refusal;
use tree::grammar::Set;
use tree::read::{Unread, read_tree};

// Why a call refuses.
#[derive(Clone, Copy, PartialEq, Eq)]
pub enum ResolveError {
    // the table is too long, or none
    BadTable,
    // the table names a source twice
    NamedTwice,
    // no records
    Unread(Unread),
    // a 257th file, at this record
    TooManyFiles(usize),
    // the list turned back
    Refused(Refusal),
    // the buffer is too short, or the list too long
    NoRoom,
}

impl From<Unread> for ResolveError {
    ghost from_gives = { λ u e. e ≡ unread u };

    fn from(unread: Unread) -> ResolveError {
        ResolveError::Unread(unread)
    }
}

impl From<TooManyFilesAt> for ResolveError {
    ghost from_gives = { λ refused e. e ≡ too_many refused.0 };

    fn from(refused: TooManyFilesAt) -> ResolveError {
        ResolveError::TooManyFiles(refused.0)
    }
}

// What a call gives: the scope, the counts, and the answer.
#[derive(Drop)]
pub struct Resolution {
    pub scope: Scope,
    pub report: Report,
    pub answer: Result<(), ResolveError>,
}

// Resolves records: each source that resolves gets its number, and `list` then holds the resolved list. No rule asks the modes yet.
pub fn resolve_imports(
    scope: Scope,
    modes: Modes,
    table: &[u8],
    records: &[u8],
    list: &mut [u8],
) -> Resolution
    ensures { (left result list.new ≡ resolving (lent_as modes table.now records.now) (length list.old) (modules_of scope))
        × UnreadAs result.answer (read records-set records.now) }
{
    match numbered(scope, table, records) {
        Ok(new) => Resolution {
            scope: new,
            report: no_counts(),
            answer: listing(new, table, records, list),
        },
        Err(error) => refuse(scope, error, list),
    }
}

// What a refused call gives whose scope is as it was: the buffer is zeroed.
fn refuse(scope: Scope, error: ResolveError, list: &mut [u8]) -> Resolution
    ensures { (result ≡ record { scope = scope; report = no_counts; answer = Err error }) × (list.new ≡ zeroed list.old) }
{
    writer::clear(list);
    Resolution {
        scope,
        report: no_counts(),
        answer: Err(error),
    }
}

// The table is tested, and the records are read.
fn lists(table: &[u8], records: &[u8]) -> Result<(), ResolveError>
    ensures { result ≡ lists_of table.now records.now }
{
    if inputs::bad_table(table) {
        return Err(ResolveError::BadTable);
    }
    if inputs::names_twice(table) {
        return Err(ResolveError::NamedTwice);
    }
    read_tree(records, Set::Records)?;
    Ok(())
}

// The tests, and then the sources get their numbers.
fn numbered(scope: Scope, table: &[u8], records: &[u8]) -> Result<Scope, ResolveError>
    ensures { NumberedBy table.now records.now (modules_of scope) result }
{
    lists(table, records)?;
    Ok(number_sources(scope, table, records)?)
}

// The list is made, and held to its buffer.
fn listing(scope: Scope, table: &[u8], records: &[u8], list: &mut [u8]) -> Result<(), ResolveError>
    requires { RecordsRead records.now × NumbersAll (rows_in table.now) (modules_of scope) (sources_in (records_in records.now)) }
    ensures list { left_by result (modules_of scope) no_counts list.new ≡ listed_left table.now records.now (length list.old) (modules_of scope) }
    ensures read { UnreadAs result (read records-set records.now) }
{
    match put_list(scope, table, records, list) {
        Ok(n) => if writer::finish(list, n) {
            Ok(())
        } else {
            Err(ResolveError::NoRoom)
        },
        Err(refusal) => {
            writer::clear(list);
            Err(ResolveError::Refused(refusal))
        }
    }
}
