// The records with a source, one by one, and the numbers that they get; the forced sources behind them.
ghost use Rattle.std.specs.Prelude.{◌≡◌, ◌+◌, ◌≤◌, length};
ghost use Rattle.scope.specs.ScopeValue.{modules_of};
ghost use Rattle.tree.specs.Layout.{two};
ghost use Rattle.inputs.specs.Lists.{among};
ghost use Rattle.inputs.specs.Table.{rows_in, file_of};
ghost use Rattle.resolving_rules.specs.Resolve.{sources_in, forced_in, number_one, number_all};
ghost use Rattle.resolving.specs.Records.{RecordsRead, records_in, forces_at};
ghost use Rattle.resolving.specs.Numbers.{number_by};

use scope::Scope;
use scope::id::Atom;
use tree::layout::{atom_at, literal_value};
use tree::row::{Part, Row};

// Where the records start.
pub const START: usize = 3;

// A 257th file is refused, at the place of the record that asks for it.
#[derive(Clone, Copy, PartialEq, Eq)]
pub struct TooManyFilesAt(pub usize);

// Gives a source its number, if it resolves; the record stands at place.
fn number_source(
    scope: Scope,
    table: &[u8],
    source: Atom,
    place: usize,
) -> Result<Scope, TooManyFilesAt>
    ensures { number_by result ≡ number_one (file_of (two source.0) (rows_in table.now)) (modules_of scope) place }
{
    let Some(file) = inputs::resolve(table, source) else {
        return Ok(scope);
    };
    let g = scope.gen_id(file);
    match g.answer {
        Ok(_) => Ok(g.scope),
        Err(_) => Err(TooManyFilesAt(place)),
    }
}

// 'Resolving numbers every resolvable source in that order.'
pub fn number_sources(
    mut scope: Scope,
    table: &[u8],
    records: &[u8],
) -> Result<Scope, TooManyFilesAt>
    requires { RecordsRead records.now }
    ensures { number_by result ≡ number_all (rows_in table.now) (sources_in (records_in records.now)) (modules_of scope) 3 }
{
    for part in Row::new(records, START, records.len()) {
        // forced sources stand behind all the others
        if part.tag() == 0x83 {
            break;
        }
        let source = Atom(literal_value(part.bytes, part.at + 3));
        scope = number_source(scope, table, source, part.at)?;
    }
    Ok(scope)
}

// Whether a record forces a source.
#[tactic(auto, unfolding(crate::specs::Records::forces_at))]
fn forces(part: Part, source: Atom) -> bool
    requires { part.at + 5 ≤ length part.bytes.now }
    ensures { result ≡ forces_at part.entry.bytes.now part.entry.at source.0 }
{
    part.tag() == 0x83 && source.0 == atom_at(part.bytes, part.at + 3)
}

// Whether a source is forced.
pub fn is_forced(records: &[u8], source: Atom) -> bool
    requires { RecordsRead records.now }
    ensures { result ≡ among (two source.0) (forced_in (records_in records.now)) }
{
    for part in Row::new(records, START, records.len()) {
        if forces(part, source) {
            return true;
        }
    }
    false
}
