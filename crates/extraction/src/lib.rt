// Extraction of what a module imports. Port of swc_bundler's `import/mod.rs`.
#![tactic(auto)]

ghost use Rattle.std.specs.Prelude.{◌≡◌, false, true, ◌≤◌, length, replicate};
ghost use Rattle.modes.specs.Bits.{modes_of};
ghost use Rattle.tree.specs.declared.grammar.Set.TheVariants.{Module as module-set};
ghost use Rattle.tree.specs.Layout.{Bytes, two as two_of};
ghost use Rattle.tree.specs.Read.{read};
ghost use Rattle.scope.specs.ScopeValue.{modules_of};
ghost use Rattle.extraction_rules.specs.Call.{bad_lists, extracted, extraction};
ghost use Rattle.steps.specs.Step.{Effects};
ghost use Rattle.state.specs.Cells.{cells, Good};
ghost use Rattle.extraction.specs.Answer.{left, lent_as, room_in, UnreadAs};
ghost use Rattle.extraction.specs.Stages.{lists_of, LentTo, Owns, Prepares, Firsts, Anywhere, wrap_one, wrap_from, Seconds, DeliversFor, Whole, Ends};

mod passes; // a pass over a module's items

use inputs::{bad_externals, bad_table, names_twice};
use modes::Modes;
use passes::pass;
use records::put_records;
use report::{Report, no_counts};
use scope::id::{Atom, FileName};
use scope::{Mark, Scope};
use state::Tables;
use steps::{Effect, Refusal, Why};
use tree::grammar::Set;
use tree::read::{Unread, read_tree};

// The most bytes of a tree.
const MOST: usize = 32768;

// A file has no number, 'place 0'.
const NO_NUMBER: Refusal = Refusal {
    why: Why::TooManyFiles,
    place: 0,
};

// What a call is lent: the externals, the table of sources and files, and the tree.
#[derive(Clone, Copy)]
pub struct Lent<'a> {
    pub externals: &'a [u8],
    pub table: &'a [u8],
    pub tree: &'a [u8],
    ghost of_bytes: { Bytes tree.now },
}

impl<'a> Lent<'a> {
    // Of any three slices: that a tree has bytes below 256 is known of a parameter.
    pub fn new(externals: &'a [u8], table: &'a [u8], tree: &'a [u8]) -> Lent<'a>
        ensures { (result.externals.now ≡ externals.now) × (result.table.now ≡ table.now) × (result.tree.now ≡ tree.now) }
    {
        Lent {
            externals,
            table,
            tree,
        }
    }
}

// Why a call refuses.
#[derive(Clone, Copy, PartialEq, Eq)]
pub enum ExtractError {
    // the tree, the externals or the table is too long, or a list is no list
    BadLists,
    // the table names a source twice
    NamedTwice,
    // no tree
    Unread(Unread),
    // the walk turned back
    Refused(Refusal),
    // a buffer is too short, or a content too long
    NoRoom,
}

impl From<Unread> for ExtractError {
    ghost use Rattle.extraction.specs.declared.ExtractError.TheVariants.{Unread as no_tree};

    ghost from_gives = { λ u e. e ≡ no_tree u };

    fn from(unread: Unread) -> ExtractError {
        ExtractError::Unread(unread)
    }
}

impl From<Refusal> for ExtractError {
    ghost use Rattle.extraction.specs.declared.ExtractError.TheVariants.{Refused as turned};

    ghost from_gives = { λ r e. e ≡ turned r };

    fn from(refusal: Refusal) -> ExtractError {
        ExtractError::Refused(refusal)
    }
}

// What a call gives: the scope, the counts, and the answer.
#[derive(Drop)]
pub struct Extraction {
    pub scope: Scope,
    pub report: Report,
    pub answer: Result<(), ExtractError>,
}

// Extracts what a module imports: `work` then holds the tree after the first pass, `out` after the second, `records` the records.
pub fn extract_import_info(
    scope: Scope,
    file: FileName,
    modes: Modes,
    lent: &Lent,
    work: &mut [u8],
    out: &mut [u8],
    records: &mut [u8],
) -> Extraction
    ensures { (left result work.new out.new records.new ≡ extraction
        (lent_as file.0 modes lent.now.externals.now lent.now.table.now lent.now.tree.now)
        (room_in work.old out.old records.old) (modules_of scope)) × UnreadAs result.answer (read module-set lent.now.tree.now) }
{
    let mut t = Tables::new();
    match run(scope, file, modes, lent, &mut t, work, out, records) {
        Ok(()) => Extraction {
            scope: t.scope(),
            report: no_counts(),
            answer: Ok(()),
        },
        Err(error) => {
            writer::clear(work);
            writer::clear(out);
            writer::clear(records);
            Extraction {
                scope,
                report: no_counts(),
                answer: Err(error),
            }
        },
    }
}

// The tests, the passes and the records, in the order of the rules, with an array of zeros.
fn run(
    scope: Scope,
    file: FileName,
    modes: Modes,
    lent: &Lent,
    t: &mut Tables,
    work: &mut [u8],
    out: &mut [u8],
    records: &mut [u8],
) -> Result<(), ExtractError>
    requires { t.old.cells ≡ replicate cells 0 }
    ensures { Ends (Whole work.old out.old records.old work.new out.new records.new)
        (extracted (lent_as file.0 modes lent.now.externals.now lent.now.table.now lent.now.tree.now)
        (room_in work.old out.old records.old) (modules_of scope)) lent.now.tree.now t.new.cells result }
{
    prepare(scope, file, modes, lent, t)?;
    let n = first_pass(lent.tree, t, work)?;
    let m = second_pass(&work[..n], t, out)?;
    deliver_records(lent.tree, &work[..n], &out[..m], t, records)
        .then_some(())
        .ok_or(ExtractError::NoRoom)
}

// What stands before the passes, with an array of zeros: the tests, the lent lists, the own file.
fn prepare(
    scope: Scope,
    file: FileName,
    modes: Modes,
    lent: &Lent,
    t: &mut Tables,
) -> Result<(), ExtractError>
    requires { t.old.cells ≡ replicate cells 0 }
    ensures { Prepares (lent_as file.0 modes lent.now.externals.now lent.now.table.now lent.now.tree.now) (modules_of scope) t.new.cells result }
{
    lists(lent)?;
    lend(modes, lent, t);
    own_file(scope, file, t)
}

// Whether a lent list is too long, or none.
#[tactic(auto, unfolding(extraction_rules::specs::Call::bad_lists))]
fn bad_lists(lent: &Lent) -> bool
    ensures { result ≡ bad_lists (lent_as 0 (modes_of 0) lent.now.externals.now lent.now.table.now lent.now.tree.now) }
{
    MOST < lent.tree.len() || bad_externals(lent.externals) || bad_table(lent.table)
}

// The lent lists are tested, and the tree is read.
fn lists(lent: &Lent) -> Result<(), ExtractError>
    ensures { result ≡ lists_of (lent_as 0 (modes_of 0) lent.now.externals.now lent.now.table.now lent.now.tree.now) }
{
    if bad_lists(lent) {
        return Err(ExtractError::BadLists);
    }
    if names_twice(lent.table) {
        return Err(ExtractError::NamedTwice);
    }
    read_tree(lent.tree, Set::Module)?;
    Ok(())
}

// What a call is set to and lent goes into the array.
fn lend(modes: Modes, lent: &Lent, t: &mut Tables)
    requires { (t.old.cells ≡ replicate cells 0) × (length lent.now.externals.now ≤ 1024) × (length lent.now.table.now ≤ 4096) }
    ensures { LentTo modes lent.now.externals.now lent.now.table.now t.new.cells }
{
    t.set_modes(modes);
    t.lend_externals(lent.externals);
    t.lend_table(lent.table);
}

// 'Own file's number first': the array then shows the scope with it.
fn own_file(scope: Scope, file: FileName, t: &mut Tables) -> Result<(), ExtractError>
    ensures { Owns file.0 (modules_of scope) t.old.cells t.new.cells result }
{
    let g = scope.gen_id(file);
    let own = g.answer.map_err(|_| NO_NUMBER)?;
    t.load(g.scope);
    t.set_own(own.id);
    Ok(())
}

// The first pass, held to its buffer.
fn first_pass(tree: &[u8], t: &mut Tables, work: &mut [u8]) -> Result<usize, ExtractError>
    ensures { Firsts tree.now t.old.cells work.old t.new.cells work.new result }
{
    let n = pass(tree, t, work)?;
    writer::finish(work, n)
        .then_some(n)
        .ok_or(ExtractError::NoRoom)
}

// The second pass, over the tree that the first one left, and the wrapping marks, held to its buffer. 'All of pass two: 0'
fn second_pass(work: &[u8], t: &mut Tables, out: &mut [u8]) -> Result<usize, ExtractError>
    ensures { Seconds t.old.cells work.now out.old t.new.cells out.new result }
{
    t.set_second();
    let n = pass(work, t, out).map_err(|turned| Refusal { place: 0, ..turned })?;
    wrap(t)?;
    writer::finish(out, n)
        .then_some(n)
        .ok_or(ExtractError::NoRoom)
}

// 'At the end forced sources get the wrapping mark if they resolve.'
fn wrap(t: &mut Tables) -> Effect
    ensures { Effects Anywhere (λ x. wrap_from 0 x.setting) t.old.cells t.new.cells result }
{
    let mut i = 0;
    while i < t.count_forced() {
        wrap_source(t.forced_at(i), t)?;
        i += 1;
    }
    Ok(())
}

// The module of a forced source gets the wrapping mark.
fn wrap_source(source: Atom, t: &mut Tables) -> Effect
    ensures { Effects Anywhere (λ x. wrap_one x.setting (two_of source.0)) t.old.cells t.new.cells result }
{
    if let Some(id) = t.module_for(source).map_err(|_| NO_NUMBER)? {
        t.set_mark(id, Mark::Wrapping);
    }
    Ok(())
}

// The records, held to their buffer: whether they fit.
fn deliver_records(tree: &[u8], work: &[u8], out: &[u8], t: &Tables, records: &mut [u8]) -> bool
    ensures { DeliversFor tree.now work.now out.now t.now.cells records.old records.new result }
{
    let n = put_records(tree, work, out, t, records);
    writer::finish(records, n)
}
