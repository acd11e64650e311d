// Collected records: their literals and first namespaces, and the namespaces met.
ghost use Rattle.std.specs.Prelude.{◌≡◌, ◌<◌, length};
ghost use Rattle.inputs.specs.Lists.{find};
ghost use Rattle.extraction_rules.specs.First.{used_record, holds_namespace};
ghost use Rattle.tree.specs.Layout.{two, value_of};
ghost use Rattle.state.specs.Cells.{Good, id_limit, id_by, literal_by, records, held};
ghost use Rattle.state.specs.Does.{Tells, Holds, range_of, source_by, source_of, source_at, Collects, Extends};

use crate::ident::{id_number, literal_number, numbered_literal};
use crate::{Literal, NAMESPACES, PER_ATOM, RECORDS, TableFull, Tables};
use scope::id::{Atom, Id, ModuleId};

impl Tables {
    // The source of the record at a place.
    fn source_at(&self, i: usize) -> Atom
        requires { (i < held records self.now.cells) }
        ensures { two result.0 ≡ source_at self.now.cells i }
    {
        Atom((tables::key_of(&self.cells, RECORDS, i) / PER_ATOM) as u16)
    }
}

// From which value on and up to which the first namespaces stand by which the record of a usage is found: an id in the own local context
// is found by its name alone.
fn range_of(own: ModuleId, n: u64) -> (u64, u64)
    requires { n < id_limit }
    ensures { result ≡ range_of own.0 n }
{
    let context = n % PER_ATOM;
    if context == own.local_ctxt().0 as u64 {
        (n - context + 1, n - context + PER_ATOM)
    } else {
        (n + 1, n + 1)
    }
}

impl Tables {
    // The source of the record that a usage of an id belongs to.
    pub fn used_record(&self, own: ModuleId, id: Id) -> Option<Atom>
        ensures { Tells (λ s. source_of (used_record own.0 (id_by id) s.collected)) self.now.cells (source_by result) }
    {
        let n = id_number(id);
        let (low, high) = range_of(own, n);
        let i = tables::find_value(&self.cells, RECORDS, self.first_named(n), low, high)?;
        Some(self.source_at(i))
    }

    // The source of the first record that holds a namespace.
    pub fn holder(&self, id: Id) -> Option<Atom>
        ensures { Tells (λ s. source_of (find (holds_namespace (id_by id)) s.collected)) self.now.cells (source_by result) }
    {
        let i = self.least_holder(id_number(id))? as usize;
        if i < tables::count_of(&self.cells, RECORDS) {
            Some(self.source_at(i))
        } else {
            None
        }
    }

    // The record of a literal's value, or a new one.
    pub fn collect(&mut self, literal: Literal) -> Result<usize, TableFull>
        ensures { Collects literal self.old.cells self.new.cells result }
    {
        let number = literal_number(literal);
        let low = number - number % PER_ATOM;
        let high = low + (PER_ATOM - 1);
        if let Some(i) = tables::find_from(&self.cells, RECORDS, self.first_of(number), low, high) {
            return Ok(i);
        }
        let n = self.room_in(RECORDS)?;
        self.add_record(number);
        Ok(n)
    }

    // A record gets a namespace more; a tree of 32,768 bytes has no more than there is room for.
    pub fn add_namespace(&mut self, i: usize, id: Id)
        requires { (i < held records self.old.cells) }
        ensures { Extends i (id_by id) self.old.cells self.new.cells }
    {
        if NAMESPACES.room <= tables::count_of(&self.cells, NAMESPACES) {
            return;
        }
        let n = id_number(id);
        self.add_held(n, i);
        if tables::value_of(&self.cells, RECORDS, i) == 0 {
            self.set_first(n, i);
        }
    }

    // How many records are collected.
    pub fn count_records(&self) -> usize
        ensures { Tells (λ s. length s.collected) self.now.cells result × (result ≡ held records self.now.cells) }
    {
        tables::count_of(&self.cells, RECORDS)
    }

    // The literal of the record at a place.
    pub fn record_literal(&self, i: usize) -> Literal
        requires { (i < held records self.now.cells) }
        ensures { Holds (λ s. s.collected) (λ q. q.literal) i self.now.cells (λ x. literal_by x result)
            × Holds (λ s. s.collected) (λ q. value_of q.literal) i self.now.cells (λ _. two result.value.0) }
    {
        numbered_literal(tables::key_of(&self.cells, RECORDS, i))
    }
}
