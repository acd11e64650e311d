// Imported ids and usages.
ghost use Rattle.std.specs.Prelude.{◌≡◌, ◌<◌, length};
ghost use Rattle.tree.specs.Layout.{four};
ghost use Rattle.extraction_rules.specs.First.{imported_as, note_id, forget as forgotten, add_usage};
ghost use Rattle.extraction_rules.specs.Second.{usages_of};
ghost use Rattle.state.specs.Cells.{Good, id_by, uses, held};
ghost use Rattle.state.specs.Does.{Tells, Turns, Anyhow, Acts, Lists, context_by, any};

use crate::ident::{id_number, numbered_id};
use crate::{IMPORTS, TableFull, Tables, USES};
use scope::id::{Id, SyntaxContext};

impl Tables {
    // The context of an imported id.
    pub fn imported_as(&self, id: Id) -> Option<SyntaxContext>
        ensures { Tells (λ s. imported_as (id_by id) s.imported) self.now.cells (context_by result) }
    {
        let i = self.import_row(id_number(id))?;
        Some(SyntaxContext(tables::value_of(&self.cells, IMPORTS, i) as u32))
    }

    // An id is noted as imported; noting it again takes no place.
    pub fn note_id(&mut self, id: Id, c: SyntaxContext) -> Result<(), TableFull>
        ensures { Acts Anyhow (λ _. note_id (record { id = id_by id; context = four c.0 })) self.old.cells self.new.cells result }
    {
        let n = id_number(id);
        let context = c.0 as u64;
        if let Some(i) = self.import_row(n) {
            tables::set_value(&mut self.cells, IMPORTS, i, context);
            return Ok(());
        }
        self.room_in(IMPORTS)?;
        self.add_import(n, context);
        Ok(())
    }

    // An id's imported entry and its usages are dropped.
    pub fn forget(&mut self, id: Id)
        ensures { Turns (forgotten (id_by id)) self.old.cells self.new.cells }
    {
        let n = id_number(id);
        self.drop_uses(n);
        self.drop_import(n);
    }

    // A usage of an id is appended.
    pub fn add_usage(&mut self, id: Id, property: Id) -> Result<(), TableFull>
        ensures { Acts Anyhow (λ _. add_usage (record { id = id_by id; property = id_by property })) self.old.cells self.new.cells result }
    {
        self.room_in(USES)?;
        self.add_use(id_number(id), id_number(property));
        Ok(())
    }

    // Whether an id has usages.
    pub fn has_usages(&self, id: Id) -> bool
        ensures { Tells (λ s. any (usages_of (id_by id) s.usages)) self.now.cells result }
    {
        self.is_used(id_number(id))
    }

    // How many usages are held.
    pub fn count_usages(&self) -> usize
        ensures { Tells (λ s. length s.usages) self.now.cells result × (result ≡ held uses self.now.cells) }
    {
        tables::count_of(&self.cells, USES)
    }

    // The usage at a place, if it is one of an id: so a loop over the places lists the usages of the id.
    pub fn usage_at(&self, i: usize, id: Id) -> Option<Id>
        requires { (i < held uses self.now.cells) }
        ensures { Lists (id_by id) i self.now.cells result }
    {
        if tables::key_of(&self.cells, USES, i) == id_number(id) {
            Some(numbered_id(tables::value_of(&self.cells, USES, i)))
        } else {
            None
        }
    }
}
