// Forced sources, first forced first, and the rule that forces an id.
ghost use Rattle.std.specs.Prelude.{◌≡◌, ◌<◌, length};
ghost use Rattle.tree.specs.Layout.{two};
ghost use Rattle.inputs.specs.Lists.{among};
ghost use Rattle.extraction_rules.specs.First.{force_id};
ghost use Rattle.state.specs.Cells.{Good, id_by, forces, held};
ghost use Rattle.state.specs.Does.{Tells, Holds, Turns, Forces};

use crate::ident::id_number;
use crate::{FORCES, Tables};
use scope::id::{Atom, Id};

impl Tables {
    // Whether a source is forced.
    pub fn is_forced(&self, source: Atom) -> bool
        ensures { Tells (λ s. among (two source.0) s.forced) self.now.cells result }
    {
        let key = source.0 as u64;
        tables::find(&self.cells, FORCES, key, key).is_some()
    }

    // The source of a record is forced.
    pub fn force_source(&mut self, source: Atom)
        ensures { Forces (two source.0) self.old.cells self.new.cells }
    {
        if !self.is_forced(source) && tables::count_of(&self.cells, FORCES) < FORCES.room {
            tables::push(&mut self.cells, FORCES, source.0 as u64, 0);
        }
    }

    // An id is forced: it is forgotten, and the source of the first record that holds it as a namespace is forced.
    pub fn force_id(&mut self, id: Id)
        ensures { Turns (force_id (id_by id)) self.old.cells self.new.cells }
    {
        if self.hint_of(id_number(id)) == 0 {
            return;
        }
        self.forget(id);
        if let Some(source) = self.holder(id) {
            self.force_source(source);
        }
    }

    // How many sources are forced.
    pub fn count_forced(&self) -> usize
        ensures { Tells (λ s. length s.forced) self.now.cells result × (result ≡ held forces self.now.cells) }
    {
        tables::count_of(&self.cells, FORCES)
    }

    // The forced source at a place.
    pub fn forced_at(&self, i: usize) -> Atom
        requires { (i < held forces self.now.cells) }
        ensures { Holds (λ s. s.forced) (λ a. a) i self.now.cells (λ _. two result.0) }
    {
        Atom(tables::key_of(&self.cells, FORCES, i) as u16)
    }
}
