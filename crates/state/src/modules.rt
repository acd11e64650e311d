// The scope's modules: the module of a file or of a source, and marks.
ghost use Rattle.std.specs.Prelude.{◌≡◌};
ghost use Rattle.tree.specs.Layout.{two};
ghost use Rattle.scope.specs.Modules.{set_mark};
ghost use Rattle.scope.specs.ScopeValue.{modules_of};
ghost use Rattle.extraction_rules.specs.State.{set_modules};
ghost use Rattle.extraction_rules.specs.First.{module_of, module_for};
ghost use Rattle.state.specs.Cells.{Good};
ghost use Rattle.state.specs.Does.{Tells, Turns, Resolves, bit_of};

use crate::{MODULES, Tables};
use scope::id::{Atom, FileName, ModuleId};
use scope::{Mark, Scope, TooManyFiles};

impl Tables {
    // The modules of the table as a scope.
    pub fn scope(&self) -> Scope
        ensures { Tells (λ s. s.modules) self.now.cells (modules_of result) }
    {
        Scope::from_cells(
            &self.cells,
            MODULES.base,
            tables::count_of(&self.cells, MODULES),
        )
    }

    // The table shows the modules of a scope.
    pub fn load(&mut self, scope: Scope)
        ensures { Turns (set_modules (modules_of scope)) self.old.cells self.new.cells }
    {
        self.cells[MODULES.count] = 0;
        let n = scope.to_cells(&mut self.cells, MODULES.base);
        self.hint_modules(n);
        self.cells[MODULES.count] = n as u64;
    }

    // The module of a file, by a request.
    pub fn request(&mut self, file: FileName) -> Result<Option<ModuleId>, TooManyFiles>
        ensures { Resolves (λ _. module_of (Some file.0)) self.old.cells self.new.cells result }
    {
        let key = file.0 as u64;
        if let Some(i) = tables::find_from(&self.cells, MODULES, self.first_module(key), key, key) {
            return Ok(Some(ModuleId(i as u16)));
        }
        let n = tables::count_of(&self.cells, MODULES);
        if n < MODULES.room {
            self.hint_module(key, n);
            tables::push(&mut self.cells, MODULES, key, 0);
            Ok(Some(ModuleId(n as u16)))
        } else {
            Err(TooManyFiles)
        }
    }

    // The module of the file that the table names for a source.
    pub fn module_for(&mut self, source: Atom) -> Result<Option<ModuleId>, TooManyFiles>
        ensures { Resolves (λ e. module_for e (two source.0)) self.old.cells self.new.cells result }
    {
        match self.file_for(source) {
            Some(file) => self.request(file),
            None => Ok(None),
        }
    }
}

// The bit of a mark among a module's marks.
fn bit_of(kind: Mark) -> u64
    ensures { result ≡ bit_of kind }
{
    1 << kind as u64
}

impl Tables {
    // A module gets a mark; a number that was not given changes nothing.
    pub fn set_mark(&mut self, id: ModuleId, kind: Mark)
        ensures { Turns (λ s. set_modules (set_mark kind id.0 s.modules) s) self.old.cells self.new.cells }
    {
        let i = id.0 as usize;
        if tables::count_of(&self.cells, MODULES) <= i {
            return;
        }
        let bit = bit_of(kind);
        let marks = tables::value_of(&self.cells, MODULES, i);
        if marks / bit % 2 == 0 {
            tables::set_value(&mut self.cells, MODULES, i, marks + bit);
        }
    }
}
