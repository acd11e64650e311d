// What a pass is set to, and the lent lists: in cells behind the others, so that no function of the walk carries them.
ghost use Rattle.std.specs.Prelude.{◌≡◌, [], ◌≤◌, ◌<◌, length};
ghost use Rattle.tables.specs.Rows.{rows};
ghost use Rattle.tree.specs.Layout.{two};
ghost use Rattle.inputs.specs.Lists.{among};
ghost use Rattle.inputs.specs.Table.{atoms_in, rows_in, file_of};
ghost use Rattle.inputs.specs.ResolvedValue.{file_by};
ghost use Rattle.state.specs.Cells.{externals as externals-kind, table as table-kind, table_of, place_limit, Good};
ghost use Rattle.state.specs.Does.{Says, Resets, is_second, place_in, with_externals, with_table, with_second, with_own, with_modes};

use crate::{EXTERNALS, OWN, PASS, REQUIRE, TABLE, Tables};
use modes::Modes;
use scope::id::{Atom, FileName, ModuleId};
use tree::layout::atom_at;

impl Tables {
    // Puts the externals into their table.
    pub fn lend_externals(&mut self, externals: &[u8])
        requires { (length externals.now ≤ 1024) × (rows (table_of externals-kind) self.old.cells ≡ []) }
        ensures { Resets (with_externals (atoms_in externals.now)) self.old.cells self.new.cells }
    {
        for i in 0..externals.len() / 2 {
            tables::push(
                &mut self.cells,
                EXTERNALS,
                atom_at(externals, 2 * i) as u64,
                0,
            );
        }
    }

    // Puts the rows of the table of sources and files into theirs.
    pub fn lend_table(&mut self, table: &[u8])
        requires { (length table.now ≤ 4096) × (rows (table_of table-kind) self.old.cells ≡ []) }
        ensures { Resets (with_table (rows_in table.now)) self.old.cells self.new.cells }
    {
        for i in 0..table.len() / 4 {
            let source = atom_at(table, 4 * i) as u64;
            self.hint_row(source, i);
            tables::push(
                &mut self.cells,
                TABLE,
                source,
                atom_at(table, 4 * i + 2) as u64,
            );
        }
    }

    // Whether an atom is external.
    pub fn is_external(&self, atom: Atom) -> bool
        ensures { Says (λ e. among (two atom.0) e.externals) self.now.cells result }
    {
        let key = atom.0 as u64;
        tables::find(&self.cells, EXTERNALS, key, key).is_some()
    }

    // The file that the table names for a source.
    pub fn file_for(&self, source: Atom) -> Option<FileName>
        ensures { Says (λ e. file_of (two source.0) e.table) self.now.cells (file_by result) }
    {
        let key = source.0 as u64;
        let i = tables::find_from(&self.cells, TABLE, self.first_row(key), key, key)?;
        Some(FileName(tables::value_of(&self.cells, TABLE, i) as u16))
    }

    // Whether this is the second pass.
    pub fn is_second(&self) -> bool
        ensures { Says (λ e. is_second e.pass) self.now.cells result }
    {
        self.cells[PASS] == 1
    }

    pub fn set_second(&mut self)
        ensures { Resets with_second self.old.cells self.new.cells }
    {
        self.cells[PASS] = 1;
    }

    // The own module.
    pub fn own_module(&self) -> ModuleId
        ensures { Says (λ e. e.own) self.now.cells result.0 }
    {
        ModuleId(self.cells[OWN] as u16)
    }

    pub fn set_own(&mut self, own: ModuleId)
        ensures { Resets (with_own own.0) self.old.cells self.new.cells }
    {
        self.cells[OWN] = own.0 as u64;
    }

    // Whether calls of require count.
    pub fn counts_require(&self) -> bool
        ensures { Says (λ e. e.config.require) self.now.cells result }
    {
        self.cells[REQUIRE] == 1
    }

    pub fn set_modes(&mut self, modes: Modes)
        ensures { Resets (with_modes modes) self.old.cells self.new.cells }
    {
        self.cells[REQUIRE] = modes.require as u64;
    }

    // The place by which is known what stands at `at` of the tree that the pass walks, in 16 bits: no tree that is walked is longer.
    pub fn place_of(&self, at: usize) -> u32
        ensures { Says (λ e. place_in e.pass at) self.now.cells result × (result < place_limit) }
    {
        let place = (at % 65536) as u32;
        if self.is_second() {
            65536 + place
        } else {
            place
        }
    }
}
