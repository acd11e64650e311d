// Hints: what is asked before an id is searched for, and where a search may start. A hint may be out of date, since rows are dropped, but a
// table that holds an id is never left out.
ghost use Rattle.std.specs.Prelude.{◌≡◌, ◌⊎◌, [], ◌∷◌, ◌++◌, ◌+◌, ◌-◌, ◌/◌, ◌%◌, ◌<◌, ◌≤◌};
ghost use Rattle.tables.specs.Rows.{rows, Lies, first_in, NoneBefore, least_of, without, with_value};
ghost use Rattle.std.specs.Prelude.{is_some};
ghost use Rattle.state.specs.Cells.{id_limit, imports, uses, records, namespaces, modules, table, table_of, held, cell_at, hint_at, row_hint, module_hint, name_cell, tag_of, Good};
ghost use Rattle.state.specs.Does.{Changes, Aside, Behind, HintsModules, Keeps, Grows, tag_for, Finds, Starts};

use crate::{
    FILE_HINTS, HINT_CELLS, HINTS, IMPORTS, MODULES, NAMESPACES, PER_ATOM, PLACE_HINTS, RECORDS,
    TABLE, Tables, USES,
};
use tables::Table;

// A cell has four parts: below NAMED the hint of ids, then nine bits for names, from SOURCE on nine for sources, and from TAG on a tag.
const NAMED: u64 = 1 << 23;

const SOURCE: u64 = 1 << 32;

const TAG: u64 = 1 << 41;

impl Tables {
    // The cell at a place among those of hints.
    fn cell_of(&self, h: usize) -> u64
        requires { (h < 2003) }
        ensures { result ≡ cell_at self.now.cells h }
    {
        self.cells[HINTS + h]
    }

    // Another cell there, which leaves out nothing that the old one names.
    fn set_cell(&mut self, h: usize, v: u64)
        requires { (h < 2003) × Grows (cell_at self.old.cells h) v }
        ensures { Aside self.old.cells self.new.cells × (cell_at self.new.cells h ≡ v) }
    {
        self.cells[HINTS + h] = v;
    }
}

// The tag of an id.
fn tag_of(id: u64) -> u64
    ensures { result ≡ tag_of id }
{
    id / PER_ATOM * 32 + id % 32 + 1
}

impl Tables {
    // The hint of an id: 0 where its cell is another id's.
    #[tactic(auto, unfolding(crate::specs::Cells::hint_in))]
    pub(crate) fn hint_of(&self, id: u64) -> u64
        ensures { result ≡ hint_at self.now.cells id }
    {
        let v = self.cell_of((id % HINT_CELLS) as usize);
        let tag = v / TAG;
        if tag == 0 || tag == tag_of(id) {
            v % NAMED
        } else {
            0
        }
    }
}

// The tag of a cell once an id has entered.
fn tag_for(v: u64, id: u64) -> u64
    requires { id < id_limit }
    ensures { (result ≡ tag_for v id) × (result ≤ 2097152) }
{
    let own = tag_of(id);
    if v % NAMED == 0 || v / TAG == own {
        own
    } else {
        0
    }
}

impl Tables {
    // The hint in an id's cell, whosever it is.
    fn shared_hint(&self, id: u64) -> u64
        ensures { result ≡ cell_at self.now.cells (id % 2003) % 8388608 }
    {
        self.cell_of((id % HINT_CELLS) as usize) % NAMED
    }

    // An id enters its cell, with another hint.
    fn set_hint(&mut self, id: u64, hint: u64)
        requires { (id < id_limit) × (hint < 8388608) × Keeps (cell_at self.old.cells (id % 2003) % 8388608) hint }
        ensures { Aside self.old.cells self.new.cells × (hint_at self.new.cells id ≡ hint) }
    {
        let h = (id % HINT_CELLS) as usize;
        let v = self.cell_of(h);
        self.set_cell(h, tag_for(v, id) * TAG + v / NAMED % 262144 * NAMED + hint);
    }

    // A row with a key: row hint - 1, where it has the key, else the first that has it. Hint 0: no row has it.
    fn row_of(&self, b: Table, hint: usize, id: u64) -> Option<usize>
        requires { Lies b self.now.cells × (hint ≡ 0 → first_in id id (rows b self.now.cells) ≡ None) }
        ensures { Finds id (rows b self.now.cells) result }
    {
        if hint == 0 {
            return None;
        }
        if hint <= tables::count_of(&self.cells, b)
            && tables::key_of(&self.cells, b, hint - 1) == id
        {
            return Some(hint - 1);
        }
        tables::find(&self.cells, b, id, id)
    }

    // The row of an imported id.
    pub(crate) fn import_row(&self, id: u64) -> Option<usize>
        ensures { result ≡ first_in id id (rows (table_of imports) self.now.cells) }
    {
        self.row_of(IMPORTS, (self.hint_of(id) % 1024) as usize, id)
    }

    // An id becomes an imported one, the last.
    pub(crate) fn add_import(&mut self, id: u64, context: u64)
        requires { (id < id_limit) × (context < 4294967296) × (held imports self.old.cells < 512) × (first_in id id (rows (table_of imports) self.old.cells) ≡ None) }
        ensures { Changes imports (rows (table_of imports) self.old.cells ++ ((id, context) ∷ [])) self.old.cells self.new.cells }
    {
        let old = self.shared_hint(id);
        let row = tables::count_of(&self.cells, IMPORTS) as u64;
        self.set_hint(id, old - old % 1024 + row + 1);
        tables::push(&mut self.cells, IMPORTS, id, context);
    }

    // An id is no longer imported.
    pub(crate) fn drop_import(&mut self, id: u64)
        ensures { Changes imports (without id (rows (table_of imports) self.old.cells)) self.old.cells self.new.cells }
    {
        if let Some(i) = self.import_row(id) {
            tables::drop_row(&mut self.cells, IMPORTS, i);
        }
    }

    // Whether an id has usages.
    pub(crate) fn is_used(&self, id: u64) -> bool
        ensures { result ≡ is_some (first_in id id (rows (table_of uses) self.now.cells)) }
    {
        self.row_of(USES, (self.hint_of(id) / 2048) as usize, id)
            .is_some()
    }

    // A usage of an id, the last.
    pub(crate) fn add_use(&mut self, id: u64, property: u64)
        requires { (id < id_limit) × (property < id_limit) × (held uses self.old.cells < 2048) }
        ensures { Changes uses (rows (table_of uses) self.old.cells ++ ((id, property) ∷ [])) self.old.cells self.new.cells }
    {
        let old = self.shared_hint(id);
        let row = tables::count_of(&self.cells, USES) as u64;
        self.set_hint(id, old % 2048 + 2048 * (row + 1));
        tables::push(&mut self.cells, USES, id, property);
    }

    // The usages of an id are dropped.
    pub(crate) fn drop_uses(&mut self, id: u64)
        ensures { Changes uses (without id (rows (table_of uses) self.old.cells)) self.old.cells self.new.cells }
    {
        if self.is_used(id) {
            tables::drop_key(&mut self.cells, USES, id);
        }
    }

    // The first record that holds a namespace.
    pub(crate) fn least_holder(&self, id: u64) -> Option<u64>
        ensures { result ≡ least_of id (rows (table_of namespaces) self.now.cells) }
    {
        if self.hint_of(id) / 1024 % 2 == 0 {
            return None;
        }
        tables::least_value(&self.cells, NAMESPACES, id)
    }

    // A namespace of a record, the last.
    pub(crate) fn add_held(&mut self, id: u64, i: usize)
        requires { (id < id_limit) × (i < 256) × (held namespaces self.old.cells < 3641) }
        ensures { Changes namespaces (rows (table_of namespaces) self.old.cells ++ ((id, i) ∷ [])) self.old.cells self.new.cells }
    {
        let old = self.shared_hint(id);
        self.set_hint(id, old / 2048 * 2048 + 1024 + old % 1024);
        tables::push(&mut self.cells, NAMESPACES, id, i as u64);
    }

    // Where a search by a part of a name's cell may start.
    fn start_in(&self, n: u64, part: u64) -> usize
        requires { (0 < part) }
        ensures { result ≡ 256 - cell_at self.now.cells (name_cell n) / part % 512 }
    {
        let hint = self.cell_of((n / PER_ATOM % 1024) as usize) / part % 512;
        256u64.saturating_sub(hint) as usize
    }

    // Where a search for the first record whose first namespace has the name of an id may start.
    pub(crate) fn first_named(&self, id: u64) -> usize
        ensures { Starts result id self.now.cells }
    {
        self.start_in(id, NAMED)
    }

    // Where a search for the first record whose literal has the value of a literal may start.
    pub(crate) fn first_of(&self, literal: u64) -> usize
        ensures { NoneBefore result (literal - literal % 4294967296) (literal - literal % 4294967296 + 4294967295) (rows (table_of records) self.now.cells) }
    {
        self.start_in(literal, SOURCE)
    }

    // A part of a name's cell says that record i may be the first.
    fn hint_record(&mut self, n: u64, i: usize, part: u64)
        requires { (i < 256) × ((part ≡ 8388608) ⊎ (part ≡ 4294967296)) }
        ensures { Aside self.old.cells self.new.cells × (256 ≤ i + cell_at self.new.cells (name_cell n) / part % 512) }
    {
        let h = (n / PER_ATOM % 1024) as usize;
        let v = self.cell_of(h);
        let hint = (256 - i) as u64;
        let above = part * 512;
        if v / part % 512 < hint {
            self.set_cell(h, v / above * above + hint * part + v % part);
        }
    }

    // A record of a literal, the last.
    pub(crate) fn add_record(&mut self, literal: u64)
        requires { (literal < id_limit) × (held records self.old.cells < 256) }
        ensures { Changes records (rows (table_of records) self.old.cells ++ ((literal, 0) ∷ [])) self.old.cells self.new.cells }
    {
        let i = tables::count_of(&self.cells, RECORDS);
        self.hint_record(literal, i, SOURCE);
        tables::push(&mut self.cells, RECORDS, literal, 0);
    }

    // A record gets its first namespace.
    pub(crate) fn set_first(&mut self, id: u64, i: usize)
        requires { (i < held records self.old.cells) × (id < id_limit) }
        ensures { Changes records (with_value i (id + 1) (rows (table_of records) self.old.cells)) self.old.cells self.new.cells }
    {
        self.hint_record(id, i, NAMED);
        tables::set_value(&mut self.cells, RECORDS, i, id + 1);
    }

    // Where a search among n rows may start, by a hint of places.
    fn start_at(&self, h: usize, n: usize) -> usize
        requires { (h < 1280) }
        ensures { result ≡ n - row_hint self.now.cells h }
    {
        (n as u64).saturating_sub(self.cells[PLACE_HINTS + h]) as usize
    }

    // Where a search for a source in the lent table may start.
    pub(crate) fn first_row(&self, source: u64) -> usize
        ensures { NoneBefore result source source (rows (table_of table) self.now.cells) }
    {
        self.start_at((source % 1024) as usize, TABLE.room)
    }

    // Where a search for the module of a file may start.
    pub(crate) fn first_module(&self, file: u64) -> usize
        ensures { NoneBefore result file file (rows (table_of modules) self.now.cells) }
    {
        self.start_at(FILE_HINTS + (file % 256) as usize, MODULES.room)
    }

    // A hint behind the setting is raised, unless it is as great already.
    fn raise(&mut self, h: usize, hint: u64)
        requires { (h < 1280) }
        ensures { Aside self.old.cells self.new.cells × Behind self.old.cells self.new.cells × (hint ≤ row_hint self.new.cells h) }
    {
        if self.cells[PLACE_HINTS + h] < hint {
            self.cells[PLACE_HINTS + h] = hint;
        }
    }

    // The hint of a source says that row i may be the first.
    pub(crate) fn hint_row(&mut self, source: u64, i: usize)
        requires { (i < 1024) }
        ensures { Aside self.old.cells self.new.cells × (1024 ≤ i + row_hint self.new.cells (source % 1024)) }
    {
        self.raise((source % 1024) as usize, (TABLE.room - i) as u64);
    }

    // The hint of a file says that module i may be the first.
    pub(crate) fn hint_module(&mut self, file: u64, i: usize)
        requires { (i < 256) }
        ensures { Aside self.old.cells self.new.cells × Behind self.old.cells self.new.cells × (256 ≤ i + module_hint self.new.cells (file % 256)) }
    {
        self.raise(
            FILE_HINTS + (file % 256) as usize,
            (MODULES.room - i) as u64,
        );
    }

    // The hints of the files of n modules, which stand in the cells of modules.
    pub(crate) fn hint_modules(&mut self, n: usize)
        requires { (n ≤ 256) }
        ensures { HintsModules n self.old.cells self.new.cells }
    {
        for i in 0..n {
            let file = self.cells[MODULES.base + 2 * i];
            self.hint_module(file, i);
        }
    }
}
