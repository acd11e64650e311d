// What the walk keeps: its tables in one lent array, and the functions of which the rules are made. Callers see the rules' state alone.
#![tactic(auto, using(crate::proofs::LiesLaws::lies))]

ghost use Rattle.std.specs.Prelude.{◌≡◌, length, replicate, take};
ghost use Rattle.tables.specs.Rows.{rows, Lies};
ghost use Rattle.state.specs.Cells.{cells as size, Good};
ghost use Rattle.state.specs.Does.{HasRoom};
ghost use Rattle.state.specs.OneGood.{good-one};

pub mod ident; // ids and literals
pub mod setting; // what a pass is set to, and the lent lists
pub mod imported; // imported ids and usages
pub mod collected; // collected records and their namespaces
pub mod forced; // forced sources
pub mod rest; // lazy records, and the flag top
pub mod modules; // the scope's modules
mod hints; // what is asked before a search

use scope::id::Atom;
use tables::Table;

pub const IMPORTS: Table = Table {
    count: 0,
    base: 8,
    room: 512,
};

pub const USES: Table = Table {
    count: 1,
    base: 1032,
    room: 2048,
};

pub const RECORDS: Table = Table {
    count: 2,
    base: 5128,
    room: 256,
};

pub const NAMESPACES: Table = Table {
    count: 3,
    base: 5640,
    room: 3641,
};

pub const LAZIES: Table = Table {
    count: 4,
    base: 12922,
    room: 1024,
};

pub const FORCES: Table = Table {
    count: 5,
    base: 14970,
    room: 256,
};

pub const MODULES: Table = Table {
    count: 6,
    base: 15482,
    room: 256,
};

pub const EXTERNALS: Table = Table {
    count: 17997,
    base: 17998,
    room: 512,
};

pub const TABLE: Table = Table {
    count: 19022,
    base: 19023,
    room: 1024,
};

// Whether the walk is outside every block.
const TOP: usize = 7;

// Hints of ids and names: where their cells start, and how many they are.
const HINTS: usize = 15994;

const HINT_CELLS: u64 = 2003;

// What a pass is set to: which one it is, its own module, and whether calls of require count.
const PASS: usize = 21071;

const OWN: usize = 21072;

const REQUIRE: usize = 21073;

// Hints of sources, of which there are 1,024, and then those of files.
const PLACE_HINTS: usize = 21074;

const FILE_HINTS: usize = 1024;

// How many cells the array has.
pub const CELLS: usize = 22354;

// How many numbers of ids, or of literals, have one atom: an id's number is its name times so many, plus its context.
const PER_ATOM: u64 = 1 << 32;

// A literal: its value, and the place of its bytes. Places below 65,536 are in the lent tree, the others in the tree after the first pass.
#[derive(Clone, Copy)]
pub struct Literal {
    pub value: Atom,
    pub place: u32,
}

// What the walk keeps, in one array: its tables lie there with their numbers inside their limits, and the hints hold.
#[derive(Drop)]
pub struct Tables {
    cells: [u64; CELLS],
    ghost good: { Good cells } by { good-one cells },
}

impl Tables {
    // Tables without rows, for the first pass.
    pub fn new() -> Tables
        ensures { result.cells ≡ replicate size 0 }
    {
        let cells = [0; CELLS];
        Tables { cells }
    }

    // The tables at the front of an array that is good already.
    pub fn from_cells(cells: &[u64]) -> Tables
        requires { Good cells.now }
        ensures { result.cells ≡ take size cells.now }
    {
        let mut front = [0; CELLS];
        front.copy_from_slice(&cells[..CELLS]);
        Tables { cells: front }
    }

    // The array.
    pub fn into_cells(self) -> [u64; CELLS]
        ensures { result ≡ self.cells }
    {
        self.cells
    }
}

// A table has no room for one more row.
#[derive(Clone, Copy, PartialEq, Eq)]
pub struct TableFull;

impl Tables {
    // How many rows a table holds, where one more has room.
    fn room_in(&self, b: Table) -> Result<usize, TableFull>
        requires { Lies b self.now.cells }
        ensures { HasRoom b.room (length (rows b self.now.cells)) result }
    {
        let n = tables::count_of(&self.cells, b);
        if n < b.room { Ok(n) } else { Err(TableFull) }
    }
}
