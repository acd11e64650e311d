// Lazy records, of which the literal and the place of the pattern are kept, and the flag top.
ghost use Rattle.std.specs.Prelude.{◌≡◌, ◌<◌, length};
ghost use Rattle.extraction_rules.specs.State.{set_top};
ghost use Rattle.extraction_rules.specs.First.{add_lazy};
ghost use Rattle.state.specs.Cells.{place_limit, Good, literal_by, lazies, held};
ghost use Rattle.state.specs.Does.{Tells, Holds, Turns, Anyhow, Acts};

use crate::ident::{literal_number, numbered_literal};
use crate::{LAZIES, Literal, TOP, TableFull, Tables};

impl Tables {
    // A lazy record is appended; its specifiers are read off its place at the end.
    pub fn add_lazy(&mut self, literal: Literal, place: u32) -> Result<(), TableFull>
        requires { (place < place_limit) }
        ensures { Acts Anyhow (λ x. add_lazy (record { literal = literal_by x literal; specifiers = x.bound place })) self.old.cells self.new.cells result }
    {
        self.room_in(LAZIES)?;
        tables::push(
            &mut self.cells,
            LAZIES,
            literal_number(literal),
            place as u64,
        );
        Ok(())
    }

    // How many lazy records there are.
    pub fn count_lazies(&self) -> usize
        ensures { Tells (λ s. length s.lazy) self.now.cells result × (result ≡ held lazies self.now.cells) }
    {
        tables::count_of(&self.cells, LAZIES)
    }

    // The literal of the lazy record at a place.
    pub fn lazy_literal(&self, i: usize) -> Literal
        requires { (i < held lazies self.now.cells) }
        ensures { Holds (λ s. s.lazy) (λ q. q.literal) i self.now.cells (λ x. literal_by x result) }
    {
        numbered_literal(tables::key_of(&self.cells, LAZIES, i))
    }

    // Where its pattern stands: 0 for none, p in the lent tree, 65536 + p in the tree after the first pass.
    pub fn lazy_place(&self, i: usize) -> u32
        requires { (i < held lazies self.now.cells) }
        ensures { (result < place_limit) × Holds (λ s. s.lazy) (λ q. q.specifiers) i self.now.cells (λ x. x.bound result) }
    {
        tables::value_of(&self.cells, LAZIES, i) as u32
    }

    // Whether the walk is still outside every block.
    pub fn is_top(&self) -> bool
        ensures { Tells (λ s. s.top) self.now.cells result }
    {
        self.cells[TOP] == 1
    }

    pub fn set_top(&mut self, top: bool)
        ensures { Turns (set_top top) self.old.cells self.new.cells }
    {
        self.cells[TOP] = top as u64;
    }
}
