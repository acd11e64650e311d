// The lent lists that extraction and resolving share: externals (two bytes each), and the table of sources and files (two bytes each).
#![tactic(auto)]

ghost use Rattle.std.specs.Prelude.{◌≡◌, ◌<◌, ◌%◌, ◌||◌, not, ltb, eqb, length};
ghost use Rattle.tree.specs.Layout.{two};
ghost use Rattle.inputs.specs.Lists.{among};
ghost use Rattle.inputs.specs.Table.{atoms_in, rows_in, file_of, bad_externals, bad_table, repeats};
ghost use Rattle.inputs.specs.ResolvedValue.{file_by};
ghost use Rattle.inputs.specs.Bitmap.{is_set, WithBit, half_of};

use scope::id::{Atom, FileName};
use tree::layout::atom_at;

// Whether a list of externals is too long, or has half an atom.
#[tactic(auto, unfolding(crate::specs::Table::bad_externals))]
pub fn bad_externals(externals: &[u8]) -> bool
    ensures { result ≡ bad_externals externals.now }
{
    bad_list(externals, 1024, 2)
}

// Whether a table is too long, or has a part of a row.
#[tactic(auto, unfolding(crate::specs::Table::bad_table))]
pub fn bad_table(table: &[u8]) -> bool
    ensures { result ≡ bad_table table.now }
{
    bad_list(table, 4096, 4)
}

// Whether a list has more bytes than `most`, or a part of an entry of this width.
fn bad_list(list: &[u8], most: usize, width: usize) -> bool
    requires { 0 < width }
    ensures { result ≡ ltb most (length list.now) || not (eqb (length list.now % width) 0) }
{
    most < list.len() || list.len() % width != 0
}

// Whether an atom is among the externals.
pub fn is_external(externals: &[u8], atom: Atom) -> bool
    ensures { result ≡ among (two atom.0) (atoms_in externals.now) }
{
    externals
        .chunks_exact(2)
        .any(|entry| atom.0 == atom_at(entry, 0))
}

// The file that a table names for a source.
pub fn resolve(table: &[u8], source: Atom) -> Option<FileName>
    ensures { file_by result ≡ file_of (two source.0) (rows_in table.now) }
{
    let row = table
        .chunks_exact(4)
        .find(|row| atom_at(row, 0) == source.0)?;
    Some(FileName(atom_at(row, 2)))
}

// Whether the bit n is 1.
fn is_set(cells: &[u64; 512], n: u16) -> bool
    requires { n < 32768 }
    ensures { result ≡ is_set cells.now n }
{
    let cell = cells[(n / 64) as usize];
    (cell >> (n % 64)) % 2 == 1
}

// Sets the bit n to 1.
fn set_bit(cells: &mut [u64; 512], n: u16)
    requires { (n < 32768) × (length cells.old ≡ 512) }
    ensures { WithBit cells.old n cells.new }
{
    cells[(n / 64) as usize] |= 1u64 << (n % 64);
}

// Whether a table names a source twice that is below 32,768 (0), or another (1).
fn names_twice_in(table: &[u8], half: u16) -> bool
    ensures { result ≡ repeats (half_of half (rows_in table.now)) }
{
    let mut seen = [0u64; 512];
    for row in table.chunks_exact(4) {
        let source = atom_at(row, 0);
        if source / 32768 != half {
            continue;
        }
        if is_set(&seen, source % 32768) {
            return true;
        }
        set_bit(&mut seen, source % 32768);
    }
    false
}

// Whether a table names a source twice.
pub fn names_twice(table: &[u8]) -> bool
    ensures { result ≡ repeats (rows_in table.now) }
{
    names_twice_in(table, 0) || names_twice_in(table, 1)
}
