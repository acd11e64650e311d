// A scope as bytes: the number of modules (2 bytes), then for each its file (2 bytes) and its marks (1 byte), and zeros behind.
ghost use Rattle.std.specs.Prelude.{◌≡◌, ◌*◌, ◌%◌, ◌≤◌, length};
ghost use Rattle.scope.specs.ScopeValue.{modules_of, modules_in};
ghost use Rattle.writer.specs.Wrote.{Wrote};
ghost use Rattle.tychodrel.specs.Answer.{modules_bytes, scope_bytes};

use scope::Scope;
use writer::{put, put_u16};

// A cell's last two bytes.
fn low_file(cell: u64) -> u16
    ensures { result ≡ cell % 65536 }
{
    (cell % 65536) as u16
}

// A cell's last four bits.
fn low_marks(cell: u64) -> u8
    ensures { result ≡ cell % 16 }
{
    (cell % 16) as u8
}

// Writes the n modules that stand in cells, two cells each, from o on.
fn put_modules(cells: &[u64], n: usize, out: &mut [u8], o: usize) -> usize
    requires { (n ≤ 256) × (2 * n ≤ length cells.now) }
    ensures { Wrote out.old o (modules_bytes (modules_in n 0 cells.now)) out.new result }
{
    let mut to = o;
    for i in 0..n {
        to = put_u16(out, to, low_file(cells[2 * i]));
        to = put(out, to, low_marks(cells[2 * i + 1]));
    }
    to
}

// A scope's bytes. Its modules have 768 at most.
pub fn scope_bytes(scope: Scope) -> [u8; 770]
    ensures { result ≡ scope_bytes (modules_of scope) }
{
    let mut cells = [0u64; 512];
    let n = scope.to_cells(&mut cells, 0);
    let mut bytes = [0u8; 770];
    let o = put_u16(&mut bytes, 0, n as u16);
    put_modules(&cells, n, &mut bytes, o);
    bytes
}
