// Tables of pairs of numbers, several in one lent array. A table has a cell for its count, before its rows, and room for so many rows of two
// cells. Nothing is allocated, and nothing but a table's own cells is written.
#![tactic(auto)]

ghost use Rattle.std.specs.Prelude.{◌≡◌, [], ◌∷◌, ◌++◌, map, ◌+◌, ◌*◌, ◌<◌, ◌≤◌, length, get_or};
ghost use Rattle.tables.specs.Rows.{rows, RowPut, Lies, flip, first_in, NoneBefore, lesser, least_of, without, without_row, with_value};
ghost use Rattle.tables.specs.Only.{Only};

#[derive(Clone, Copy)]
pub struct Table {
    pub count: usize,
    pub base: usize,
    pub room: usize,
}

// How many rows a table holds.
pub fn count_of(t: &[u64], b: Table) -> usize
    requires { Lies b t.now }
    ensures { (result ≡ length (rows b t.now)) × (result ≤ b.room) }
{
    let cell = b.count;
    t[cell] as usize
}

// The key of row i, where rows start at base.
fn key_in(t: &[u64], base: usize, i: usize) -> u64
    requires { base + 2 * i < length t.now }
    ensures { result ≡ get_or t.now (base + 2 * i) 0 }
{
    t[base + 2 * i]
}

// Its value.
fn value_in(t: &[u64], base: usize, i: usize) -> u64
    requires { base + 2 * i + 1 < length t.now }
    ensures { result ≡ get_or t.now (base + 2 * i + 1) 0 }
{
    t[base + 2 * i + 1]
}

// Both anew.
fn put_row(t: &mut [u64], base: usize, i: usize, key: u64, value: u64)
    requires { base + 2 * i + 1 < length t.old }
    ensures { RowPut base i key value t.old t.new }
{
    t[base + 2 * i] = key;
    t[base + 2 * i + 1] = value;
}

// The first row whose key is from lo to hi.
pub fn find(t: &[u64], b: Table, lo: u64, hi: u64) -> Option<usize>
    requires { Lies b t.now }
    ensures { result ≡ first_in lo hi (rows b t.now) }
{
    find_from(t, b, 0, lo, hi)
}

// The same, where no row before `from` has such a key.
pub fn find_from(t: &[u64], b: Table, from: usize, lo: u64, hi: u64) -> Option<usize>
    requires { Lies b t.now × NoneBefore from lo hi (rows b t.now) }
    ensures { result ≡ first_in lo hi (rows b t.now) }
{
    let n = count_of(t, b);
    let base = b.base;
    for i in from..n {
        let k = key_in(t, base, i);
        if lo <= k && k <= hi {
            return Some(i);
        }
    }
    None
}

// The value of a row.
pub fn value_of(t: &[u64], b: Table, i: usize) -> u64
    requires { Lies b t.now × (i < length (rows b t.now)) }
    ensures { result ≡ (get_or (rows b t.now) i (0, 0)).1 }
{
    value_in(t, b.base, i)
}

// The key of a row.
pub fn key_of(t: &[u64], b: Table, i: usize) -> u64
    requires { Lies b t.now × (i < length (rows b t.now)) }
    ensures { result ≡ (get_or (rows b t.now) i (0, 0)).0 }
{
    key_in(t, b.base, i)
}

// The first row whose value is from lo to hi, where no row before `from` has such a value: one cell on, each value has the place of a key.
pub fn find_value(t: &[u64], b: Table, from: usize, lo: u64, hi: u64) -> Option<usize>
    requires { Lies b t.now × (b.base + 2 * b.room < length t.now) × NoneBefore from lo hi (map flip (rows b t.now)) }
    ensures { result ≡ first_in lo hi (map flip (rows b t.now)) }
{
    let count = b.count;
    let base = b.base + 1;
    let room = b.room;
    find_from(t, Table { count, base, room }, from, lo, hi)
}

// One row more.
pub fn push(t: &mut [u64], b: Table, key: u64, value: u64)
    requires { Lies b t.old × (length (rows b t.old) < b.room) }
    ensures { (rows b t.new ≡ rows b t.old ++ ((key, value) ∷ [])) × Only b t.old t.new }
{
    let n = count_of(t, b);
    let cell = b.count;
    put_row(t, b.base, n, key, value);
    t[cell] = (n + 1) as u64;
}

// Another value in a row.
pub fn set_value(t: &mut [u64], b: Table, i: usize, value: u64)
    requires { Lies b t.old × (i < length (rows b t.old)) }
    ensures { (rows b t.new ≡ with_value i value (rows b t.old)) × Only b t.old t.new }
{
    let base = b.base;
    t[base + 2 * i + 1] = value;
}

// The least value among the rows with a key.
pub fn least_value(t: &[u64], b: Table, key: u64) -> Option<u64>
    requires { Lies b t.now }
    ensures { result ≡ least_of key (rows b t.now) }
{
    let base = b.base;
    let mut best = None;
    for i in (0..count_of(t, b)).rev() {
        if key_in(t, base, i) == key {
            best = lesser_of(value_in(t, base, i), best);
        }
    }
    best
}

fn lesser_of(v: u64, best: Option<u64>) -> Option<u64>
    ensures { result ≡ lesser v best }
{
    match best {
        None => Some(v),
        Some(w) => if v < w { Some(v) } else { Some(w) },
    }
}

// The rows of a key are taken out; the others keep their order.
pub fn drop_key(t: &mut [u64], b: Table, key: u64)
    requires { Lies b t.old }
    ensures { (rows b t.new ≡ without key (rows b t.old)) × Only b t.old t.new }
{
    let base = b.base;
    let cell = b.count;
    let n = count_of(t, b);
    let mut kept = 0;
    for i in 0..n {
        let k = key_in(t, base, i);
        let v = value_in(t, base, i);
        if k != key {
            put_row(t, base, kept, k, v);
            kept += 1;
        }
    }
    t[cell] = kept as u64;
}

// A row is taken out.
pub fn drop_row(t: &mut [u64], b: Table, i: usize)
    requires { Lies b t.old × (i < length (rows b t.old)) }
    ensures { (rows b t.new ≡ without_row i (rows b t.old)) × Only b t.old t.new }
{
    let base = b.base;
    let cell = b.count;
    let n = count_of(t, b);
    for k in i..n - 1 {
        let key = key_in(t, base, k + 1);
        let value = value_in(t, base, k + 1);
        put_row(t, base, k, key, value);
    }
    t[cell] = (n - 1) as u64;
}
