// A scope: the modules that were asked for, in the order of their numbers, with their files and marks. Port of swc_bundler's `scope.rs`
// and of the generator in `id.rs`. A scope goes in by value and comes back in the answer. A refused call gives back the scope it was given;
// a list of files, the scope with those before the refused one.
#![tactic(auto)]

pub mod id;

ghost use Rattle.std.specs.Prelude.{◌≡◌, [], ◌∷◌, ◌++◌, ℕ, ◌+◌, ◌*◌, ◌/◌, ◌%◌, ◌<◌, ◌≤◌, min, eqb, map, length, take, get_or, false, Some};
ghost use Rattle.scope.specs.declared.Mark.TheVariants.{Loaded, Stored, Cjs, Wrapping};
ghost use Rattle.scope.specs.Modules.{place_of, unmarked, generated_by, gen, files_in, request_all, marking, read_mark, wrapped_esm_id};
ghost use Rattle.scope.specs.ScopeValue.{slot_of, file_number, modules_from, modules_of, stored, generated, requested, marked_by, read_by, esm_by, modules_in, Rewrites};

use id::{Atom, FileName, Id, ModuleId, SyntaxContext};

// The marks of a module.
#[derive(Clone, Copy, PartialEq, Eq)]
pub enum Mark {
    Loaded,
    Stored,
    Cjs,
    Wrapping,
}

#[derive(Clone, Copy)]
pub struct Scope {
    count: usize,
    files: [FileName; 256],
    // Mark k of module n stands at 256 * k + n.
    marks: [bool; 1024],
}

// A 257th file is refused.
#[derive(Clone, Copy, PartialEq, Eq)]
pub struct TooManyFiles;

// A module number that no request gave is refused.
#[derive(Clone, Copy, PartialEq, Eq)]
pub struct NoSuchModule;

// A file's module and its contexts.
#[derive(Clone, Copy)]
pub struct Numbers {
    pub id: ModuleId,
    pub local_ctxt: SyntaxContext,
    pub export_ctxt: SyntaxContext,
}

// What a request for a file gives: the scope, and the file's numbers.
#[derive(Clone, Copy)]
pub struct Gen {
    pub scope: Scope,
    pub answer: Result<Numbers, TooManyFiles>,
}

// What requests for a list of files give.
#[derive(Clone, Copy)]
pub struct Requested {
    pub scope: Scope,
    pub answer: Result<(), TooManyFiles>,
}

// What setting a mark gives.
#[derive(Clone, Copy)]
pub struct Marked {
    pub scope: Scope,
    pub answer: Result<(), NoSuchModule>,
}

// A count over 256 stands for 256, so that every scope is one.
fn counted(count: usize) -> usize
    ensures { (result ≡ min count 256) × (result ≤ 256) }
{
    count.min(256)
}

// Where a file first stands among the first n.
fn find_file(files: &[FileName; 256], n: usize, file: FileName) -> Option<usize>
    requires { (n ≤ 256) × (n ≤ length files.now) }
    ensures { result ≡ place_of file.0 (map file_number (take n files.now)) }
{
    files[..n].iter().position(|f| file == *f)
}

// Where a mark of module n stands.
fn slot(kind: Mark, n: usize) -> usize
    requires { n < 256 }
    ensures { (result ≡ slot_of kind n) × (result < 1024) }
{
    256 * kind as usize + n
}

// Is a number's last bit set?
fn last_bit(m: u64) -> bool
    ensures { result ≡ eqb (m % 2) 1 }
{
    m % 2 == 1
}

// The number with these four last bits, the lowest first.
fn four_bits(a: bool, b: bool, c: bool, d: bool) -> u64
    ensures { (eqb (result % 2) 1 ≡ a) × (eqb (result / 2 % 2) 1 ≡ b) × (eqb (result / 4 % 2) 1 ≡ c) × (eqb (result / 8 % 2) 1 ≡ d) × (result < 16) }
{
    a as u64 + 2 * b as u64 + 4 * c as u64 + 8 * d as u64
}

// The answer to a request that module n meets.
fn numbered(scope: Scope, n: usize) -> Gen
    requires { n < 256 }
    ensures { generated result ≡ generated_by (Some (n, modules_of scope)) [] }
{
    let id = ModuleId(n as u16);
    Gen {
        scope,
        answer: Ok(Numbers {
            id,
            local_ctxt: id.local_ctxt(),
            export_ctxt: id.export_ctxt(),
        }),
    }
}

impl Scope {
    // A scope without modules.
    pub fn new() -> Scope
        ensures { modules_of result ≡ [] }
    {
        Scope {
            count: 0,
            files: [FileName(0); 256],
            marks: [false; 1024],
        }
    }

    // The scope whose n modules stand in cells from `base` on, two cells each: the file, and the marks (1 for loaded, 2 stored, 4 cjs,
    // 8 wrapping, added up).
    pub fn from_cells(cells: &[u64], base: usize, n: usize) -> Scope
        requires { (n ≤ 256) × (base + 2 * n ≤ length cells.now) }
        ensures { modules_of result ≡ modules_in n base cells.now }
    {
        let mut files = [FileName(0); 256];
        let mut marks = [false; 1024];
        for k in 0..n {
            let at = base + 2 * k;
            files[k] = FileName((cells[at] % 65536) as u16);
            let m = cells[at + 1];
            let loaded = slot(Mark::Loaded, k);
            marks[loaded] = last_bit(m);
            let stored = slot(Mark::Stored, k);
            marks[stored] = last_bit(m / 2);
            let cjs = slot(Mark::Cjs, k);
            marks[cjs] = last_bit(m / 4);
            let wrapping = slot(Mark::Wrapping, k);
            marks[wrapping] = last_bit(m / 8);
        }
        Scope {
            count: n,
            files,
            marks,
        }
    }

    // Puts the modules into cells in that form, and answers how many they are.
    pub fn to_cells(self, cells: &mut [u64], base: usize) -> usize
        requires { base + 512 ≤ length cells.old }
        ensures { (result ≡ length (modules_of self)) × (result ≤ 256) × (modules_in result base cells.new ≡ modules_of self)
            × Rewrites base (base + 512) cells.old cells.new
            × ((i : ℕ) → i < result →
            (get_or cells.new (base + 2 * i) 0 < 65536) × (get_or cells.new (base + 2 * i + 1) 0 < 16)) }
    {
        let n = counted(self.count);
        for k in 0..n {
            let at = base + 2 * k;
            let loaded = slot(Mark::Loaded, k);
            let stored = slot(Mark::Stored, k);
            let cjs = slot(Mark::Cjs, k);
            let wrapping = slot(Mark::Wrapping, k);
            cells[at] = self.files[k].0 as u64;
            cells[at + 1] = four_bits(
                self.marks[loaded],
                self.marks[stored],
                self.marks[cjs],
                self.marks[wrapping],
            );
        }
        n
    }

    // Sets or clears a mark of module n: the one place where a single mark is written.
    fn put_mark(mut self, kind: Mark, n: usize, on: bool) -> Scope
        requires { n < 256 }
        ensures { result ≡ stored self kind n on }
    {
        let i = slot(kind, n);
        self.marks[i] = on;
        self
    }

    // Reads a mark of module n: the one place where a single mark is read.
    fn get_mark(self, kind: Mark, n: usize) -> bool
        requires { n < 256 }
        ensures { result ≡ get_or self.marks (slot_of kind n) false }
    {
        let i = slot(kind, n);
        self.marks[i]
    }

    // The first n modules, and one more, of this file, without marks.
    fn add(mut self, n: usize, file: FileName) -> Scope
        requires { n < 256 }
        ensures { modules_of result ≡ modules_from n 0 self.files self.marks ++ (unmarked file.0 ∷ []) }
    {
        self = self.put_mark(Mark::Loaded, n, false);
        self = self.put_mark(Mark::Stored, n, false);
        self = self.put_mark(Mark::Cjs, n, false);
        self = self.put_mark(Mark::Wrapping, n, false);
        self.files[n] = file;
        self.count = n + 1;
        self
    }

    // The module of a file: the next one where the file was never asked for, else the one that it has.
    pub fn gen_id(mut self, file: FileName) -> Gen
        ensures { generated result ≡ gen file (modules_of self) }
    {
        let n = counted(self.count);
        match find_file(&self.files, n, file) {
            Some(i) => numbered(self, i),
            None => if n < 256 {
                numbered(self.add(n, file), n)
            } else {
                Gen {
                    scope: self,
                    answer: Err(TooManyFiles),
                }
            },
        }
    }

    // The files of a list, two bytes each, in order, up to the first that is refused.
    pub fn gen_ids(mut self, files: &[u8]) -> Requested
        ensures { requested result ≡ request_all (files_in files.now) (modules_of self) }
    {
        for i in 0..files.len() / 2 {
            let g = self.gen_id(FileName(files[2 * i] as u16 * 256 + files[2 * i + 1] as u16));
            self = g.scope;
            if let Err(refused) = g.answer {
                return Requested {
                    scope: self,
                    answer: Err(refused),
                };
            }
        }
        Requested {
            scope: self,
            answer: Ok(()),
        }
    }

    fn set_mark(mut self, kind: Mark, id: ModuleId) -> Marked
        ensures { marked_by result ≡ marking kind id (modules_of self) }
    {
        let n = id.0 as usize;
        if n < counted(self.count) {
            Marked {
                scope: self.put_mark(kind, n, true),
                answer: Ok(()),
            }
        } else {
            Marked {
                scope: self,
                answer: Err(NoSuchModule),
            }
        }
    }

    fn has_mark(self, kind: Mark, id: ModuleId) -> Result<bool, NoSuchModule>
        ensures { read_by result ≡ read_mark kind id (modules_of self) }
    {
        let n = id.0 as usize;
        if n < counted(self.count) {
            Ok(self.get_mark(kind, n))
        } else {
            Err(NoSuchModule)
        }
    }

    pub fn mark_as_loaded(mut self, id: ModuleId) -> Marked
        ensures { marked_by result ≡ marking Loaded id (modules_of self) }
    {
        self.set_mark(Mark::Loaded, id)
    }

    // Marks a module as stored.
    pub fn store_module(mut self, id: ModuleId) -> Marked
        ensures { marked_by result ≡ marking Stored id (modules_of self) }
    {
        self.set_mark(Mark::Stored, id)
    }

    pub fn mark_as_cjs(mut self, id: ModuleId) -> Marked
        ensures { marked_by result ≡ marking Cjs id (modules_of self) }
    {
        self.set_mark(Mark::Cjs, id)
    }

    pub fn mark_as_wrapping_required(mut self, id: ModuleId) -> Marked
        ensures { marked_by result ≡ marking Wrapping id (modules_of self) }
    {
        self.set_mark(Mark::Wrapping, id)
    }

    pub fn is_loaded(self, id: ModuleId) -> Result<bool, NoSuchModule>
        ensures { read_by result ≡ read_mark Loaded id (modules_of self) }
    {
        self.has_mark(Mark::Loaded, id)
    }

    pub fn is_stored(self, id: ModuleId) -> Result<bool, NoSuchModule>
        ensures { read_by result ≡ read_mark Stored id (modules_of self) }
    {
        self.has_mark(Mark::Stored, id)
    }

    pub fn is_cjs(self, id: ModuleId) -> Result<bool, NoSuchModule>
        ensures { read_by result ≡ read_mark Cjs id (modules_of self) }
    {
        self.has_mark(Mark::Cjs, id)
    }

    pub fn should_be_wrapped_with_a_fn(self, id: ModuleId) -> Result<bool, NoSuchModule>
        ensures { read_by result ≡ read_mark Wrapping id (modules_of self) }
    {
        self.has_mark(Mark::Wrapping, id)
    }

    // The id of a module that is wrapped with a function and stored.
    pub fn wrapped_esm_id(self, id: ModuleId) -> Result<Option<Id>, NoSuchModule>
        ensures { esm_by result ≡ wrapped_esm_id id (modules_of self) }
    {
        let wrapping = self.should_be_wrapped_with_a_fn(id)?;
        let stored = self.is_stored(id)?;
        Ok(if wrapping && stored {
            Some(Id(Atom::MOD, id.export_ctxt()))
        } else {
            None
        })
    }
}
