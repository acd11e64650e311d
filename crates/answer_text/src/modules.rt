// A scope's bytes, as the calls leave them: the number of modules (2 bytes), then for each its file (2 bytes) and its marks (1 byte).
ghost use Rattle.std.specs.Prelude.{◌≡◌, ℕ, ◌<◌, ◌≤◌, length, slice_index, replicate, Some};
ghost use Rattle.answer_text.specs.Modules.{count_of, modules_of, module_text, modules_text, behind_text, scope_text, is_marks, marked};

use crate::FILL;
use show::buffer::is_zero;
use std::{array, fmt};
use text::hex::Hex;

// Displays as `file:LSCW` for each module, apart by commas; `-` for none.
#[derive(Drop)]
pub struct ScopeBytes(pub [u8; 770]);

impl ScopeBytes {
    // As they are before a call.
    pub fn filled() -> Self
        ensures { result.0 ≡ replicate 770 FILL }
    {
        ScopeBytes([FILL; 770])
    }

    fn count(&self) -> usize
        ensures value { result ≡ count_of self.now.0 }
        ensures small { result < 65536 }
    {
        usize::from(u16::from_be_bytes([self.0[0], self.0[1]]))
    }

    // The modules in the order of their numbers: each file in two bytes, and its marks. There is room for 256.
    pub fn modules(&self) -> &[[u8; 3]]
        ensures value { result.now ≡ modules_of self.now.0 }
        ensures few { length result.now ≤ 256 }
    {
        let (modules, _) = self.0[2..].as_chunks::<3>();
        let count = self.count().min(modules.len());
        &modules[..count]
    }

    // Words where not only zeros stand behind the modules.
    pub fn behind(&self) -> &'static str
        ensures { result.now ≡ behind_text self.now.0 }
    {
        let end = 2 + 3 * self.count();
        if end < self.0.len() && !is_zero(&self.0[end..]) {
            " with bytes behind the scope"
        } else {
            ""
        }
    }

    // The same with the marks of an earlier scope. A byte of marks that is set stays, so that it shows.
    pub fn marked_as(&self, earlier: &ScopeBytes) -> ScopeBytes
        ensures { (k : ℕ) → k < 770 → slice_index result.0 k ≡ marked (is_marks k) (slice_index self.now.0 k) (slice_index earlier.now.0 k) }
    {
        ScopeBytes(array::from_fn(|k| marked_at(k, self.0[k], earlier.0[k])))
    }
}

// The byte k, which takes the earlier one if it is a byte of marks and zero.
fn marked_at(k: usize, byte: u8, earlier: u8) -> u8
    ensures { result ≡ marked (is_marks k) byte earlier }
{
    if 4 <= k && k % 3 == 1 && byte == 0 {
        earlier
    } else {
        byte
    }
}

impl fmt::Display for ScopeBytes {
    ghost output = { λ s. Some (scope_text s.0) };

    fn fmt<W: fmt::Write>(&self, f: &mut fmt::Formatter<W>) -> fmt::Result {
        if 256 < self.count() {
            return write!(f, "more than 256 modules");
        }
        write!(f, "{}{}", Modules(self.modules()), self.behind())
    }
}

// Displays as the modules.
#[derive(Clone, Copy)]
struct Modules<'a>(&'a [[u8; 3]]);

impl fmt::Display for Modules<'_> {
    ghost output = { λ m. Some (modules_text m.0.now) };

    fn fmt<W: fmt::Write>(&self, f: &mut fmt::Formatter<W>) -> fmt::Result {
        let [first, others @ ..] = self.0 else {
            return write!(f, "-");
        };
        write!(f, "{}", Module(first))?;
        for other in others {
            write!(f, ",{}", Module(other))?;
        }
        Ok(())
    }
}

// Displays as `file:LSCW`.
#[derive(Clone, Copy)]
struct Module<'a>(&'a [u8; 3]);

impl fmt::Display for Module<'_> {
    ghost output = { λ m. Some (module_text m.0.now) };

    fn fmt<W: fmt::Write>(&self, f: &mut fmt::Formatter<W>) -> fmt::Result {
        let [high, low, marks] = *self.0;
        write!(f, "{}:", Hex(&[high, low]))?;
        write!(
            f,
            "{}{}{}{}",
            marks % 2,
            marks / 2 % 2,
            marks / 4 % 2,
            marks / 8 % 2
        )
    }
}
