// What a call left in a lent buffer: a field at the front, and zeros behind it.
ghost use Rattle.std.specs.Prelude.{◌≡◌, ◌↔◌, ◌+◌, ◌≤◌, ◌++◌, None, Some, length, All, IsTrue, IfSome, MatchOption};
ghost use Rattle.tree.specs.Access.{extent_at};

use crate::fields::Fields;
use std::fmt;
use tree::access::extent;

// Whether there are only zeros.
pub fn is_zero(s: &[u8]) -> bool
    ensures { IsTrue result ↔ All (λ b. b ≡ 0) s.now }
{
    s.iter().all(|b| *b == 0)
}

// The field at the front, if it stands there whole, and what stands behind it.
pub fn split_front(s: &[u8]) -> Option<(&[u8], &[u8])>
    ensures found { MatchOption result (extent_at s.now 0 (length s.now) ≡ None) (λ p. extent_at s.now 0 (length s.now) ≡ Some (length p.0.now)) }
    ensures parts { IfSome result (λ p. s.now ≡ p.0.now ++ p.1.now) }
    ensures len { IfSome result (λ p. length p.0.now + length p.1.now ≡ length s.now) }
    ensures head { IfSome result (λ p. 3 ≤ length p.0.now) }
{
    let stop = extent(s, 0, s.len())?;
    Some(s.split_at(stop))
}

// Displays as the fields of the one at the front, and words where it is cut off or not only zeros stand behind it.
#[derive(Clone, Copy)]
pub struct Front<'a>(pub &'a [u8]);

impl fmt::Display for Front<'_> {
    fn fmt<W: fmt::Write>(&self, f: &mut fmt::Formatter<W>) -> fmt::Result {
        let bytes = self.0;
        if bytes.len() < 3 {
            return writeln!(f, "  no field");
        }
        let Some((field, behind)) = split_front(bytes) else {
            return writeln!(f, "  a field cut off");
        };
        write!(f, "{}", Fields(field))?;
        if !is_zero(behind) {
            writeln!(f, "  and other bytes than zeros behind it")?;
        }
        Ok(())
    }
}
