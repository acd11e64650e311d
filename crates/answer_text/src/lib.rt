// The text of answers, as the vectors have it: what a call answered, what it left in its buffers, the modules of a scope.
#![tactic(auto)]

pub mod modules; // a scope's bytes

ghost use Rattle.std.specs.Prelude.{◌≡◌, ◌+◌, ◌*◌, ◌<◌, ◌∷◌, ◌++◌, map, IfOk, MatchResult, Some, string_bytes};
ghost use Rattle.std.specs.Fmt.{decimal};
ghost use Rattle.text.specs.Hex.{spelt};
ghost use Rattle.answer_text.specs.Left.{shown, leftovers_text};
ghost use Rattle.answer_text.specs.Refusal.{refused_text};

use modules::ScopeBytes;
use show::buffer::{is_zero, split_front};
use std::alloc::{AllocError, Global};
use std::fmt;
use text::hex::Bytes;

// What a buffer is filled with before a call, so that a byte that the call leaves alone shows.
pub const FILL: u8 = 170;

// A call's refusal. Displays as NUMBER PLACE.
#[derive(Clone, Copy, Debug, PartialEq, Eq)]
pub struct Refusal {
    pub number: u32,
    pub place: u32,
}

impl fmt::Display for Refusal {
    ghost use Rattle.std.specs.Prelude.{Some};
    ghost use Rattle.answer_text.specs.Refusal.{refusal_text};

    ghost output = { λ r. Some (refusal_text r) };

    fn fmt<W: fmt::Write>(&self, f: &mut fmt::Formatter<W>) -> fmt::Result {
        write!(f, "{} {}", self.number, self.place)
    }
}

// What a call answers in one number: a refusal's number and place in its halves, or a value where the upper half is zero.
pub fn outcome(answer: u64) -> Result<u32, Refusal>
    ensures { MatchResult result (λ value. answer ≡ value) (λ e. (0 < e.number) × (answer ≡ e.number * 0x1_0000_0000 + e.place)) }
{
    let number = (answer / 0x1_0000_0000) as u32;
    let place = (answer % 0x1_0000_0000) as u32;
    if number == 0 {
        Ok(place)
    } else {
        Err(Refusal { number, place })
    }
}

// Words for the buffers of a refused call, where it leaves something in one.
pub fn leftovers(buffers: &[&[u8]]) -> &'static str
    ensures { result.now ≡ leftovers_text (map (λ b. b.now) buffers.now) }
{
    if buffers.iter().all(|b| is_zero(b)) {
        ""
    } else {
        " with bytes left in a buffer"
    }
}

// The field at the front of a call's buffer; all of the buffer where none stands there whole.
pub fn field_in(buffer: &[u8]) -> &[u8]
    ensures { (behind : _) × (buffer.now ≡ result.now ++ behind) }
{
    match split_front(buffer) {
        Some((field, _)) => field,
        None => buffer,
    }
}

// A call's buffer. Displays as the field at its front, or as all of it where not only zeros stand behind that.
#[derive(Clone, Copy)]
pub struct Left<'a>(pub &'a [u8]);

impl fmt::Display for Left<'_> {
    ghost output = { λ b. Some (spelt (shown b.0.now)) };

    fn fmt<W: fmt::Write>(&self, f: &mut fmt::Formatter<W>) -> fmt::Result {
        match split_front(self.0) {
            Some((field, behind)) if is_zero(behind) => write!(f, "{}", Bytes(field)),
            _ => write!(f, "{}", Bytes(self.0)),
        }
    }
}

// The text of a refused call that leaves these buffers and this scope: WORD NUMBER PLACE SCOPE.
pub fn refused(
    alloc: Global,
    word: &str,
    refusal: Refusal,
    buffers: &[&[u8]],
    scope: &ScopeBytes,
) -> Result<String, AllocError>
    ensures { IfOk result (λ s. string_bytes s ≡ refused_text word.now refusal (map (λ b. b.now) buffers.now) scope.now.0) }
{
    format!(in alloc; "{word} {refusal}{} {scope}", leftovers(buffers))
}
