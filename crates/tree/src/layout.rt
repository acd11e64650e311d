// Atoms, contexts, ids and literals in bytes: where they end, their numbers, and whether two are equal.
ghost use Rattle.std.specs.Prelude.{◌≡◌, ◌+◌, ◌≤◌, length};
ghost use Rattle.std.proofs.Math.Seq.{slice};
ghost use Rattle.tree.specs.Layout.{skip_at, literal_end, two_at, four_at, same, literal_width, literal_value};

pub const ATOM: usize = 2;

pub const ID: usize = 6;

pub const LITERAL: usize = 6;

// Where n bytes from `at` end, if that is inside stop.
#[tactic(auto, unfolding(crate::specs::Layout::skip_at))]
pub fn skip(at: usize, n: usize, stop: usize) -> Option<usize>
    requires { at ≤ stop }
    ensures { result ≡ skip_at at n stop }
{
    if n <= stop - at { Some(at + n) } else { None }
}

// Where the literal at `at` ends, if that is inside stop.
#[tactic(auto, unfolding(crate::specs::Layout::literal_end))]
pub fn literal_end(at: usize, stop: usize) -> Option<usize>
    requires { at ≤ stop }
    ensures { result ≡ literal_end at stop }
{
    skip(at, LITERAL, stop)
}

// The atom at `at`, as a number.
pub fn atom_at(s: &[u8], at: usize) -> u16
    requires { at + 2 ≤ length s.now }
    ensures { result ≡ two_at s.now at }
{
    u16::from_be_bytes([s[at], s[at + 1]])
}

// The value of the literal at `at`, as a number.
pub fn literal_value(s: &[u8], at: usize) -> u16
    requires { at + literal_width ≤ length s.now }
    ensures { result ≡ literal_value s.now at }
{
    atom_at(s, at)
}

// The context at `at`, as a number.
pub fn context_at(s: &[u8], at: usize) -> u32
    requires { at + 4 ≤ length s.now }
    ensures { result ≡ four_at s.now at }
{
    u32::from_be_bytes([s[at], s[at + 1], s[at + 2], s[at + 3]])
}

// Whether n bytes of s from a on are those of t from b on.
pub fn same_run(s: &[u8], a: usize, t: &[u8], b: usize, n: usize) -> bool
    requires { (a + n ≤ length s.now) × (b + n ≤ length t.now) }
    ensures { result ≡ same (slice a (a + n) s.now) (slice b (b + n) t.now) }
{
    s[a..a + n] == t[b..b + n]
}
