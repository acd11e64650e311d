// The field writer. A field is opened, its content written, and then it is closed, which fills its length in. Positions go on
// where a buffer has no room left, so that a walk measures what it does not write, and never stops for lack of room: `finish`
// tests, once, whether the whole stands in the buffer. Those past the longest field count as one, so a sum may saturate.
#![tactic(auto)]

ghost use Rattle.std.specs.Prelude.{◌≡◌, [], ◌∷◌, ◌+◌, ◌-◌, ◌≤◌, length, set};
ghost use Rattle.std.proofs.Math.Seq.{slice};
ghost use Rattle.writer.specs.Bytes.{two_bytes, four_bytes};
ghost use Rattle.writer.specs.Wrote.{capped, Wrote, Opened, closed};
ghost use Rattle.writer.specs.Finished.{has_room, zeroed_from, zeroed, Finished};

// The longest field: 3 bytes of head, and 65,535 of content.
const LONGEST: usize = 65538;

// Stores b at o, where there is room.
fn store(out: &mut [u8], o: usize, b: u8)
    ensures { out.new ≡ set out.old o b }
{
    if o < out.len() {
        out[o] = b;
    }
}

// Writes the byte b at o, and answers the position behind it, as each of these does.
pub fn put(out: &mut [u8], o: usize, b: u8) -> usize
    ensures { Wrote out.old o (b ∷ []) out.new result }
{
    if o < out.len() {
        out[o] = b;
        return o + 1;
    }
    o.saturating_add(1)
}

// Writes n in two bytes.
pub fn put_u16(out: &mut [u8], o: usize, n: u16) -> usize
    ensures { Wrote out.old o (two_bytes n) out.new result }
{
    let low = put(out, o, (n / 256) as u8);
    put(out, low, (n % 256) as u8)
}

// Writes n in four bytes.
pub fn put_u32(out: &mut [u8], o: usize, n: u32) -> usize
    ensures { Wrote out.old o (four_bytes n) out.new result }
{
    let low = put_u16(out, o, (n / 65536) as u16);
    put_u16(out, low, (n % 65536) as u16)
}

// Writes the bytes of s from `from` up to `end`, one by one, as far as there is room.
fn copy_part(out: &mut [u8], o: usize, s: &[u8], from: usize, end: usize) -> usize
    requires { end ≤ length s.now }
    ensures { Wrote out.old o (slice from end s.now) out.new result }
{
    let mut to = o;
    for at in from..end {
        to = put(out, to, s[at]);
    }
    to
}

// The same where there is room for all: no byte is tested, so that the compiler moves many at a time.
fn copy_whole(out: &mut [u8], o: usize, s: &[u8], from: usize, end: usize) -> usize
    requires { (from ≤ end) × (end ≤ length s.now) × (o + (end - from) ≤ length out.old) }
    ensures { Wrote out.old o (slice from end s.now) out.new result }
{
    let n = end - from;
    for i in 0..n {
        out[o + i] = s[from + i];
    }
    o + n
}

// Writes the bytes of s from `from` up to `end`.
pub fn copy(out: &mut [u8], o: usize, s: &[u8], from: usize, end: usize) -> usize
    requires { end ≤ length s.now }
    ensures { Wrote out.old o (slice from end s.now) out.new result }
{
    if end <= from {
        return o;
    }
    if o <= out.len() && end - from <= out.len() - o {
        return copy_whole(out, o, s, from, end);
    }
    copy_part(out, o, s, from, end)
}

// Writes all bytes of s.
pub fn put_all(out: &mut [u8], o: usize, s: &[u8]) -> usize
    ensures { Wrote out.old o s.now out.new result }
{
    copy(out, o, s, 0, s.len())
}

// Writes the tag of a field at o, and answers where its content starts.
pub fn open_field(out: &mut [u8], o: usize, tag: u8) -> usize
    ensures { Opened out.old o tag out.new result }
{
    store(out, o, tag);
    o.saturating_add(3)
}

// Fills in the length of the field at o, whose content ends at p.
pub fn close_field(out: &mut [u8], o: usize, p: usize)
    ensures { out.new ≡ closed out.old o p }
{
    let c = o.saturating_add(3);
    if c <= p && p <= LONGEST {
        put_u16(out, o + 1, (p - c) as u16);
    }
}

// Whether a field of n bytes is no longer than a field can be and than `room`: else refusal 9.
pub fn has_room(n: usize, room: usize) -> bool
    ensures { result ≡ has_room n room }
{
    n <= LONGEST && n <= room
}

// Zeros every byte from n on.
pub fn clear_from(out: &mut [u8], n: usize)
    ensures { out.new ≡ zeroed_from n out.old }
{
    if n < out.len() {
        out[n..].fill(0);
    }
}

// Zeros every byte.
pub fn clear(out: &mut [u8])
    ensures { out.new ≡ zeroed out.old }
{
    out.fill(0);
}

// Ends the field of n bytes that was written at 0: zeros behind it, or, where it has no room, everywhere. False is refusal 9.
pub fn finish(out: &mut [u8], n: usize) -> bool
    ensures { Finished n out.old result out.new }
{
    if has_room(n, out.len()) {
        clear_from(out, n);
        true
    } else {
        clear(out);
        false
    }
}
