// Reading bytes by the grammar: whether they are one tree, or why not and where.
ghost use Rattle.std.specs.Prelude.{◌≡◌, ◌+◌, ◌≤◌, ◌<◌, length};
ghost use Rattle.tree.specs.Read.{head_at, children_at, content_at, verdict, read};
ghost use Rattle.tree.specs.Packed.{unpack_rule, unpack_head};

use crate::access::{extent, fixed};
use crate::grammar::{Rule, Set, done, root_rule, rule_of, step_by};
use crate::refused::Refused;

// Why bytes are no tree.
#[derive(Clone, Copy, PartialEq, Eq)]
pub enum Why {
    // a tag that may not stand there, or bytes left over
    Misplaced,
    // a tag or a length cut off, a content that passes the end around it, no bytes at all
    Cut,
    // fixed bytes short, a kind byte off the list, a key too long, a required part missing
    Lacking,
    // a field deeper than 64
    Deep,
}

// Why bytes are no tree, and at which offset.
pub type Unread = Refused<Why>;

// What stands at a place in a row of parts.
#[derive(Clone, Copy, PartialEq, Eq)]
pub enum Head {
    // the end of a row that lacks nothing
    Done,
    // the end of a row that lacks a part
    Missing,
    // a field that is refused
    Bad(Why),
    // a field: the rule behind it, and its end
    Child(Rule, usize),
}

// 'the deepest 64'
const DEEPEST: usize = 64;

// The field at `at`: the rule behind it, and its end. Tag, length, and depth are tested in this order.
#[tactic(auto, unfolding(crate::specs::Read::head_at, crate::specs::Read::on_step, crate::specs::Read::on_extent))]
fn head_of(s: &[u8], at: usize, end: usize, depth: usize, rule: u32) -> Result<(u32, usize), Why>
    requires { (at < end) × (end ≤ length s.now) }
    ensures { unpack_head result ≡ head_at s.now at end depth (unpack_rule rule) }
{
    let next = step_by(rule, s[at]).ok_or(Why::Misplaced)?;
    let stop = extent(s, at, end).ok_or(Why::Cut)?;
    if depth < DEEPEST {
        Ok((next, stop))
    } else {
        Err(Why::Deep)
    }
}

// The field at `at` up to stop, at this depth: its fixed bytes and its parts. Where its tag has no parts, none are read.
#[cycle(children_content)]
fn content(s: &[u8], at: usize, stop: usize, depth: usize) -> Result<(), Unread>
    requires { (at + 3 ≤ stop) × (stop ≤ length s.now) × (depth ≤ 64) }
    ensures { result ≡ verdict (content_at s.now at stop depth) }
{
    let tag = s[at];
    let Some(from) = fixed(s, tag, at + 3, stop) else {
        return Err(Unread {
            why: Why::Lacking,
            place: at,
        });
    };
    let rule = rule_of(tag);
    if rule == 0 {
        return if from == stop {
            Ok(())
        } else {
            Err(Unread {
                why: Why::Misplaced,
                place: from,
            })
        };
    }
    children(s, from, stop, depth, rule, at)
}

// The parts from `from` up to end of the field at place.
#[cycle(children_content)]
fn children(
    s: &[u8],
    from: usize,
    end: usize,
    depth: usize,
    whole: u32,
    place: usize,
) -> Result<(), Unread>
    requires { (from ≤ end) × (end ≤ length s.now) × (depth ≤ 64) }
    ensures { result ≡ verdict (children_at s.now from end depth (unpack_rule whole) place) }
{
    let mut at = from;
    let mut rule = whole;
    while at < end {
        let (next, stop) = match head_of(s, at, end, depth, rule) {
            Ok(part) => part,
            Err(why) => return Err(Unread { why, place: at }),
        };
        content(s, at, stop, depth + 1)?;
        rule = next;
        at = stop;
    }
    if done(rule) {
        Ok(())
    } else {
        Err(Unread {
            why: Why::Lacking,
            place,
        })
    }
}

// Whether the bytes are one tree whose tag is of the set root.
#[tactic(auto, unfolding(crate::specs::Read::read))]
pub fn read_tree(s: &[u8], root: Set) -> Result<(), Unread>
    ensures { result ≡ verdict (read root s.now) }
{
    if s.is_empty() {
        return Err(Unread {
            why: Why::Cut,
            place: 0,
        });
    }
    children(s, 0, s.len(), 0, root_rule(root), 0)
}
