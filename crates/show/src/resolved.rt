// The fields of a resolved list, which no tree has: 90, 91 and 92. Where their fixed bytes end, and how these are shown.
ghost use Rattle.std.specs.Prelude.{◌≤◌, length, IfSome};

use crate::line::{put_pieces, put_run, put_two};
use std::fmt;
use tree::access::fixed;

// Where the fixed bytes of a field of a tree or a list end. A 91 and a 92 have nothing else.
pub fn fixed_of(s: &[u8], tag: u8, at: usize, stop: usize) -> Option<usize>
    requires { (at ≤ stop) × (stop ≤ length s.now) }
    ensures { IfSome result (λ end. (at ≤ end) × (end ≤ stop)) }
{
    match tag {
        0x90 if 19 <= stop - at => Some(at + 19),
        0x90 => None,
        0x91 | 0x92 => Some(stop),
        _ => fixed(s, tag, at, stop),
    }
}

// '90*: byte (3 collected, 1 lazy, 0 dynamic), module 2 bytes, file 2, C local, C export, L'
fn put_resolved<W: fmt::Write>(f: &mut fmt::Formatter<W>, s: &[u8]) -> fmt::Result {
    let [how, s @ ..] = s else {
        return Ok(());
    };
    let how = match *how {
        3 => "collected",
        1 => "lazy",
        0 => "dynamic",
        _ => "of no kind",
    };
    write!(f, " {how}")?;
    let s = put_run(f, "module", s, 2)?;
    let s = put_run(f, "file", s, 2)?;
    let s = put_run(f, "local", s, 4)?;
    let s = put_run(f, "export", s, 4)?;
    put_two(f, "stamp", s)?;
    Ok(())
}

// '92 (I; all byte, 1 if forced)'
fn put_namespace<W: fmt::Write>(f: &mut fmt::Formatter<W>, s: &[u8]) -> fmt::Result {
    let s = put_two(f, "ctx", s)?;
    put_run(f, "all", s, 1)?;
    Ok(())
}

// Writes the fixed bytes of a field of a tree or a list. A 91 has them as a 20 has, with its alias for the outside name.
pub fn put_fixed<W: fmt::Write>(f: &mut fmt::Formatter<W>, tag: u8, s: &[u8]) -> fmt::Result {
    match tag {
        0x90 => put_resolved(f, s),
        0x91 => put_pieces(f, 0x20, s),
        0x92 => put_namespace(f, s),
        _ => put_pieces(f, tag, s),
    }
}
