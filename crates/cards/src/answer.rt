// What is printed of a call: what goes in, whether it is accepted, and what it left. What can't be written is left out.
use crate::request::{Extraction, Resolution};
use show::buffer::{Front, is_zero};
use show::fields::Fields;
use std::fmt;
use text::hex::{Bytes, BytesError};

// A refusal's number and place.
#[derive(Clone, Copy)]
struct Refusal {
    number: u64,
    place: u64,
}

impl fmt::Display for Refusal {
    fn fmt<W: fmt::Write>(&self, f: &mut fmt::Formatter<W>) -> fmt::Result {
        write!(f, "refused {} at {}", self.number, self.place)
    }
}

// The refusal in a call's answer: its number times 2^32 and its place. A zero upper half is acceptance.
fn refusal_in(r: u64) -> Option<Refusal> {
    match r >> 32 {
        0 => None,
        number => Some(Refusal {
            number,
            place: r & 0xFFFF_FFFF,
        }),
    }
}

// Why a line that starts as a request is not run.
pub fn unread(rt: &impl Print, e: BytesError) {
    let _ = match e {
        BytesError::Malformed => println!(rt; "not a request that can be read"),
        BytesError::OutOfMemory => println!(rt; "no memory for the request"),
    };
}

// What goes into an extraction.
pub fn asked(rt: &impl Print, e: &Extraction) {
    let config = if e.config { "on" } else { "off" };
    let own = e.own;
    let files = Bytes(&e.files);
    let externals = Bytes(&e.externals);
    let _ = println!(rt; "own file {own}, config {config}, files {files}, externals {externals}");
    rows(rt, &e.table);
    module(rt, &e.tree);
}

// What goes into a resolving.
pub fn handed_on(rt: &impl Print, asked: &Resolution) {
    let _ = println!(rt; "files {}", Bytes(&asked.files));
    rows(rt, &asked.table);
    let _ = print!(rt; "records:\n{}", Fields(&asked.records));
}

// What goes into a decoding.
pub fn attributes(rt: &impl Print, s: &[u8]) {
    let _ = print!(rt; "attributes:\n{}", Fields(s));
}

// The table, a row a line.
fn rows(rt: &impl Print, table: &[u8]) {
    for row in table.chunks(4) {
        let _ = match row {
            [a, b, c, d] => {
                let file = u16::from_be_bytes([*c, *d]);
                println!(rt; "table: source {} is file {file}", Bytes(&[*a, *b]))
            }
            _ => println!(rt; "table: bytes left over"),
        };
    }
}

// A tree, after what reading says of it: detection reads a module, and without require no more than that.
fn module(rt: &impl Print, tree: &[u8]) {
    let _ = print!(rt; "tree of {} bytes, its reading: ", tree.len());
    let _ = match refusal_in(tychodrel::tychodrel_detect(0, tree)) {
        None => println!(rt; "accepted"),
        Some(refusal) => println!(rt; "{refusal}"),
    };
    let _ = print!(rt; "{}", Fields(tree));
}

// What an extraction answers and leaves in its buffers.
pub fn extraction(rt: &impl Print, r: u64, tree: &[u8], work: &[u8], out: &[u8], records: &[u8]) {
    if let Some(refusal) = refusal_in(r) {
        let clear = is_zero(work) && is_zero(out) && is_zero(records);
        let left = if clear { "all zero" } else { "not all zero" };
        let _ = println!(rt; "{refusal}\nwork, out, records: {left}");
        return;
    }
    let _ = println!(rt; "accepted");
    let _ = if work.strip_prefix(tree).is_some_and(is_zero) {
        println!(rt; "work: the tree as it went in")
    } else {
        print!(rt; "work:\n{}", Front(work))
    };
    let _ = if work == out {
        println!(rt; "out: the same as work")
    } else {
        print!(rt; "out:\n{}", Front(out))
    };
    let _ = print!(rt; "records:\n{}", Front(records));
}

// What a resolving answers and leaves in its buffer.
pub fn resolving(rt: &impl Print, r: u64, list: &[u8]) {
    let _ = match refusal_in(r) {
        None => print!(rt; "accepted\nlist:\n{}", Front(list)),
        Some(refusal) => {
            let left = if is_zero(list) {
                "all zero"
            } else {
                "not all zero"
            };
            println!(rt; "{refusal}\nlist: {left}")
        }
    };
}

// The modules of a scope, a line each.
pub fn modules(rt: &impl Print, scope: &[u8; 770]) {
    let count = usize::from(u16::from_be_bytes([scope[0], scope[1]]));
    let Some((modules, behind)) = scope[2..].split_at_checked(3 * count) else {
        let _ = println!(rt; "scope: more than 256 modules");
        return;
    };
    if count == 0 {
        let _ = println!(rt; "scope: no modules");
    }
    for (i, module) in modules.chunks(3).enumerate() {
        if let [high, low, marks] = module {
            module_line(rt, i, u16::from_be_bytes([*high, *low]), *marks);
        }
    }
    if !is_zero(behind) {
        let _ = println!(rt; "scope: other bytes than zeros behind the modules");
    }
}

fn module_line(rt: &impl Print, i: usize, file: u16, marks: u8) {
    let _ = print!(rt; "scope: module {i} is file {file}");
    for (bit, word) in ["loaded", "stored", "cjs", "wrapping"].iter().enumerate() {
        if marks >> bit & 1 == 1 {
            let _ = print!(rt; ", {word}");
        }
    }
    let _ = println!(rt; "{}", if marks == 0 { ", no marks" } else { "" });
}

// What a decoding answers and leaves.
pub fn decoding(rt: &impl Print, r: u64, metadata: [u8; 6]) {
    if let Some(refusal) = refusal_in(r) {
        let _ = println!(rt; "{refusal}");
        return;
    }
    let [injected, has_context, a, b, c, d] = metadata;
    let injected = if injected == 1 {
        "injected"
    } else {
        "not injected"
    };
    let _ = if has_context == 1 {
        let context = u32::from_be_bytes([a, b, c, d]);
        println!(rt; "accepted: {injected}, context {context}")
    } else {
        println!(rt; "accepted: {injected}, no context")
    };
}
