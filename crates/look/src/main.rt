// Shows a tree one field a line, read from the file that the argument names or from standard input;
// for bytes that are no tree, the refusal's number, its place, and the bytes around it.
#![tactic(auto)]

use show::fields::Fields;
use show::place::Around;
use std::io::Read;
use std::{env, fs, io};
use tree::grammar::Set;
use tree::read::{Unread, Why, read_tree};

// How many bytes are shown at most.
const LONGEST: usize = 131_071;

// A module, records or attributes, by the first tag.
fn root_of(s: &[u8]) -> Set {
    match s {
        [0x02, ..] => Set::Records,
        [0x2F, ..] => Set::Attributes,
        _ => Set::Module,
    }
}

fn words_of(why: Why) -> &'static str {
    match why {
        Why::Misplaced => "3: a tag that may not stand there",
        Why::Cut => "3: a field cut off",
        Why::Lacking => "3: a field that lacks a part or holds a wrong byte",
        Why::Deep => "4: a field too deep",
    }
}

// What can't be written is left out.
fn show(rt: &impl Print, bytes: &[u8]) {
    let _ = match read_tree(bytes, root_of(bytes)) {
        Ok(()) => print!(rt; "{}", Fields(bytes)),
        Err(Unread { why, place }) => {
            let words = words_of(why);
            let around = Around { bytes, place };
            print!(rt; "refused {words}, at {place}\n{around}")
        }
    };
}

// Reads all that there is, up to a read that fails, and shows it.
fn show_all<R: Print + AllocGlobal>(rt: &R, input: impl Read + Drop) -> io::Result<()> {
    // With a byte to spare, so that reading asks for no more memory.
    let mut bytes = Vec::with_capacity(rt.alloc(), LONGEST + 2)?;
    let _ = input.take(LONGEST as u64 + 1).read_to_end(&mut bytes);
    if LONGEST < bytes.len() {
        let _ = println!(rt; "longer than {LONGEST} bytes");
    } else {
        show(rt, &bytes);
    }
    Ok(())
}

fn main(rt: HostRuntime) -> io::Result<()> {
    let mut args = env::args(&rt)?;
    let Some(path) = args.nth(1) else {
        return show_all(&rt, rt.stdin());
    };
    match fs::open(&rt, path.as_str()) {
        Ok(file) => show_all(&rt, file),
        Err(e) => {
            let _ = eprintln!(rt; "{path}: {e}");
            Ok(())
        }
    }
}
