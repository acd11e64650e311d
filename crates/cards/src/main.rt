// Runs cards from standard input through the exported calls, and prints them readably. A line that starts with `extract`,
// `decode` or `resolve` is a request: what goes in is shown, then the answer. Any other line is printed as it stands.
#![tactic(auto)]

mod answer;
mod calls;
mod request;

use request::Request;
use std::io;
use std::io::Read;

// How many bytes of cards are run at most.
const LONGEST: usize = 32_767;

// Answers or prints one line. What can't be written is left out.
fn take<R: Print + AllocGlobal>(rt: &R, line: &[u8]) {
    match Request::read(rt.alloc(), line) {
        Ok(Some(Request::Extract(extraction))) => calls::extract(rt, &extraction),
        Ok(Some(Request::Decode(attributes))) => calls::decode(rt, &attributes),
        Ok(Some(Request::Resolve(resolution))) => calls::resolve(rt, &resolution),
        Ok(None) => {
            let _ = rt.write_all(line);
            let _ = println!(rt; "");
        }
        Err(e) => answer::unread(rt, e),
    }
}

// Takes the lines one by one.
fn run<R: Print + AllocGlobal>(rt: &R, text: &[u8]) {
    for line in text.split_inclusive(|b| *b == b'\n') {
        take(rt, line.strip_suffix(b"\n").unwrap_or(line));
    }
}

// Runs all that there is, up to a read that fails.
fn main(rt: HostRuntime) -> io::Result<()> {
    // With a byte to spare, so that reading asks for no more memory.
    let mut text = Vec::with_capacity(rt.alloc(), LONGEST + 2)?;
    let _ = rt.stdin().take(LONGEST as u64 + 1).read_to_end(&mut text);
    if LONGEST < text.len() {
        let _ = println!(rt; "longer than {LONGEST} bytes");
    } else {
        run(&rt, &text);
    }
    Ok(())
}
