// Replays the vectors on standard input: a line is a request, a tab and the answer that is expected.
// Writes each line whose answer differs, and last how many cases there were.
#![tactic(auto)]

mod tally; // a line, and the count of lines
mod verdicts; // what the program writes

ghost use Rattle.std.specs.Prelude.{◌≡◌, ◌<◌, IfOk, vec_len};
ghost use Rattle.replay.specs.declared.Came.TheVariants.{Line};

use std::alloc::Global;
use std::io;
use std::io::{BufRead, BufReader, Read};
use tally::Tally;

// A line has a mebibyte at most, with its end.
const MEBIBYTE: usize = 1_048_576;

// What a read brought.
enum Came {
    // A line without its end stands in the buffer.
    Line,
    // A line that is too long was passed over.
    TooLong,
    // The input is at its end.
    End,
}

// Reads the next line. One that is too long is never held whole, so that memory stays bounded.
fn next_line(input: &mut impl BufRead, line: &mut Vec<u8>) -> io::Result<Came>
    ensures { IfOk result (λ came. came ≡ Line → vec_len line.new < MEBIBYTE) }
{
    line.clear();
    let mut front = input.by_ref().take(MEBIBYTE as u64);
    if front.read_until(b'\n', line)? == 0 {
        return Ok(Came::End);
    }
    if line.last() == Some(&b'\n') {
        line.pop();
    }
    if line.len() < MEBIBYTE {
        return Ok(Came::Line);
    }
    input.skip_until(b'\n')?;
    Ok(Came::TooLong)
}

// Replays line after line, and answers the count. Nothing more is read where reading failed.
// Nothing says that the input ends, so the turns are counted from a number that no run uses up.
fn run(rt: &impl Print, alloc: Global, input: &mut impl BufRead, line: &mut Vec<u8>) -> Tally {
    let mut tally = Tally::default();
    for _ in 0..u64::MAX {
        match next_line(input, line) {
            Ok(Came::Line) => tally.replay(rt, alloc, line),
            Ok(Came::TooLong) => tally.unread(rt),
            Ok(Came::End) => break,
            Err(_) => {
                tally.unread(rt);
                break;
            }
        }
    }
    tally
}

fn main(rt: HostRuntime) -> io::Result<()> {
    let alloc = rt.alloc();
    let mut input = BufReader::new(alloc, rt.stdin())?;
    let mut line = Vec::with_capacity(alloc, MEBIBYTE)?;
    let tally = run(&rt, alloc, &mut input, &mut line);
    verdicts::total(&rt, &tally);
    Ok(())
}
