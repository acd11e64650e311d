// What the program writes. What cannot be written is left out, and the program goes on.
use crate::tally::Tally;

// The last line.
pub fn total(rt: &impl Print, tally: &Tally) {
    let Tally {
        cases,
        skipped,
        differences,
    } = *tally;
    let _ = println!(rt; "{cases} cases, {skipped} skipped, {differences} differences");
}

pub fn malformed(rt: &impl Print, line: u64, why: &str) {
    let _ = println!(rt; "line {line}: malformed: {why}");
}

// Both answers, from shortly before the first character in which they differ if they are long.
pub fn difference(rt: &impl Print, line: u64, expected: &[u8], got: &[u8]) {
    let at = common(expected, got);
    let _ = print!(rt; "line {line}: differs at character {at}\n  expected ");
    excerpt(rt, expected, at);
    let _ = print!(rt; "\n  got      ");
    excerpt(rt, got, at);
    let _ = println!(rt; "");
}

// How many bytes a and b have in common at the front.
fn common(a: &[u8], b: &[u8]) -> usize {
    a.iter().zip(b).take_while(|(x, y)| x == y).count()
}

// All of s, or 100 bytes of it, from 20 before `at` where there are so many, with dots for what is left out.
fn excerpt(rt: &impl Print, s: &[u8], at: usize) {
    if s.len() <= 120 {
        let _ = rt.write_all(s);
        return;
    }
    let from = at.saturating_sub(20).min(s.len() - 100);
    let to = from + 100;
    if 0 < from {
        let _ = rt.write_all(b"..");
    }
    let _ = rt.write_all(&s[from..to]);
    if to < s.len() {
        let _ = rt.write_all(b"..");
    }
}
