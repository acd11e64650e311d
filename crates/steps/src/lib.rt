// What the functions of the walk share: how a step ends.
#![tactic(auto)]

ghost use Rattle.std.specs.Prelude.{◌+◌, ◌≤◌, length, get_or};
ghost use Rattle.std.proofs.Math.Seq.{slice};
ghost use Rattle.steps.specs.Step.{Begun, Ended};

use tree::refused::Refused;
use tree::row::Part;

// Why the walk turns back.
#[derive(Clone, Copy, PartialEq, Eq)]
pub enum Why {
    // a 257th file
    TooManyFiles,
    // a string name
    StringName,
    // a private name
    PrivateName,
    // a table without room
    TableFull,
}

// Why the walk turns back, and at which field.
pub type Refusal = Refused<Why>;

// The position behind what was written.
pub type Step = Result<usize, Refusal>;

// What a rule says that writes nothing.
pub type Effect = Result<(), Refusal>;

// Starts a field whose parts start at `from`: its head, and its fixed bytes. Answers where its parts go.
pub fn begin_field(part: &Part, from: usize, out: &mut [u8], o: usize) -> usize
    requires { (part.now.at + 3 ≤ from) × (from ≤ length part.now.bytes.now) }
    ensures { Begun out.old o (get_or part.now.bytes.now part.now.at 0) (slice (part.now.at + 3) from part.now.bytes.now) out.new result }
{
    let content = writer::open_field(out, o, part.tag());
    writer::copy(out, content, part.bytes, part.at + 3, from)
}

// Fills in the length of the field at o, once its parts are written.
pub fn end_field(r: Step, out: &mut [u8], o: usize) -> Step
    ensures { Ended o r out.old out.new result }
{
    let p = r?;
    writer::close_field(out, o, p);
    Ok(p)
}
