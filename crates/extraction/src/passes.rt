// A pass over a module's items.
ghost use Rattle.std.specs.Prelude.{◌≡◌, ◌+◌, ◌≤◌, length, get_or};
ghost use Rattle.tree.specs.Tree.{encode, encodes};
ghost use Rattle.state.specs.Cells.{Good};
ghost use Rattle.steps.specs.Step.{Steps};
ghost use Rattle.extraction.specs.Passes.{ItemRead, ItemsRead, item_act, items_act, pass_act};

use imports::first::import_first;
use imports::second::import_second;
use state::Tables;
use steps::{Step, end_field};
use tree::access::extent;
use tree::row::{Part, Row};
use walking::walk;

// Where the items of a module start.
const START: usize = 3;

// Walks the module that is all of s, and writes it at 0: 'Flag *object* starts clear, *top* set'.
pub fn pass(s: &[u8], t: &mut Tables, out: &mut [u8]) -> Step
    ensures { Steps encode (ItemsRead s.now 3 (length s.now))
        (λ x. pass_act x.setting s.now) t.old.cells out.old 0 t.new.cells
        out.new result }
{
    if s.len() < START {
        return Ok(0);
    }
    let content = writer::open_field(out, 0, 0x01);
    t.set_top(true);
    let r = items(Row::new(s, START, s.len()), t, out, content);
    end_field(r, out, 0)
}

// The items of a row.
fn items(row: Row, t: &mut Tables, out: &mut [u8], o: usize) -> Step
    ensures { Steps encodes (ItemsRead row.entry.bytes.now row.entry.at row.entry.end)
        (λ x. items_act x.setting row.entry.bytes.now row.entry.at row.entry.end) t.old.cells out.old o
        t.new.cells out.new result }
{
    let mut to = o;
    for part in row {
        to = item(&part, t, out, to)?;
    }
    Ok(to)
}

// An item: 'drop module items 40, and module items 41 without 42'.
fn item(part: &Part, t: &mut Tables, out: &mut [u8], o: usize) -> Step
    ensures { Steps encodes (ItemRead part.now.bytes.now part.now.at part.now.stop)
        (λ x. item_act x.setting part.now.bytes.now part.now.at part.now.stop) t.old.cells out.old o t.new.cells
        out.new result }
{
    match part.tag() {
        0x10 => import(part, t, out, o),
        0x40 => Ok(o),
        0x41 => match extent(part.bytes, part.at + 3, part.stop) {
            Some(_) => walk(part, false, t, out, o),
            None => Ok(o),
        },
        _ => walk(part, false, t, out, o),
    }
}

// An import, in either pass.
fn import(part: &Part, t: &mut Tables, out: &mut [u8], o: usize) -> Step
    requires { get_or part.now.bytes.now part.now.at 0 ≡ 0x10 }
    ensures { Steps encodes (ItemRead part.now.bytes.now part.now.at part.now.stop)
        (λ x. item_act x.setting part.now.bytes.now part.now.at part.now.stop) t.old.cells out.old o t.new.cells
        out.new result }
{
    if t.is_second() {
        import_second(part, t, out, o)
    } else {
        import_first(part, t, out, o)
    }
}
