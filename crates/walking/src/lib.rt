// The walk over a tree, one for both passes: each function walks a field or a row of fields, and writes at o what becomes of it.
// Where a field is not whole, which cannot be in a tree that was read, nothing is written.
#![tactic(auto)]

ghost use Rattle.std.specs.Prelude.{◌<◌, ◌≡◌, Bool, true, List, [], ℕ, ◌+◌, get_or};
ghost use Rattle.tree.specs.Tree.{Field, Fields, encodes};
ghost use Rattle.tree.specs.Rows.{tree_of, fields_of};
ghost use Rattle.extraction_rules.specs.First.{add_lazy, require as require-rule, require_lazily, bindings};
ghost use Rattle.extraction_rules.specs.Walk.{walk as walk-rule};
ghost use Rattle.state.specs.Cells.{place_limit, Good, id_by, literal_by, Valued};
ghost use Rattle.state.specs.Does.{place_in};
ghost use Rattle.steps.specs.Step.{Steps};
ghost use Rattle.walking.specs.declared.Way.TheVariants.{Member as member-way};
ghost use Rattle.walking.specs.Walking.{recorded, FieldSteps, RowSteps, others_by, first_by, row_by, node_by, NameIs, Declares, Amends, Marks, Behind, behind, declared, ForcedFirst};

use expressions::ident::ident_after;
use expressions::require::{mark_required, required_at, set_callee};
use expressions::usages::usage;
use imports::export::export_specifier;
use scope::id::{Atom, Id};
use state::ident::{id_at, put_ident};
use state::{Literal, Tables};
use steps::{Effect, Refusal, Step, Why, begin_field, end_field};
use tree::layout::atom_at;
use tree::row::{Part, Row};

// How the parts of a field are walked: all alike; as those of a 63, with *object* set for the first and clear for the others; as those of a
// 66, whose first is a target.
#[derive(Clone, Copy)]
enum Way {
    Children(bool),
    Member,
    Assignment(bool),
}

// A field: its parts by the way that its tag has, and then 'Each tag has its own rule'. It stands in the loop over a row, so that no
// result is copied from call to call at each field.
#[inline(always)]
#[cycle(call_chain_declarator_initialiser_member_node_part_parts_pattern_walk)]
pub fn walk(part: &Part, object: bool, t: &mut Tables, out: &mut [u8], o: usize) -> Step
    ensures { FieldSteps part.now.bytes.now part.now.at part.now.stop (λ x. walk-rule (tree_of part.now) x.setting object part.now.at)
        t.old.cells out.old o t.new.cells out.new result }
{
    match part.tag() {
        0x23 => exported(part, t, out, o),
        0x42 => declarator(part, object, t, out, o),
        // 'A block clears *top* for good.'
        0x45 => {
            t.set_top(false);
            node(part, Way::Children(object), t, out, o)
        },
        0x60 => ident(part, object, t, out, o),
        0x63 => member(part, object, t, out, o),
        0x64 => node(part, Way::Children(false), t, out, o),
        0x65 => call(part, object, t, out, o),
        0x66 => node(part, Way::Assignment(object), t, out, o),
        // other statements, patterns and expressions; exports, and what stands inside these
        0x40..=0x48 | 0x50..=0x56 | 0x61..=0x6E | _ => node(part, Way::Children(object), t, out, o),
    }
}

// A field with its parts walked, and no rule. One without parts is copied.
#[cycle(call_chain_declarator_initialiser_member_node_part_parts_pattern_walk)]
fn node(part: &Part, way: Way, t: &mut Tables, out: &mut [u8], o: usize) -> Step
    ensures { FieldSteps part.now.bytes.now part.now.at part.now.stop
        (λ x. node_by way (tree_of part.now) x.setting part.now.at)
        t.old.cells out.old o t.new.cells out.new result }
{
    let Some(from) = part.fixed() else {
        return Ok(o);
    };
    if from == part.stop {
        return Ok(writer::copy(out, o, part.bytes, part.at, part.stop));
    }
    let content = begin_field(part, from, out, o);
    let r = parts(part.row(from), way, t, out, content);
    end_field(r, out, o)
}

// A row of fields.
#[cycle(call_chain_declarator_initialiser_member_node_part_parts_pattern_walk)]
fn parts(row: Row, way: Way, t: &mut Tables, out: &mut [u8], o: usize) -> Step
    ensures { RowSteps row.entry.bytes.now row.entry.at row.entry.end
        (λ x. row_by way (fields_of row.entry) x.setting row.entry.at)
        t.old.cells out.old o t.new.cells out.new result }
{
    let mut to = o;
    let mut by = way;
    for field in row {
        to = part(&field, by, t, out, to)?;
        by = Way::Children(others(by));
    }
    Ok(to)
}

// Whether *object* is set for all parts but the first.
fn others(way: Way) -> bool
    ensures { result ≡ others_by way }
{
    match way {
        Way::Children(object) | Way::Assignment(object) => object,
        Way::Member => false,
    }
}

// The first field of a row.
#[cycle(call_chain_declarator_initialiser_member_node_part_parts_pattern_walk)]
fn part(part: &Part, way: Way, t: &mut Tables, out: &mut [u8], o: usize) -> Step
    ensures { FieldSteps part.now.bytes.now part.now.at part.now.stop
        (λ x. first_by way (tree_of part.now) x.setting part.now.at)
        t.old.cells out.old o t.new.cells out.new result }
{
    match way {
        Way::Children(object) => walk(part, object, t, out, o),
        Way::Member => walk(part, true, t, out, o),
        // 'is walked, but is no expression'
        Way::Assignment(_) => chain(part, t, out, o),
    }
}

// A 23.
fn exported(part: &Part, t: &mut Tables, out: &mut [u8], o: usize) -> Step
    requires { get_or part.now.bytes.now part.now.at 0 ≡ 0x23 }
    ensures { (object : Bool) → FieldSteps part.now.bytes.now part.now.at part.now.stop
        (λ x. walk-rule (tree_of part.now) x.setting object part.now.at)
        t.old.cells out.old o t.new.cells out.new result }
{
    let Some(from) = part.fixed() else {
        return Ok(o);
    };
    export_specifier(part, from, t, out, o)
}

// A 60: 'with *object* clear is forced', in the first pass.
fn ident(part: &Part, object: bool, t: &mut Tables, out: &mut [u8], o: usize) -> Step
    requires { get_or part.now.bytes.now part.now.at 0 ≡ 0x60 }
    ensures { FieldSteps part.now.bytes.now part.now.at part.now.stop (λ x. walk-rule (tree_of part.now) x.setting object part.now.at)
        t.old.cells out.old o t.new.cells out.new result }
{
    if part.stop < part.at + 9 {
        return Ok(o);
    }
    let id = id_at(part.bytes, part.at + 3);
    force_first(t, id, object);
    Ok(put_ident(out, o, id))
}

// A 63 that is an expression: usage in the first pass; in the second a usage becomes a 60.
#[cycle(call_chain_declarator_initialiser_member_node_part_parts_pattern_walk)]
fn member(part: &Part, object: bool, t: &mut Tables, out: &mut [u8], o: usize) -> Step
    requires { get_or part.now.bytes.now part.now.at 0 ≡ 0x63 }
    ensures { FieldSteps part.now.bytes.now part.now.at part.now.stop (λ x. walk-rule (tree_of part.now) x.setting object part.now.at)
        t.old.cells out.old o t.new.cells out.new result }
{
    if is_name(part) {
        return name(part, t, out, o);
    }
    if t.is_second() {
        return match ident_after(part, true, t) {
            Some(id) => Ok(put_ident(out, o, id)),
            None => chain(part, t, out, o),
        };
    }
    let p = chain(part, t, out, o)?;
    usage(part, t)?;
    Ok(p)
}

// A 63 of a 60 and a 70: as `member` has it, with the id and the name read where they stand.
fn name(part: &Part, t: &mut Tables, out: &mut [u8], o: usize) -> Step
    requires { NameIs part.now.bytes.now part.now.at true }
    ensures { (object : Bool) → FieldSteps part.now.bytes.now part.now.at part.now.stop
        (λ x. walk-rule (tree_of part.now) x.setting object part.now.at)
        t.old.cells out.old o t.new.cells out.new result }
{
    let id = id_at(part.bytes, part.at + 6);
    if t.is_second() {
        if !t.has_usages(id) {
            return Ok(writer::copy(out, o, part.bytes, part.at, part.stop));
        }
        let Some(c) = t.imported_as(id) else {
            return Ok(writer::copy(out, o, part.bytes, part.at, part.stop));
        };
        return Ok(put_ident(out, o, Id(Atom(atom_at(part.bytes, part.at + 15)), c)));
    }
    let p = writer::copy(out, o, part.bytes, part.at, part.stop);
    if t.imported_as(id).is_some() {
        usage(part, t)?;
    }
    Ok(p)
}

// A 63 or the target of a 66, with its parts alone. A name of an identifier is copied: with *object* set nothing is forced.
#[cycle(call_chain_declarator_initialiser_member_node_part_parts_pattern_walk)]
fn chain(part: &Part, t: &mut Tables, out: &mut [u8], o: usize) -> Step
    ensures { FieldSteps part.now.bytes.now part.now.at part.now.stop
        (λ x. node_by member-way (tree_of part.now) x.setting part.now.at)
        t.old.cells out.old o t.new.cells out.new result }
{
    if is_name(part) {
        return Ok(writer::copy(out, o, part.bytes, part.at, part.stop));
    }
    node(part, Way::Member, t, out, o)
}

// Whether a field, if it was read, is a 63 of a 60 and a 70.
fn is_name(part: &Part) -> bool
    ensures { NameIs part.now.bytes.now part.now.at result }
{
    17 <= part.stop - part.at
        && part.tag() == 0x63
        && part.bytes[part.at + 3] == 0x60
        && part.bytes[part.at + 12] == 0x70
}

// A 65: in the first pass a call of require marks its module and makes a record.
#[cycle(call_chain_declarator_initialiser_member_node_part_parts_pattern_walk)]
fn call(part: &Part, object: bool, t: &mut Tables, out: &mut [u8], o: usize) -> Step
    requires { get_or part.now.bytes.now part.now.at 0 ≡ 0x65 }
    ensures { FieldSteps part.now.bytes.now part.now.at part.now.stop (λ x. walk-rule (tree_of part.now) x.setting object part.now.at)
        t.old.cells out.old o t.new.cells out.new result }
{
    if t.is_second() {
        return node(part, Way::Children(object), t, out, o);
    }
    let Some(literal) = required_at(part, t) else {
        return node(part, Way::Children(object), t, out, o);
    };
    let p = node(part, Way::Children(object), t, out, o)?;
    require(literal, part.at, t, out, o, p)
}

// A 42: after its parts, an initialiser that is a call of require makes a lazy record.
#[cycle(call_chain_declarator_initialiser_member_node_part_parts_pattern_walk)]
fn declarator(part: &Part, object: bool, t: &mut Tables, out: &mut [u8], o: usize) -> Step
    requires { get_or part.now.bytes.now part.now.at 0 ≡ 0x42 }
    ensures { FieldSteps part.now.bytes.now part.now.at part.now.stop (λ x. walk-rule (tree_of part.now) x.setting object part.now.at)
        t.old.cells out.old o t.new.cells out.new result }
{
    let content = begin_field(part, part.at + 3, out, o);
    let r = pattern(part, object, t, out, content);
    end_field(r, out, o)
}

// The parts of a 42: the pattern, and what stands behind it.
#[cycle(call_chain_declarator_initialiser_member_node_part_parts_pattern_walk)]
fn pattern(part: &Part, object: bool, t: &mut Tables, out: &mut [u8], o: usize) -> Step
    ensures { Steps encodes (λ x u. Declares part.now.bytes.now (part.now.at + 3) part.now.stop x)
        (λ x. declared x.setting object part.now.bytes.now (part.now.at + 3) part.now.stop part.now.at)
        t.old.cells out.old o t.new.cells out.new result }
{
    let mut parts = part.row(part.at + 3);
    let Some(first) = parts.next() else {
        return Ok(o);
    };
    let p = walk(&first, object, t, out, o)?;
    initialiser(parts, part.at, first.at, object, t, out, p)
}

// What stands behind the pattern of the 42 at `at`: the initialiser, if there is one.
#[cycle(call_chain_declarator_initialiser_member_node_part_parts_pattern_walk)]
fn initialiser(
    mut rest: Row,
    at: usize,
    pattern: usize,
    object: bool,
    t: &mut Tables,
    out: &mut [u8],
    o: usize,
) -> Step
    ensures { (q : Field) → Steps encodes (Behind rest.entry.bytes.now rest.entry.at rest.entry.end pattern q)
        (λ x. behind x.setting object rest.entry.bytes.now rest.entry.at rest.entry.end at q)
        t.old.cells out.old o t.new.cells out.new result }
{
    let Some(part) = rest.next() else {
        return Ok(o);
    };
    let Some(literal) = required_at(&part, t) else {
        return walk(&part, object, t, out, o);
    };
    let p = walk(&part, object, t, out, o)?;
    require_lazily(literal, at, pattern, t, out, o, p)
}

// In the first pass the id of a 60 is forced, with *object* clear.
fn force_first(t: &mut Tables, id: Id, object: bool)
    ensures { ForcedFirst object (id_by id) t.old.cells t.new.cells }
{
    if !object && !t.is_second() {
        t.force_id(id);
    }
}

// The call at `at`, written from o up to p, requires a literal: the module is marked, the callee set, the record made.
fn require(literal: Literal, at: usize, t: &mut Tables, out: &mut [u8], o: usize, p: usize) -> Step
    ensures { Amends (λ x. (x.bound 0 ≡ Fields.none) × Valued x literal) (λ x f. require-rule (Some (literal_by x literal)) x.setting f at) o p
        t.old.cells out.old t.new.cells out.new result }
{
    mark(literal, at, t, out, o)?;
    make_record(literal, at, t, p)
}

// The module that the call at `at`, written at o, requires is marked, and the callee set.
fn mark(literal: Literal, at: usize, t: &mut Tables, out: &mut [u8], o: usize) -> Effect
    ensures { Marks literal at o t.old.cells out.old t.new.cells out.new result }
{
    let module = mark_required(literal, t).map_err(|_| Refusal {
        why: Why::TooManyFiles,
        place: at,
    })?;
    if let Some(n) = module {
        set_callee(out, o, n);
    }
    Ok(())
}

// 'Record without specifiers: collected if *top*, else lazy.'
fn make_record(literal: Literal, at: usize, t: &mut Tables, p: usize) -> Step
    ensures { (out : List ℕ) → Steps (λ _. []) (λ x u. (x.bound 0 ≡ Fields.none) × Valued x literal) (λ x. recorded (literal_by x literal) at) t.old.cells out p t.new.cells out result }
{
    if !t.is_top() {
        return make_lazy(literal, 0, at, t, p);
    }
    t.collect(literal).map_err(|_| Refusal {
        why: Why::TableFull,
        place: at,
    })?;
    Ok(p)
}

// A lazy record whose pattern stands at a place.
fn make_lazy(literal: Literal, place: u32, at: usize, t: &mut Tables, p: usize) -> Step
    requires { (place < place_limit) }
    ensures { (out : List ℕ) →
        Steps (λ _. []) (λ x u. Unit {0}) (λ x. add_lazy (record { literal = literal_by x literal; specifiers = x.bound place }) at) t.old.cells out p
        t.new.cells out result }
{
    t.add_lazy(literal, place).map_err(|_| Refusal {
        why: Why::TableFull,
        place: at,
    })?;
    Ok(p)
}

// The initialiser of the 42 at `at`, written at o, requires a literal: the module is marked, the callee set, a lazy record made.
fn require_lazily(
    literal: Literal,
    at: usize,
    pattern: usize,
    t: &mut Tables,
    out: &mut [u8],
    o: usize,
    p: usize,
) -> Step
    ensures { (q : Field) →
        Amends (λ x. (bindings q ≡ x.bound (place_in x.setting.pass pattern)) × Valued x literal)
        (λ x f. require_lazily (Some (literal_by x literal)) x.setting q f at) o p t.old.cells
        out.old t.new.cells out.new result }
{
    let place = t.place_of(pattern);
    mark(literal, at, t, out, o)?;
    make_lazy(literal, place, at, t, p)
}
