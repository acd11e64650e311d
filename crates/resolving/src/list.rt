// The resolved list: a 90 for each record with a source.
ghost use Rattle.std.specs.Prelude.{◌≡◌, ◌∷◌, ◌++◌};
ghost use Rattle.scope.specs.Id.{local, export};
ghost use Rattle.scope.specs.ScopeValue.{modules_of};
ghost use Rattle.tree.specs.Layout.{two, four};
ghost use Rattle.tree.specs.Tree.{encode, encodes};
ghost use Rattle.tree.specs.Rows.{tree_of};
ghost use Rattle.writer.specs.Wrote.{Wrote};
ghost use Rattle.inputs.specs.Table.{rows_in, file_of};
ghost use Rattle.resolving_rules.specs.Resolve.{source_of, sources_in, forced_in, kind_byte, resolved_record, resolved_all};
ghost use Rattle.resolving.specs.Records.{RecordsRead, SourceRead, records_in};
ghost use Rattle.resolving.specs.Numbers.{Numbers, NumbersAll};
ghost use Rattle.resolving.specs.Writes.{Puts, list_with};

use crate::sources::{START, is_forced};
use crate::specifiers::{Refusal, Step, Why, put_specifiers};
use scope::Scope;
use scope::id::{Atom, FileName, ModuleId};
use tree::layout::literal_value;
use tree::row::{Part, Row};

// 'byte (3 collected, 1 lazy, 0 dynamic)'
fn kind_of(tag: u8) -> u8
    ensures { result ≡ kind_byte tag }
{
    match tag {
        0x80 => 3,
        0x81 => 1,
        _ => 0,
    }
}

// What stands in a 90 before its specifiers.
fn put_heading(
    kind: u8,
    id: ModuleId,
    file: FileName,
    literal: &[u8],
    list: &mut [u8],
    o: usize,
) -> usize
    ensures { Wrote list.old o
        (kind ∷ two id.0 ++ two file.0 ++ four (local id.0) ++ four (export id.0) ++ literal.now) list.new result }
{
    let a = writer::put(list, o, kind);
    let b = writer::put_u16(list, a, id.0);
    let c = writer::put_u16(list, b, file.0);
    let d = writer::put_u32(list, c, id.local_ctxt().0);
    let e = writer::put_u32(list, d, id.export_ctxt().0);
    writer::put_all(list, e, literal)
}

// A record with a source. All records stand in its bytes, which tell whether the source is forced.
fn put_record(scope: Scope, table: &[u8], part: Part, list: &mut [u8], o: usize) -> Step
    requires { RecordsRead part.bytes.now × SourceRead part × Numbers (rows_in table.now) (modules_of scope) (tree_of part) }
    ensures { Puts encode
        (resolved_record (file_of (source_of (tree_of part.entry)) (rows_in table.now))
        (forced_in (records_in part.entry.bytes.now)) (modules_of scope) (tree_of part.entry) part.entry.at) list.old o
        list.new result }
{
    let source = Atom(literal_value(part.bytes, part.at + 3));
    let Some(file) = inputs::resolve(table, source) else {
        return Err(Refusal {
            why: Why::Unresolved,
            place: part.at,
        });
    };
    let content = writer::open_field(list, o, 0x90);
    let numbers = scope.gen_id(file).answer.unwrap();
    let kind = kind_of(part.tag());
    let literal = &part.bytes[part.at + 3..part.at + 9];
    let c = put_heading(kind, numbers.id, file, literal, list, content);
    let all = is_forced(part.bytes, source);
    let p = put_specifiers(part.row(part.at + 9), all, list, c)?;
    writer::close_field(list, o, p);
    Ok(p)
}

// All records with a source, in order.
fn put_records(scope: Scope, table: &[u8], records: &[u8], list: &mut [u8], o: usize) -> Step
    requires { RecordsRead records.now × NumbersAll (rows_in table.now) (modules_of scope) (sources_in (records_in records.now)) }
    ensures { Puts encodes
        (resolved_all (rows_in table.now) (forced_in (records_in records.now)) (modules_of scope)
        (sources_in (records_in records.now)) 3) list.old o list.new result }
{
    let mut to = o;
    for part in Row::new(records, START, records.len()) {
        // forced sources stand behind all the others
        if part.tag() == 0x83 {
            break;
        }
        to = put_record(scope, table, part, list, to)?;
    }
    Ok(to)
}

// Writes the list at 0.
pub fn put_list(scope: Scope, table: &[u8], records: &[u8], list: &mut [u8]) -> Step
    requires { RecordsRead records.now × NumbersAll (rows_in table.now) (modules_of scope) (sources_in (records_in records.now)) }
    ensures { Puts encode
        (list_with
        (resolved_all (rows_in table.now) (forced_in (records_in records.now)) (modules_of scope)
        (sources_in (records_in records.now)) 3)) list.old 0 list.new result }
{
    let content = writer::open_field(list, 0, 0x03);
    let p = put_records(scope, table, records, list, content)?;
    writer::close_field(list, 0, p);
    Ok(p)
}
