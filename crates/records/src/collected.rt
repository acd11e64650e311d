// Collected records. A record has the specifiers of the imports of its source value, and then what the second pass made of the
// namespace imports with its literal. A value with a record is never external, so an import with that value or literal is none either.
ghost use Rattle.tree.specs.Tree.{field, encode, encodes};
ghost use Rattle.extraction_rules.specs.Records.{record_fields};
ghost use Rattle.state.specs.Cells.{Good};
ghost use Rattle.records.specs.Model.{specifiers_of};
ghost use Rattle.records.specs.Writes.{WroteFor, WroteIf, Placing, BothRead, literal_in, Valued, sieve, items_in, retold};
ghost use Rattle.records.specs.Listing.{ChartedBoth};

use crate::literals::{Wanted, put_literal};
use crate::namespaces::put_taken;
use crate::places::{CHAINS, Import, Imports, ROOM, link_imports, list_imports};
use crate::sources::put_gathered;
use state::Tables;

// Writes the collected records.
pub fn put_collected(
    tree: &[u8],
    work: &[u8],
    out: &[u8],
    t: &Tables,
    records: &mut [u8],
    o: usize,
) -> usize
    ensures { WroteFor (λ x. Placing tree.now work.now x × BothRead work.now out.now)
        (λ s. encodes (record_fields 0x80 (retold work.now out.now s))) t.now.cells records.old o
        records.new result }
{
    let mut first = [ROOM as u16; CHAINS];
    let mut listed = [Import::NONE; ROOM];
    let swept = list_imports(work, out, &mut listed);
    let listed = &mut listed[..swept.count];
    link_imports(work, &mut first, listed);
    let imports = Imports {
        first: &first,
        listed,
        behind: swept.behind,
    };
    put_each(tree, work, out, imports, t, records, o)
}

// Writes them with the imports listed and chained.
fn put_each(
    tree: &[u8],
    work: &[u8],
    out: &[u8],
    imports: Imports,
    t: &Tables,
    records: &mut [u8],
    o: usize,
) -> usize
    requires { ChartedBoth work.now out.now imports }
    ensures { WroteFor (λ x. Placing tree.now work.now x × BothRead work.now out.now)
        (λ s. encodes (record_fields 0x80 (retold work.now out.now s))) t.now.cells records.old o
        records.new result }
{
    let mut to = o;
    for i in 0..t.count_records() {
        let literal = t.record_literal(i);
        let wanted = Wanted {
            value: literal.value,
            place: literal.place,
            namespaces: t.is_forced(literal.value),
        };
        to = put_record(tree, work, out, imports, wanted, records, to);
    }
    to
}

// Writes the record of a literal, with its namespaces or without them.
fn put_record(
    tree: &[u8],
    work: &[u8],
    out: &[u8],
    imports: Imports,
    wanted: Wanted,
    records: &mut [u8],
    o: usize,
) -> usize
    requires { ChartedBoth work.now out.now imports }
    ensures { WroteIf (BothRead work.now out.now × Valued tree.now work.now wanted)
        (encode
        (field 0x80 (literal_in tree.now work.now wanted.place)
        (sieve wanted.namespaces
        (specifiers_of (items_in work.now) (items_in out.now) (literal_in tree.now work.now wanted.place)))))
        records.old o records.new result }
{
    let content = writer::open_field(records, o, 0x80);
    let c = put_literal(tree, work, wanted.place, records, content);
    let q = put_gathered(work, imports, wanted, records, c);
    let p = put_taken(tree, work, out, imports, wanted, records, q);
    writer::close_field(records, o, p);
    p
}
