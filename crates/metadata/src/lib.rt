// What an export tells of itself in the attributes of an import. Port of swc_bundler's `util.rs`, `ExportMetadata`.
#![tactic(auto)]

mod decimal;

ghost use Rattle.std.specs.Prelude.{◌≡◌, ◌++◌};
ghost use Rattle.writer.specs.Bytes.{framed};
ghost use Rattle.writer.specs.Wrote.{Wrote};
ghost use Rattle.tree.specs.Layout.{same};
ghost use Rattle.tree.specs.Tree.{size, encode, encodes, fixed_of};
ghost use Rattle.tree.specs.Read.{verdict};
ghost use Rattle.tree.specs.Rows.{tree_of, fields_of};
ghost use Rattle.metadata.specs.declared.EncodeError.TheVariants.{Broken as broken};
ghost use Rattle.metadata.specs.Metadata.{injected_attribute, context_attribute, injected_attributes, attributes_for, context_in, told, merged, unset, decode};
ghost use Rattle.metadata.specs.Decimal.{decimal};
ghost use Rattle.metadata.specs.MetadataValue.{context_of, metadata_of, written_bytes};
ghost use Rattle.metadata.specs.Calls.{attributes_in, lent, decoded, decode_call, Encoding};

use decimal::{parse, put_decimal};
use scope::id::SyntaxContext;
use tree::grammar::Set;
use tree::read::{Unread, read_tree};
use tree::row::{Part, Row};

// What stands before the value in the attribute of an injected export: kinds, key length and key.
const INJECTED: [u8; 28] = *b"\x01\x01\x19__swc_bundler__injected__";

// The same in the attribute of an export's context.
const CONTEXT: [u8; 31] = *b"\x01\x01\x1C__swc_bundler__export_ctxt__";

#[derive(Clone, Copy, PartialEq, Eq)]
pub struct ExportMetadata {
    pub injected: bool,
    // where one is known
    pub export_ctxt: Option<SyntaxContext>,
}

// Why metadata is not added.
#[derive(Clone, Copy, PartialEq, Eq)]
pub enum EncodeError {
    // The lent attributes are broken.
    Broken(Unread),
    // The buffer is too short, or the content too long.
    NoRoom,
}

impl From<Unread> for EncodeError {
    ghost from_gives = { λ u e. e ≡ broken u };

    fn from(unread: Unread) -> EncodeError {
        EncodeError::Broken(unread)
    }
}

// Writes an attribute with a number as its value at o, and answers the position behind it, as each of these does.
fn put_attribute(out: &mut [u8], o: usize, header: &[u8], value: u32) -> usize
    ensures { Wrote out.old o (framed 0x30 (header.now ++ decimal value)) out.new result }
{
    let content = writer::open_field(out, o, 0x30);
    let text = writer::put_all(out, content, header);
    let p = put_decimal(out, text, value);
    writer::close_field(out, o, p);
    p
}

// Writes the attribute of an injected export.
fn put_injected(out: &mut [u8], o: usize, injected: bool) -> usize
    ensures { Wrote out.old o (encodes (injected_attributes injected)) out.new result }
{
    if injected {
        put_attribute(out, o, &INJECTED, 1)
    } else {
        o
    }
}

// Writes the attribute of an export context.
pub fn put_context(out: &mut [u8], o: usize, ctxt: SyntaxContext) -> usize
    ensures { Wrote out.old o (encode (context_attribute ctxt.0)) out.new result }
{
    put_attribute(out, o, &CONTEXT, ctxt.0)
}

// Whether the content of an attribute tells that the export is injected.
fn tells_injected(content: &[u8]) -> bool
    ensures { result ≡ same content.now (fixed_of injected_attribute) }
{
    content
        .strip_prefix(&INJECTED)
        .is_some_and(|value| value == b"1".as_slice())
}

// The context that the content of an attribute tells.
fn context_in(content: &[u8]) -> Option<SyntaxContext>
    ensures { context_of result ≡ context_in content.now }
{
    let value = content.strip_prefix(&CONTEXT)?;
    Some(SyntaxContext(parse(value)?))
}

// Reads lent attributes, empty bytes for none.
fn read_lent(attributes: &[u8]) -> Result<(), Unread>
    ensures { result ≡ verdict (lent attributes.now) }
{
    if attributes.is_empty() {
        return Ok(());
    }
    read_tree(attributes, Set::Attributes)
}

impl ExportMetadata {
    fn unset() -> ExportMetadata
        ensures { metadata_of result ≡ unset }
    {
        ExportMetadata {
            injected: false,
            export_ctxt: None,
        }
    }

    // Metadata with what a later attribute tells.
    fn merge(self, later: ExportMetadata) -> ExportMetadata
        ensures { metadata_of result ≡ merged (metadata_of self) (metadata_of later) }
    {
        ExportMetadata {
            injected: self.injected || later.injected,
            export_ctxt: later.export_ctxt.or(self.export_ctxt),
        }
    }

    // What a field tells.
    fn told(part: Part) -> ExportMetadata
        ensures { metadata_of result ≡ told (fixed_of (tree_of part.entry)) }
    {
        let Some(end) = part.fixed() else {
            return ExportMetadata::unset();
        };
        let content = &part.bytes[part.at + 3..end];
        ExportMetadata {
            injected: tells_injected(content),
            export_ctxt: context_in(content),
        }
    }

    // What the fields of a row tell.
    fn decode_row(row: Row) -> ExportMetadata
        ensures { metadata_of result ≡ decode (fields_of row.entry) }
    {
        let mut m = ExportMetadata::unset();
        for part in row {
            m = m.merge(ExportMetadata::told(part));
        }
        m
    }

    // What the parts of the first of the fields tell; nothing where there is none.
    fn decode_parts(mut row: Row) -> ExportMetadata
        ensures { metadata_of result ≡ decode (attributes_in (fields_of row.entry)) }
    {
        let Some(part) = row.next() else {
            return ExportMetadata::unset();
        };
        match part.fixed() {
            Some(from) => ExportMetadata::decode_row(part.row(from)),
            None => ExportMetadata::unset(),
        }
    }

    // The metadata in lent attributes, empty bytes for none.
    pub fn decode(attributes: &[u8]) -> Result<ExportMetadata, Unread>
        ensures { decoded result ≡ decode_call attributes.now }
    {
        read_lent(attributes)?;
        Ok(ExportMetadata::decode_parts(Row::new(attributes, 0, attributes.len())))
    }

    // Writes the attributes that the metadata adds.
    fn put(self, out: &mut [u8], o: usize) -> usize
        ensures { Wrote out.old o (encodes (attributes_for (metadata_of self))) out.new result }
    {
        let p = put_injected(out, o, self.injected);
        match self.export_ctxt {
            Some(c) => put_context(out, p, c),
            None => p,
        }
    }

    // Writes the lent attributes' children and those that the metadata adds, as attributes at 0.
    fn write(self, attributes: &[u8], out: &mut [u8]) -> usize
        ensures { Wrote out.old 0 (written_bytes (metadata_of self) attributes.now) out.new result }
    {
        let content = writer::open_field(out, 0, 0x2F);
        let p = writer::copy(out, content, attributes, 3, attributes.len());
        let end = self.put(out, p);
        writer::close_field(out, 0, end);
        end
    }

    // Adds the metadata to lent attributes, empty bytes for none.
    pub fn encode(self, attributes: &[u8], out: &mut [u8]) -> Result<usize, EncodeError>
        ensures { Encoding (metadata_of self) attributes.now out.old result out.new }
    {
        if let Err(unread) = read_lent(attributes) {
            writer::clear(out);
            return Err(EncodeError::Broken(unread));
        }
        let n = self.write(attributes, out);
        if writer::finish(out, n) {
            Ok(n)
        } else {
            Err(EncodeError::NoRoom)
        }
    }
}
