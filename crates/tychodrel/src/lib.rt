// The calls of the library for C and Rust: numbers and byte slices in, numbers and bytes out, nothing asked of the caller.
// An answer is the refusal's number times 2^32 plus its place; a zero upper half is acceptance.
#![tactic(auto)]

mod answers; // answers as one number
mod counts; // a report as bytes
mod listing; // a scope as bytes

ghost use Rattle.std.specs.Prelude.{◌≡◌, [], length};
ghost use Rattle.detection.specs.Detection.{detect};
ghost use Rattle.metadata.specs.MetadataValue.{metadata_of};
ghost use Rattle.metadata.specs.Calls.{decode_call, encode_answer, encode_out};
ghost use Rattle.modes.specs.Bits.{modes_of};
ghost use Rattle.report.specs.Counts.{no_counts};
ghost use Rattle.scope.specs.Modules.{too_many_files, files_in, request_all};
ghost use Rattle.scope.specs.ScopeValue.{modules_of, requested};
ghost use Rattle.extraction_rules.specs.Call.{extraction};
ghost use Rattle.extraction.specs.Answer.{lent_as, room_in};
ghost use Rattle.resolving_rules.specs.Call.{resolving};
ghost use Rattle.resolving.specs.Answer.{lent_as as records_as};
ghost use Rattle.tychodrel.specs.Answer.{bit, detect_answer, encode_answer_of, decode_answer_of, bytes_of, metadata_bytes, metadata_given};
ghost use Rattle.tychodrel.specs.Calls.{extract_call, resolve_call, Tells, Leaves, LeavesList};

use answers::{encoded_answer, extract_answer, pack, resolve_answer, unread_answer};
use counts::report_bytes;
use detection::{DetectError, is_es6};
use extraction::{Lent, extract_import_info};
use listing::scope_bytes;
use metadata::ExportMetadata;
use modes::modes_of;
use report::no_counts;
use resolving::resolve_imports;
use scope::id::{FileName, SyntaxContext};
use scope::{Requested, Scope};

fn bit_of(on: bool) -> u8
    ensures { result ≡ bit on }
{
    u8::from(on)
}

// Whether a module is an ES module: 1 or 0.
pub fn tychodrel_detect(modes: u32, tree: &[u8]) -> u64
    ensures { result ≡ detect_answer (detect (modes_of modes) tree.now) }
{
    match is_es6(modes_of(modes), tree) {
        Ok(es6) => bit_of(es6) as u64,
        Err(DetectError::TooLong) => pack(1, 0),
        Err(DetectError::Unread(unread)) => unread_answer(unread),
    }
}

fn metadata_given(injected: bool, has_context: bool, context: u32) -> ExportMetadata
    ensures { metadata_of result ≡ metadata_given injected has_context context }
{
    let export_ctxt = if has_context {
        Some(SyntaxContext(context))
    } else {
        None
    };
    ExportMetadata {
        injected,
        export_ctxt,
    }
}

// Adds metadata to lent attributes (a 2F, or empty bytes for none); `out` then holds the 2F, with zeros behind.
pub fn tychodrel_encode_metadata(
    injected: bool,
    has_context: bool,
    context: u32,
    attributes: &[u8],
    out: &mut [u8],
) -> u64
    ensures { (result ≡ encode_answer_of (encode_answer (metadata_given injected has_context context) attributes.now (length out.old)))
        × (out.new ≡ encode_out (metadata_given injected has_context context) attributes.now (length out.old)) }
{
    let m = metadata_given(injected, has_context, context);
    encoded_answer(m.encode(attributes, out))
}

fn bytes_of(m: ExportMetadata) -> [u8; 6]
    ensures { result ≡ bytes_of (metadata_of m) }
{
    let i = bit_of(m.injected);
    match m.export_ctxt {
        Some(c) => {
            let n = c.0;
            [
                i,
                1,
                (n / 65536 / 256) as u8,
                (n / 65536 % 256) as u8,
                (n % 65536 / 256) as u8,
                (n % 65536 % 256) as u8,
            ]
        }
        None => [i, 0, 0, 0, 0, 0],
    }
}

// The metadata in lent attributes: whether it is injected, whether there is a context, and the context in four bytes.
pub fn tychodrel_decode_metadata(attributes: &[u8], metadata: &mut [u8; 6]) -> u64
    ensures { (result ≡ decode_answer_of (decode_call attributes.now)) × (metadata.new ≡ metadata_bytes (decode_call attributes.now)) }
{
    match ExportMetadata::decode(attributes) {
        Ok(m) => {
            *metadata = bytes_of(m);
            0
        }
        Err(unread) => {
            *metadata = [0; 6];
            unread_answer(unread)
        }
    }
}

// The files, requested in a fresh scope.
fn request_files(files: &[u8]) -> Requested
    ensures { requested result ≡ request_all (files_in files.now) [] }
{
    Scope::new().gen_ids(files)
}

// A 257th file among those that are lent.
fn refuse_files(entry: Scope, scope: &mut [u8; 770], report: &mut [u8; 32]) -> u64
    ensures { Tells (Some too_many_files) (modules_of entry) no_counts result scope.new report.new }
{
    *scope = scope_bytes(entry);
    *report = report_bytes(no_counts());
    pack(5, 0)
}

// Extracts what a module imports, in a fresh scope in which the files are requested first; `scope` then holds the scope as bytes,
// `report` the counts.
pub fn tychodrel_extract(
    files: &[u8],
    file: u16,
    modes: u32,
    externals: &[u8],
    table: &[u8],
    tree: &[u8],
    scope: &mut [u8; 770],
    report: &mut [u8; 32],
    work: &mut [u8],
    out: &mut [u8],
    records: &mut [u8],
) -> u64
    ensures { Leaves
        (extract_call files.now (lent_as file (modes_of modes) externals.now table.now tree.now)
        (room_in work.old out.old records.old)) result scope.new report.new work.new out.new
        records.new }
{
    let requested = request_files(files);
    let entry = requested.scope;
    match requested.answer {
        Ok(()) => extract_in(
            entry,
            FileName(file),
            modes,
            &Lent::new(externals, table, tree),
            scope,
            report,
            work,
            out,
            records,
        ),
        Err(_) => {
            writer::clear(work);
            writer::clear(out);
            writer::clear(records);
            refuse_files(entry, scope, report)
        },
    }
}

// The same in a scope with the files.
fn extract_in(
    entry: Scope,
    file: FileName,
    modes: u32,
    lent: &Lent,
    scope: &mut [u8; 770],
    report: &mut [u8; 32],
    work: &mut [u8],
    out: &mut [u8],
    records: &mut [u8],
) -> u64
    ensures { Leaves
        (extraction (lent_as file.0 (modes_of modes) lent.now.externals.now lent.now.table.now lent.now.tree.now)
        (room_in work.old out.old records.old) (modules_of entry)) result scope.new report.new work.new
        out.new records.new }
{
    let r = extract_import_info(entry, file, modes_of(modes), lent, work, out, records);
    *scope = scope_bytes(r.scope);
    *report = report_bytes(r.report);
    extract_answer(r.answer)
}

// Resolves records, in a fresh scope in which the files are requested first; `scope` then holds the scope as bytes,
// `report` the counts.
pub fn tychodrel_resolve(
    files: &[u8],
    modes: u32,
    table: &[u8],
    records: &[u8],
    scope: &mut [u8; 770],
    report: &mut [u8; 32],
    list: &mut [u8],
) -> u64
    ensures { LeavesList (resolve_call files.now (records_as (modes_of modes) table.now records.now) (length list.old)) result
        scope.new report.new list.new }
{
    let requested = request_files(files);
    let entry = requested.scope;
    match requested.answer {
        Ok(()) => resolve_in(entry, modes, table, records, scope, report, list),
        Err(_) => {
            writer::clear(list);
            refuse_files(entry, scope, report)
        },
    }
}

// The same in a scope with the files.
fn resolve_in(
    entry: Scope,
    modes: u32,
    table: &[u8],
    records: &[u8],
    scope: &mut [u8; 770],
    report: &mut [u8; 32],
    list: &mut [u8],
) -> u64
    ensures { LeavesList (resolving (records_as (modes_of modes) table.now records.now) (length list.old) (modules_of entry)) result
        scope.new report.new list.new }
{
    let r = resolve_imports(entry, modes_of(modes), table, records, list);
    *scope = scope_bytes(r.scope);
    *report = report_bytes(r.report);
    resolve_answer(r.answer)
}
