// What a host links: the calls of the crate tychodrel under their names for C, with the same contracts.
#![tactic(auto)]

ghost use Rattle.std.specs.Prelude.{◌≡◌, length};
ghost use Rattle.detection.specs.Detection.{detect};
ghost use Rattle.metadata.specs.Calls.{decode_call, encode_answer, encode_out};
ghost use Rattle.modes.specs.Bits.{modes_of};
ghost use Rattle.extraction.specs.Answer.{lent_as, room_in};
ghost use Rattle.resolving.specs.Answer.{lent_as as records_as};
ghost use Rattle.tychodrel.specs.Answer.{detect_answer, encode_answer_of, decode_answer_of, metadata_bytes, metadata_given};
ghost use Rattle.tychodrel.specs.Calls.{extract_call, resolve_call, Leaves, LeavesList};

// Whether a module is an ES module: 1 or 0.
#[unsafe(no_mangle)]
pub extern "C" fn tychodrel_detect(modes: u32, tree: &[u8]) -> u64
    ensures { result ≡ detect_answer (detect (modes_of modes) tree.now) }
{
    tychodrel::tychodrel_detect(modes, tree)
}

// Adds metadata to lent attributes (a 2F, or empty bytes for none); `out` then holds the 2F, with zeros behind.
#[unsafe(no_mangle)]
pub extern "C" fn tychodrel_encode_metadata(
    injected: bool,
    has_context: bool,
    context: u32,
    attributes: &[u8],
    out: &mut [u8],
) -> u64
    ensures { (result ≡ encode_answer_of (encode_answer (metadata_given injected has_context context) attributes.now (length out.old)))
        × (out.new ≡ encode_out (metadata_given injected has_context context) attributes.now (length out.old)) }
{
    tychodrel::tychodrel_encode_metadata(injected, has_context, context, attributes, out)
}

// The metadata in lent attributes: whether it is injected, whether there is a context, and the context in four bytes.
#[unsafe(no_mangle)]
pub extern "C" fn tychodrel_decode_metadata(attributes: &[u8], metadata: &mut [u8; 6]) -> u64
    ensures { (result ≡ decode_answer_of (decode_call attributes.now)) × (metadata.new ≡ metadata_bytes (decode_call attributes.now)) }
{
    tychodrel::tychodrel_decode_metadata(attributes, metadata)
}

// Extracts what a module imports, in a fresh scope in which the files are requested first; `scope` then holds the scope as bytes,
// `report` the counts.
#[unsafe(no_mangle)]
pub extern "C" fn tychodrel_extract(
    files: &[u8],
    file: u16,
    modes: u32,
    externals: &[u8],
    table: &[u8],
    tree: &[u8],
    scope: &mut [u8; 770],
    report: &mut [u8; 32],
    work: &mut [u8],
    out: &mut [u8],
    records: &mut [u8],
) -> u64
    ensures { Leaves
        (extract_call files.now (lent_as file (modes_of modes) externals.now table.now tree.now)
        (room_in work.old out.old records.old)) result scope.new report.new work.new out.new
        records.new }
{
    tychodrel::tychodrel_extract(
        files, file, modes, externals, table, tree, scope, report, work, out, records,
    )
}

// Resolves records, in a fresh scope in which the files are requested first; `scope` then holds the scope as bytes,
// `report` the counts.
#[unsafe(no_mangle)]
pub extern "C" fn tychodrel_resolve(
    files: &[u8],
    modes: u32,
    table: &[u8],
    records: &[u8],
    scope: &mut [u8; 770],
    report: &mut [u8; 32],
    list: &mut [u8],
) -> u64
    ensures { LeavesList (resolve_call files.now (records_as (modes_of modes) table.now records.now) (length list.old)) result
        scope.new report.new list.new }
{
    tychodrel::tychodrel_resolve(files, modes, table, records, scope, report, list)
}
