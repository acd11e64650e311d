// The requests of the vectors: what each asks, read from its fields.
#![tactic(auto)]

pub mod fields; // what one field spells

ghost use Rattle.std.specs.Prelude.{◌≡◌, ◌==◌, IfOk};
ghost use Rattle.std.specs.List.{slice_split};
ghost use Rattle.request_fields.specs.Asked.{values, AsksExtract, AsksResolve, AsksBoth, AsksDetect, AsksEncode, AsksDecode, Asks};

use fields::{context_in, file_in, flag_in, length_in, modes_in};
use std::alloc::{AllocError, Global};
use text::hex::{BytesError, read_bytes};

// Why a request is not answered.
#[derive(Clone, Copy, Debug, PartialEq, Eq)]
pub enum ParseError {
    // It has no word, or its fields are not those of its word.
    Malformed,
    // Its word is none that is known.
    Unknown,
    OutOfMemory,
}

impl From<BytesError> for ParseError {
    fn from(e: BytesError) -> ParseError {
        match e {
            BytesError::Malformed => ParseError::Malformed,
            BytesError::OutOfMemory => ParseError::OutOfMemory,
        }
    }
}

impl From<AllocError> for ParseError {
    fn from(_e: AllocError) -> ParseError {
        ParseError::OutOfMemory
    }
}

// FILES OWN CONFIG EXTERNALS TABLE TREE WORKLEN OUTLEN RECLEN
#[derive(Drop)]
pub struct ExtractRequest {
    pub files: Vec<u8>,
    pub own: u16,
    pub modes: u32,
    pub externals: Vec<u8>,
    pub table: Vec<u8>,
    pub tree: Vec<u8>,
    // how long the buffers are
    pub work: usize,
    pub out: usize,
    pub records: usize,
}

impl ExtractRequest {
    fn parse(alloc: Global, fields: &[&[u8]]) -> Result<Self, ParseError>
        ensures { IfOk result (AsksExtract (values fields.now)) }
    {
        let [
            files,
            own,
            modes,
            externals,
            table,
            tree,
            work,
            out,
            records,
        ] = fields
        else {
            return Err(ParseError::Malformed);
        };
        Ok(ExtractRequest {
            files: read_bytes(alloc, files)?,
            own: file_in(alloc, own)?,
            modes: modes_in(modes)?,
            externals: read_bytes(alloc, externals)?,
            table: read_bytes(alloc, table)?,
            tree: read_bytes(alloc, tree)?,
            work: length_in(work)?,
            out: length_in(out)?,
            records: length_in(records)?,
        })
    }
}

// FILES TABLE RECORDS LISTLEN
#[derive(Drop)]
pub struct ResolveRequest {
    pub files: Vec<u8>,
    pub table: Vec<u8>,
    pub records: Vec<u8>,
    // how long the buffer is
    pub list: usize,
}

impl ResolveRequest {
    fn parse(alloc: Global, fields: &[&[u8]]) -> Result<Self, ParseError>
        ensures { IfOk result (AsksResolve (values fields.now)) }
    {
        let [files, table, records, list] = fields else {
            return Err(ParseError::Malformed);
        };
        Ok(ResolveRequest {
            files: read_bytes(alloc, files)?,
            table: read_bytes(alloc, table)?,
            records: read_bytes(alloc, records)?,
            list: length_in(list)?,
        })
    }
}

// The fields of an extract, and LISTLEN
#[derive(Drop)]
pub struct BothRequest {
    pub extract: ExtractRequest,
    // how long the buffer for the list is
    pub list: usize,
}

impl BothRequest {
    fn parse(alloc: Global, fields: &[&[u8]]) -> Result<Self, ParseError>
        ensures { IfOk result (AsksBoth (values fields.now)) }
    {
        let [extract @ .., list] = fields else {
            return Err(ParseError::Malformed);
        };
        Ok(BothRequest {
            extract: ExtractRequest::parse(alloc, extract)?,
            list: length_in(list)?,
        })
    }
}

// CONFIG TREE
#[derive(Drop)]
pub struct DetectRequest {
    pub modes: u32,
    pub tree: Vec<u8>,
}

impl DetectRequest {
    fn parse(alloc: Global, fields: &[&[u8]]) -> Result<Self, ParseError>
        ensures { IfOk result (AsksDetect (values fields.now)) }
    {
        let [modes, tree] = fields else {
            return Err(ParseError::Malformed);
        };
        Ok(DetectRequest {
            modes: modes_in(modes)?,
            tree: read_bytes(alloc, tree)?,
        })
    }
}

// INJECTED CTX ATTRS OUTLEN
#[derive(Drop)]
pub struct EncodeRequest {
    pub injected: bool,
    pub context: Option<u32>,
    pub attributes: Vec<u8>,
    // how long the buffer is
    pub out: usize,
}

impl EncodeRequest {
    fn parse(alloc: Global, fields: &[&[u8]]) -> Result<Self, ParseError>
        ensures { IfOk result (AsksEncode (values fields.now)) }
    {
        let [injected, context, attributes, out] = fields else {
            return Err(ParseError::Malformed);
        };
        Ok(EncodeRequest {
            injected: flag_in(injected)?,
            context: context_in(alloc, context)?,
            attributes: read_bytes(alloc, attributes)?,
            out: length_in(out)?,
        })
    }
}

// ATTRS
#[derive(Drop)]
pub struct DecodeRequest {
    pub attributes: Vec<u8>,
}

impl DecodeRequest {
    fn parse(alloc: Global, fields: &[&[u8]]) -> Result<Self, ParseError>
        ensures { IfOk result (AsksDecode (values fields.now)) }
    {
        let [attributes] = fields else {
            return Err(ParseError::Malformed);
        };
        Ok(DecodeRequest {
            attributes: read_bytes(alloc, attributes)?,
        })
    }
}

// A request by its word, the first field.
#[derive(Drop)]
pub enum Request {
    Extract(ExtractRequest),
    Resolve(ResolveRequest),
    Both(BothRequest),
    Detect(DetectRequest),
    Encode(EncodeRequest),
    Decode(DecodeRequest),
}

impl Request {
    pub fn parse(alloc: Global, request: &[u8]) -> Result<Self, ParseError>
        ensures { IfOk result (Asks (slice_split (λ b. b == 32) request.now)) }
    {
        let fields = fields_of(alloc, request)?;
        Self::by_word(alloc, &fields)
    }

    fn by_word(alloc: Global, fields: &[&[u8]]) -> Result<Self, ParseError>
        ensures { IfOk result (Asks (values fields.now)) }
    {
        let Some((word, fields)) = fields.split_first() else {
            return Err(ParseError::Malformed);
        };
        match *word {
            b"extract" => Ok(Request::Extract(ExtractRequest::parse(alloc, fields)?)),
            b"resolve" => Ok(Request::Resolve(ResolveRequest::parse(alloc, fields)?)),
            b"both" => Ok(Request::Both(BothRequest::parse(alloc, fields)?)),
            b"detect" => Ok(Request::Detect(DetectRequest::parse(alloc, fields)?)),
            b"encode" => Ok(Request::Encode(EncodeRequest::parse(alloc, fields)?)),
            b"decode" => Ok(Request::Decode(DecodeRequest::parse(alloc, fields)?)),
            [] => Err(ParseError::Malformed),
            _ => Err(ParseError::Unknown),
        }
    }
}

// The fields, apart by single spaces.
fn fields_of(alloc: Global, request: &[u8]) -> Result<Vec<&[u8]>, AllocError>
    ensures { IfOk result (λ v. values v.items ≡ slice_split (λ b. b == 32) request.now) }
{
    request.split(|b| *b == b' ').collect(alloc)
}
