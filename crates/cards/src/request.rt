// The text of the requests: `extract OWN CONFIG FILES EXTERNALS TABLE TREE`, `decode ATTRIBUTES`, `resolve FILES TABLE
// RECORDS`. OWN is a file in decimal and CONFIG is `on` or `off`. The rest is bytes in hexadecimal, `-` for none; the last
// field may be written in groups apart by single spaces, and is not `-`. A request of more than 4096 bytes in all is malformed.
ghost use Rattle.std.specs.Prelude.{◌↔◌, ◌≤◌, IsTrue, IfOk, IfSome};
ghost use Rattle.cards.specs.Request.{bytes_in};

use std::alloc::Global;
use text::decimal::number_at;
use text::fields::field;
use text::hex::{BytesError, bytes_at, read_hex};

// How many bytes a request may have in all.
const MOST: usize = 4096;

#[derive(Drop)]
pub struct Extraction {
    pub own: u16,
    // The mode require.
    pub config: bool,
    pub files: Vec<u8>,
    pub externals: Vec<u8>,
    pub table: Vec<u8>,
    pub tree: Vec<u8>,
}

#[derive(Drop)]
pub struct Resolution {
    pub files: Vec<u8>,
    pub table: Vec<u8>,
    pub records: Vec<u8>,
}

#[derive(Drop)]
pub enum Request {
    Extract(Extraction),
    // Attributes.
    Decode(Vec<u8>),
    Resolve(Resolution),
}

impl Request {
    // The request in a line, if it is one.
    pub fn read(alloc: Global, line: &[u8]) -> Result<Option<Request>, BytesError>
        ensures { IfOk result (λ r. IfSome r (λ q. bytes_in q ≤ 4096)) }
    {
        let request = match field(line, 0) {
            Some(b"extract") => Request::Extract(read_extraction(alloc, line)?),
            Some(b"decode") => Request::Decode(rest_at(alloc, line, 1)?),
            Some(b"resolve") => Request::Resolve(read_resolution(alloc, line)?),
            _ => return Ok(None),
        };
        if request.fits() {
            Ok(Some(request))
        } else {
            Err(BytesError::Malformed)
        }
    }

    // Whether it has at most that many bytes in all.
    fn fits(&self) -> bool
        ensures { IsTrue result ↔ (bytes_in self.now ≤ 4096) }
    {
        match self {
            Request::Extract(e) => {
                let lists = e.files.len().saturating_add(e.externals.len());
                let behind = e.table.len().saturating_add(e.tree.len());
                lists.saturating_add(behind) <= MOST
            }
            Request::Decode(attributes) => attributes.len() <= MOST,
            Request::Resolve(r) => {
                let behind = r.table.len().saturating_add(r.records.len());
                r.files.len().saturating_add(behind) <= MOST
            }
        }
    }
}

fn read_extraction(alloc: Global, line: &[u8]) -> Result<Extraction, BytesError> {
    Ok(Extraction {
        own: own_at(line, 1).ok_or(BytesError::Malformed)?,
        config: config_at(line, 2).ok_or(BytesError::Malformed)?,
        files: bytes_at(alloc, line, 3)?,
        externals: bytes_at(alloc, line, 4)?,
        table: bytes_at(alloc, line, 5)?,
        tree: rest_at(alloc, line, 6)?,
    })
}

fn read_resolution(alloc: Global, line: &[u8]) -> Result<Resolution, BytesError> {
    Ok(Resolution {
        files: bytes_at(alloc, line, 1)?,
        table: bytes_at(alloc, line, 2)?,
        records: rest_at(alloc, line, 3)?,
    })
}

fn own_at(line: &[u8], k: usize) -> Option<u16> {
    u16::try_from(number_at(line, k)?).ok()
}

fn config_at(line: &[u8], k: usize) -> Option<bool> {
    match field(line, k)? {
        b"on" => Some(true),
        b"off" => Some(false),
        _ => None,
    }
}

// The bytes in the groups from the field k on.
fn rest_at(alloc: Global, line: &[u8], k: usize) -> Result<Vec<u8>, BytesError> {
    if field(line, k).is_none() {
        return Err(BytesError::Malformed);
    }
    let mut bytes = Vec::new(alloc);
    for group in line.split(|b| *b == b' ').skip(k) {
        bytes.extend_from_slice(&read_hex(alloc, group)?)?;
    }
    Ok(bytes)
}
