// The requests' calls. The buffers are filled before a call with what it cannot leave, so that a byte left alone shows.
use crate::answer;
use crate::request::{Extraction, Resolution};
use tychodrel::{tychodrel_decode_metadata, tychodrel_extract, tychodrel_resolve};

const UNTOUCHED: u8 = 170;

// How long the buffers for trees, records and lists are.
const ROOM: usize = 2048;

// Answers an extraction.
pub fn extract(rt: &impl Print, asked: &Extraction) {
    answer::asked(rt, asked);
    let mut scope = [UNTOUCHED; 770];
    let mut report = [UNTOUCHED; 32];
    let mut work = [UNTOUCHED; ROOM];
    let mut out = [UNTOUCHED; ROOM];
    let mut records = [UNTOUCHED; ROOM];
    let r = tychodrel_extract(
        &asked.files,
        asked.own,
        u32::from(asked.config),
        &asked.externals,
        &asked.table,
        &asked.tree,
        &mut scope,
        &mut report,
        &mut work,
        &mut out,
        &mut records,
    );
    answer::extraction(rt, r, &asked.tree, &work, &out, &records);
    answer::modules(rt, &scope);
}

// Answers a decoding of attributes.
pub fn decode(rt: &impl Print, attributes: &[u8]) {
    answer::attributes(rt, attributes);
    let mut metadata = [UNTOUCHED; 6];
    let r = tychodrel_decode_metadata(attributes, &mut metadata);
    answer::decoding(rt, r, metadata);
}

// Answers a resolving.
pub fn resolve(rt: &impl Print, asked: &Resolution) {
    answer::handed_on(rt, asked);
    let mut scope = [UNTOUCHED; 770];
    let mut report = [UNTOUCHED; 32];
    let mut list = [UNTOUCHED; ROOM];
    let r = tychodrel_resolve(
        &asked.files,
        0,
        &asked.table,
        &asked.records,
        &mut scope,
        &mut report,
        &mut list,
    );
    answer::resolving(rt, r, &list);
    answer::modules(rt, &scope);
}
