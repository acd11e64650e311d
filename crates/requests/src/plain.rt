// The requests without a scope: detect, encode, decode.
ghost use Rattle.std.specs.Prelude.{◌≡◌, ◌++◌, IfOk, codes, string_bytes};
ghost use Rattle.requests.specs.Plain.{detect_text, encode_text, decode_text, metadata_text};

use answer_text::{FILL, Left, leftovers, outcome};
use request_fields::{DecodeRequest, DetectRequest, EncodeRequest};
use show::buffer::is_zero;
use std::alloc::{AllocError, Global};
use text::hex::Bytes;

// `ok 0` or `ok 1`, or `no NUMBER PLACE`
pub fn detect(alloc: Global, asked: &DetectRequest) -> Result<String, AllocError>
    ensures { IfOk result (λ s. string_bytes s ≡ detect_text asked.now) }
{
    match outcome(tychodrel::tychodrel_detect(asked.modes, &asked.tree)) {
        Ok(es6) => format!(in alloc; "ok {es6}"),
        Err(refusal) => format!(in alloc; "no {refusal}"),
    }
}

// `ok HEX` or `no NUMBER PLACE`
pub fn encode(alloc: Global, asked: &EncodeRequest) -> Result<String, AllocError>
    ensures { IfOk result (λ s. string_bytes s ≡ encode_text asked.now) }
{
    let mut out = vec![in alloc; FILL; asked.out]?;
    let answer = tychodrel::tychodrel_encode_metadata(
        asked.injected,
        asked.context.is_some(),
        asked.context.unwrap_or(0),
        &asked.attributes,
        &mut out,
    );
    match outcome(answer) {
        Ok(_) => format!(in alloc; "ok {}", Left(&out)),
        Err(refusal) => format!(in alloc; "no {refusal}{}", leftovers(&[&out])),
    }
}

// `ok INJECTED CTX` or `no NUMBER PLACE`
pub fn decode(alloc: Global, asked: &DecodeRequest) -> Result<String, AllocError>
    ensures { IfOk result (λ s. string_bytes s ≡ decode_text asked.now) }
{
    let mut metadata = [FILL; 6];
    let answer = tychodrel::tychodrel_decode_metadata(&asked.attributes, &mut metadata);
    match outcome(answer) {
        Ok(_) => decoded(alloc, metadata),
        Err(refusal) => format!(in alloc; "no {refusal}{}", leftovers(&[&metadata])),
    }
}

// Without a context its bytes are zero.
fn decoded(alloc: Global, metadata: [u8; 6]) -> Result<String, AllocError>
    ensures { IfOk result (λ s. string_bytes s ≡ codes "ok " ++ metadata_text metadata) }
{
    let [injected, known, a, b, c, d] = metadata;
    let context = [a, b, c, d];
    match known {
        0 if is_zero(&context) => format!(in alloc; "ok {injected} -"),
        1 => format!(in alloc; "ok {injected} {}", Bytes(&context)),
        _ => format!(in alloc; "ok {injected} {} without a context", Bytes(&context)),
    }
}
