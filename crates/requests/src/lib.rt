// Answers a request as the vectors have it: those with a scope by the crate scoped_requests, the others here.
#![tactic(auto)]

mod plain; // detect, encode, decode

ghost use Rattle.std.specs.Prelude.{◌==◌, IfOk, string_bytes};
ghost use Rattle.std.specs.List.{slice_split};
ghost use Rattle.request_fields.specs.Asked.{Asks};
ghost use Rattle.request_fields.specs.declared.Request.{Request};
ghost use Rattle.requests.specs.Answers.{Answers};

use plain::{decode, detect, encode};
use request_fields::{ParseError, Request};
use scoped_requests::extracting::extract;
use scoped_requests::listing::resolve;
use scoped_requests::pair::both;
use std::alloc::Global;

// The answer's text: to what the fields of the request ask.
pub fn respond(alloc: Global, request: &[u8]) -> Result<String, ParseError>
    ensures { IfOk result (λ s. (r : Request) × Asks (slice_split (λ b. b == 32) request.now) r × Answers r (string_bytes s)) }
{
    let answer = match Request::parse(alloc, request)? {
        Request::Extract(asked) => extract(alloc, &asked)?,
        Request::Resolve(asked) => resolve(alloc, &asked)?,
        Request::Both(asked) => both(alloc, &asked)?,
        Request::Detect(asked) => detect(alloc, &asked)?,
        Request::Encode(asked) => encode(alloc, &asked)?,
        Request::Decode(asked) => decode(alloc, &asked)?,
    };
    Ok(answer)
}
