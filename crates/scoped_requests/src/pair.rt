// both FILES OWN CONFIG EXTERNALS TABLE TREE WORKLEN OUTLEN RECLEN LISTLEN: extract, then resolve its records in its scope.
ghost use Rattle.std.specs.Prelude.{◌≡◌, IfOk, string_bytes};
ghost use Rattle.scoped_requests.specs.Texts.{both_text};
ghost use Rattle.scoped_requests.specs.declared.extracting.Extracted.{Extracted};
ghost use Rattle.scoped_requests.specs.declared.listing.Resolved.{Resolved};

use crate::extracting::Extracted;
use crate::listing::Resolved;
use answer_text::field_in;
use answer_text::modules::ScopeBytes;
use request_fields::{BothRequest, ResolveRequest};
use std::alloc::{AllocError, Global};

// Resolves the records that extraction left, in the scope that it left: requests of its files give the same numbers.
fn resolve_next(
    alloc: Global,
    asked: &BothRequest,
    extracted: &Extracted,
) -> Result<Resolved, AllocError> {
    let next = ResolveRequest {
        files: files_of(alloc, &extracted.scope)?,
        table: asked.extract.table.clone()?,
        records: field_in(&extracted.records).to_vec(alloc)?,
        list: asked.list,
    };
    let mut resolved = Resolved::call(alloc, &next, asked.extract.modes)?;
    // Resolving sets no marks: those of the extraction are written.
    resolved.scope = resolved.scope.marked_as(&extracted.scope);
    Ok(resolved)
}

fn files_of(alloc: Global, scope: &ScopeBytes) -> Result<Vec<u8>, AllocError> {
    scope
        .modules()
        .iter()
        .flat_map(|[high, low, _]| [*high, *low])
        .collect(alloc)
}

// Answers the request: `ok WORK OUT RECORDS LIST SCOPE`, `no-extract NUMBER PLACE SCOPE` or `no-resolve NUMBER PLACE SCOPE`.
pub fn both(alloc: Global, asked: &BothRequest) -> Result<String, AllocError>
    ensures { IfOk result (λ s. (l : Extracted) × (n : Resolved) × (string_bytes s ≡ both_text l n)) }
{
    let left = Extracted::call(alloc, &asked.extract)?;
    if let Err(refusal) = left.outcome {
        return left.refused(alloc, "no-extract", refusal);
    }
    let next = resolve_next(alloc, asked, &left)?;
    match next.outcome {
        Ok(_) => format!(in alloc; "ok {left}{} {next} {}", left.scope.behind(), next.scope),
        Err(refusal) => next.refused(alloc, "no-resolve", refusal),
    }
}
