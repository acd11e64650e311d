// extract FILES OWN CONFIG EXTERNALS TABLE TREE WORKLEN OUTLEN RECLEN
ghost use Rattle.std.specs.Prelude.{◌≡◌, IfOk, Some, string_bytes, vec_len};
ghost use Rattle.scoped_requests.specs.Texts.{extracted_text, extract_refused, extract_text};

use answer_text::modules::ScopeBytes;
use answer_text::{FILL, Left, Refusal, outcome, refused};
use request_fields::ExtractRequest;
use std::alloc::{AllocError, Global};
use std::fmt;

// What an extraction answered and left. Displays as WORK OUT RECORDS.
#[derive(Drop)]
pub struct Extracted {
    pub outcome: Result<u32, Refusal>,
    pub scope: ScopeBytes,
    pub work: Vec<u8>,
    pub out: Vec<u8>,
    pub records: Vec<u8>,
}

impl Extracted {
    // Makes the call.
    pub fn call(alloc: Global, asked: &ExtractRequest) -> Result<Self, AllocError>
        ensures work { IfOk result (λ l. vec_len l.work ≡ asked.now.work) }
        ensures out { IfOk result (λ l. vec_len l.out ≡ asked.now.out) }
        ensures records { IfOk result (λ l. vec_len l.records ≡ asked.now.records) }
    {
        let mut scope = ScopeBytes::filled();
        let mut report = [FILL; 32];
        let mut work = vec![in alloc; FILL; asked.work]?;
        let mut out = vec![in alloc; FILL; asked.out]?;
        let mut records = vec![in alloc; FILL; asked.records]?;
        let answer = tychodrel::tychodrel_extract(
            &asked.files,
            asked.own,
            asked.modes,
            &asked.externals,
            &asked.table,
            &asked.tree,
            &mut scope.0,
            &mut report,
            &mut work,
            &mut out,
            &mut records,
        );
        Ok(Extracted {
            outcome: outcome(answer),
            scope,
            work,
            out,
            records,
        })
    }

    // `ok WORK OUT RECORDS SCOPE` or `no NUMBER PLACE SCOPE`
    pub fn answer(&self, alloc: Global) -> Result<String, AllocError>
        ensures { IfOk result (λ s. string_bytes s ≡ extract_text self.now) }
    {
        match self.outcome {
            Ok(_) => format!(in alloc; "ok {self} {}", self.scope),
            Err(refusal) => self.refused(alloc, "no", refusal),
        }
    }

    // `WORD NUMBER PLACE SCOPE`
    pub fn refused(&self, alloc: Global, word: &str, refusal: Refusal) -> Result<String, AllocError>
        ensures { IfOk result (λ s. string_bytes s ≡ extract_refused word.now self.now refusal) }
    {
        let buffers = [self.work.as_slice(), &self.out, &self.records];
        refused(alloc, word, refusal, &buffers, &self.scope)
    }
}

impl fmt::Display for Extracted {
    ghost output = { λ l. Some (extracted_text l) };

    fn fmt<W: fmt::Write>(&self, f: &mut fmt::Formatter<W>) -> fmt::Result {
        write!(
            f,
            "{} {} {}",
            Left(&self.work),
            Left(&self.out),
            Left(&self.records)
        )
    }
}

// Answers the request.
pub fn extract(alloc: Global, asked: &ExtractRequest) -> Result<String, AllocError>
    ensures { IfOk result (λ s. (l : Extracted) × (string_bytes s ≡ extract_text l)) }
{
    Extracted::call(alloc, asked)?.answer(alloc)
}
