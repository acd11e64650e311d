// resolve FILES TABLE RECORDS LISTLEN
ghost use Rattle.std.specs.Prelude.{◌≡◌, IfOk, Some, string_bytes, vec_len};
ghost use Rattle.scoped_requests.specs.Texts.{resolved_text, resolve_refused, resolve_text};

use answer_text::modules::ScopeBytes;
use answer_text::{FILL, Left, Refusal, outcome, refused};
use request_fields::ResolveRequest;
use std::alloc::{AllocError, Global};
use std::fmt;

// What a resolving answered and left. Displays as LIST.
#[derive(Drop)]
pub struct Resolved {
    pub outcome: Result<u32, Refusal>,
    pub scope: ScopeBytes,
    pub list: Vec<u8>,
}

impl Resolved {
    // Makes the call.
    pub fn call(alloc: Global, asked: &ResolveRequest, modes: u32) -> Result<Self, AllocError>
        ensures { IfOk result (λ l. vec_len l.list ≡ asked.now.list) }
    {
        let mut scope = ScopeBytes::filled();
        let mut report = [FILL; 32];
        let mut list = vec![in alloc; FILL; asked.list]?;
        let answer = tychodrel::tychodrel_resolve(
            &asked.files,
            modes,
            &asked.table,
            &asked.records,
            &mut scope.0,
            &mut report,
            &mut list,
        );
        Ok(Resolved {
            outcome: outcome(answer),
            scope,
            list,
        })
    }

    // `ok LIST SCOPE` or `no NUMBER PLACE SCOPE`
    pub fn answer(&self, alloc: Global) -> Result<String, AllocError>
        ensures { IfOk result (λ s. string_bytes s ≡ resolve_text self.now) }
    {
        match self.outcome {
            Ok(_) => format!(in alloc; "ok {self} {}", self.scope),
            Err(refusal) => self.refused(alloc, "no", refusal),
        }
    }

    // `WORD NUMBER PLACE SCOPE`
    pub fn refused(&self, alloc: Global, word: &str, refusal: Refusal) -> Result<String, AllocError>
        ensures { IfOk result (λ s. string_bytes s ≡ resolve_refused word.now self.now refusal) }
    {
        refused(alloc, word, refusal, &[&self.list], &self.scope)
    }
}

impl fmt::Display for Resolved {
    ghost output = { λ l. Some (resolved_text l) };

    fn fmt<W: fmt::Write>(&self, f: &mut fmt::Formatter<W>) -> fmt::Result {
        write!(f, "{}", Left(&self.list))
    }
}

// Answers the request. It chooses no modes.
pub fn resolve(alloc: Global, asked: &ResolveRequest) -> Result<String, AllocError>
    ensures { IfOk result (λ s. (l : Resolved) × (string_bytes s ≡ resolve_text l)) }
{
    Resolved::call(alloc, asked, 0)?.answer(alloc)
}
