// Answers as one number: the refusal's number times 2^32 plus its place, 0 where there is none.
ghost use Rattle.std.specs.Prelude.{◌≡◌};
ghost use Rattle.tree.specs.Read.{refusal_of};
ghost use Rattle.steps.specs.Refusal.{refusal_of as walk_refusal};
ghost use Rattle.extraction.specs.Answer.{answer_refusal as extract_refusal};
ghost use Rattle.resolving.specs.Answer.{why_number};
ghost use Rattle.resolving.specs.Answer.{answer_refusal as resolve_refusal};
ghost use Rattle.tychodrel.specs.Answer.{packed, packed_in, encode_answer_of};

use extraction::ExtractError;
use metadata::EncodeError;
use resolving::ResolveError;
use tree::read::{Unread, Why};

pub fn pack(number: u8, place: usize) -> u64
    ensures { result ≡ packed number place }
{
    (number as u64) * 0x1_0000_0000 + (place as u64) % 0x1_0000_0000
}

// Document 01's number of a refusal by reading.
pub fn number_of(why: Why) -> u8
    ensures { result ≡ refusal_of why }
{
    match why {
        Why::Misplaced => 3,
        Why::Cut => 3,
        Why::Lacking => 3,
        Why::Deep => 4,
    }
}

// A refusal by reading.
pub fn unread_answer(unread: Unread) -> u64
    ensures { result ≡ packed (refusal_of unread.why) unread.place }
{
    pack(number_of(unread.why), unread.place)
}

pub fn encoded_answer(r: Result<usize, EncodeError>) -> u64
    ensures { result ≡ encode_answer_of r }
{
    match r {
        Ok(_) => 0,
        Err(EncodeError::Broken(unread)) => unread_answer(unread),
        Err(EncodeError::NoRoom) => pack(9, 0),
    }
}

// Document 01's number of a refusal by the walk.
fn walk_number(why: steps::Why) -> u8
    ensures { result ≡ walk_refusal why }
{
    match why {
        steps::Why::TooManyFiles => 5,
        steps::Why::StringName => 6,
        steps::Why::PrivateName => 7,
        steps::Why::TableFull => 8,
    }
}

pub fn extract_answer(r: Result<(), ExtractError>) -> u64
    ensures { result ≡ packed_in (extract_refusal r) }
{
    match r {
        Ok(()) => 0,
        Err(ExtractError::BadLists) => pack(1, 0),
        Err(ExtractError::NamedTwice) => pack(2, 0),
        Err(ExtractError::Unread(unread)) => unread_answer(unread),
        Err(ExtractError::Refused(refusal)) => pack(walk_number(refusal.why), refusal.place),
        Err(ExtractError::NoRoom) => pack(9, 0),
    }
}

// Document 01's number of a refusal of the resolved list.
fn list_number(why: resolving::specifiers::Why) -> u8
    ensures { result ≡ why_number why }
{
    match why {
        resolving::specifiers::Why::Unresolved => 11,
        resolving::specifiers::Why::StringName => 6,
    }
}

pub fn resolve_answer(r: Result<(), ResolveError>) -> u64
    ensures { result ≡ packed_in (resolve_refusal r) }
{
    match r {
        Ok(()) => 0,
        Err(ResolveError::BadTable) => pack(1, 0),
        Err(ResolveError::NamedTwice) => pack(2, 0),
        Err(ResolveError::Unread(unread)) => pack(10, unread.place),
        Err(ResolveError::TooManyFiles(place)) => pack(5, place),
        Err(ResolveError::Refused(refusal)) => pack(list_number(refusal.why), refusal.place),
        Err(ResolveError::NoRoom) => pack(9, 0),
    }
}
