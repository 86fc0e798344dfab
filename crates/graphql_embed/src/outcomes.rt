//! What a call answers in numbers, and its JSON in the caller's memory.

ghost use Rattle.std.specs.Prelude.{◌≡◌, IfErr, IfOk, length};
ghost use Rattle.graphql_answers.specs.Sessions.{answer_in};
ghost use Rattle.graphql_answers.specs.Written.{written};
ghost use Rattle.graphql_embed.specs.Outcomes.{number_of_found, status_of_found, status_of_refusal};

use graphql_answers::sessions::write_answer;
use graphql_answers::{Answer, Found, Refusal};
use graphql_schema_handles::handle::SchemaHandle;
use std::alloc::Global;

/// How a call ended.
#[repr(C)]
#[derive(Clone, Copy)]
pub struct Outcome {
    /// 0: nothing is reported; 1: something is; 2: bad ends of documents, or options that are too short; 3: out of memory;
    /// 4: no schema is kept; 5: bytes are no UTF-8.
    pub status: u32,
    /// Where something is reported: 0: nowhere; 1: in the schema; 2: in documents.
    pub reported: u32,
    /// How long the whole answer is: it is cut where there is less room.
    pub length: usize,
}

/// Writes as much of the answer as there is room for.
pub fn hand_over(answered: Result<Answer, Refusal>, out: &mut [u8]) -> Outcome
    ensures answered { IfOk answered (λ answer. (result.status ≡ status_of_found answer.found) × (result.reported ≡ number_of_found answer.found) × (result.length ≡ length answer.json.items)) }
    ensures written { IfOk answered (λ answer. out.new ≡ written answer.json.items out.old) }
    ensures refused { IfErr answered (λ refusal. (result.status ≡ status_of_refusal refusal) × (result.reported ≡ 0) × (result.length ≡ 0)) }
    ensures kept { IfErr answered (λ _. out.new ≡ out.old) }
{
    match answered {
        Ok(answer) => {
            let room = out.len().min(answer.json.len());
            out[..room].copy_from_slice(&answer.json[..room]);
            Outcome {
                status: status_of_found(answer.found),
                reported: number_of_found(answer.found),
                length: answer.json.len(),
            }
        }
        Err(refusal) => no_answer(refusal),
    }
}

/// Writes as much of the answer that a handle keeps as there is room for.
pub fn hand_over_kept(
    alloc: Global,
    answered: Result<Found, Refusal>,
    handle: &mut SchemaHandle,
    out: &mut [u8],
) -> Outcome
    ensures answered { IfOk answered (λ found. (result.status ≡ status_of_found found) × (result.reported ≡ number_of_found found) × (result.length ≡ length (answer_in handle.old.kept))) }
    ensures written { IfOk answered (λ _. out.new ≡ written (answer_in handle.old.kept) out.old) }
    ensures refused { IfErr answered (λ refusal. (result.status ≡ status_of_refusal refusal) × (result.reported ≡ 0) × (result.length ≡ 0)) }
    ensures nothing { IfErr answered (λ _. out.new ≡ out.old) }
    ensures kept { handle.new.kept ≡ handle.old.kept }
{
    match answered {
        Ok(found) => {
            let length = write_answer(alloc, handle, 0, out);
            Outcome {
                status: status_of_found(found),
                reported: number_of_found(found),
                length,
            }
        }
        Err(refusal) => no_answer(refusal),
    }
}

/// Why there is no answer.
pub fn no_answer(refusal: Refusal) -> Outcome
    ensures status { result.status ≡ status_of_refusal refusal }
    ensures reported { result.reported ≡ 0 }
    ensures length { result.length ≡ 0 }
{
    Outcome {
        status: status_of_refusal(refusal),
        reported: 0,
        length: 0,
    }
}

fn status_of_found(found: Found) -> u32
    ensures { result ≡ status_of_found found }
{
    match found {
        Found::Nothing => 0,
        Found::InSchema | Found::InDocuments => 1,
    }
}

fn number_of_found(found: Found) -> u32
    ensures { result ≡ number_of_found found }
{
    match found {
        Found::Nothing => 0,
        Found::InSchema => 1,
        Found::InDocuments => 2,
    }
}

/// Why there is no answer, as a status.
pub fn status_of_refusal(refusal: Refusal) -> u32
    ensures { result ≡ status_of_refusal refusal }
{
    match refusal {
        Refusal::BadEnds | Refusal::ShortOptions => 2,
        Refusal::OutOfMemory => 3,
        Refusal::NoSchema => 4,
        Refusal::NotUtf8 => 5,
    }
}
