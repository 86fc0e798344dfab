//! The calls of C and of other languages, as a static library.
#![tactic(auto)]

pub mod options;
pub mod outcomes;

ghost use Rattle.std.specs.Prelude.{[], ◌∷◌, ◌≡◌, None, drop, length};
ghost use Rattle.graphql_answers.specs.Answers.{Finds, FindsInSchema, IsRefusalOf};
ghost use Rattle.graphql_answers.specs.Batches.{FindsInEach, IsRefusalOfEach};
ghost use Rattle.graphql_answers.specs.Files.{IsRefusalOfFiles};
ghost use Rattle.graphql_answers.specs.Sessions.{FindsAgainstKept, FindsInFiles, IsRefusalOfKept, IsUsableIfKept, answer_in, schema_in};
ghost use Rattle.graphql_answers.specs.Written.{written};
ghost use Rattle.graphql_embed.specs.Options.{IsRefusalWith, limits_of};
ghost use Rattle.graphql_embed.specs.Outcomes.{Tells, TellsSharing};

use graphql_answers::sessions::{close, read, share, validate_kept, write_answer};
use graphql_answers::{Batch, Limits, SchemaFile, validate, validate_each, validate_schema};
use graphql_schema_handles::handle::SchemaHandle;
use options::Options;
use outcomes::{Outcome, hand_over, hand_over_kept, no_answer, status_of_refusal};
use std::alloc::Global;

/// The version of these calls. It changes where a caller has to be compiled anew.
const ABI_VERSION: u32 = 2;

/// Validates a document against a schema.
#[unsafe(no_mangle)]
pub extern "C" fn graphql_validate(
    alloc: Global,
    schema: &[u8],
    document: &[u8],
    out: &mut [u8],
) -> Outcome
    ensures { Tells (Finds schema.now document.now) (IsRefusalOf (schema.now ∷ document.now ∷ [])) result out.old out.new }
{
    hand_over(validate(alloc, schema, document), out)
}

/// Validates a schema.
#[unsafe(no_mangle)]
pub extern "C" fn graphql_validate_schema(alloc: Global, schema: &[u8], out: &mut [u8]) -> Outcome
    ensures { Tells (FindsInSchema schema.now) (IsRefusalOf (schema.now ∷ [])) result out.old out.new }
{
    hand_over(validate_schema(alloc, schema), out)
}

/// Validates documents against a schema, which is read once. They lie one behind another, and end where `ends` says.
#[unsafe(no_mangle)]
pub extern "C" fn graphql_validate_all(
    alloc: Global,
    schema: &[u8],
    documents: &[u8],
    ends: &[usize],
    out: &mut [u8],
) -> Outcome
    ensures { Tells (FindsInEach schema.now documents.now ends.now) (IsRefusalOfEach schema.now documents.now ends.now) result out.old out.new }
{
    let batch = Batch {
        bytes: documents,
        ends,
    };
    hand_over(validate_each(alloc, schema, batch), out)
}

/// Reads the schema of these files, and keeps it and the answer in the handle. If something is reported, no schema is kept;
/// after another outcome without an answer, the handle is closed.
#[unsafe(no_mangle)]
pub extern "C" fn graphql_schema_read(
    alloc: Global,
    files: &[SchemaFile<'_>],
    options: &Options,
    handle: &mut SchemaHandle,
    out: &mut [u8],
) -> Outcome
    ensures tells { Tells (λ found json. FindsInFiles (limits_of options.now) files.now (schema_in handle.new.kept) found json × (answer_in handle.new.kept ≡ json)) (IsRefusalWith options.now (IsRefusalOfFiles files.now)) result out.old out.new }
    ensures usable { IsUsableIfKept (schema_in handle.new.kept) }
{
    match options.limits() {
        Ok(limits) => read_within(alloc, files, limits, handle, out),
        Err(refusal) => {
            close(alloc, handle);
            no_answer(refusal)
        }
    }
}

fn read_within(
    alloc: Global,
    files: &[SchemaFile<'_>],
    limits: Limits,
    handle: &mut SchemaHandle,
    out: &mut [u8],
) -> Outcome
    ensures tells { Tells (λ found json. FindsInFiles limits files.now (schema_in handle.new.kept) found json × (answer_in handle.new.kept ≡ json)) (IsRefusalOfFiles files.now) result out.old out.new }
    ensures usable { IsUsableIfKept (schema_in handle.new.kept) }
{
    let answered = read(alloc, files, limits, handle);
    hand_over_kept(alloc, answered, handle, out)
}

/// Validates a document against the schema that the handle keeps. The answer is kept in place of the one before.
#[unsafe(no_mangle)]
pub extern "C" fn graphql_schema_validate(
    alloc: Global,
    handle: &mut SchemaHandle,
    document: &[u8],
    options: &Options,
    out: &mut [u8],
) -> Outcome
    requires { IsUsableIfKept (schema_in handle.old.kept) }
    ensures tells { Tells (λ found json. FindsAgainstKept (limits_of options.now) (schema_in handle.old.kept) document.now found json × (answer_in handle.new.kept ≡ json)) (IsRefusalWith options.now (IsRefusalOfKept (schema_in handle.old.kept) document.now)) result out.old out.new }
    ensures schema { schema_in handle.new.kept ≡ schema_in handle.old.kept }
{
    match options.limits() {
        Ok(limits) => validate_within(alloc, handle, document, limits, out),
        Err(refusal) => no_answer(refusal),
    }
}

fn validate_within(
    alloc: Global,
    handle: &mut SchemaHandle,
    document: &[u8],
    limits: Limits,
    out: &mut [u8],
) -> Outcome
    requires { IsUsableIfKept (schema_in handle.old.kept) }
    ensures tells { Tells (λ found json. FindsAgainstKept limits (schema_in handle.old.kept) document.now found json × (answer_in handle.new.kept ≡ json)) (IsRefusalOfKept (schema_in handle.old.kept) document.now) result out.old out.new }
    ensures schema { schema_in handle.new.kept ≡ schema_in handle.old.kept }
{
    let answered = validate_kept(alloc, handle, document, limits);
    hand_over_kept(alloc, answered, handle, out)
}

/// Gives another handle the schema that this one keeps, without an answer. If that fails, the other is closed.
#[unsafe(no_mangle)]
pub extern "C" fn graphql_schema_share(
    alloc: Global,
    handle: &mut SchemaHandle,
    other: &mut SchemaHandle,
) -> u32
    ensures tells { TellsSharing handle.old.kept other.new.kept result }
    ensures usable { IsUsableIfKept (schema_in handle.old.kept) → IsUsableIfKept (schema_in other.new.kept) }
    ensures kept { handle.new.kept ≡ handle.old.kept }
{
    match share(alloc, handle, other) {
        Ok(()) => 0,
        Err(refusal) => status_of_refusal(refusal),
    }
}

/// Writes the answer of the last call on this handle, from this byte on. Answers how long the whole answer is.
#[unsafe(no_mangle)]
pub extern "C" fn graphql_schema_answer(
    alloc: Global,
    handle: &mut SchemaHandle,
    from: usize,
    out: &mut [u8],
) -> usize
    ensures length { result ≡ length (answer_in handle.old.kept) }
    ensures written { out.new ≡ written (drop from (answer_in handle.old.kept)) out.old }
    ensures kept { handle.new.kept ≡ handle.old.kept }
{
    write_answer(alloc, handle, from, out)
}

/// Closes a handle, and gives back the memory of what it kept.
#[unsafe(no_mangle)]
pub extern "C" fn graphql_schema_free(alloc: Global, handle: &mut SchemaHandle)
    ensures { handle.new.kept ≡ None }
{
    close(alloc, handle);
}

/// The version of these calls, which a caller compares with that of its header.
#[unsafe(no_mangle)]
pub extern "C" fn graphql_abi_version() -> u32
    ensures { result ≡ ABI_VERSION }
{
    ABI_VERSION
}
