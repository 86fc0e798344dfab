ghost use Rattle.std.specs.Prelude.{◌≡◌};

use graphql_answers::sessions::{close, read, share, validate_kept, write_answer};
use graphql_answers::{Found, Limits, Refusal, SchemaFile};
use graphql_schema_handles::handle::SchemaHandle;
use std::alloc::Global;
use std::process::Abort;

const FILE: SchemaFile<'static> = SchemaFile {
    name: b"",
    text: b"type Query { a(b: Int): Int }",
};

const VALID: &[u8] = b"{ a(b: 1) }";

const REPORTED: &[u8] = b"{ a(c: 1) }";

/// The answer to `REPORTED`, in the form of the errors of a response.
const REPORT: &str =
    "{\"errors\":[{\"message\":\"the argument `c` is not supported by `Query.a`\",\"locations\":[{\"line\":1,\"column\":5}],\"extensions\":{\"rule\":\"UndefinedArgument\",\"span\":{\"start\":4,\"end\":8},\"help\":[\"did you mean `b`?\"]}}]}";

fn is_found(rt: &impl Abort, found: Result<Found, Refusal>, wanted: Found) {
    match found {
        Ok(found) => assert_eq!(rt; found, wanted),
        Err(refusal) => panic!(rt; "refused: {refusal:?}"),
    }
}

fn is_refused<T: Drop>(rt: &impl Abort, answered: Result<T, Refusal>, refusal: Refusal) {
    match answered {
        Ok(_) => panic!(rt; "answered"),
        Err(given) => assert_eq!(rt; given, refusal),
    }
}

/// This is the answer that is kept.
fn is_kept(rt: &impl Abort, alloc: Global, handle: &mut SchemaHandle, wanted: &[u8])
    ensures { handle.new.kept ≡ handle.old.kept }
{
    let mut out = [0; 400];
    let length = write_answer(alloc, handle, 0, out.as_mut_slice());
    assert_eq!(rt; length, wanted.len());
    assert!(rt; out.as_slice().starts_with(wanted));
}

#[test]
fn documents_are_answered_by_a_handle(rt: HostRuntime) {
    let alloc = rt.alloc();
    let mut handle = SchemaHandle::closed();
    let found = read(alloc, &[FILE], Limits::DEFAULT, &mut handle);
    is_found(&rt, found, Found::Nothing);
    is_kept(&rt, alloc, &mut handle, b"{\"errors\":[]}");
    let found = validate_kept(alloc, &mut handle, REPORTED, Limits::DEFAULT);
    is_found(&rt, found, Found::InDocuments);
    is_kept(&rt, alloc, &mut handle, REPORT.as_bytes());
    let found = validate_kept(alloc, &mut handle, VALID, Limits::DEFAULT);
    is_found(&rt, found, Found::Nothing);
    let found = validate_kept(alloc, &mut handle, b"\xFF", Limits::DEFAULT);
    is_refused(&rt, found, Refusal::NotUtf8);
    is_kept(&rt, alloc, &mut handle, b"");
    drop(handle.open(alloc));
}

#[test]
fn a_handle_without_a_schema_refuses_documents(rt: HostRuntime) {
    let alloc = rt.alloc();
    let mut handle = SchemaHandle::closed();
    let found = validate_kept(alloc, &mut handle, VALID, Limits::DEFAULT);
    is_refused(&rt, found, Refusal::NoSchema);
    let wrong = SchemaFile {
        name: b"wrong.graphql",
        text: b"type Query { a: Nope }",
    };
    let found = read(alloc, &[wrong], Limits::DEFAULT, &mut handle);
    is_found(&rt, found, Found::InSchema);
    let found = validate_kept(alloc, &mut handle, VALID, Limits::DEFAULT);
    is_refused(&rt, found, Refusal::NoSchema);
    drop(handle.open(alloc));
}

/// The answer to two faults, at most one of which is shown.
const FIRST: &str =
    "{\"errors\":[{\"message\":\"the argument `c` is not supported by `Query.a`\",\"locations\":[{\"line\":1,\"column\":8}],\"extensions\":{\"rule\":\"UndefinedArgument\",\"span\":{\"start\":7,\"end\":11},\"help\":[\"did you mean `b`?\"]}}]}";

/// The answer to two files that define one type.
const TWICE: &str =
    "{\"errors\":[{\"message\":\"the type `Query` is defined multiple times in the schema\",\"locations\":[{\"line\":1,\"column\":6}],\"extensions\":{\"file\":\"two.graphql\",\"rule\":\"TypeDefinitionCollision\",\"span\":{\"start\":5,\"end\":10},\"related\":[{\"message\":\"first here\",\"file\":\"one.graphql\",\"line\":1,\"column\":6,\"span\":{\"start\":5,\"end\":10}}]}}]}";

#[test]
fn the_first_findings_are_answered(rt: HostRuntime) {
    let alloc = rt.alloc();
    let mut handle = SchemaHandle::closed();
    let found = read(alloc, &[FILE], Limits::DEFAULT, &mut handle);
    is_found(&rt, found, Found::Nothing);
    let limits = Limits {
        reports: 1,
        ..Limits::DEFAULT
    };
    let found = validate_kept(alloc, &mut handle, b"{ x: a(c: 1) y: a(d: 1) }", limits);
    is_found(&rt, found, Found::InDocuments);
    is_kept(&rt, alloc, &mut handle, FIRST.as_bytes());
    drop(handle.open(alloc));
}

#[test]
fn a_note_names_another_file(rt: HostRuntime) {
    let alloc = rt.alloc();
    let one = SchemaFile {
        name: b"one.graphql",
        text: b"type Query { a: Int }",
    };
    let two = SchemaFile {
        name: b"two.graphql",
        text: b"type Query { b: Int }",
    };
    let mut handle = SchemaHandle::closed();
    let found = read(alloc, &[one, two], Limits::DEFAULT, &mut handle);
    is_found(&rt, found, Found::InSchema);
    is_kept(&rt, alloc, &mut handle, TWICE.as_bytes());
    drop(handle.open(alloc));
}

#[test]
fn handles_share_a_schema(rt: HostRuntime) {
    let alloc = rt.alloc();
    let mut handle = SchemaHandle::closed();
    let mut other = SchemaHandle::closed();
    let found = read(alloc, &[FILE], Limits::DEFAULT, &mut handle);
    is_found(&rt, found, Found::Nothing);
    let found = validate_kept(alloc, &mut handle, REPORTED, Limits::DEFAULT);
    is_found(&rt, found, Found::InDocuments);
    if share(alloc, &mut handle, &mut other).is_err() {
        panic!(rt; "refused");
    }
    is_kept(&rt, alloc, &mut handle, REPORT.as_bytes());
    is_kept(&rt, alloc, &mut other, b"");
    close(alloc, &mut handle);
    let found = validate_kept(alloc, &mut other, REPORTED, Limits::DEFAULT);
    is_found(&rt, found, Found::InDocuments);
    is_kept(&rt, alloc, &mut other, REPORT.as_bytes());
    let found = validate_kept(alloc, &mut other, VALID, Limits::DEFAULT);
    is_found(&rt, found, Found::Nothing);
    drop(handle.open(alloc));
    drop(other.open(alloc));
}

#[test]
fn a_handle_without_a_schema_shares_none(rt: HostRuntime) {
    let alloc = rt.alloc();
    let mut handle = SchemaHandle::closed();
    let mut other = SchemaHandle::closed();
    let found = read(alloc, &[FILE], Limits::DEFAULT, &mut other);
    is_found(&rt, found, Found::Nothing);
    let shared = share(alloc, &mut handle, &mut other);
    is_refused(&rt, shared, Refusal::NoSchema);
    let found = validate_kept(alloc, &mut other, VALID, Limits::DEFAULT);
    is_refused(&rt, found, Refusal::NoSchema);
    drop(handle.open(alloc));
    drop(other.open(alloc));
}
