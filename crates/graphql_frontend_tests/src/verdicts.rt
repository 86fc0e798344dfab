use crate::documents::texts_of_schema;
use graphql_answers::frontend::{SourceText, Verdict, validate};
use graphql_nodes::FileId;
use graphql_parser::Bounds;
use std::alloc::Global;
use std::process::Abort;

/// The verdict on a document against a schema.
fn verdict(rt: &impl Abort, alloc: Global, schema: &str, document: &str) -> Verdict {
    let schema = texts_of_schema(FileId(1), schema);
    let document = SourceText {
        file_id: FileId(2),
        text: document,
    };
    validate(alloc, &schema, document, Bounds::DEFAULT).expect(rt, "memory for a verdict")
}

#[test]
fn verdicts_are_of_the_first_stage_that_reports(rt: HostRuntime) {
    let alloc = rt.alloc();
    let valid = verdict(&rt, alloc, "type Query { a: Int }", "{ a }");
    assert!(rt; matches!(valid, Verdict::Valid));
    let rejected = verdict(&rt, alloc, "type Query { a: Int }", "{ b }");
    assert!(rt; matches!(rejected, Verdict::DocumentRejected(_)));
    let wrong_schema = verdict(&rt, alloc, "type Query { a: B }", "{ b }");
    assert!(rt; matches!(wrong_schema, Verdict::SchemaRejected(_)));
}
