use super::fixtures::{is_text, query_of_itself, reports};
use graphql_diagnostics::DiagnosticList;
use graphql_documents::documents::{ExecutableDocument, Schema, Value};
use graphql_nodes::{FileId, SourceSpan};
use graphql_notation::build::{arguments, document, document_in_file, schema, variables};
use graphql_values::directive::validate_variable_definitions;
use graphql_variables::{validate_unused_variables, variables_in_value};
use std::alloc::Global;
use std::process::Abort;

/// Definitions of variables, and what is reported of them.
const DEFINITIONS: &[(&str, &str)] = &[
    ("($v: Query)", "- `$v` variable must be of an input type\n"),
    ("($v: X)", "- cannot find type `X` in this document\n"),
    (
        "($v: Int = \"1\")",
        "- expected value of type Int, found a string\n",
    ),
    (
        "($v: Int, $v: Int)",
        "- the variable `$v` is declared multiple times\n",
    ),
    (
        "($v: Int @skip(if: true))",
        "- skip directive is not supported for VARIABLE_DEFINITION location\n",
    ),
];

/// What these definitions bring.
fn defined(rt: &impl Abort, alloc: Global, schema: &Schema, written: &str) -> DiagnosticList {
    let built = variables(alloc, written).expect(rt, "variables");
    let mut found = DiagnosticList::new(alloc);
    validate_variable_definitions(&mut found, Some(schema), &built).expect(rt, "memory");
    found
}

#[test]
fn definitions_of_variables_are_checked(rt: HostRuntime) {
    let schema = query_of_itself(&rt, rt.alloc());
    for (written, expected) in DEFINITIONS {
        let found = defined(&rt, rt.alloc(), &schema.0, written);
        reports(&rt, rt.alloc(), &found, expected);
    }
}

/// What the uses of variables bring in the one operation of the document.
fn uses(rt: &impl Abort, alloc: Global, document: &ExecutableDocument) -> DiagnosticList {
    let operation = document.operations.anonymous.as_ref();
    let operation = &operation.expect(rt, "an operation").value;
    let mut found = DiagnosticList::new(alloc);
    validate_unused_variables(&mut found, document, operation).expect(rt, "memory");
    found
}

/// The last `$b`, without its type.
const LAST: SourceSpan = SourceSpan {
    file_id: FileId(1),
    start: 25,
    end: 27,
};

/// What the uses of variables bring in the one operation of a document of this text, which is file 1,
/// over a query of itself.
fn uses_in_file(rt: &impl Abort, alloc: Global, written: &str) -> DiagnosticList {
    let schema = query_of_itself(rt, alloc);
    let document = document_in_file(alloc, &schema.0, written, FileId(1));
    uses(rt, alloc, &document.expect(rt, "a document"))
}

#[test]
fn unused_variables_come_in_order_of_first_definition(rt: HostRuntime) {
    let alloc = rt.alloc();
    let found = uses_in_file(&rt, alloc, "query ($b: Int, $a: Int, $b: Int) { a }");
    reports(
        &rt,
        alloc,
        &found,
        "+ unused variable: `$b`\n+ unused variable: `$a`\n",
    );
    let first = found.iter().next().expect(&rt, "a report");
    assert_eq!(rt; first.location, Some(LAST));
}

const ON_FRAGMENTS: &str =
    "type Query { q: Query a: Int } directive @onF(x: Boolean) on FRAGMENT_DEFINITION";

/// The uses in a document of this text bring these reports.
fn uses_bring(rt: &impl Abort, alloc: Global, schema: &Schema, written: &str, expected: &str) {
    let document = document(alloc, schema, written).expect(rt, "a document");
    reports(rt, alloc, &uses(rt, alloc, &document), expected);
}

#[test]
fn uses_are_looked_for_in_directives_of_fragments_and_500_sets_deep(rt: HostRuntime) {
    let alloc = rt.alloc();
    let schema = schema(alloc, ON_FRAGMENTS).expect(&rt, "a schema");
    let used = "query ($v: Boolean) { ...F } fragment F on Query @onF(x: $v) { a }";
    uses_bring(&rt, alloc, &schema.0, used, "");
    let deep = "{ <1-501:q { ><1-501:} >}";
    uses_bring(&rt, alloc, &schema.0, deep, "- too much recursion\n");
}

/// The names of the variables in a value, one behind another.
fn names_in(rt: &impl Abort, alloc: Global, value: &Value) -> String {
    let mut text = String::new(alloc);
    for name in &variables_in_value(alloc, value).expect(rt, "memory for names") {
        text.push_str(name.as_str()).expect(rt, "memory for a name");
    }
    text
}

#[test]
fn variables_in_a_value_come_in_order(rt: HostRuntime) {
    let mut built = arguments(rt.alloc(), "(x: [$a, [$b], $a])").expect(&rt, "an argument");
    let argument = built.pop().expect(&rt, "an argument");
    let found = names_in(&rt, rt.alloc(), &argument.value.value.value);
    is_text(&rt, found.as_str(), "aba");
}
