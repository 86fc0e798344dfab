//! What tests build and print. Where memory is refused, the test ends.
use graphql_diagnostics::{BuildError, Details, DiagnosticList};
use graphql_documents::documents::{Schema, Valid};
use graphql_nodes::{Name, SourceSpan};
use graphql_notation::build::schema;
use std::alloc::Global;
use std::fmt::Write;
use std::process::Abort;

/// The schema of this text.
pub(crate) fn schema_of(rt: &impl Abort, alloc: Global, written: &str) -> Valid<Schema> {
    schema(alloc, written).expect(rt, "a schema")
}

/// The texts are the same.
fn is_text(rt: &impl Abort, found: &str, expected: &str) {
    if found != expected {
        panic!(rt; "{expected} was expected, not {found}");
    }
}

/// The call brought these reports, each on a line: its place as `start-end`, what it says, and, of a
/// rule of subscriptions, of `@defer` or of merging, its fields. `-` stands for no place and for no name.
pub(crate) fn reports_in_full(
    rt: &impl Abort,
    alloc: Global,
    diagnostics: &DiagnosticList,
    expected: &str,
) {
    let mut found = String::new(alloc);
    for entry in diagnostics.iter() {
        show_place(rt, &mut found, entry.location);
        show(rt, &mut found, " ");
        write!(found, "{}", entry.details).expect(rt, "memory for a line");
        if let Details::Build(broken) = &entry.details {
            show_fields(rt, &mut found, broken);
        }
        show(rt, &mut found, "\n");
    }
    is_text(rt, found.as_str(), expected);
}

fn show(rt: &impl Abort, shown: &mut String, text: &str) {
    shown.push_str(text).expect(rt, "memory for a line");
}

fn show_place(rt: &impl Abort, shown: &mut String, place: Option<SourceSpan>) {
    match place {
        Some(span) => {
            let written = write!(shown, "{}-{}", span.start, span.end);
            written.expect(rt, "memory for a line");
        }
        None => show(rt, shown, "-"),
    }
}

fn show_name(rt: &impl Abort, shown: &mut String, name: Option<&Name>) {
    show(rt, shown, " ");
    show(rt, shown, name.map_or("-", |name| name.as_str()));
}

fn show_fields(rt: &impl Abort, shown: &mut String, broken: &BuildError) {
    match broken {
        BuildError::SubscriptionUsesIntrospection { name, field } => {
            show_name(rt, shown, name.as_ref());
            show_name(rt, shown, Some(field));
        }
        BuildError::SubscriptionUsesConditionalSelection { name } => {
            show_name(rt, shown, name.as_ref());
        }
        BuildError::SubscriptionUsesMultipleFields { name, fields } => {
            show_name(rt, shown, name.as_ref());
            for field in fields {
                show_name(rt, shown, Some(field));
            }
        }
        BuildError::DuplicateDeferLabel {
            label,
            original_location,
        } => {
            write!(shown, " {label} ").expect(rt, "memory for a line");
            show_place(rt, shown, *original_location);
        }
        BuildError::DeferOnRootMutationOrSubscriptionField { operation_type } => {
            write!(shown, " {operation_type}").expect(rt, "memory for a line");
        }
        BuildError::ConflictingFieldName {
            alias,
            original_selection: first,
            conflicting_selection: later,
            ..
        } => write!(shown, " {alias} {first} {later}").expect(rt, "memory for a line"),
        BuildError::ConflictingFieldArgument {
            alias,
            original_coordinate: first,
            conflicting_coordinate: later,
            ..
        } => write!(shown, " {alias} {first} {later}").expect(rt, "memory for a line"),
        BuildError::ConflictingFieldType {
            alias,
            original_coordinate: first,
            conflicting_coordinate: later,
            ..
        } => write!(shown, " {alias} {first} {later}").expect(rt, "memory for a line"),
        _ => {}
    }
}
