ghost use Rattle.graphql_frontend.specs.Schemas.{IsUsable};

use graphql_change_kinds::{BreakingReason, Level, SchemaChange};
use graphql_change_witnesses::confirmed_witness;
use graphql_documents::documents::Schema;
use graphql_frontend::{SchemaReading, read_schema, schema_sources};
use graphql_parser::Bounds;
use graphql_schema_comparison::compare_schemas;
use graphql_schema_ways::Ways;
use std::alloc::Global;
use std::fmt::Write;
use std::process::Abort;

/// The texts of an old and a new schema, and a line for each change: its level and its name, and the document that shows it,
/// if one does.
pub(crate) type Row = (&'static str, &'static str, &'static str);

/// The changes of each row are these.
pub(crate) fn assert_rows<R: AllocGlobal + Abort>(rt: &R, rows: &[Row]) {
    for (old, new, wanted) in rows {
        let found = changes_of_texts(rt, rt.alloc(), old, new);
        assert_eq!(rt; found.as_str(), *wanted);
    }
}

fn changes_of_texts(rt: &impl Abort, alloc: Global, old: &str, new: &str) -> String {
    let old = read_schema(alloc, &schema_sources(old), Bounds::DEFAULT).expect(
        rt,
        "memory for a schema",
    );
    let new = read_schema(alloc, &schema_sources(new), Bounds::DEFAULT).expect(
        rt,
        "memory for a schema",
    );
    match (old, new) {
        (SchemaReading::Accepted(old), SchemaReading::Accepted(new)) => {
            changes_of(rt, alloc, &old, &new)
        }
        _ => panic!(rt; "a schema is not accepted"),
    }
}

fn changes_of(rt: &impl Abort, alloc: Global, old: &Schema, new: &Schema) -> String
    requires old { IsUsable old.now }
    requires new { IsUsable new.now }
{
    let comparison = compare_schemas(alloc, old, new).expect(rt, "memory for changes");
    let ways = Ways::new(alloc, old).expect(rt, "memory for ways");
    let mut lines = String::new(alloc);
    for change in &comparison.changes {
        push_line(rt, alloc, &mut lines, &ways, old, new, change);
    }
    lines
}

fn push_line(
    rt: &impl Abort,
    alloc: Global,
    lines: &mut String,
    ways: &Ways<'_>,
    old: &Schema,
    new: &Schema,
    change: &SchemaChange,
)
    requires old { IsUsable old.now }
    requires new { IsUsable new.now }
{
    let level = name_of(change.level());
    let name = change.change.name();
    let change = &change.change;
    let witness = confirmed_witness(alloc, ways, old, new, change, Bounds::DEFAULT).expect(
        rt,
        "memory for a witness",
    );
    match witness {
        Some(text) => writeln!(lines, "{level} {name} {text}").expect(rt, "memory for a line"),
        None => writeln!(lines, "{level} {name}").expect(rt, "memory for a line"),
    }
}

fn name_of(level: Level) -> &'static str {
    match level {
        Level::Breaking(BreakingReason::Documents) => "documents",
        Level::Breaking(BreakingReason::Merging) => "merging",
        Level::Breaking(BreakingReason::Responses) => "responses",
        Level::Dangerous => "dangerous",
        Level::Safe => "safe",
    }
}
