//! Changes as JSON, version 1.

ghost use Rattle.std.specs.Prelude.{codes, string_bytes};
ghost use Rattle.std.specs.Option.{option_map};
ghost use Rattle.graphql_report_formats.specs.JsonReports.{Appends, file, number_member, span};
ghost use Rattle.graphql_report_formats.specs.NamedTexts.{part, path_of};
ghost use Rattle.graphql_change_formats.specs.ChangeJson.{AppendsSome, AreChanges, IsArrayOfChanges, IsChange, boolean_member, broken_member, change_end, change_head, change_object, comparison_begin, comparison_end, count_members, operations_member, optional_boolean, optional_member, path_strings, place_member, place_members, place_object, string_member};

use crate::shown_changes::{ComparedTexts, ShownChange};
use graphql_report_formats::named_texts::Located;
use graphql_schema_comparison::Comparison;
use json::Writer;
use std::alloc::{AllocError, Global};

/// The version of the form. A member that is added leaves it as it is.
const VERSION: usize = 1;

/// Begins the object, and adds what the comparison means for documents.
pub fn begin(json: &mut Writer, comparison: &Comparison) -> Result<(), AllocError>
    ensures { Appends result json.old json.new (comparison_begin comparison.now) }
{
    json.begin_object()?;
    add_number(json, "version", VERSION)?;
    add_boolean(json, "keepsDocuments", comparison.keeps_documents)?;
    add_boolean(json, "keepsLoneFields", comparison.keeps_lone_fields)
}

fn add_boolean(json: &mut Writer, name: &str, value: bool) -> Result<(), AllocError>
    ensures { Appends result json.old json.new (boolean_member name.now value) }
{
    json.key(name)?;
    json.boolean(value)
}

/// Adds a truth value, if there is one.
fn add_optional_boolean(
    json: &mut Writer,
    name: &str,
    value: Option<bool>,
) -> Result<(), AllocError>
    ensures { Appends result json.old json.new (optional_boolean name.now value) }
{
    match value {
        Some(value) => add_boolean(json, name, value),
        None => Ok(()),
    }
}

/// Adds the changes, in order.
pub fn add_changes(
    json: &mut Writer,
    alloc: Global,
    changes: &[ShownChange<'_>],
    texts: &ComparedTexts<'_>,
) -> Result<(), AllocError>
    ensures { AppendsSome result json.old json.new (IsArrayOfChanges texts.now changes.now) }
{
    json.key("changes")?;
    json.begin_array()?;
    add_each(json, alloc, changes, texts)?;
    json.end_array()
}

fn add_each(
    json: &mut Writer,
    alloc: Global,
    changes: &[ShownChange<'_>],
    texts: &ComparedTexts<'_>,
) -> Result<(), AllocError>
    ensures { AppendsSome result json.old json.new (AreChanges texts.now changes.now) }
{
    for shown in changes {
        add_change(json, alloc, shown, texts)?;
    }
    Ok(())
}

fn add_change(
    json: &mut Writer,
    alloc: Global,
    shown: &ShownChange<'_>,
    texts: &ComparedTexts<'_>,
) -> Result<(), AllocError>
    ensures { AppendsSome result json.old json.new (IsChange texts.now shown.now) }
{
    let message = shown.change.change.to_string(alloc)?;
    add_worded(
        json,
        shown.change.change.name(),
        message.as_str(),
        shown,
        texts,
    )
}

/// Adds a change with this name and this message.
fn add_worded(
    json: &mut Writer,
    name: &str,
    message: &str,
    shown: &ShownChange<'_>,
    texts: &ComparedTexts<'_>,
) -> Result<(), AllocError>
    ensures { Appends result json.old json.new (change_object texts.now shown.now name.now message.now) }
{
    add_head(json, name, shown)?;
    add_string(json, "message", message)?;
    add_end(json, shown, texts)
}

fn add_head(json: &mut Writer, name: &str, shown: &ShownChange<'_>) -> Result<(), AllocError>
    ensures { Appends result json.old json.new (change_head shown.now name.now) }
{
    json.begin_object()?;
    add_string(json, "change", name)?;
    add_string(json, "level", shown.level_name())?;
    add_optional(json, "reason", shown.reason_name())
}

fn add_end(
    json: &mut Writer,
    shown: &ShownChange<'_>,
    texts: &ComparedTexts<'_>,
) -> Result<(), AllocError>
    ensures { Appends result json.old json.new (change_end texts.now shown.now) }
{
    add_place(json, "old", texts.old.locate(shown.change.old))?;
    add_place(json, "new", texts.new.locate(shown.change.new))?;
    add_witness(json, &shown.witness)?;
    add_optional_boolean(json, "used", shown.used)?;
    json.end_object()
}

/// Adds the document that shows a change, if there is one.
fn add_witness(json: &mut Writer, witness: &Option<String>) -> Result<(), AllocError>
    ensures { Appends result json.old json.new (optional_member (codes "witness") (option_map string_bytes witness.now)) }
{
    match witness {
        Some(text) => add_string(json, "witness", text.as_str()),
        None => Ok(()),
    }
}

/// Adds a place, if there is one.
fn add_place(json: &mut Writer, name: &str, located: Option<Located<'_>>) -> Result<(), AllocError>
    ensures { Appends result json.old json.new (place_member name.now (option_map part located.entry)) }
{
    match located {
        Some(located) => add_located(json, name, located),
        None => Ok(()),
    }
}

fn add_located(json: &mut Writer, name: &str, located: Located<'_>) -> Result<(), AllocError>
    ensures { Appends result json.old json.new (place_object name.now (part located.entry)) }
{
    json.key(name)?;
    json.begin_object()?;
    add_members(json, located)?;
    json.end_object()
}

fn add_members(json: &mut Writer, located: Located<'_>) -> Result<(), AllocError>
    ensures { Appends result json.old json.new (place_members (part located.entry)) }
{
    add_file(json, located.path)?;
    add_number(json, "line", located.start.line)?;
    add_number(json, "column", located.start.column)?;
    add_span(json, located)
}

/// Adds the path of a file, if there is one.
fn add_file(json: &mut Writer, path: Option<&str>) -> Result<(), AllocError>
    ensures { Appends result json.old json.new (file (path_of path.entry)) }
{
    match path {
        Some(path) => add_string(json, "file", path),
        None => Ok(()),
    }
}

fn add_span(json: &mut Writer, located: Located<'_>) -> Result<(), AllocError>
    ensures { Appends result json.old json.new (span (Some (part located.entry))) }
{
    json.key("span")?;
    json.begin_object()?;
    add_number(json, "start", located.span.start as usize)?;
    add_number(json, "end", located.span.end as usize)?;
    json.end_object()
}

fn add_number(json: &mut Writer, name: &str, number: usize) -> Result<(), AllocError>
    ensures { Appends result json.old json.new (number_member name.now number) }
{
    json.key(name)?;
    json.u64(number as u64)
}

fn add_string(json: &mut Writer, name: &str, text: &str) -> Result<(), AllocError>
    ensures { Appends result json.old json.new (string_member name.now text.now) }
{
    json.key(name)?;
    json.string(text)
}

/// Adds a text, if there is one.
fn add_optional(json: &mut Writer, name: &str, text: Option<&str>) -> Result<(), AllocError>
    ensures { Appends result json.old json.new (optional_member name.now (path_of text.entry)) }
{
    match text {
        Some(text) => add_string(json, name, text),
        None => Ok(()),
    }
}

/// Adds which of so many documents broke, by their paths, and how many were not valid before.
pub fn add_operations(
    json: &mut Writer,
    documents: usize,
    invalid_before: usize,
    broken: &[&str],
) -> Result<(), AllocError>
    ensures { Appends result json.old json.new (operations_member documents invalid_before broken.now) }
{
    json.key("operations")?;
    json.begin_object()?;
    add_counts(json, documents, invalid_before)?;
    add_broken(json, broken)?;
    json.end_object()
}

fn add_counts(json: &mut Writer, documents: usize, invalid_before: usize) -> Result<(), AllocError>
    ensures { Appends result json.old json.new (count_members documents invalid_before) }
{
    add_number(json, "documents", documents)?;
    add_number(json, "invalidBefore", invalid_before)
}

fn add_broken(json: &mut Writer, broken: &[&str]) -> Result<(), AllocError>
    ensures { Appends result json.old json.new (broken_member broken.now) }
{
    json.key("broken")?;
    json.begin_array()?;
    add_paths(json, broken)?;
    json.end_array()
}

fn add_paths(json: &mut Writer, paths: &[&str]) -> Result<(), AllocError>
    ensures { Appends result json.old json.new (path_strings paths.now) }
{
    for path in paths {
        json.string(path)?;
    }
    Ok(())
}

/// Ends the JSON object of a comparison.
pub fn end(json: &mut Writer) -> Result<(), AllocError>
    ensures { Appends result json.old json.new comparison_end }
{
    json.end_object()
}
