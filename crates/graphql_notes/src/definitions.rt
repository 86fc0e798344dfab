//! Notes on definitions.

ghost use Rattle.std.specs.Prelude.{◌++◌, ◌∷◌, [], IfOk, codes};
ghost use Rattle.graphql_coordinates.specs.Coordinates.{coordinate_text, type_attribute_text};
ghost use Rattle.graphql_documents.specs.TypeReferences.{type_text};
ghost use Rattle.graphql_notes.specs.Labels.{AreNotes, label};
ghost use Rattle.graphql_notes.specs.Notes.{argument_then, defined, defined_as, field_then, fragment_label, is_defined, of_type};

use crate::notes::{Note, note_beside, two_notes_beside};
use graphql_coordinates::{SchemaCoordinate, TypeAttributeCoordinate};
use graphql_documents::documents::type_references::Type;
use graphql_nodes::{Name, Node, SourceSpan};
use std::alloc::{AllocError, Global};

/// A field of a type is defined here.
pub(crate) fn field_defined(
    alloc: Global,
    at: Option<SourceSpan>,
    place: Option<SourceSpan>,
    ty: &Name,
    field: &Name,
) -> Result<Vec<Note>, AllocError>
    ensures { IfOk result (λ notes. AreNotes at (label place (codes "`" ++ field_then ty.now field.now is_defined) ∷ []) notes.items) }
{
    let message = format!(in alloc; "`{ty}.{field}` is defined here")?;
    note_beside(alloc, at, place, message)
}

/// A field of a type is defined here, and has this type.
pub(crate) fn typed_field_defined(
    alloc: Global,
    at: Option<SourceSpan>,
    place: Option<SourceSpan>,
    ty: &Name,
    field: &Name,
    of: &Type,
) -> Result<Vec<Note>, AllocError>
    ensures { IfOk result (λ notes. AreNotes at (label place (codes "`" ++ field_then ty.now field.now (of_type of.now)) ∷ []) notes.items) }
{
    let message = format!(in alloc; "`{ty}.{field}` of type `{of}` is defined here")?;
    note_beside(alloc, at, place, message)
}

/// An argument of a field is defined here.
pub(crate) fn argument_defined(
    alloc: Global,
    at: Option<SourceSpan>,
    place: Option<SourceSpan>,
    ty: &Name,
    field: &Name,
    argument: &Name,
) -> Result<Vec<Note>, AllocError>
    ensures { IfOk result (λ notes. AreNotes at (label place (codes "`" ++ argument_then ty.now field.now argument.now is_defined) ∷ []) notes.items) }
{
    let message = format!(in alloc; "`{ty}.{field}({argument}:)` is defined here")?;
    note_beside(alloc, at, place, message)
}

/// An argument of a field is defined here, and has this type.
pub(crate) fn typed_argument_defined(
    alloc: Global,
    at: Option<SourceSpan>,
    place: Option<SourceSpan>,
    ty: &Name,
    field: &Name,
    argument: &Name,
    of: &Node<Type>,
) -> Result<Vec<Note>, AllocError>
    ensures { IfOk result (λ notes. AreNotes at (label place (codes "`" ++ argument_then ty.now field.now argument.now (of_type of.now.value.value)) ∷ []) notes.items) }
{
    let of = &of.value;
    let message = format!(in alloc; "`{ty}.{field}({argument}:)` of type `{of}` is defined here")?;
    note_beside(alloc, at, place, message)
}

/// An argument of a field or a directive is defined here, with its type.
pub(crate) fn argument_of_type(
    alloc: Global,
    at: Option<SourceSpan>,
    place: Option<SourceSpan>,
    coordinate: &SchemaCoordinate,
    of: &Node<Type>,
) -> Result<Vec<Note>, AllocError>
    ensures { IfOk result (λ notes. AreNotes at (label place (defined_as (coordinate_text coordinate.now) of.now.value.value) ∷ []) notes.items) }
{
    let of = &of.value;
    let message = format!(in alloc; "`{coordinate}` of type `{of}` is defined here")?;
    note_beside(alloc, at, place, message)
}

/// An input field is defined here, with its type.
pub(crate) fn input_field_of_type(
    alloc: Global,
    at: Option<SourceSpan>,
    place: Option<SourceSpan>,
    coordinate: &TypeAttributeCoordinate,
    of: &Node<Type>,
) -> Result<Vec<Note>, AllocError>
    ensures { IfOk result (λ notes. AreNotes at (label place (defined_as (type_attribute_text coordinate.now) of.now.value.value) ∷ []) notes.items) }
{
    let of = &of.value;
    let message = format!(in alloc; "`{coordinate}` of type `{of}` is defined here")?;
    note_beside(alloc, at, place, message)
}

/// An interface implements another one here.
pub(crate) fn implements(
    alloc: Global,
    at: Option<SourceSpan>,
    place: Option<SourceSpan>,
    via: &Name,
    missing: &Name,
) -> Result<Vec<Note>, AllocError>
    ensures { IfOk result (λ notes. AreNotes at (label place (codes "`" ++ (via.now.text ++ (codes "` implements `" ++ (missing.now.text ++ codes "` here")))) ∷ []) notes.items) }
{
    let message = format!(in alloc; "`{via}` implements `{missing}` here")?;
    note_beside(alloc, at, place, message)
}

/// A directive is defined here.
pub(crate) fn directive_defined(
    alloc: Global,
    at: Option<SourceSpan>,
    place: Option<SourceSpan>,
    name: &Name,
) -> Result<Vec<Note>, AllocError>
    ensures { IfOk result (λ notes. AreNotes at (label place (codes "`@" ++ (name.now.text ++ codes "` is defined here")) ∷ []) notes.items) }
{
    let message = format!(in alloc; "`@{name}` is defined here")?;
    note_beside(alloc, at, place, message)
}

/// A type is expected here.
pub(crate) fn type_expected(
    alloc: Global,
    at: Option<SourceSpan>,
    place: Option<SourceSpan>,
    expected: &Node<Type>,
) -> Result<Vec<Note>, AllocError>
    ensures { IfOk result (λ notes. AreNotes at (label place (codes "`" ++ (type_text expected.now.value.value ++ codes "` is expected here")) ∷ []) notes.items) }
{
    let expected = &expected.value;
    let message = format!(in alloc; "`{expected}` is expected here")?;
    note_beside(alloc, at, place, message)
}

/// A type is none that has fields.
pub(crate) fn not_composite(
    alloc: Global,
    at: Option<SourceSpan>,
    place: Option<SourceSpan>,
    ty: &Name,
) -> Result<Vec<Note>, AllocError>
    ensures { IfOk result (λ notes. AreNotes at (label place (codes "`" ++ (ty.now.text ++ codes "` is no object, interface or union")) ∷ []) notes.items) }
{
    let message = format!(in alloc; "`{ty}` is no object, interface or union")?;
    note_beside(alloc, at, place, message)
}

/// A variable is defined here, with its type.
pub(crate) fn variable_defined(
    alloc: Global,
    at: Option<SourceSpan>,
    place: Option<SourceSpan>,
    variable: &Name,
    of: &Type,
) -> Result<Vec<Note>, AllocError>
    ensures { IfOk result (λ notes. AreNotes at (label place (codes "`$" ++ (variable.now.text ++ of_type of.now)) ∷ []) notes.items) }
{
    let message = format!(in alloc; "`${variable}` of type `{of}` is defined here")?;
    note_beside(alloc, at, place, message)
}

/// An interface is implemented here, and its field is defined there.
pub(crate) fn field_missing(
    alloc: Global,
    at: Option<SourceSpan>,
    implements: Option<SourceSpan>,
    definition: Option<SourceSpan>,
    interface: &Name,
    field: &Name,
) -> Result<Vec<Note>, AllocError>
    ensures { IfOk result (λ notes. AreNotes at (label implements (codes "`" ++ (interface.now.text ++ codes "` is implemented here")) ∷ label definition (codes "`" ++ field_then interface.now field.now is_defined) ∷ []) notes.items) }
{
    let implemented = format!(in alloc; "`{interface}` is implemented here")?;
    let defined = format!(in alloc; "`{interface}.{field}` is defined here")?;
    two_notes_beside(alloc, at, (implements, implemented), (definition, defined))
}

/// A fragment that is spread is defined here, and the type around the spread there.
pub(crate) fn spread_between(
    alloc: Global,
    at: Option<SourceSpan>,
    fragment: Option<SourceSpan>,
    definition: Option<SourceSpan>,
    name: &Option<Name>,
    condition: &Name,
    type_name: &Name,
) -> Result<Vec<Note>, AllocError>
    ensures { IfOk result (λ notes. AreNotes at (fragment_label name.now condition.now fragment ++ label definition (defined type_name.now.text) ∷ []) notes.items) }
{
    match name {
        Some(name) => named_spread(alloc, at, fragment, definition, name, condition, type_name),
        None => type_defined(alloc, at, definition, type_name),
    }
}

fn named_spread(
    alloc: Global,
    at: Option<SourceSpan>,
    fragment: Option<SourceSpan>,
    definition: Option<SourceSpan>,
    name: &Name,
    condition: &Name,
    type_name: &Name,
) -> Result<Vec<Note>, AllocError>
    ensures { IfOk result (λ notes. AreNotes at (label fragment (codes "fragment `" ++ (name.now.text ++ (codes "` on `" ++ (condition.now.text ++ codes "` is defined here")))) ∷ label definition (defined type_name.now.text) ∷ []) notes.items) }
{
    let spread = format!(in alloc; "fragment `{name}` on `{condition}` is defined here")?;
    let around = format!(in alloc; "`{type_name}` is defined here")?;
    two_notes_beside(alloc, at, (fragment, spread), (definition, around))
}

/// A type is defined here.
fn type_defined(
    alloc: Global,
    at: Option<SourceSpan>,
    place: Option<SourceSpan>,
    ty: &Name,
) -> Result<Vec<Note>, AllocError>
    ensures { IfOk result (λ notes. AreNotes at (label place (defined ty.now.text) ∷ []) notes.items) }
{
    let message = format!(in alloc; "`{ty}` is defined here")?;
    note_beside(alloc, at, place, message)
}
