//! Laws of reports: what a true report cannot say.

ghost use Rattle.std.specs.Prelude.{◌≢◌, ℕ, ◌≤◌, List, Option, None, Some};
ghost use Rattle.std.specs.Borrow.{Bor};
ghost use Rattle.graphql_nodes.specs.Names.{NameText};
ghost use Rattle.graphql_documents.specs.Selections.{fragments_of};
ghost use Rattle.graphql_specification.specs.Fields.{FieldFormReport};
ghost use Rattle.graphql_specification.specs.Documents.{DocumentLimit};
ghost use Rattle.graphql_documents.specs.Walks.{Descent, Walk};
ghost use Rattle.graphql_diagnostics.specs.declared.data.DiagnosticData.TheVariants as report;
ghost use Rattle.graphql_diagnostics.specs.declared.details.Details.TheVariants as details;
ghost use Rattle.graphql_coordinates.specs.declared.coordinates.SchemaCoordinate.{SchemaCoordinate};
ghost use Rattle.graphql_coordinates.specs.declared.coordinates.SchemaCoordinate.TheVariants as coordinate;
ghost use Rattle.graphql_coordinates.specs.declared.coordinates.TypeAttributeCoordinate.{TypeAttributeCoordinate};
ghost use Rattle.graphql_documents.specs.declared.documents.executables.ExecutableDocument.{ExecutableDocument};
ghost use Rattle.graphql_documents.specs.declared.documents.executables.Field.{Field};
ghost use Rattle.graphql_documents.specs.declared.documents.executables.SelectionSet.{SelectionSet};
ghost use Rattle.graphql_nodes.specs.declared.nodes.Node.{Node};
ghost use Rattle.graphql_documents.specs.declared.documents.schemas.Schema.{Schema};
ghost use Rattle.graphql_nodes.specs.declared.spans.SourceSpan.{SourceSpan};

/// Where no descent in a document passes 500 sets, no report of a limit of its walks is true.
pub fn limit_of_a_shallow_document_is_not_true()
    ensures { (schema : Option Schema) (document : ExecutableDocument) →
        ((walk : Walk) (set : SelectionSet) (depth : ℕ) (visited_fragments : List NameText) →
        Descent (fragments_of document) walk set depth visited_fragments → depth ≤ 500) →
        ¬ DocumentLimit schema document (details.Diagnostic report.RecursionError) None }
{}

/// A missing selection is reported at its field, and at no other place.
///
/// Specification: 5.3.3 Leaf Field Selections.
pub fn report_at_another_place_is_not_true()
    ensures { (schema : Option Schema) (place : Option NameText) (f : Node Field)
        (owner : TypeAttributeCoordinate) (output : NameText) (describe : Bor (List ℕ)) (at : Option SourceSpan) →
        at ≢ f.location → ¬ FieldFormReport schema place f (report.MissingSubselection owner output describe) at }
{}

/// An argument is reported as unknown to its field on the type of the place, and to no other.
///
/// Specification: 5.4.1 Argument Names.
pub fn report_of_another_coordinate_is_not_true()
    ensures { (schema : Option Schema) (parent : NameText) (f : Node Field)
        (name : NameText) (owner : SchemaCoordinate) (location at : Option SourceSpan) →
        owner ≢ coordinate.TypeAttribute (record { ty = parent; attribute = f.value.value.name }) →
        ¬ FieldFormReport schema (Some parent) f (report.UndefinedArgument name owner location) at }
{}
