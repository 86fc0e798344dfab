ghost use Rattle.std.specs.Prelude.{◌≡◌, Some, List, IfOk};
ghost use Rattle.graphql_documents.specs.Schemas.{type_definition};
ghost use Rattle.graphql_documents.specs.TypeReferences.{IsReferenceCopy, inner_named_type};
ghost use Rattle.graphql_specification.specs.Values.{CannotStandFor};
ghost use Rattle.graphql_documents.specs.declared.documents.definitions.VariableDefinition.{VariableDefinition};
ghost use Rattle.graphql_nodes.specs.declared.nodes.Node.{Node};
ghost use Rattle.graphql_documents.specs.declared.documents.schemas.ExtendedType.{ExtendedType};
ghost use Rattle.graphql_documents.specs.declared.documents.schemas.Schema.{Schema};
ghost use Rattle.graphql_documents.specs.declared.documents.type_references.Type.{«Type»};
ghost use Rattle.graphql_values.specs.ValueSteps.{ChecksValue, written_at};

use super::expected::ExpectedType;
use graphql_diagnostics::{Details, DiagnosticData, DiagnosticList};
use graphql_documents::documents::{Type, Value};
use graphql_nodes::{Node, SourceSpan, ValidationError};
use std::alloc::Global;
use std::sync::Arc;

/// Reports that a value cannot stand for the type that is expected.
pub(super) fn unsupported_type(
    diagnostics: &mut DiagnosticList,
    expected: &ExpectedType<'_>,
    value: &Node<Value>,
) -> Result<(), ValidationError>
    ensures { (schema : Schema) (variables : List (Node VariableDefinition)) (whole : «Type») (definition : ExtendedType) →
        type_definition schema (inner_named_type whole) ≡ Some definition →
        CannotStandFor variables whole definition value.now.value.value expected.now.ty.now →
        ChecksValue result schema variables (written_at whole expected.now.location) value.now diagnostics.old diagnostics.new }
{
    let ty = type_node(diagnostics.allocator(), expected.ty, expected.location)?;
    let reported = value.clone()?;
    diagnostics.push(
        value.location,
        Details::Diagnostic(DiagnosticData::UnsupportedValueType {
            value: reported,
            ty,
            definition_location: expected.location,
        }),
    )
}

/// A node of a copy of the type.
fn type_node(
    alloc: Global,
    ty: &Type,
    location: Option<SourceSpan>,
) -> Result<Node<Type>, ValidationError>
    ensures { IfOk result (λ node. IsReferenceCopy (written_at ty.now location) node) }
{
    let copy = ty.clone()?;
    Ok(Node {
        value: Arc::new(alloc, copy)?,
        location,
    })
}
