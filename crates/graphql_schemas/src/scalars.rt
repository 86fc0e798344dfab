ghost use Rattle.graphql_diagnostics.specs.Diagnostics.{IsDiagnostic};
ghost use Rattle.graphql_diagnostics.specs.Reports.{Checks};
ghost use Rattle.graphql_specification.specs.Types.{ScalarHolds, TypeReport};
ghost use Rattle.graphql_documents.specs.declared.documents.schemas.ExtendedType.TheVariants as types;

use graphql_diagnostics::DiagnosticList;
use graphql_documents::documents::{ScalarType, Schema};
use graphql_field_definitions::definition_directives::validate_component_directives;
use graphql_field_definitions::names::is_built_in;
use graphql_nodes::{DirectiveLocation, Node, ValidationError};

/// Validates a scalar: the directives on it, unless it is one that every schema has. The only error is a
/// failed allocation.
///
/// Specification: 3.5 Scalars.
pub fn validate_scalar_definition(
    diagnostics: &mut DiagnosticList,
    schema: &Schema,
    scalar: &Node<ScalarType>,
) -> Result<(), ValidationError>
    ensures { Checks result (ScalarHolds schema.now scalar.now)
        (IsDiagnostic (TypeReport schema.now (types.Scalar scalar.now))) diagnostics.old diagnostics.new }
{
    if is_built_in(scalar.location) {
        return Ok(());
    }
    validate_component_directives(
        diagnostics,
        schema,
        &scalar.value.directives,
        DirectiveLocation::Scalar,
    )
}
