ghost use Rattle.std.specs.Option.{option_copied};
ghost use Rattle.std.specs.Prelude.{◌≡◌, [], All, OnOk};
ghost use Rattle.graphql_documents.specs.Executables.{operations_of};
ghost use Rattle.graphql_diagnostics.specs.Diagnostics.{IsDiagnostic, entries};
ghost use Rattle.graphql_specification.specs.Operations.{OperationReport, OperationsReport, OperationHolds, operation_location, root_type, OperationLimit, OperationsLimit};
ghost use Rattle.graphql_rules.specs.RuleSets.{HoldsIfOthersAreSilent, OperationHoldsBut};
ghost use Rattle.graphql_diagnostics.specs.Reports.{ChecksWithin};
ghost use Rattle.graphql_operations.specs.Contexts.{IsAgainst, visited_fragment_names, parent_of, schema_of, variables_of};

use super::walk::walk_selection_set;
use graphql_diagnostics::DiagnosticList;
use graphql_documents::documents::{ExecutableDocument, Operation, Schema};
use graphql_nesting::DocumentLevels;
use graphql_nodes::{DirectiveLocation, NamedType, OperationType, ValidationError};
use graphql_operations::{OperationValidationContext, operations_of};
use graphql_values::directive::{check_each_directive, validate_variable_definitions};
use graphql_variables::{VariablesByName, validate_unused_variables};

/// Validates the operations of a document, each with the fragments that it reaches: the one without a name,
/// then the others in order. The only error is a failed allocation.
///
/// If unused variables alone are reported, all other rules of operations hold (`others`).
///
/// Specification: 5.2 Operations.
pub fn validate_operation_definitions(
    diagnostics: &mut DiagnosticList,
    document: &ExecutableDocument,
    schema: Option<&Schema>,
) -> Result<(), ValidationError>
    ensures checks { ChecksWithin result (All (λ o. OperationHolds (option_copied schema.entry) document.now o.value.value) (operations_of document.now))
        (IsDiagnostic (OperationsReport (option_copied schema.entry) document.now))
        (λ e. OperationsLimit document.now e.details e.location)
        diagnostics.old diagnostics.new }
    ensures others { OnOk result (HoldsIfOthersAreSilent (λ off. All (λ o. OperationHoldsBut off (option_copied schema.entry) document.now o.value.value) (operations_of document.now))
        (entries diagnostics.old) (entries diagnostics.new)) }
{
    let alloc = diagnostics.allocator();
    let operations = operations_of(alloc, document)?;
    let levels = DocumentLevels::find(alloc, document)?;
    let hash_seed = document.hash_seed();
    let none = VariablesByName::new(alloc, hash_seed, &[])?;
    let mut context = OperationValidationContext::new(alloc, hash_seed, schema, none);
    for operation in &operations {
        let variables = VariablesByName::new(alloc, hash_seed, &operation.value.variables)?;
        context = context.next(alloc, variables);
        check_operation(diagnostics, &levels, &operation.value, &mut context)?;
    }
    Ok(())
}

/// Validates an operation with the fragments that it reaches.
///
/// Reports come in this order: of its directives; of the definitions of its variables; its unused variables;
/// and of its selections, each with what is below it. The only error is a failed allocation.
///
/// Specification: 5.2 Operations; 5.8 Variables.
pub fn validate_operation(
    diagnostics: &mut DiagnosticList,
    document: &ExecutableDocument,
    operation: &Operation,
    schema: Option<&Schema>,
) -> Result<(), ValidationError>
    ensures { ChecksWithin result (OperationHolds (option_copied schema.entry) document.now operation.now)
        (IsDiagnostic (OperationReport (option_copied schema.entry) document.now operation.now))
        (λ e. OperationLimit document.now operation.now e.details e.location)
        diagnostics.old diagnostics.new }
{
    let alloc = diagnostics.allocator();
    let hash_seed = document.hash_seed();
    let variables = VariablesByName::new(alloc, hash_seed, &operation.variables)?;
    let mut context = OperationValidationContext::new(alloc, hash_seed, schema, variables);
    let levels = DocumentLevels::unknown(document);
    check_operation(diagnostics, &levels, operation, &mut context)
}

/// Validates an operation in a context of its own.
fn check_operation<'a>(
    diagnostics: &mut DiagnosticList,
    document: &DocumentLevels<'a>,
    operation: &'a Operation,
    context: &mut OperationValidationContext<'a>,
) -> Result<(), ValidationError>
    requires variables { variables_of context.old ≡ operation.now.variables.items }
    requires visited_fragments { visited_fragment_names context.old ≡ [] }
    ensures checks { ChecksWithin result (OperationHolds (schema_of context.old) document.now.document.now operation.now)
        (IsDiagnostic (OperationReport (schema_of context.old) document.now.document.now operation.now))
        (λ e. OperationLimit document.now.document.now operation.now e.details e.location)
        diagnostics.old diagnostics.new }
    ensures others { OnOk result (HoldsIfOthersAreSilent (λ off. OperationHoldsBut off (schema_of context.old) document.now.document.now operation.now)
        (entries diagnostics.old) (entries diagnostics.new)) }
    ensures schema { schema_of context.new ≡ schema_of context.old }
{
    let root = root_of(context.schema, operation);
    check_each_directive(
        diagnostics,
        context.schema,
        &operation.directives,
        location_of(operation.operation_type),
        &context.variables,
    )?;
    validate_variable_definitions(diagnostics, context.schema, &operation.variables)?;
    validate_unused_variables(diagnostics, document.document, operation)?;
    walk_selection_set(
        diagnostics,
        document,
        root,
        &operation.selection_set,
        context,
    )
}

/// Where the directives of an operation are.
fn location_of(operation_type: OperationType) -> DirectiveLocation
    ensures { result ≡ operation_location operation_type }
{
    match operation_type {
        OperationType::Query => DirectiveLocation::Query,
        OperationType::Mutation => DirectiveLocation::Mutation,
        OperationType::Subscription => DirectiveLocation::Subscription,
    }
}

/// The type on which the selections of an operation are, if the schema names that root.
fn root_of<'a>(
    schema: Option<&'a Schema>,
    operation: &Operation,
) -> Option<(&'a Schema, &'a NamedType)>
    ensures root { parent_of result ≡ root_type (option_copied schema.entry) operation.now }
    ensures against { IsAgainst (option_copied schema.entry) result }
{
    let schema = schema?;
    let roots = &schema.schema_definition.value;
    let root = match operation.operation_type {
        OperationType::Query => roots.query.as_ref(),
        OperationType::Mutation => roots.mutation.as_ref(),
        OperationType::Subscription => roots.subscription.as_ref(),
    };
    match root {
        Some(root) => Some((schema, &root.name)),
        None => None,
    }
}
