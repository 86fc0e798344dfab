//! The variables that the operations of a document use and do not define.

ghost use Rattle.std.specs.Prelude.{◌≡◌, All, Any, None, option_to_list};
ghost use Rattle.indexmap.specs.IndexMap.{values};
ghost use Rattle.graphql_documents.specs.Definitions.{variable_named};
ghost use Rattle.graphql_documents.specs.Selections.{fragments_of};
ghost use Rattle.graphql_documents.specs.declared.documents.values.Value.TheVariants as literal;
ghost use Rattle.graphql_reporting.specs.Lists.{Checks};
ghost use Rattle.graphql_usage_rules.specs.UndefinedVariables.{DocumentUndefinedReport, IsDefinedAmong, IsUndefinedReport, OperationUndefinedReport, UsedVariablesAreDefined, VariableUsesAreDefined};

use crate::scopes::variables_in_scope;
use graphql_diagnostics::{Details, DiagnosticData, DiagnosticEntry};
use graphql_documents::documents::{ExecutableDocument, Operation, Value};
use graphql_nodes::{Name, Node, SourceSpan, ValidationError};
use graphql_reporting::ReportList;
use graphql_variables::VariablesByName;

/// Reports each variable that an operation uses and does not define: in its directives, in the selections that it reaches and
/// in the directives of the fragments that it reaches, at any depth of lists and objects. Nothing is reported exactly if each
/// operation defines the variables that it uses.
///
/// A variable in a fragment is reported for each operation that reaches the fragment and does not define the variable. The
/// operation without a name comes before the others, and these come in the order of the text. For one operation, the reports
/// of its directives come first, then those of its own selections, and then those of each fragment that it reaches, once. Old
/// reports stay. The only error is a failed allocation.
///
/// Specification: 5.8.3 All Variable Uses Defined.
pub fn check_undefined_variables(
    reports: &mut ReportList<DiagnosticEntry>,
    document: &ExecutableDocument,
) -> Result<(), ValidationError>
    ensures { Checks result (VariableUsesAreDefined document.now) (DocumentUndefinedReport document.now) reports.old reports.new }
{
    check_anonymous_operation(reports, document)?;
    check_named_operations(reports, document)
}

fn check_anonymous_operation(
    reports: &mut ReportList<DiagnosticEntry>,
    document: &ExecutableDocument,
) -> Result<(), ValidationError>
    ensures { Checks result
        (All (λ o. UsedVariablesAreDefined (fragments_of document.now) o.value.value) (option_to_list document.now.operations.anonymous))
        (λ e. Any (λ o. OperationUndefinedReport (fragments_of document.now) o.value.value e) (option_to_list document.now.operations.anonymous))
        reports.old reports.new }
{
    match &document.operations.anonymous {
        Some(operation) => check_operation(reports, document, &operation.value),
        None => Ok(()),
    }
}

fn check_named_operations(
    reports: &mut ReportList<DiagnosticEntry>,
    document: &ExecutableDocument,
) -> Result<(), ValidationError>
    ensures { Checks result
        (All (λ o. UsedVariablesAreDefined (fragments_of document.now) o.value.value) (values document.now.operations.named))
        (λ e. Any (λ o. OperationUndefinedReport (fragments_of document.now) o.value.value e) (values document.now.operations.named))
        reports.old reports.new }
{
    for operation in document.operations.named.values() {
        check_operation(reports, document, &operation.value)?;
    }
    Ok(())
}

/// Reports the variables in the scope of an operation that it does not define.
fn check_operation(
    reports: &mut ReportList<DiagnosticEntry>,
    document: &ExecutableDocument,
    operation: &Operation,
) -> Result<(), ValidationError>
    ensures { Checks result (UsedVariablesAreDefined (fragments_of document.now) operation.now) (OperationUndefinedReport (fragments_of document.now) operation.now) reports.old reports.new }
{
    let alloc = reports.allocator();
    let defined = VariablesByName::new(alloc, document.hash_seed(), &operation.variables)?;
    let used = variables_in_scope(alloc, document, operation)?;
    check_variables(reports, &defined, &used)
}

/// Reports those of these variables that are not defined.
fn check_variables(
    reports: &mut ReportList<DiagnosticEntry>,
    defined: &VariablesByName,
    used: &[&Node<Value>],
) -> Result<(), ValidationError>
    ensures { Checks result (All (λ v. IsDefinedAmong defined.now v.now) used.now) (λ e. Any (λ v. IsUndefinedReport defined.now v.now e) used.now) reports.old reports.new }
{
    for variable in used {
        check_variable(reports, defined, variable)?;
    }
    Ok(())
}

fn check_variable(
    reports: &mut ReportList<DiagnosticEntry>,
    defined: &VariablesByName,
    value: &Node<Value>,
) -> Result<(), ValidationError>
    ensures { Checks result (IsDefinedAmong defined.now value.now) (IsUndefinedReport defined.now value.now) reports.old reports.new }
{
    let Value::Variable(name) = &*value.value else {
        return Ok(());
    };
    match defined.find(name) {
        Some(_) => Ok(()),
        None => report_undefined(reports, defined, value, name),
    }
}

/// Reports a variable that is not defined, at its place.
fn report_undefined(
    reports: &mut ReportList<DiagnosticEntry>,
    defined: &VariablesByName,
    value: &Node<Value>,
    name: &Name,
) -> Result<(), ValidationError>
    requires variable { value.now.value.value ≡ literal.Variable name.now }
    requires undefined { variable_named name.now defined.now ≡ None }
    ensures { Checks result (IsDefinedAmong defined.now value.now) (IsUndefinedReport defined.now value.now) reports.old reports.new }
{
    let name = name.clone()?;
    let details = Details::Diagnostic(DiagnosticData::UndefinedVariable { name });
    reports.admit(&details)?;
    reports.push(DiagnosticEntry {
        location: value.location,
        details,
    })?;
    Ok(())
}
