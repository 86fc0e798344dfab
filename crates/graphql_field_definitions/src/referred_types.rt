ghost use Rattle.std.specs.Prelude.{◌≡◌, ◌∷◌, ◌++◌, [], OnErr, OnOk};
ghost use Rattle.graphql_diagnostics.specs.Diagnostics.{entries};
ghost use Rattle.graphql_diagnostics.specs.declared.data.DiagnosticData.TheVariants as report;
ghost use Rattle.graphql_diagnostics.specs.declared.details.Details.TheVariants.{Diagnostic};

use graphql_diagnostics::{Details, DiagnosticData, DiagnosticList};
use graphql_nodes::{NamedType, ValidationError};

/// Reports, at the name, that it stands for no type.
pub fn report_undefined_type(
    diagnostics: &mut DiagnosticList,
    name: &NamedType,
) -> Result<(), ValidationError>
    ensures ok { OnOk result (entries diagnostics.new ≡ entries diagnostics.old ++ record { location = name.now.location; details = Diagnostic (report.UndefinedDefinition name.now) } ∷ []) }
    ensures err { OnErr result (entries diagnostics.new ≡ entries diagnostics.old) }
{
    let undefined = name.clone()?;
    diagnostics.push(
        name.location(),
        Details::Diagnostic(DiagnosticData::UndefinedDefinition { name: undefined }),
    )
}
