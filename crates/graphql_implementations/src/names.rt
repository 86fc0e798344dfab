ghost use Rattle.std.specs.Prelude.{Contains};
ghost use Rattle.graphql_diagnostics.specs.Diagnostics.{IsDiagnostic};
ghost use Rattle.graphql_specification.specs.Implementations.{InterfacesReport, IsListedInterface, ListedInterfacesAreDefined, ListsTransitiveInterfaces};
ghost use Rattle.graphql_diagnostics.specs.Reports.{Checks};
ghost use Rattle.graphql_documents.specs.Schemas.{IsListed};
ghost use Rattle.graphql_nodes.specs.declared.nodes.Node.{Node};
ghost use Rattle.graphql_documents.specs.declared.documents.schemas.InterfaceType.{InterfaceType};
ghost use Rattle.graphql_implementations.specs.ImplementationSteps.{ListingReport, ListsAllOf, NamesInterface};

use graphql_diagnostics::{Details, DiagnosticData, DiagnosticList};
use graphql_documents::documents::{ComponentName, Schema};
use graphql_hash_seeds::HashSeed;
use graphql_nodes::{Name, SourceSpan, ValidationError};
use indexmap::IndexSet;

/// The interfaces that a type lists, which has this name and location.
#[derive(Drop)]
struct ListedInterfaces<'a> {
    schema: &'a Schema,
    owner: &'a Name,
    location: Option<SourceSpan>,
    names: &'a IndexSet<ComponentName, HashSeed>,
}

/// Validates the names of interfaces that a type lists, which has this name and location: first that each is
/// that of an interface, then that what each of these lists is listed too. The only error is a failed
/// allocation.
///
/// Specification: 3.6 Objects, IsValidImplementation.
pub fn validate_implements_interfaces(
    diagnostics: &mut DiagnosticList,
    schema: &Schema,
    name: &Name,
    location: Option<SourceSpan>,
    interfaces: &IndexSet<ComponentName, HashSeed>,
) -> Result<(), ValidationError>
    ensures { Checks result
        (ListedInterfacesAreDefined schema.now interfaces.now.keys × ListsTransitiveInterfaces schema.now interfaces.now.keys)
        (IsDiagnostic (InterfacesReport schema.now name.now location interfaces.now.keys)) diagnostics.old diagnostics.new }
{
    let listed = ListedInterfaces {
        schema,
        owner: name,
        location,
        names: interfaces,
    };
    listed.check_defined(diagnostics)?;
    listed.check_transitive(diagnostics)
}

impl ListedInterfaces<'_> {
    /// Reports each name that is not that of an interface.
    fn check_defined(&self, diagnostics: &mut DiagnosticList) -> Result<(), ValidationError>
        ensures { Checks result (ListedInterfacesAreDefined self.now.schema.now self.now.names.now.keys)
            (IsDiagnostic (ListingReport self.now)) diagnostics.old diagnostics.new }
    {
        for listed in self.names.as_slice() {
            self.check_is_interface(diagnostics, listed)?;
        }
        Ok(())
    }

    /// Reports a name that is not that of an interface, where it is listed.
    fn check_is_interface(
        &self,
        diagnostics: &mut DiagnosticList,
        listed: &ComponentName,
    ) -> Result<(), ValidationError>
        requires { Contains self.now.names.now.keys listed.now }
        ensures { Checks result (NamesInterface self.now.schema.now listed.now.name)
            (IsDiagnostic (ListingReport self.now)) diagnostics.old diagnostics.new }
    {
        if self.schema.get_interface(&listed.name).is_some() {
            return Ok(());
        }
        let name = listed.name.clone()?;
        diagnostics.push(
            listed.name.location(),
            Details::Diagnostic(DiagnosticData::UndefinedDefinition { name }),
        )
    }

    /// Reports what the interfaces list and the type does not.
    fn check_transitive(&self, diagnostics: &mut DiagnosticList) -> Result<(), ValidationError>
        ensures { Checks result (ListsTransitiveInterfaces self.now.schema.now self.now.names.now.keys)
            (IsDiagnostic (ListingReport self.now)) diagnostics.old diagnostics.new }
    {
        for listed in self.names.as_slice() {
            self.check_lists_all_of(diagnostics, listed)?;
        }
        Ok(())
    }

    /// Reports what the interface of a listed name lists and the type does not.
    fn check_lists_all_of(
        &self,
        diagnostics: &mut DiagnosticList,
        listed: &ComponentName,
    ) -> Result<(), ValidationError>
        requires { Contains self.now.names.now.keys listed.now }
        ensures { Checks result (ListsAllOf self.now.schema.now self.now.names.now.keys listed.now)
            (IsDiagnostic (ListingReport self.now)) diagnostics.old diagnostics.new }
    {
        let Some(interface) = self.schema.get_interface(&listed.name) else {
            return Ok(());
        };
        for further in interface.value.implements_interfaces.as_slice() {
            self.check_is_listed(diagnostics, listed, further)?;
        }
        Ok(())
    }

    /// Reports a name in the list of a listed interface that the type does not list, at the type.
    fn check_is_listed(
        &self,
        diagnostics: &mut DiagnosticList,
        listed: &ComponentName,
        further: &ComponentName,
    ) -> Result<(), ValidationError>
        requires { (d : Node InterfaceType) × IsListedInterface self.now.schema.now self.now.names.now.keys listed.now d ×
            Contains d.value.value.implements_interfaces.keys further.now }
        ensures { Checks result (IsListed further.now.name self.now.names.now.keys)
            (IsDiagnostic (ListingReport self.now)) diagnostics.old diagnostics.new }
    {
        if self.names.contains(&further.name) {
            return Ok(());
        }
        let interface = self.owner.clone()?;
        let via_interface = listed.name.clone()?;
        let missing_interface = further.name.clone()?;
        diagnostics.push(
            self.location,
            Details::Diagnostic(DiagnosticData::TransitiveImplementedInterfaces {
                interface,
                via_interface,
                missing_interface,
                transitive_interface_location: further.name.location(),
            }),
        )
    }
}
