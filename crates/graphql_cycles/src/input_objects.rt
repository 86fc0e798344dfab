ghost use Rattle.std.specs.Prelude.{◌≡◌, ◌+◌, ◌∷◌, [], List, OnOk, map};
ghost use Rattle.graphql_diagnostics.specs.Diagnostics.{IsDiagnostic};
ghost use Rattle.graphql_specification.specs.InputObjectCycles.{InputObjectLimit, input_object_depth_limit, HasLongRequiredPath, InputObjectHasNoCycle, IsInputObjectCycle, InputObjectCycleReport};
ghost use Rattle.graphql_diagnostics.specs.Reports.{ChecksWithin};
ghost use Rattle.graphql_documents.specs.declared.documents.definitions.InputValueDefinition.{InputValueDefinition};
ghost use Rattle.graphql_nodes.specs.declared.nodes.Node.{Node};
ghost use Rattle.graphql_guards.specs.Guards.{path_limit, path_of};
ghost use Rattle.graphql_cycles.specs.CycleSearches.{Traces};
ghost use Rattle.graphql_cycles.specs.InputObjectSearches.{BeginsAt, SearchesFor};

use super::steps::{mark, trace_step};
use graphql_diagnostics::{Details, DiagnosticData, DiagnosticList};
use graphql_documents::documents::{InputObjectType, InputValueDefinition, Schema, Type};
use graphql_guards::{CycleError, RecursionStack};
use graphql_hash_seeds::HashSeed;
use graphql_nodes::{Name, Node, ValidationError};
use indexmap::IndexSet;
use std::alloc::Global;

/// Reports an input object that must hold itself, directly or through other input objects, with one cycle:
/// the required fields on the way, from the one that leads back to the input object's own. An input object
/// that only reaches the cycle of another is not reported.
///
/// Where a path of required fields goes through more than 32 input objects before a cycle is found, that is
/// reported instead. The only error is a failed allocation.
///
/// Specification: 3.10 Input Objects, Circular References.
pub fn validate_input_object_cycles(
    diagnostics: &mut DiagnosticList,
    schema: &Schema,
    input_object: &Node<InputObjectType>,
) -> Result<(), ValidationError>
    ensures { ChecksWithin result (InputObjectHasNoCycle schema.now input_object.now)
        (IsDiagnostic (InputObjectCycleReport schema.now input_object.now))
        (λ e. InputObjectLimit schema.now input_object.now e.details e.location) diagnostics.old diagnostics.new }
{
    let alloc = diagnostics.allocator();
    let root = &input_object.value.name;
    let mut path = RecursionStack::with_root(alloc, root.clone()?)?;
    let mut seen = IndexSet::with_hasher(alloc, schema.hash_seed());
    let search = InputObjectSearch {
        alloc,
        schema,
        root,
    };
    let searched = search.search_fields(input_object, &mut path, &mut seen);
    drop(seen);
    drop(path);
    match searched {
        Ok(()) => Ok(()),
        Err(CycleError::Recursed(trace)) => report_cycle(diagnostics, input_object, trace),
        Err(CycleError::Limit) => report_nesting(diagnostics, input_object),
        Err(CycleError::Memory) => Err(ValidationError::OutOfMemory),
    }
}

/// Reports an input object that must hold itself.
fn report_cycle(
    diagnostics: &mut DiagnosticList,
    input_object: &Node<InputObjectType>,
    trace: Vec<Node<InputValueDefinition>>,
) -> Result<(), ValidationError>
    ensures { (schema : Schema) (path : List (Node InputValueDefinition)) →
        IsInputObjectCycle schema input_object.now path → Traces trace.items path →
        ChecksWithin result (InputObjectHasNoCycle schema input_object.now)
        (IsDiagnostic (InputObjectCycleReport schema input_object.now))
        (λ e. InputObjectLimit schema input_object.now e.details e.location) diagnostics.old diagnostics.new }
{
    let name = input_object.value.name.clone()?;
    diagnostics.push(
        input_object.location,
        Details::Diagnostic(DiagnosticData::RecursiveInputObjectDefinition { name, trace }),
    )
}

/// Reports an input object from which a path of required fields goes through too many others.
fn report_nesting(
    diagnostics: &mut DiagnosticList,
    input_object: &Node<InputObjectType>,
) -> Result<(), ValidationError>
    ensures { (schema : Schema) → HasLongRequiredPath schema input_object.now (input_object_depth_limit + 1) →
        ChecksWithin result (InputObjectHasNoCycle schema input_object.now)
        (IsDiagnostic (InputObjectCycleReport schema input_object.now))
        (λ e. InputObjectLimit schema input_object.now e.details e.location) diagnostics.old diagnostics.new }
{
    let name = input_object.value.name.clone()?;
    diagnostics.push(
        input_object.location,
        Details::Diagnostic(DiagnosticData::DeeplyNestedType {
            name,
            describe_type: "input object",
        }),
    )
}

/// What a search for a cycle goes over, and the name that it seeks.
#[derive(Drop)]
struct InputObjectSearch<'schema> {
    alloc: Global,
    schema: &'schema Schema,
    root: &'schema Name,
}

impl<'schema> InputObjectSearch<'schema> {
    /// Searches the input objects that the fields of one require, but no name again that was seen. The
    /// search ends where a field leads back to the root, or the path is full.
    #[cycle(search)]
    fn search_fields(
        &self,
        input_object: &'schema Node<InputObjectType>,
        path: &mut RecursionStack,
        seen: &mut IndexSet<&'schema Name, HashSeed>,
    ) -> Result<(), CycleError<InputValueDefinition>>
        requires { BeginsAt self.now path.old seen.old.keys }
        ensures searches { SearchesFor self.now (map (λ entry. entry.1.node) input_object.now.value.value.fields.entries) path.old seen.old.keys seen.new.keys result }
        ensures path { OnOk result (path_of path.new ≡ path_of path.old) }
        ensures limit { OnOk result (path_limit path.new ≡ path_limit path.old) }
    {
        for (_, field) in &input_object.value.fields {
            self.search_field(&field.node, path, seen)?;
        }
        Ok(())
    }

    /// Searches the input object that a field requires, if there is one and its name was not seen: marks
    /// the name, and searches the fields. The search ends if the field leads back to the root, or if the
    /// path is full.
    #[cycle(search)]
    fn search_field(
        &self,
        field: &'schema Node<InputValueDefinition>,
        path: &mut RecursionStack,
        seen: &mut IndexSet<&'schema Name, HashSeed>,
    ) -> Result<(), CycleError<InputValueDefinition>>
        requires { BeginsAt self.now path.old seen.old.keys }
        ensures searches { SearchesFor self.now (field.now ∷ []) path.old seen.old.keys seen.new.keys result }
        ensures path { OnOk result (path_of path.new ≡ path_of path.old) }
        ensures limit { OnOk result (path_limit path.new ≡ path_limit path.old) }
    {
        let Type::NonNullNamed(name) = &*field.value.ty.value else {
            return Ok(());
        };
        // A name that is no input object's goes on no path, and into no trace.
        let Some(input_object) = self.schema.get_input_object(name) else {
            return Ok(());
        };
        let leads_back = name == self.root;
        if leads_back {
            return Err(trace_step(CycleError::Recursed(Vec::new(self.alloc)), field));
        }
        // Each name on the path but the root's is marked, so what is there is passed over too.
        if !mark(seen, name)? {
            return Ok(());
        }
        path.enter(name)?;
        match self.search_fields(input_object, path, seen) {
            Ok(()) => {
                path.leave();
                Ok(())
            }
            Err(error) => Err(trace_step(error, field)),
        }
    }
}
