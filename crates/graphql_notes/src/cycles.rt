//! The way round a cycle, step by step.

ghost use Rattle.std.specs.Prelude.{◌≡◌, ◌∷◌, ◌++◌, [], IfOk, OnOk, map};
ghost use Rattle.graphql_notes.specs.Cycles.{application_step, cycle_labels, input_field_step, refers, spread_step, step_of};
ghost use Rattle.graphql_notes.specs.Labels.{AreNotes, label, label_of, labels_beside};

use crate::notes::{Note, add_note};
use graphql_documents::documents::definitions::InputValueDefinition;
use graphql_documents::documents::directives::Directive;
use graphql_documents::documents::executables::FragmentSpread;
use graphql_nodes::{Name, Node, SourceSpan};
use std::alloc::{AllocError, Global};

/// A reference to a definition, which is a step of a way.
#[derive(Clone, Copy)]
pub(crate) struct Reference<'a> {
    pub(crate) place: Option<SourceSpan>,
    pub(crate) target: &'a Name,
}

/// Of a cycle through the definition of this name, each step. The references lead back to it, the last one first.
pub(crate) fn notes_of_cycle(
    alloc: Global,
    at: Option<SourceSpan>,
    name: &Name,
    references: &[Reference<'_>],
) -> Result<Vec<Note>, AllocError>
    ensures { IfOk result (λ notes. AreNotes at (cycle_labels name.now (map step_of references.now)) notes.items) }
{
    let mut notes = Vec::new(alloc);
    let mut source = name;
    let count = references.len();
    for done in 0..count {
        let reference = references[count - 1 - done];
        add_step(&mut notes, alloc, at, source, reference)?;
        source = reference.target;
    }
    Ok(notes)
}

/// Adds that this definition refers to another.
fn add_step(
    notes: &mut Vec<Note>,
    alloc: Global,
    at: Option<SourceSpan>,
    source: &Name,
    reference: Reference<'_>,
) -> Result<(), AllocError>
    ensures { OnOk result (map label_of notes.new.items ≡ map label_of notes.old.items ++ labels_beside at (label reference.entry.place (refers source.now reference.entry.target.now) ∷ [])) }
{
    let target = reference.target;
    let message = format!(in alloc; "`{source}` refers to `{target}` here")?;
    add_note(notes, at, reference.place, message)
}

/// The fragments to which spreads refer.
pub(crate) fn spread_references<'a>(
    alloc: Global,
    spreads: &'a [Node<FragmentSpread>],
) -> Result<Vec<Reference<'a>>, AllocError>
    ensures { IfOk result (λ references. map step_of references.items ≡ map spread_step spreads.now) }
{
    let mut references = Vec::new(alloc);
    for spread in spreads {
        references.push(Reference {
            place: spread.location,
            target: &spread.value.fragment_name,
        })?;
    }
    Ok(references)
}

/// The types to which input fields refer.
pub(crate) fn input_field_references<'a>(
    alloc: Global,
    fields: &'a [Node<InputValueDefinition>],
) -> Result<Vec<Reference<'a>>, AllocError>
    ensures { IfOk result (λ references. map step_of references.items ≡ map input_field_step fields.now) }
{
    let mut references = Vec::new(alloc);
    for field in fields {
        references.push(Reference {
            place: field.location,
            target: field.value.ty.value.inner_named_type(),
        })?;
    }
    Ok(references)
}

/// The directives that are applied.
pub(crate) fn application_references<'a>(
    alloc: Global,
    directives: &'a [Node<Directive>],
) -> Result<Vec<Reference<'a>>, AllocError>
    ensures { IfOk result (λ references. map step_of references.items ≡ map application_step directives.now) }
{
    let mut references = Vec::new(alloc);
    for directive in directives {
        references.push(Reference {
            place: directive.location,
            target: &directive.value.name,
        })?;
    }
    Ok(references)
}
