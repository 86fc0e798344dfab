//! Directive definitions.

ghost use Rattle.std.specs.Prelude.{◌≡◌, ◌↔◌, All, Contains, IsFalse, IsNone, IsSome, IsTrue, OnOk, Some};
ghost use Rattle.graphql_documents.specs.Directives.{directive_definition};
ghost use Rattle.graphql_change_kinds.specs.Changes.{IsApplicable, IsApplicableIf, IsDirectiveNamed};
ghost use Rattle.graphql_change_kinds.specs.Found.{Adds, Finds};
ghost use Rattle.graphql_schema_comparison.specs.Comparisons.{KeepsApplications, KeepsDirectiveNamed, KeepsLocation};

use graphql_change_kinds::{Change, ChangeList, Places, SchemaPair};
use graphql_coordinates::DirectiveCoordinate;
use graphql_documents::documents::DirectiveDefinition;
use graphql_input_comparison::{Owner, compare_arguments};
use graphql_nodes::{DirectiveLocation, Name, Node, SourceSpan, ValidationError};
use graphql_schema_parts::is_executable_location;

/// Finds the changes of directive definitions. If none breaks documents, each application in a document that was valid still is.
///
/// Specification: 3.13 Directives; 5.7 Directives.
pub(crate) fn compare_directives(
    changes: &mut ChangeList,
    pair: SchemaPair<'_>,
) -> Result<(), ValidationError>
    ensures { OnOk result (Finds pair.entry.old.now pair.entry.new.now changes.old changes.new (λ merging.
        All (λ entry. KeepsDirectiveNamed pair.entry.new.now entry.0 entry.1) pair.entry.old.now.directive_definitions.entries)) }
{
    compare_old_directives(changes, pair)?;
    find_added_directives(changes, pair)?;
    Ok(())
}

fn compare_old_directives(
    changes: &mut ChangeList,
    pair: SchemaPair<'_>,
) -> Result<(), ValidationError>
    ensures { OnOk result (Finds pair.entry.old.now pair.entry.new.now changes.old changes.new (λ merging.
        All (λ entry. KeepsDirectiveNamed pair.entry.new.now entry.0 entry.1) pair.entry.old.now.directive_definitions.entries)) }
{
    for (name, directive) in &pair.old.directive_definitions {
        compare_old_directive(changes, pair, name, directive)?;
    }
    Ok(())
}

fn compare_old_directive(
    changes: &mut ChangeList,
    pair: SchemaPair<'_>,
    name: &Name,
    old: &Node<DirectiveDefinition>,
) -> Result<(), ValidationError>
    requires { directive_definition pair.old.now name.now ≡ Some old.now }
    ensures { OnOk result (Finds pair.entry.old.now pair.entry.new.now changes.old changes.new (λ merging. KeepsDirectiveNamed pair.entry.new.now name.now old.now)) }
{
    let is_executable = is_executable(&old.value);
    match pair.new.directive_definitions.get(name) {
        Some(new) => {
            compare_two_directives(changes, pair, name, is_executable, old, new)?;
            Ok(())
        }
        None => {
            push_removed_directive(changes, pair, name, is_executable, old)?;
            Ok(())
        }
    }
}

fn push_removed_directive(
    changes: &mut ChangeList,
    pair: SchemaPair<'_>,
    name: &Name,
    is_executable: bool,
    old: &Node<DirectiveDefinition>,
) -> Result<(), ValidationError>
    requires applicable { IsApplicableIf pair.old.now name.now is_executable }
    requires gone { IsNone (directive_definition pair.new.now name.now) }
    ensures { OnOk result (Finds pair.entry.old.now pair.entry.new.now changes.old changes.new (λ merging. IsFalse is_executable)) }
{
    let directive = DirectiveCoordinate::new(changes.allocator(), name)?;
    let places = Places {
        old: place_of_directive(old),
        new: None,
    };
    changes.push(
        pair,
        Change::DirectiveRemoved {
            directive,
            is_executable,
        },
        places,
    )?;
    Ok(())
}

fn find_added_directives(
    changes: &mut ChangeList,
    pair: SchemaPair<'_>,
) -> Result<(), ValidationError>
    ensures { OnOk result (Adds pair.entry.old.now pair.entry.new.now changes.old changes.new) }
{
    for (name, directive) in &pair.new.directive_definitions {
        find_added_directive(changes, pair, name, directive)?;
    }
    Ok(())
}

fn find_added_directive(
    changes: &mut ChangeList,
    pair: SchemaPair<'_>,
    name: &Name,
    directive: &Node<DirectiveDefinition>,
) -> Result<(), ValidationError>
    requires { IsSome (directive_definition pair.new.now name.now) }
    ensures { OnOk result (Adds pair.entry.old.now pair.entry.new.now changes.old changes.new) }
{
    if pair.old.directive_definitions.contains_key(name) {
        return Ok(());
    }
    let coordinate = DirectiveCoordinate::new(changes.allocator(), name)?;
    let places = Places {
        old: None,
        new: place_of_directive(directive),
    };
    changes.push(pair, Change::DirectiveAdded(coordinate), places)?;
    Ok(())
}

/// Finds whether documents can apply the new directive wherever and as often as the old one, with the same arguments.
fn compare_two_directives(
    changes: &mut ChangeList,
    pair: SchemaPair<'_>,
    name: &Name,
    is_executable: bool,
    old: &Node<DirectiveDefinition>,
    new: &Node<DirectiveDefinition>,
) -> Result<(), ValidationError>
    requires was { directive_definition pair.old.now name.now ≡ Some old.now }
    requires is { directive_definition pair.new.now name.now ≡ Some new.now }
    requires applicable { IsApplicableIf pair.old.now name.now is_executable }
    ensures { OnOk result (Finds pair.entry.old.now pair.entry.new.now changes.old changes.new (λ merging. IsTrue is_executable → KeepsApplications old.now.value.value new.now.value.value)) }
{
    let places = Places {
        old: place_of_directive(old),
        new: place_of_directive(new),
    };
    compare_repeatable(
        changes,
        pair,
        name,
        is_executable,
        places,
        &old.value,
        &new.value,
    )?;
    compare_locations(changes, pair, name, places, &old.value, &new.value)?;
    find_added_locations(changes, pair, name, places, &old.value, &new.value)?;
    let owner = Owner::Directive {
        directive: name,
        is_executable,
    };
    compare_arguments(
        changes,
        pair,
        owner,
        places,
        &old.value.arguments,
        &new.value.arguments,
    )?;
    Ok(())
}

/// Finds whether a directive that could be repeated still can.
fn compare_repeatable(
    changes: &mut ChangeList,
    pair: SchemaPair<'_>,
    name: &Name,
    is_executable: bool,
    places: Places,
    old: &DirectiveDefinition,
    new: &DirectiveDefinition,
) -> Result<(), ValidationError>
    requires was { IsDirectiveNamed pair.old.now name.now old.now }
    requires is { IsDirectiveNamed pair.new.now name.now new.now }
    requires applicable { IsApplicableIf pair.old.now name.now is_executable }
    ensures { OnOk result (Finds pair.entry.old.now pair.entry.new.now changes.old changes.new (λ merging. IsTrue is_executable → IsTrue old.now.repeatable → IsTrue new.now.repeatable)) }
{
    if old.repeatable == new.repeatable {
        return Ok(());
    }
    let directive = DirectiveCoordinate::new(changes.allocator(), name)?;
    if old.repeatable {
        changes.push(
            pair,
            Change::RepeatableRemoved {
                directive,
                is_executable,
            },
            places,
        )?;
        Ok(())
    } else {
        changes.push(pair, Change::RepeatableAdded(directive), places)?;
        Ok(())
    }
}

/// Finds whether each old location in documents is there.
fn compare_locations(
    changes: &mut ChangeList,
    pair: SchemaPair<'_>,
    name: &Name,
    places: Places,
    old: &DirectiveDefinition,
    new: &DirectiveDefinition,
) -> Result<(), ValidationError>
    requires was { IsDirectiveNamed pair.old.now name.now old.now }
    requires is { IsDirectiveNamed pair.new.now name.now new.now }
    ensures { OnOk result (Finds pair.entry.old.now pair.entry.new.now changes.old changes.new (λ merging. All (KeepsLocation new.now) old.now.locations.items)) }
{
    for location in &old.locations {
        compare_location(changes, pair, name, places, location, old, new)?;
    }
    Ok(())
}

fn compare_location(
    changes: &mut ChangeList,
    pair: SchemaPair<'_>,
    name: &Name,
    places: Places,
    location: &DirectiveLocation,
    old: &DirectiveDefinition,
    new: &DirectiveDefinition,
) -> Result<(), ValidationError>
    requires was { IsDirectiveNamed pair.old.now name.now old.now }
    requires is { IsDirectiveNamed pair.new.now name.now new.now }
    requires contained { Contains old.now.locations.items location.now }
    ensures { OnOk result (Finds pair.entry.old.now pair.entry.new.now changes.old changes.new (λ merging. KeepsLocation new.now location.now)) }
{
    if new.locations.contains(location) {
        return Ok(());
    }
    let directive = DirectiveCoordinate::new(changes.allocator(), name)?;
    changes.push(
        pair,
        Change::LocationRemoved {
            directive,
            location: *location,
        },
        places,
    )?;
    Ok(())
}

fn find_added_locations(
    changes: &mut ChangeList,
    pair: SchemaPair<'_>,
    name: &Name,
    places: Places,
    old: &DirectiveDefinition,
    new: &DirectiveDefinition,
) -> Result<(), ValidationError>
    requires was { IsDirectiveNamed pair.old.now name.now old.now }
    requires is { IsDirectiveNamed pair.new.now name.now new.now }
    ensures { OnOk result (Adds pair.entry.old.now pair.entry.new.now changes.old changes.new) }
{
    for location in &new.locations {
        find_added_location(changes, pair, name, places, old, location, new)?;
    }
    Ok(())
}

fn find_added_location(
    changes: &mut ChangeList,
    pair: SchemaPair<'_>,
    name: &Name,
    places: Places,
    old: &DirectiveDefinition,
    location: &DirectiveLocation,
    new: &DirectiveDefinition,
) -> Result<(), ValidationError>
    requires was { IsDirectiveNamed pair.old.now name.now old.now }
    requires is { IsDirectiveNamed pair.new.now name.now new.now }
    requires contained { Contains new.now.locations.items location.now }
    ensures { OnOk result (Adds pair.entry.old.now pair.entry.new.now changes.old changes.new) }
{
    if old.locations.contains(location) {
        return Ok(());
    }
    let directive = DirectiveCoordinate::new(changes.allocator(), name)?;
    changes.push(
        pair,
        Change::LocationAdded {
            directive,
            location: *location,
        },
        places,
    )?;
    Ok(())
}

/// Whether documents can apply the directive.
fn is_executable(directive: &DirectiveDefinition) -> bool
    ensures { IsTrue result ↔ IsApplicable directive.now }
{
    directive
        .locations
        .iter()
        .any(|location| is_executable_location(*location))
}

/// The place of a directive's name.
fn place_of_directive(directive: &Node<DirectiveDefinition>) -> Option<SourceSpan> {
    directive.value.name.location().or(directive.location)
}
