//! The deprecated elements that arguments and directives use.

ghost use Rattle.std.specs.Prelude.{◌≡◌, IfOk, OnOk};
ghost use Rattle.graphql_deprecations.specs.InOrder.{Adds, ArgumentUses, ArgumentsUse, DirectiveUses, DirectivesUse, KnownArgumentUses, argument_element};

use crate::elements::add_argument;
use crate::reports::{DeprecatedElement, DeprecatedUsage};
use crate::values::add_in_value;
use graphql_coordinates::{DirectiveArgumentCoordinate, FieldArgumentCoordinate};
use graphql_documents::documents::{Argument, Directive, InputValueDefinition, Schema};
use graphql_hash_seeds::HashSeed;
use graphql_name_tables::ByName;
use graphql_nodes::{Name, NamedType, Node, ValidationError};
use std::alloc::Global;

/// What an argument is given to: a field of a type, or a directive.
#[derive(Clone, Copy)]
pub(crate) enum ArgumentOwner<'a> {
    Field(&'a NamedType, &'a Name),
    Directive(&'a Name),
}

impl ArgumentOwner<'_> {
    /// The argument of this name.
    pub(crate) fn element(
        self,
        alloc: Global,
        name: &Name,
    ) -> Result<DeprecatedElement, ValidationError>
        ensures { IfOk result (λ element. element ≡ argument_element self.entry name.now) }
    {
        match self {
            ArgumentOwner::Field(ty, field) => {
                let coordinate = FieldArgumentCoordinate::new(alloc, ty, field, name)?;
                Ok(DeprecatedElement::FieldArgument(coordinate))
            }
            ArgumentOwner::Directive(directive) => {
                let coordinate = DirectiveArgumentCoordinate::new(alloc, directive, name)?;
                Ok(DeprecatedElement::DirectiveArgument(coordinate))
            }
        }
    }
}

/// Adds the uses of the arguments that are given to a field or a directive with these definitions, and those in their values.
pub(crate) fn add_in_arguments(
    found: &mut Vec<DeprecatedUsage>,
    schema: &Schema,
    hash_seed: HashSeed,
    owner: ArgumentOwner<'_>,
    definitions: &[Node<InputValueDefinition>],
    arguments: &[Node<Argument>],
) -> Result<(), ValidationError>
    ensures { OnOk result (Adds (ArgumentsUse schema.now (argument_element owner.entry) definitions.now arguments.now) found.old.items found.new.items) }
{
    let definitions_by_name = ByName::new(
        *found.allocator(),
        hash_seed,
        definitions,
        arguments.len(),
    )?;
    for argument in arguments {
        add_in_argument(found, schema, owner, &definitions_by_name, &argument.value)?;
    }
    Ok(())
}

/// Adds the use of one argument that is given to a field or a directive with these definitions, and those in its value. Adds
/// nothing if the argument is not defined.
fn add_in_argument(
    found: &mut Vec<DeprecatedUsage>,
    schema: &Schema,
    owner: ArgumentOwner<'_>,
    definitions: &ByName<Node<InputValueDefinition>>,
    argument: &Argument,
) -> Result<(), ValidationError>
    ensures { OnOk result (Adds (ArgumentUses schema.now (argument_element owner.entry) definitions.now argument.now) found.old.items found.new.items) }
{
    match definitions.find(&argument.name) {
        Some(definition) => add_in_known_argument(
            found,
            schema,
            owner,
            &definition.value,
            argument,
        ),
        None => Ok(()),
    }
}

fn add_in_known_argument(
    found: &mut Vec<DeprecatedUsage>,
    schema: &Schema,
    owner: ArgumentOwner<'_>,
    definition: &InputValueDefinition,
    argument: &Argument,
) -> Result<(), ValidationError>
    ensures { OnOk result (Adds (KnownArgumentUses schema.now (argument_element owner.entry) argument.now definition.now) found.old.items found.new.items) }
{
    add_argument(found, owner, &argument.name, &definition.directives)?;
    let argument_type = definition.ty.value.inner_named_type();
    add_in_value(found, schema, argument_type, &argument.value.value)
}

/// Adds the uses in the arguments of directives.
pub(crate) fn add_in_directives(
    found: &mut Vec<DeprecatedUsage>,
    schema: &Schema,
    hash_seed: HashSeed,
    directives: &[Node<Directive>],
) -> Result<(), ValidationError>
    ensures { OnOk result (Adds (DirectivesUse schema.now directives.now) found.old.items found.new.items) }
{
    for directive in directives {
        add_in_directive(found, schema, hash_seed, &directive.value)?;
    }
    Ok(())
}

/// Adds the uses in the arguments of one directive. Adds nothing if the directive is not defined.
fn add_in_directive(
    found: &mut Vec<DeprecatedUsage>,
    schema: &Schema,
    hash_seed: HashSeed,
    directive: &Directive,
) -> Result<(), ValidationError>
    ensures { OnOk result (Adds (DirectiveUses schema.now directive.now) found.old.items found.new.items) }
{
    match schema.directive_definitions.get(&directive.name) {
        Some(definition) => add_in_arguments(
            found,
            schema,
            hash_seed,
            ArgumentOwner::Directive(&directive.name),
            &definition.value.arguments,
            &directive.arguments,
        ),
        None => Ok(()),
    }
}
