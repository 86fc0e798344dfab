//! What of definitions of the type system is at fault.

ghost use Rattle.std.specs.Prelude.{◌≡◌, IsFalse, OnOk};
ghost use Rattle.graphql_kept_texts.specs.Faults.{HasNothing};

use crate::cuts::Cut;
use crate::faults::Faults;
use crate::members::Members;
use crate::rooms::{cut_at, part_at};
use graphql_blanks::Part;
use graphql_nodes::{Name, SourceSpan};
use graphql_trees::{Directive, DirectiveDefinition, SchemaDefinition, TypeDefinition};
use std::alloc::AllocError;

/// What a definition needs to be one.
#[derive(Clone, Copy)]
enum Need {
    /// Its name alone.
    Name,
    /// A directive, an interface or a member: it is an extension.
    Part,
    /// A member.
    Member,
}

/// The parts of a definition of a type or of a schema, or of an extension.
#[derive(Clone, Copy)]
struct Parts<'a> {
    span: SourceSpan,
    name: Option<&'a Name>,
    interfaces: Members<'a>,
    directives: &'a [Directive],
    members: Members<'a>,
    need: Need,
}

impl Parts<'_> {
    /// Whether it is at fault as a whole.
    fn is_at_fault(self, faults: &Faults) -> bool
        ensures { HasNothing faults.now → IsFalse result }
    {
        faults.has(self.span) || self.has_name_at_fault(faults)
    }

    fn has_name_at_fault(self, faults: &Faults) -> bool
        ensures { HasNothing faults.now → IsFalse result }
    {
        match self.name {
            Some(name) => faults.has_name(name),
            None => false,
        }
    }

    /// Whether something in it is at fault.
    fn has_fault(self, faults: &Faults) -> bool
        ensures { HasNothing faults.now → IsFalse result }
    {
        self.interfaces.has_fault(faults) || self.members.has_fault(faults)
    }

    /// From its name up to the last interface.
    fn implements(self) -> Part {
        let start = self.name_end();
        Part {
            start,
            end: self.interfaces.end().unwrap_or(start),
        }
    }

    /// All that comes after its directives.
    fn body(self) -> Part {
        let start = match self.directives.last() {
            Some(directive) => part_at(directive.span).end,
            None => self.implements().end,
        };
        Part {
            start,
            end: part_at(self.span).end,
        }
    }

    /// The end of its name, or of the whole if it has none.
    fn name_end(self) -> usize {
        let whole = part_at(self.span).end;
        match self.name {
            Some(name) => name.location().map_or(whole, |place| part_at(place).end),
            None => whole,
        }
    }

    /// Cuts what is at fault in it, and the whole if nothing is left of it.
    fn cut_inside(self, faults: &Faults, cuts: &mut Vec<Cut>) -> Result<(), AllocError> {
        let before = cuts.len();
        let keeps_interface = self.interfaces.cut(faults, self.implements(), cuts)?;
        let keeps_member = self.members.cut(faults, self.body(), cuts)?;
        let is_left = match self.need {
            Need::Name => true,
            Need::Part => keeps_interface || keeps_member || !self.directives.is_empty(),
            Need::Member => keeps_member,
        };
        if is_left {
            return Ok(());
        }
        cuts.truncate(before);
        cut_at(self.span, cuts)
    }
}

/// Cuts a definition of a type that is at fault, or whose name is; of another one what is at fault in it.
pub(crate) fn cut_type(
    faults: &Faults,
    definition: &TypeDefinition,
    cuts: &mut Vec<Cut>,
) -> Result<(), AllocError>
    ensures { HasNothing faults.now → OnOk result (cuts.new.items ≡ cuts.old.items) }
{
    cut_parts(faults, parts_of(definition, Need::Name), cuts)
}

/// The same of an extension of a type. If nothing is left of it, it is cut as a whole.
pub(crate) fn cut_type_extension(
    faults: &Faults,
    extension: &TypeDefinition,
    cuts: &mut Vec<Cut>,
) -> Result<(), AllocError>
    ensures { HasNothing faults.now → OnOk result (cuts.new.items ≡ cuts.old.items) }
{
    cut_parts(faults, parts_of(extension, Need::Part), cuts)
}

/// Cuts a definition of the schema that is at fault; of another one the root operations that are.
pub(crate) fn cut_schema(
    faults: &Faults,
    definition: &SchemaDefinition,
    cuts: &mut Vec<Cut>,
) -> Result<(), AllocError>
    ensures { HasNothing faults.now → OnOk result (cuts.new.items ≡ cuts.old.items) }
{
    cut_parts(faults, parts_of_schema(definition, Need::Member), cuts)
}

/// The same of an extension of the schema. If nothing is left of it, it is cut as a whole.
pub(crate) fn cut_schema_extension(
    faults: &Faults,
    extension: &SchemaDefinition,
    cuts: &mut Vec<Cut>,
) -> Result<(), AllocError>
    ensures { HasNothing faults.now → OnOk result (cuts.new.items ≡ cuts.old.items) }
{
    cut_parts(faults, parts_of_schema(extension, Need::Part), cuts)
}

/// Cuts the definition of a directive that is at fault, or whose name is.
pub(crate) fn cut_directive(
    faults: &Faults,
    definition: &DirectiveDefinition,
    cuts: &mut Vec<Cut>,
) -> Result<(), AllocError>
    ensures { HasNothing faults.now → OnOk result (cuts.new.items ≡ cuts.old.items) }
{
    if faults.has(definition.span) || faults.has_name(&definition.name) {
        cut_at(definition.span, cuts)?;
    }
    Ok(())
}

fn cut_parts(faults: &Faults, parts: Parts<'_>, cuts: &mut Vec<Cut>) -> Result<(), AllocError>
    ensures { HasNothing faults.now → OnOk result (cuts.new.items ≡ cuts.old.items) }
{
    if parts.is_at_fault(faults) {
        return cut_at(parts.span, cuts);
    }
    if !parts.has_fault(faults) {
        return Ok(());
    }
    parts.cut_inside(faults, cuts)
}

fn parts_of_schema(definition: &SchemaDefinition, need: Need) -> Parts<'_> {
    Parts {
        span: definition.span,
        name: None,
        interfaces: Members::Nothing,
        directives: definition.directives.as_slice(),
        members: Members::Roots(definition.root_operations.as_slice()),
        need,
    }
}

fn parts_of(definition: &TypeDefinition, need: Need) -> Parts<'_> {
    match definition {
        TypeDefinition::Object(it) => Parts {
            span: it.span,
            name: Some(&it.name),
            interfaces: Members::Separated(it.interfaces.as_slice()),
            directives: it.directives.as_slice(),
            members: Members::Fields(it.fields.as_slice()),
            need,
        },
        TypeDefinition::Interface(it) => Parts {
            span: it.span,
            name: Some(&it.name),
            interfaces: Members::Separated(it.interfaces.as_slice()),
            directives: it.directives.as_slice(),
            members: Members::Fields(it.fields.as_slice()),
            need,
        },
        _ => parts_of_other(definition, need),
    }
}

/// The parts of a definition of a type that implements nothing.
fn parts_of_other(definition: &TypeDefinition, need: Need) -> Parts<'_> {
    let (span, name, directives, members) = match definition {
        TypeDefinition::Scalar(it) => (it.span, &it.name, &it.directives, Members::Nothing),
        TypeDefinition::Object(it) => (it.span, &it.name, &it.directives, Members::Nothing),
        TypeDefinition::Interface(it) => (it.span, &it.name, &it.directives, Members::Nothing),
        TypeDefinition::Union(it) => {
            let members = Members::Separated(it.members.as_slice());
            (it.span, &it.name, &it.directives, members)
        }
        TypeDefinition::Enum(it) => {
            let values = Members::Values(it.values.as_slice());
            (it.span, &it.name, &it.directives, values)
        }
        TypeDefinition::InputObject(it) => {
            let fields = Members::InputFields(it.fields.as_slice());
            (it.span, &it.name, &it.directives, fields)
        }
    };
    Parts {
        span,
        name: Some(name),
        interfaces: Members::Nothing,
        directives: directives.as_slice(),
        members,
        need,
    }
}
