//! Names that are there again.

ghost use Rattle.std.specs.Prelude.{◌≡◌, ◌∷◌, ◌++◌, [], IfOk, List, None, OnOk, Some, find, map};
ghost use Rattle.graphql_nodes.specs.Names.{AreDistinct, NameText, same_name};
ghost use Rattle.graphql_variables.specs.FirstPlaces.{IsNext, Remembers};
ghost use Rattle.graphql_building_reports.specs.Checks.{Checks};
ghost use Rattle.graphql_repetitions.specs.References.{nows};
ghost use Rattle.graphql_repetitions.specs.Repetitions.{RepetitionReport, met_name, repetition_rule};

use graphql_building_reports::{BuildingReportList, BuildingRule, TypeKind};
use graphql_nodes::{Name, SourceSpan, ValidationError};
use graphql_variables::first_places::{FirstPlaces, first_place};

/// What has names of which each may be there once; parts of a type with its kind and name.
///
/// Specification: 3.3 Schema, 3.6 Objects to 3.10 Input Objects, 5.2.1.1 Operation Name Uniqueness, 5.5.1.1 Fragment Name
/// Uniqueness.
#[derive(Clone, Copy)]
pub enum Repeated<'a> {
    Operation,
    Fragment,
    Type,
    Directive,
    Member(TypeKind, &'a Name),
    Interface(TypeKind, &'a Name),
}

impl<'a> Repeated<'a> {
    fn again(
        self,
        name: Name,
        original: Option<SourceSpan>,
    ) -> Result<BuildingRule, ValidationError>
        ensures { IfOk result (λ rule. rule ≡ repetition_rule self.entry name original) }
    {
        match self {
            Repeated::Operation => Ok(BuildingRule::OperationNameCollision { name, original }),
            Repeated::Fragment => Ok(BuildingRule::FragmentNameCollision { name, original }),
            Repeated::Type => Ok(BuildingRule::TypeDefinitionCollision { name, original }),
            Repeated::Directive => Ok(BuildingRule::DirectiveDefinitionCollision {
                name,
                original,
            }),
            Repeated::Member(kind, type_name) => Ok(BuildingRule::MemberNameCollision {
                kind,
                type_name: type_name.clone()?,
                name,
                original,
            }),
            Repeated::Interface(kind, type_name) => {
                Ok(BuildingRule::DuplicateImplementsInterface {
                    kind,
                    type_name: type_name.clone()?,
                    name,
                    original,
                })
            }
        }
    }
}

/// Reports each name that repeats an earlier one, in order, with the location of the first of that name. Nothing is
/// reported exactly where all names differ. Old reports stay. The only error is a failed allocation.
///
/// Specification: 3.3 Schema, 3.6 Objects to 3.10 Input Objects, 5.2.1.1 Operation Name Uniqueness, 5.5.1.1 Fragment Name
/// Uniqueness.
pub fn check_repetitions(
    reports: &mut BuildingReportList,
    names: &[&Name],
    what: Repeated<'_>,
) -> Result<(), ValidationError>
    ensures { Checks result (AreDistinct (nows names.now)) (RepetitionReport (nows names.now) (repetition_rule what.entry)) reports.old reports.new }
{
    if names.len() < 2 {
        return Ok(());
    }
    let mut seen = FirstPlaces::with_hasher(reports.allocator(), reports.hash_seed());
    for name in names {
        check_name(reports, &mut seen, *name, what)?;
    }
    Ok(())
}

/// Reports a name that repeats one of those before it.
fn check_name<'a>(
    reports: &mut BuildingReportList,
    seen: &mut FirstPlaces<'a>,
    name: &'a Name,
    what: Repeated<'_>,
) -> Result<(), ValidationError>
    ensures checks { (all before : List NameText) → IsNext all before name.now → Remembers seen.old (map met_name before) →
        Checks result (find (λ n. same_name n name.now) before ≡ None) (RepetitionReport all (repetition_rule what.entry)) reports.old reports.new }
    ensures remembers { OnOk result ((before : List NameText) → Remembers seen.old (map met_name before) →
        Remembers seen.new (map met_name (before ++ name.now ∷ []))) }
{
    match first_place(seen, name, name.location())? {
        Some(original) => report_repetition(reports, name, original, what),
        None => Ok(()),
    }
}

fn report_repetition(
    reports: &mut BuildingReportList,
    name: &Name,
    original: Option<SourceSpan>,
    what: Repeated<'_>,
) -> Result<(), ValidationError>
    ensures { (all before : List NameText) (first : NameText) → IsNext all before name.now →
        find (λ n. same_name n name.now) before ≡ Some first → original ≡ first.location →
        Checks result ⊥ (RepetitionReport all (repetition_rule what.entry)) reports.old reports.new }
{
    let rule = what.again(name.clone()?, original)?;
    reports.push(name.location(), rule)
}
