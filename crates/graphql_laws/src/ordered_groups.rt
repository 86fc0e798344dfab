//! Laws of the groups of a list of fields, in order.

ghost use Rattle.std.specs.Prelude.{◌≡◌, ◌↔◌, ◌-◌, List, Contains, length, sum_by};
ghost use Rattle.graphql_specification.specs.Merging.{Pass, shape_pass, FieldSelection};
ghost use Rattle.graphql_specification.specs.MergedSets.{IsGroup, comparisons_of, groups_of};
ghost use Rattle.graphql_documents.specs.declared.documents.schemas.Schema.{Schema};

/// The groups of a list in order are just the groups in which its fields are put together, in both passes.
///
/// Specification: 5.3.2 Field Selection Merging.
pub fn groups_in_order_are_the_groups()
    ensures { (schema : Schema) (pass : Pass) (fields group : List FieldSelection) →
        Contains (groups_of schema pass fields) group ↔ IsGroup schema fields pass group }
{}

/// The groups by keys alone have as many fields as the list, all together.
///
/// Specification: 5.3.2 Field Selection Merging, SameResponseShape.
pub fn groups_by_keys_have_as_many_fields_as_the_list()
    ensures { (schema : Schema) (fields : List FieldSelection) →
        sum_by length (groups_of schema shape_pass fields) ≡ length fields }
{}

/// To compare the first of each group by keys with the rest takes as many comparisons of shapes as a list is
/// said to take.
///
/// Specification: 5.3.2 Field Selection Merging, SameResponseShape.
pub fn comparisons_with_the_first_of_each_group_are_those_of_the_list()
    ensures { (schema : Schema) (fields : List FieldSelection) →
        sum_by (λ group. length group - 1) (groups_of schema shape_pass fields) ≡ comparisons_of fields }
{}
