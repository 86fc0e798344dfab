//! Whether fields that come together in a response agree.

pub use graphql_field_conflicts::comparisons::{
    FieldConflict, same_name_and_arguments, same_output_type_shape, same_value,
};
pub use graphql_field_conflicts::field_selections::FieldSelection;
pub use graphql_merging::bounded::BoundedMerging;
pub use graphql_merging::expansion::expand_selections;
pub use graphql_merging::merging::FieldsInSetCanMerge;
pub use graphql_pair_merging::merging::merge_by_pairs;
