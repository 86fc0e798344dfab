//! Arguments against their definitions.

pub use graphql_rules::values::argument::{
    ArgumentOwner, GivenArguments, validate_arguments, validate_given_arguments,
    validate_required_arguments,
};
