//! The rules of operations and fragments, those of their selections apart: types that a fragment may be on,
//! fragments that are used, subscriptions and `@defer`. Each call reports what breaks a rule, and its
//! contract says what it means that nothing is reported.
#![tactic(auto)]

mod context;
mod defer;
mod fragments_used;
pub mod laws;
mod possible_types;
mod spread_types;
mod subscription;
mod type_conditions;

pub use context::OperationValidationContext;
pub use defer::{DEFER_DIRECTIVE_NAME, validate_defer};
pub use fragments_used::{operations_of, validate_fragments_used};
pub use spread_types::{FragmentUse, validate_fragment_spread_type};
pub use subscription::validate_subscription;
pub use type_conditions::validate_fragment_type_condition;
