//! What changes of interfaces, of members of unions, and of the root of subscriptions from one schema to another.
#![tactic(auto)]

mod composites;

pub use composites::{compare_interfaces, compare_members, compare_subscription_root};
