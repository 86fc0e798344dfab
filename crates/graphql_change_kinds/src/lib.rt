//! What can differ between two schemas: each kind of change, its level and its message.
#![tactic(auto)]

mod change_list;
mod changes;
mod levels;
mod messages;

pub use change_list::{ChangeList, Places, SchemaPair};
pub use changes::{Change, Gain, InputCoordinate, SchemaChange, TypeEffect, TypeKind};
pub use levels::{BreakingReason, Level};
