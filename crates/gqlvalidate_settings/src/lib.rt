//! The settings of `gqlvalidate` in a configuration of `graphql-config`, in JSON or TOML.
#![tactic(auto)]

mod configurations;
mod dialects;
mod faults;
mod files;
mod json_values;
mod keys;
mod lists;
mod paths;
mod policies;
mod projects;
mod refusals;
mod rules;
mod setting;
mod texts;
mod toml_values;

pub use configurations::{Refused, projects_of};
pub use faults::{SettingsFault, Why};
pub use files::{MAX_FOLDERS, find_settings, find_settings_from, read_settings, settings_in};
pub use keys::Key;
pub use policies::{ProjectPolicy, policies_of};
pub use projects::ProjectSettings;
pub use refusals::{Problem, Refusal};
pub use setting::Setting;
pub use texts::{Settings, settings_of_text};
