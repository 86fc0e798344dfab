//! Files that are validated together: each operation with the fragments that it reaches in any of them.
#![tactic(auto)]

mod building;
mod contexts;
mod file_rules;
mod marks;
mod operations;
mod parts;
pub mod projects;
mod rest;
mod texts;
mod uses;
mod whole;

pub use projects::{check_part_of_project, check_project};
