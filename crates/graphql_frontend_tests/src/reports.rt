//! Tests of what is reported: findings, each fault once, in order, with its notes; reports on projects, and where they are; and what the
//! library answers.

mod answers;
mod findings;
mod projects;
mod sessions;
