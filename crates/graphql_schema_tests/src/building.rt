//! Tests of the layer that builds typed data from texts: each building rule with its message and its place.

mod built_schemas;
mod documents;
mod schema_input_fields;
mod schemas;
mod texts;
