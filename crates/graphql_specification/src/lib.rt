//! What it means that a schema or a document is valid, and what each diagnostic says: definitions alone, in the order
//! and under the names of the chapters of the specification. Whoever wants to know what is promised reads this crate.
#![tactic(auto)]
