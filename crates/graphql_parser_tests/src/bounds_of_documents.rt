//! Tests of the rule on the variables that a document uses, and of the bounds on its nesting and on what its operations reach: texts with
//! what is reported of them; and of tables by name and seeds of hashes.

mod hash_seeds;
mod name_tables;
mod nesting;
mod places;
mod reach;
mod reached;
mod texts;
mod usages;
