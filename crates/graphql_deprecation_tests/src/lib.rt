//! Tests of the usages of deprecated elements, over the bench: what no contract says, and that the call succeeds with ample memory.
#![tactic(auto)]

#[cfg(test)]
mod usages;
