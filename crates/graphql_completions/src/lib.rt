//! Each text that a reader refuses begins with tokens that can be completed.
//!
//! Specification: Appendix B Grammar Summary.
#![tactic(auto)]
