//! What a comparison says of documents.

ghost use Rattle.std.specs.Prelude.{◌≡◌, ◌↔◌, IsFalse, IsTrue};

use graphql_schema_comparison::Comparison;

/// What a comparison of two schemas says of the documents that are valid against the old one.
#[derive(Clone, Copy, Debug, PartialEq, Eq)]
pub enum ChangeVerdict {
    /// Each of them is valid against the new one.
    AllStayValid,
    /// Each of them that puts no two fields under one response key is valid against the new one.
    LoneFieldsStayValid,
    /// Some may not be valid against the new one.
    MayBreak,
}

/// What a comparison says of documents, or of those alone that put no two fields under one response key.
pub fn verdict_of(comparison: &Comparison, lone_fields: bool) -> ChangeVerdict
    ensures all { (result ≡ ChangeVerdict.AllStayValid) ↔ IsTrue comparison.now.keeps_documents }
    ensures lone_fields { result ≡ ChangeVerdict.LoneFieldsStayValid → IsTrue lone_fields × IsTrue comparison.now.keeps_lone_fields }
    ensures broken { result ≡ ChangeVerdict.MayBreak → IsFalse comparison.now.keeps_documents }
{
    if comparison.keeps_documents {
        ChangeVerdict::AllStayValid
    } else if lone_fields && comparison.keeps_lone_fields {
        ChangeVerdict::LoneFieldsStayValid
    } else {
        ChangeVerdict::MayBreak
    }
}

impl ChangeVerdict {
    /// The verdict as a sentence without an end. It has the word "safe" only if documents stay valid.
    pub fn sentence(self) -> &'static str {
        match self {
            ChangeVerdict::AllStayValid => {
                "safe: each document that is valid against the old schema is valid against the new one"
            }
            ChangeVerdict::LoneFieldsStayValid => {
                "safe: each document that is valid against the old schema, and puts no two fields under one response key, is valid against the new one"
            }
            ChangeVerdict::MayBreak => {
                "documents that are valid against the old schema may not be valid against the new one"
            }
        }
    }
}
