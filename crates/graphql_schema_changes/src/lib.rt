//! When a change of a schema keeps documents valid: definitions alone.
//!
//! `KeepsDocumentsValid old new` (`specs/Keeps.antt`) has a part for each thing that the rules of documents look up in a
//! schema: the root types, the fields of a type and their arguments, the types that can be a condition, the types that a value
//! can be given for, the directives, and the shapes of fields that come together in a response. The laws above this crate say
//! what follows: a document that is valid against the old schema is valid against the new one, with the same text.
//!
//! Each part but the first and the directives speaks of some types only: of those on which selections can be, of those for
//! which values can be given, and of pairs of types whose fields can come together. The definitions take these as `Place`,
//! `Input` and `Meet`. `KeepsDocumentsValid` takes all types. `specs/Places.antt` says which choices are large enough.
#![tactic(auto)]
