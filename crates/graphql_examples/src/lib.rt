//! Worked examples of GraphQL schemas and documents: the texts that they are written as, and what is
//! built from these.
#![tactic(auto)]

ghost use Rattle.std.specs.Prelude.{◌≡◌, IfSome};

pub mod built_examples;
pub mod examples;
pub mod many_faults;

pub use built_examples::{BuiltExample, Validated, build_example};
pub use examples::{Example, Subject, find_example};
use examples::{
    up_to_12, up_to_19, up_to_26, up_to_28, up_to_31, up_to_35, up_to_37, up_to_38, up_to_39,
};

/// All examples that have a number, table by table, in order of their names.
pub fn tables() -> [&'static [Example]; 9] {
    [
        up_to_12::EXAMPLES,
        up_to_19::EXAMPLES,
        up_to_26::EXAMPLES,
        up_to_28::EXAMPLES,
        up_to_31::EXAMPLES,
        up_to_35::EXAMPLES,
        up_to_37::EXAMPLES,
        up_to_38::EXAMPLES,
        up_to_39::EXAMPLES,
    ]
}

/// The example of this name.
pub fn find(id: &str) -> Option<&'static Example>
    ensures { IfSome result (λ example. example.now.id.now ≡ id.now) }
{
    for examples in tables() {
        if let Some(example) = find_example(examples, id) {
            return Some(example);
        }
    }
    None
}
