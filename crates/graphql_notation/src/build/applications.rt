use super::literals::value;
use super::parts::{Part, both, listed, located};
use super::reader::{LONGEST, Place, Reader};
use crate::errors::ExampleError;
use graphql_documents::documents::{Argument, Directive};
use graphql_nodes::Node;
use std::alloc::Global;

/// The arguments that a text as `(a: 1, b: 2)` writes.
pub fn arguments(alloc: Global, text: &str) -> Result<Vec<Node<Argument>>, ExampleError> {
    listed(&mut Reader::new(alloc, text, Place::Nowhere), "(", ")")
}

/// The applications of directives that a text as `@a @b(c: 1)` writes.
pub fn directives(alloc: Global, text: &str) -> Result<Vec<Node<Directive>>, ExampleError> {
    read_directives(&mut Reader::new(alloc, text, Place::Nowhere))
}

/// Reads applications of directives, if there are any.
pub(super) fn read_directives(
    reader: &mut Reader<'_>,
) -> Result<Vec<Node<Directive>>, ExampleError> {
    let mut directives = Vec::new(reader.alloc);
    for _ in 0..LONGEST {
        if !reader.stands_before("@") {
            return Ok(directives);
        }
        directives.push(located(reader)?)?;
    }
    Err(ExampleError::TooLong)
}

impl Part for Argument {
    fn read(reader: &mut Reader<'_>) -> Result<Argument, ExampleError> {
        let (name, value) = both(reader.label(), value(reader))?;
        Ok(Argument { name, value })
    }
}

impl Part for Directive {
    fn read(reader: &mut Reader<'_>) -> Result<Directive, ExampleError> {
        reader.expect("@")?;
        let (name, arguments) = both(reader.name(), listed(reader, "(", ")"))?;
        Ok(Directive { name, arguments })
    }
}
