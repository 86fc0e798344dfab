use super::parts::{Part, both};
use super::reader::{DEEPEST, Reader};
use crate::errors::ExampleError;
use graphql_documents::documents::Type;

impl Part for Type {
    /// Reads a type reference as `[Int!]!`.
    fn read(reader: &mut Reader<'_>) -> Result<Type, ExampleError> {
        nested_type(reader, DEEPEST)
    }
}

fn nested_type(reader: &mut Reader<'_>, depth: u32) -> Result<Type, ExampleError> {
    if depth == 0 {
        return Err(ExampleError::TooDeep);
    }
    if reader.takes("[") {
        let item = nested_type(reader, depth - 1);
        let (item, ()) = both(item, reader.expect("]"))?;
        list_type(reader, item)
    } else {
        named_type(reader)
    }
}

fn named_type(reader: &mut Reader<'_>) -> Result<Type, ExampleError> {
    let name = reader.name()?;
    if reader.takes("!") {
        Ok(Type::NonNullNamed(name))
    } else {
        Ok(Type::Named(name))
    }
}

fn list_type(reader: &mut Reader<'_>, item: Type) -> Result<Type, ExampleError> {
    let item = Box::new(reader.alloc, item)?;
    if reader.takes("!") {
        Ok(Type::NonNullList(item))
    } else {
        Ok(Type::List(item))
    }
}
