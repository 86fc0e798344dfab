//! The arguments of a field, by one number.

ghost use Rattle.std.specs.Prelude.{IfOk};
ghost use Rattle.graphql_value_numbers.specs.Arguments.{AreArgumentsNumbered, HaveNumber};
ghost use Rattle.graphql_value_numbers.specs.Numbers.{Grows};
ghost use Rattle.graphql_value_numbers.specs.Tables.{shapes_of};

use super::named_numbers::NamedNumbers;
use super::shapes::Shape;
use super::values::ValueNumbers;
use graphql_documents::documents::Argument;
use graphql_nodes::Node;
use std::alloc::{AllocError, Global};

impl<'doc> ValueNumbers<'doc> {
    /// The number of arguments: that of an object with the same entries. The same arguments have one number, and
    /// different ones different numbers. It takes time by their size. The only error is a failed allocation. Numbers
    /// that were given stay.
    pub fn number_arguments(
        &mut self,
        alloc: Global,
        arguments: &'doc [Node<Argument>],
    ) -> Result<usize, AllocError>
        ensures grows { Grows (shapes_of self.old) (shapes_of self.new) }
        ensures number { IfOk result (HaveNumber (shapes_of self.new) arguments.now) }
    {
        let numbers = self.number_named(alloc, arguments)?;
        self.add(Shape::Object(numbers))
    }

    /// Under each name the number of the value of the first of the arguments of this name.
    fn number_named(
        &mut self,
        alloc: Global,
        arguments: &'doc [Node<Argument>],
    ) -> Result<NamedNumbers<'doc>, AllocError>
        ensures grows { Grows (shapes_of self.old) (shapes_of self.new) }
        ensures numbers { IfOk result (AreArgumentsNumbered (shapes_of self.new) arguments.now) }
    {
        let mut numbers = NamedNumbers::new(alloc);
        for argument in arguments {
            let argument = &*argument.value;
            if numbers.number_of(&argument.name).is_none() {
                let number = self.number_value(alloc, &argument.value.value)?;
                numbers.insert(&argument.name, number)?;
            }
        }
        Ok(numbers)
    }
}
