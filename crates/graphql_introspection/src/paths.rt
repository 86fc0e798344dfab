//! The paths of members.

use std::alloc::{AllocError, Global};
use std::fmt::Write;

/// A step of a path.
#[derive(Clone, Copy)]
enum Step {
    Member(&'static str),
    Item(usize),
}

/// What leads from the whole answer to a member.
#[derive(Drop)]
pub(crate) struct Path {
    steps: Vec<Step>,
}

impl Path {
    /// The path of the whole answer.
    pub(crate) fn new(alloc: Global) -> Path {
        Path {
            steps: Vec::new(alloc),
        }
    }

    /// Goes on to a member.
    pub(crate) fn enter_member(&mut self, name: &'static str) -> Result<(), AllocError> {
        self.steps.push(Step::Member(name))?;
        Ok(())
    }

    /// Goes on to an item of a list.
    pub(crate) fn enter_item(&mut self, index: usize) -> Result<(), AllocError> {
        self.steps.push(Step::Item(index))?;
        Ok(())
    }

    /// Takes the last step back.
    pub(crate) fn leave(&mut self) {
        let _step = self.steps.pop();
    }

    /// How many steps there are.
    pub(crate) fn len(&self) -> usize {
        self.steps.len()
    }

    /// Keeps so many steps, and takes the others back.
    pub(crate) fn leave_to(&mut self, len: usize) {
        self.steps.truncate(len);
    }

    /// The path as text, as `data.__schema.types[3].name`.
    pub(crate) fn text(&self, alloc: Global) -> Result<String, AllocError> {
        if self.steps.is_empty() {
            return String::from_str(alloc, "the answer");
        }
        let mut text = String::new(alloc);
        for step in &self.steps {
            push_step(&mut text, *step)?;
        }
        Ok(text)
    }
}

fn push_step(text: &mut String, step: Step) -> Result<(), AllocError> {
    match step {
        Step::Member(name) => {
            if !text.is_empty() {
                text.push_str(".")?;
            }
            text.push_str(name)
        }
        Step::Item(index) => write!(text, "[{index}]"),
    }
}
