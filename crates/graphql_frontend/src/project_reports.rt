//! What is reported of files that are validated together.

ghost use Rattle.std.specs.Prelude.{◌≡◌, ◌∷◌, ◌++◌, [], IfOk, OnOk, length};
ghost use Rattle.graphql_frontend.specs.ProjectReports.{AddsOperation, IsMarkOf};

use crate::reports::Reports;
use graphql_documents::documents::Operation;
use graphql_nodes::{Name, Node, SourceSpan, ValidationError};
use std::alloc::Global;

/// An operation, by its name and its place.
#[derive(Debug, Drop)]
pub struct OperationMark {
    /// Its name, with the place of that, if it has one.
    pub name: Option<Name>,
    /// The place of the operation.
    pub location: Option<SourceSpan>,
}

/// The operation whose document a list of reports is about.
#[derive(Drop)]
pub struct ListOperation {
    /// The position of the list.
    pub list: usize,
    pub operation: OperationMark,
}

/// What is reported of files that are validated together.
pub struct ProjectReports {
    pub lists: Vec<Reports>,
    /// The operations whose documents lists are about, in the order of the lists.
    pub operations: Vec<ListOperation>,
}

// Written out, so that only this crate proves it.
impl Drop for ProjectReports {
    fn drop(self) {
        let ProjectReports {
            lists: _lists,
            operations: _operations,
        } = self;
    }
}

impl OperationMark {
    /// The mark of this operation. The only error is a failed allocation.
    pub fn of(alloc: Global, operation: &Node<Operation>) -> Result<OperationMark, ValidationError>
        ensures { IfOk result (IsMarkOf operation.now) }
    {
        Ok(OperationMark {
            name: name_of(alloc, &operation.value)?,
            location: operation.location,
        })
    }
}

/// A copy of the name of an operation.
fn name_of(alloc: Global, operation: &Operation) -> Result<Option<Name>, ValidationError>
    ensures { IfOk result (λ name. name ≡ operation.now.name) }
{
    match &operation.name {
        Some(name) => Ok(Some(name.clone_in(alloc)?)),
        None => Ok(None),
    }
}

impl ProjectReports {
    /// No lists of reports, and no operations that they are about.
    pub fn new(alloc: Global) -> ProjectReports
        ensures lists { result.lists.items ≡ [] }
        ensures operations { result.operations.items ≡ [] }
    {
        ProjectReports {
            lists: Vec::new(alloc),
            operations: Vec::new(alloc),
        }
    }

    /// The lists, and the operations.
    pub fn into_parts(self) -> (Vec<Reports>, Vec<ListOperation>)
        ensures lists { result.0 ≡ self.lists }
        ensures operations { result.1 ≡ self.operations }
    {
        let ProjectReports { lists, operations } = self;
        (lists, operations)
    }

    /// Adds a list of reports, and the operation whose document it is about, if it is about one. The only error is a failed allocation.
    pub fn push(
        &mut self,
        operation: Option<OperationMark>,
        reports: Reports,
    ) -> Result<(), ValidationError>
        ensures lists { OnOk result (self.new.lists.items ≡ self.old.lists.items ++ reports ∷ []) }
        ensures operations { OnOk result (AddsOperation operation (length self.old.lists.items) self.old.operations.items self.new.operations.items) }
    {
        self.note(operation)?;
        self.lists.push(reports)?;
        Ok(())
    }

    /// Notes that the next list is about the document of this operation, if it is about one.
    fn note(&mut self, operation: Option<OperationMark>) -> Result<(), ValidationError>
        ensures lists { self.new.lists ≡ self.old.lists }
        ensures operations { OnOk result (AddsOperation operation (length self.old.lists.items) self.old.operations.items self.new.operations.items) }
    {
        let Some(operation) = operation else {
            return Ok(());
        };
        let list = self.lists.len();
        self.operations.push(ListOperation { list, operation })?;
        Ok(())
    }
}
