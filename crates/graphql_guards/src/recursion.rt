use crate::DEFAULT_RECURSION_LIMIT;
use graphql_nodes::{Name, Node, ValidationError};
use indexmap::IndexSet;
use std::alloc::Global;
use std::ops::{Deref, DerefMut};

/// The names that a walk has visited and not left, in order, from the root where there is one. They
/// are looked up by their hashes, and compared by their texts.
#[derive(Debug, Drop)]
pub struct RecursionStack {
    names: IndexSet<Name>,
    limit: usize,
}

/// A name on a path. It stands for its stack, and where it is dropped it takes its name off, if it
/// pushed one. A name below is `guard.push(name)`; a caller whose contract speaks of the path after
/// that name writes `guard.stack.push(name)`.
pub struct RecursionGuard<'a> {
    pub stack: &'a mut RecursionStack,
    pushed: bool,
}

/// Why a walk that seeks cycles stopped.
#[derive(Debug, Drop)]
pub enum CycleError<T> {
    /// The walk came back to its root, by these references, the last of them first.
    Recursed(Vec<Node<T>>),
    /// The path holds as many names as it may.
    Limit,
    /// A growth of memory was refused.
    Memory,
}

impl RecursionStack {
    ghost use Rattle.std.specs.Prelude.{◌≡◌, ◌<◌, ◌∷◌, ◌++◌, [], false, true, length, slice_get, option_copied, IfOk, OnOk, OnErr, MatchResult};
    ghost use Rattle.std.specs.Borrow.{sem};
    ghost use Rattle.graphql_guards.specs.GuardLoans.{StackRestsIfErr};
    ghost use Rattle.graphql_guards.specs.Guards.{path_of, path_limit, without_last, HasRoom, Refuses};
    ghost use Rattle.graphql_nodes.specs.Names.{stands_on};

    /// An empty path.
    pub fn new(alloc: Global) -> RecursionStack
        ensures path { path_of result ≡ [] }
        ensures limit { path_limit result ≡ 32 }
    {
        RecursionStack {
            names: IndexSet::new(alloc),
            limit: DEFAULT_RECURSION_LIMIT,
        }
    }

    /// The path that holds its root alone.
    pub fn with_root(alloc: Global, root: Name) -> Result<RecursionStack, ValidationError>
        ensures path { IfOk result (λ stack. path_of stack ≡ root ∷ []) }
        ensures limit { IfOk result (λ stack. path_limit stack ≡ 32) }
    {
        let mut stack = RecursionStack::new(alloc);
        stack.names.insert(root)?;
        Ok(stack)
    }

    /// Changes the limit: the path may hold this many names, the root counted. The names on it stay.
    pub fn with_limit(self, limit: usize) -> RecursionStack
        ensures path { path_of result ≡ path_of self }
        ensures limit { path_limit result ≡ limit }
    {
        RecursionStack {
            names: self.names,
            limit,
        }
    }

    /// Whether the name is on the path.
    pub fn contains(&self, name: &Name) -> bool
        ensures { result ≡ stands_on (path_of self.now) name.now }
    {
        self.names.contains(name)
    }

    /// The first name of the path, which is the root where there is one.
    pub fn first(&self) -> Option<&Name>
        ensures { option_copied result ≡ slice_get (path_of self.now) 0 }
    {
        self.names.first()
    }

    /// Adds a name at the end of the path, on which it is not. The limit is answered exactly where the path
    /// holds as many names as it may; else memory may be refused. Both leave the path.
    pub fn enter<T: Drop>(&mut self, name: &Name) -> Result<(), CycleError<T>>
        requires { stands_on (path_of self.old) name.now ≡ false }
        ensures visited_fragments { OnOk result (path_of self.new ≡ path_of self.old ++ name.now ∷ []) }
        ensures refused { OnErr result (path_of self.new ≡ path_of self.old) }
        ensures bound { MatchResult result (λ _. HasRoom self.old) (Refuses self.old) }
        ensures limit { path_limit self.new ≡ path_limit self.old }
    {
        if self.names.len() >= self.limit {
            return Err(CycleError::Limit);
        }
        let Ok(visited_fragments) = name.clone() else {
            return Err(CycleError::Memory);
        };
        match self.names.insert(visited_fragments) {
            Ok(_) => Ok(()),
            Err(_) => Err(CycleError::Memory),
        }
    }

    /// Takes the last name off the path.
    pub fn leave(&mut self)
        requires { 0 < length (path_of self.old) }
        ensures path { path_of self.new ≡ without_last (path_of self.old) }
        ensures limit { path_limit self.new ≡ path_limit self.old }
    {
        let _ = self.names.pop();
    }

    /// A guard over the stack, which pushes no name.
    pub fn guard(&mut self) -> RecursionGuard<'_>
        ensures same_reference { result.stack.ghost_name ≡ self.entry.ghost_name }
        ensures stack { result.stack.now ≡ self.old }
        ensures pushed { result.pushed ≡ false }
    {
        RecursionGuard {
            stack: self,
            pushed: false,
        }
    }

    /// Adds a name at the end of the path, on which it is not, until the guard is dropped. The error is
    /// `Limit` exactly if the path holds as many names as it may; otherwise it says that memory was
    /// refused. Either leaves the path as it was.
    pub fn push<T: Drop>(&mut self, name: &Name) -> Result<RecursionGuard<'_>, CycleError<T>>
        requires { stands_on (path_of self.old) name.now ≡ false }
        ensures* rests { sem 𝓛 (StackRestsIfErr self.entry result) }
        ensures same_reference { IfOk result (λ child. child.stack.ghost_name ≡ self.entry.ghost_name) }
        ensures visited_fragments { IfOk result (λ child. path_of child.stack.now ≡ path_of self.old ++ name.now ∷ []) }
        ensures bound { MatchResult result (λ child. HasRoom self.old) (Refuses self.old) }
        ensures limit { IfOk result (λ child. path_limit child.stack.now ≡ path_limit self.old) }
        ensures pushed { IfOk result (λ child. child.pushed ≡ true) }
    {
        self.enter(name)?;
        Ok(RecursionGuard {
            stack: self,
            pushed: true,
        })
    }
}

impl Deref for RecursionGuard<'_> {
    type Target = RecursionStack;

    ghost use Rattle.std.specs.Prelude.{◌≡◌};

    ghost deref_gives = { λ guard stack. stack ≡ guard.stack.now };

    fn deref(&self) -> &RecursionStack {
        &*self.stack
    }
}

impl DerefMut for RecursionGuard<'_> {
    ghost use Rattle.std.specs.Prelude.{◌≡◌};
    ghost use Rattle.std.specs.Borrow.{sem};
    ghost use Rattle.graphql_guards.specs.GuardLoans.{LendsStack};

    ghost deref_mut_gives = { λ guard stack. stack ≡ guard.stack.now };

    fn deref_mut(&mut self) -> &mut RecursionStack
        ensures* writes_back { sem 𝓛 (LendsStack self.entry result) }
        ensures value { result.now ≡ self.old.stack.now }
    {
        self.stack
    }
}

impl Drop for RecursionGuard<'_> {
    ghost use Rattle.std.specs.Prelude.{◌≡◌, if◌then◌else◌};
    ghost use Rattle.graphql_guards.specs.Guards.{path_of, path_limit, without_last};

    fn drop(self)
        ensures path { path_of self.exit.0.now ≡ (if self.entry.pushed then without_last (path_of self.entry.stack.now) else path_of self.entry.stack.now) }
        ensures limit { path_limit self.exit.0.now ≡ path_limit self.entry.stack.now }
    {
        let RecursionGuard { stack, pushed } = self;
        if pushed {
            let _ = stack.names.pop();
        }
    }
}
