ghost use Rattle.std.specs.Prelude.{◌≡◌, IfOk, None, Some};
ghost use Rattle.std.specs.Cmp.{on_per, on_equiv};

use super::errors::ValidationError;
use super::spans::SourceSpan;
use std::alloc::{AllocError, Global};
use std::hash::{Hash, Hasher};
use std::sync::Arc;

/// A shared value, and where it is. Nodes are compared and hashed by their values alone.
#[derive(Drop)]
#[derive_where(Debug; T)]
pub struct Node<T> {
    pub value: Arc<T>,
    pub location: Option<SourceSpan>,
}

impl<T: Drop> Node<T> {
    /// A node of this value with no location.
    pub fn new(alloc: Global, value: T) -> Result<Node<T>, ValidationError>
        ensures value { IfOk result (λ node. node.value.value ≡ value) }
        ensures location { IfOk result (λ node. node.location ≡ None) }
    {
        Ok(Node {
            value: Arc::new(alloc, value)?,
            location: None,
        })
    }

    /// A node of this value at this place.
    pub fn new_located(
        alloc: Global,
        value: T,
        location: SourceSpan,
    ) -> Result<Node<T>, ValidationError>
        ensures value { IfOk result (λ node. node.value.value ≡ value) }
        ensures location { IfOk result (λ node. node.location ≡ Some location) }
    {
        Ok(Node {
            value: Arc::new(alloc, value)?,
            location: Some(location),
        })
    }
}

impl<T: Drop> Clone for Node<T> {
    ghost use Rattle.graphql_nodes.specs.Nodes.{SameNode};

    ghost is_clone = { SameNode };

    fn clone(&self) -> Result<Node<T>, AllocError> {
        Ok(Node {
            value: self.value.clone()?,
            location: self.location,
        })
    }
}

impl<T: PartialEq> PartialEq for Node<T> {
    ghost eq = { λ a b. T.eq a.value.value b.value.value };

    ghost laws = { on_per (λ a. a.value.value) T.laws };

    fn eq(&self, other: &Node<T>) -> bool {
        self.value == other.value
    }
}

impl<T: Eq> Eq for Node<T> {
    ghost laws = { on_equiv (λ a. a.value.value) T.Eq.laws };
}

impl<T: Hash> Hash for Node<T> {
    ghost hash_input = { λ node. T.hash_input node.value.value };

    ghost respects_eq = { λ a b e. T.respects_eq a.value.value b.value.value e };

    fn hash<H: Hasher>(&self, state: &mut H) {
        self.value.hash(state);
    }
}
