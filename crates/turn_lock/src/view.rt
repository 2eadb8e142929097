//! What a seat at the lock's table knows.
use std::collections::LinkedList;

/// A list that was seen before a join, and the callers all of whose entries are in it.
pub(crate) struct Earlier<E> {
    pub(crate) callers: LinkedList<u64>,
    pub(crate) seen: LinkedList<E>,
}

/// What a seat knows. Only contracts mention it: no value of this type is ever made.
pub(crate) struct View<E> {
    /// Its caller number. A note has none, nor has a seat that is spent.
    pub(crate) caller: Option<u64>,
    /// The callers that ended into it.
    pub(crate) ended: LinkedList<u64>,
    /// How many numbers were given, which only the opening seat knows.
    pub(crate) given: Option<u64>,
    /// The beginning of the history that it has seen.
    pub(crate) seen: LinkedList<E>,
    /// The two lists from before a join, until the seat's next step.
    pub(crate) earlier: LinkedList<Earlier<E>>,
    /// Whether it holds the lock.
    pub(crate) holds: bool,
}
