//! Edges of flows.

use bk_base::ItemList;

/// A state that goes on to a place.
#[derive(Debug, Drop)]
pub struct Edge<S> {
    /// The place, counted from 0.
    pub target: usize,
    pub state: S,
}

/// Edges in order.
pub type EdgeList<S> = ItemList<Edge<S>>;
