ghost use Rattle.model.specs.Plan.{WellFormed};

use kinds::Kind;
use model::{Arc, Edge};

// One chart and one watch, over a kind of guard. Each is well formed. It has no Model: clauses would see the lists alone,
// and could no longer say that a refused text leaves each vector as it was.
#[derive(Drop)]
pub struct Plan<K: Kind> {
    pub(crate) nodes: u8,
    pub(crate) states: u8,
    pub(crate) events: u8,
    pub(crate) bad: Vec<u8>,
    pub(crate) arcs: Vec<Arc<K::Fact>>,
    pub(crate) edges: Vec<Edge<K::Guard, K::Action>>,
    ghost well_formed: { WellFormed K.answers (record { nodes = nodes; states = states; events = events; bad = bad.items; arcs = arcs.items; edges = edges.items }) },
}
