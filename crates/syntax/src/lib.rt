// The text of a plan: how its lines add to a plan, what the reading of a text comes to, how a plan is spelled, and lemmas
// towards the reading of any bytes being the inverse of spelling. The two theorems of that, `AcceptsTextsOnly` and
// `RefusesAtFirstFault`, are stated here; they are not proved yet, and no contract names them.
#![tactic(auto)]

use model::{Arc, Edge};

// What a line adds to a plan.
#[derive(Drop)]
pub enum Item<F, G, A> {
    Bad(u8),
    Arc(Arc<F>),
    Edge(Edge<G, A>),
}
