ghost use Rattle.std.specs.Prelude.{◌≡◌, true, length};
ghost use Rattle.model.specs.Plan.{sizes_in};
ghost use Rattle.syntax.specs.Items.{blank};
ghost use Rattle.plans.specs.Meaning.{plan_of, points_in};

use crate::plan::Plan;
use kinds::Kind;
use std::alloc::Global;

impl<K: Kind> Plan<K> {
    // A plan with one node, one state, one event and nothing else.
    pub fn new(heap: Global) -> Plan<K>
        ensures { plan_of result ≡ blank 1 1 1 }
    {
        Plan::blank(heap, 1, 1, 1)
    }

    // A plan of that size, and nothing else.
    pub(crate) fn blank(heap: Global, nodes: u8, states: u8, events: u8) -> Plan<K>
        requires { sizes_in nodes states events ≡ true }
        ensures { plan_of result ≡ blank nodes states events }
    {
        Plan {
            nodes,
            states,
            events,
            bad: Vec::new(heap),
            arcs: Vec::new(heap),
            edges: Vec::new(heap),
        }
    }

    // How many points the plan has: arcs with an event.
    pub fn point_count(&self) -> usize
        ensures { result ≡ points_in (plan_of self.now).arcs }
    {
        self.arcs.iter().filter(|arc| arc.point.is_some()).count()
    }

    // How many edges the plan has.
    pub fn edge_count(&self) -> usize
        ensures { result ≡ length (plan_of self.now).edges }
    {
        self.edges.len()
    }
}
