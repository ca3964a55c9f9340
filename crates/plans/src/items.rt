// What the lines of a plan text may name, and what they add to a plan.
ghost use Rattle.std.specs.Prelude.{◌≡◌};
ghost use Rattle.text.specs.Scan.{taken};
ghost use Rattle.text.specs.Cursor.{scan_of};
ghost use Rattle.plans.specs.Meaning.{plan_of};
ghost use Rattle.syntax.specs.Items.{last, bad_of, point_of, arc_of, edge_of, bad_item, arc_item, edge_item, item};

use crate::plan::Plan;
use kinds::{Kind, Spelling};
use lines::{ArcLine, EdgeLine, Named, PointLine, read_arc, read_edge, read_named};
use model::{Arc, Cause, Edge, Point, Refusal};
use syntax::Item;
use text::Tokens;

const MOST_ARCS: usize = 512;

const MOST_EDGES: usize = 256;

// What a line adds to a plan of the kind.
pub(crate) type ItemOf<K> = Item<<K as Kind>::Fact, <K as Kind>::Guard, <K as Kind>::Action>;

impl<K: Spelling> Plan<K> {
    // The last of the bad states, or 0.
    #[tactic(auto, using(crate::proofs::Last::last_read))]
    fn last_bad(&self) -> u8
        ensures { result ≡ last 0 (plan_of self.now).bad }
    {
        self.bad.last().copied().unwrap_or(0)
    }

    // A bad state is above the one before it, and so never 0.
    fn bad_of(&self, state: Named) -> Result<u8, Refusal>
        ensures { result ≡ bad_of (plan_of self.now) state }
    {
        if u32::from(self.last_bad()) < state.number {
            state.within(self.states)
        } else {
            Err(state.refused(Cause::Name))
        }
    }

    fn point_of(&self, point: Option<PointLine<K::Fact>>) -> Result<Option<Point<K::Fact>>, Refusal>
        ensures { result ≡ point_of K.Kind.answers (plan_of self.now) point }
    {
        // `map` and `transpose` would put the rest into a closure
        let Some(line) = point else {
            return Ok(None);
        };
        let event = line.event.within(self.events)?;
        if K::is_empty(&line.fact) {
            return Err(line.position.refused(Cause::Empty));
        }
        Ok(Some(Point {
            event,
            fact: line.fact,
        }))
    }

    fn arc_of(&self, line: ArcLine<K::Fact>) -> Result<Arc<K::Fact>, Refusal>
        ensures { result ≡ arc_of K.Kind.answers (plan_of self.now) line }
    {
        let from = line.from.within(self.nodes)?;
        let to = line.to.within(self.nodes)?;
        let point = self.point_of(line.point)?;
        Ok(Arc { from, to, point })
    }

    fn edge_of(
        &self,
        line: EdgeLine<K::Guard, K::Action>,
    ) -> Result<Edge<K::Guard, K::Action>, Refusal>
        ensures { result ≡ edge_of (plan_of self.now) line }
    {
        let from = line.from.within(self.states)?;
        let event = line.event.within(self.events)?;
        let to = line.to.within(self.states)?;
        Ok(Edge {
            from,
            event,
            to,
            guard: line.guard,
            action: line.action,
        })
    }

    fn bad_item(&self, tokens: &mut Tokens<'_>) -> Result<ItemOf<K>, Refusal>
        ensures { taken result (scan_of tokens.new) ≡ bad_item (plan_of self.now) (scan_of tokens.old) }
    {
        let state = read_named(tokens)?;
        tokens.end_line()?;
        Ok(Item::Bad(self.bad_of(state)?))
    }

    // Arcs and edges are read alike, but by functions, a list and a limit of their own: one function for both would take
    // all of those as parameters.
    fn arc_item(&self, tokens: &mut Tokens<'_>, full: Refusal) -> Result<ItemOf<K>, Refusal>
        ensures { taken result (scan_of tokens.new) ≡ arc_item K.Kind.answers K.Spelling.formats (plan_of self.now) full (scan_of tokens.old) }
    {
        let line = read_arc::<K>(tokens)?;
        tokens.end_line()?;
        if self.arcs.len() >= MOST_ARCS {
            return Err(full);
        }
        Ok(Item::Arc(self.arc_of(line)?))
    }

    fn edge_item(&self, tokens: &mut Tokens<'_>, full: Refusal) -> Result<ItemOf<K>, Refusal>
        ensures { taken result (scan_of tokens.new) ≡ edge_item K.Kind.answers K.Spelling.formats (plan_of self.now) full (scan_of tokens.old) }
    {
        let line = read_edge::<K>(tokens)?;
        tokens.end_line()?;
        if self.edges.len() >= MOST_EDGES {
            return Err(full);
        }
        Ok(Item::Edge(self.edge_of(line)?))
    }

    // What the next line adds. Its letter is matched against characters, as the format has it, to choose the reader.
    pub(crate) fn read_item(&self, tokens: &mut Tokens<'_>) -> Result<ItemOf<K>, Refusal>
        ensures { taken result (scan_of tokens.new) ≡ item K.Kind.answers K.Spelling.formats (plan_of self.now) (scan_of tokens.old) }
    {
        let broken = tokens.broken();
        let full = broken.position.refused(Cause::Count);
        match tokens.letter()? {
            'b' if self.arcs.is_empty() && self.edges.is_empty() => self.bad_item(tokens),
            'a' if self.edges.is_empty() => self.arc_item(tokens, full),
            'e' => self.edge_item(tokens, full),
            _ => Err(broken),
        }
    }
}
