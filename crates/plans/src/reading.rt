// The reading of a whole plan text.
ghost use Rattle.std.specs.Prelude.{◌≡◌, OnOk};
ghost use Rattle.model.specs.Plan.{WellFormed};
ghost use Rattle.text.specs.Scan.{taken};
ghost use Rattle.text.specs.Cursor.{scan_of};
ghost use Rattle.syntax.specs.Items.{added};
ghost use Rattle.syntax.specs.Reading.{header, reading, too_long, WantsMemory};
ghost use Rattle.plans.specs.Meaning.{plan_of};
ghost use Rattle.plans.specs.Results.{meant, Reads, Replaced, Grown};

use crate::error::ReadError;
use crate::items::ItemOf;
use crate::plan::Plan;
use kinds::Spelling;
use lines::{read_count, read_opening};
use model::{Cause, Position, Refusal};
use std::alloc::Global;
use syntax::Item;
use text::Tokens;

// A plan text has at most so many bytes.
pub const MOST_BYTES: usize = 32768;

const MOST_NODES: u8 = 128;

const MOST_STATES: u8 = 32;

const MOST_EVENTS: u8 = 32;

fn too_long() -> Refusal
    ensures { result ≡ too_long }
{
    let nowhere = Position { line: 0, place: 0 };
    nowhere.refused(Cause::Length)
}

impl<K: Spelling> Plan<K> {
    // The four opening lines.
    fn read_header(heap: Global, tokens: &mut Tokens<'_>) -> Result<Plan<K>, Refusal>
        ensures { taken (meant result) (scan_of tokens.new) ≡ header K.Spelling.formats (scan_of tokens.old) }
    {
        read_opening::<K>(tokens)?;
        let nodes = read_count(tokens, 'n', MOST_NODES)?;
        let states = read_count(tokens, 's', MOST_STATES)?;
        let events = read_count(tokens, 'v', MOST_EVENTS)?;
        Ok(Plan::blank(heap, nodes, states, events))
    }

    // Adds what a line gives.
    fn add(&mut self, item: ItemOf<K>) -> Result<(), ReadError>
        requires { WellFormed K.Kind.answers (added (plan_of self.old) item) }
        ensures { Grown (added (plan_of self.old) item) result self.new }
    {
        match item {
            Item::Bad(state) => self.bad.push(state)?,
            Item::Arc(arc) => self.arcs.push(arc)?,
            Item::Edge(edge) => self.edges.push(edge)?,
        }
        Ok(())
    }

    // The plan that the text spells.
    fn read_whole(heap: Global, text: &[u8]) -> Result<Plan<K>, ReadError>
        ensures { Reads (reading K.Kind.answers K.Spelling.formats text.now) (WantsMemory K.Kind.answers K.Spelling.formats text.now) result }
    {
        if text.len() > MOST_BYTES {
            return Err(ReadError::Refused(too_long()));
        }
        let mut tokens = Tokens::new(text);
        let mut plan: Plan<K> = Plan::read_header(heap, &mut tokens)?;
        while !tokens.is_over() {
            let item = plan.read_item(&mut tokens)?;
            plan.add(item)?;
        }
        Ok(plan)
    }

    // Replaces the plan whole by the one that the text spells, or refuses the text and leaves the plan as it was.
    pub fn read(&mut self, heap: Global, text: &[u8]) -> Result<(), ReadError>
        ensures well { OnOk result (WellFormed K.Kind.answers (plan_of self.new)) }
        ensures replaced { Replaced (reading K.Kind.answers K.Spelling.formats text.now) (WantsMemory K.Kind.answers K.Spelling.formats text.now) self.old result self.new }
    {
        *self = Plan::read_whole(heap, text)?;
        Ok(())
    }
}
