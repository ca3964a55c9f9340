// The lines of a plan text: which tokens stand in each, from the left, and the ranges of counts and names. What a line
// adds to the plan so far is not settled here.
#![tactic(auto)]

ghost use Rattle.std.specs.Prelude.{◌≡◌, ◌≤◌};
ghost use Rattle.lines.specs.Lines.{in_range, within, counted, at_name};

use model::{Cause, Position, Refusal};
use std::ops::Range;

mod forms;

pub use forms::{names_kind, read_arc, read_count, read_edge, read_named, read_opening};

// A number that a token spells, with where the token stands.
#[derive(Clone, Copy)]
pub struct Named {
    pub number: u32,
    pub position: Position,
}

// What an arc's line says of its point: the event, the fact and where the fact begins.
#[derive(Drop)]
pub struct PointLine<F> {
    pub event: Named,
    pub fact: F,
    pub position: Position,
}

// Lines of arcs and edges have the fields of arcs and edges, with numbers that may name nothing. One type for both would
// give every definition of plans a parameter more, the type of their numbers.
#[derive(Drop)]
pub struct ArcLine<F> {
    pub from: Named,
    pub to: Named,
    pub point: Option<PointLine<F>>,
}

#[derive(Drop)]
pub struct EdgeLine<G, A> {
    pub from: Named,
    pub event: Named,
    pub to: Named,
    pub guard: G,
    pub action: A,
}

impl Named {
    // The refusal of this number.
    pub fn refused(&self, cause: Cause) -> Refusal
        ensures { result ≡ at_name cause self.now }
    {
        self.position.refused(cause)
    }

    // The number, if it lies in the range.
    fn in_range(&self, range: Range<u32>, cause: Cause) -> Result<u8, Refusal>
        requires { range.end ≤ 256 }
        ensures { result ≡ in_range range.start range.end cause self.now }
    {
        if range.contains(&self.number) {
            Ok(self.number as u8)
        } else {
            Err(self.refused(cause))
        }
    }

    // The number of one of `count` things.
    pub fn within(&self, count: u8) -> Result<u8, Refusal>
        ensures { result ≡ within count self.now }
    {
        self.in_range(0..u32::from(count), Cause::Name)
    }

    // A count from 1 to `most`.
    pub fn counted(&self, most: u8) -> Result<u8, Refusal>
        ensures { result ≡ counted most self.now }
    {
        self.in_range(1..u32::from(most) + 1, Cause::Count)
    }
}
