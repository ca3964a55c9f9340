// The plain data of plans. What it means, and every definition that a reader has to believe, stands in
// this crate's specs/. No code that reads, examines or follows a plan belongs here.
#![tactic(auto)]

ghost use Rattle.std.specs.Prelude.{◌≡◌, Some};
ghost use Rattle.model.specs.Refusals.{number_of, refused_at, refusal_text};

use std::fmt;

// How a guard fares under a fact: it holds for no store and no datum that meets the fact (Never), for all
// of them (Always), or neither (Maybe).
#[derive(Clone, Copy)]
pub enum Rating {
    Never,
    Maybe,
    Always,
}

// A point: an arc's event, reported with a datum that meets the fact.
#[derive(Clone, Copy)]
pub struct Point<F> {
    pub event: u8,
    pub fact: F,
}

// An arc of the chart (a control-flow graph), between two nodes; one without an event reports nothing.
#[derive(Clone, Copy)]
pub struct Arc<F> {
    pub from: u8,
    pub to: u8,
    pub point: Option<Point<F>>,
}

// An edge of the watch (a symbolic automaton with actions): in state `from`, at `event`, if the guard holds,
// the action changes the store and the state becomes `to`.
#[derive(Clone, Copy)]
pub struct Edge<G, A> {
    pub from: u8,
    pub event: u8,
    pub to: u8,
    pub guard: G,
    pub action: A,
}

// Why a plan text is refused, with the number of that refusal.
#[derive(Clone, Copy)]
pub enum Cause {
    // the text is too long
    Length = 1,
    // a token or a line breaks the form
    Form = 2,
    // a count is out of its range, or an arc or an edge is one too many
    Count = 3,
    // a node, a state or an event is not in the plan, or a bad state is 0 or does not rise
    Name = 4,
    // no datum meets the fact
    Empty = 5,
}

// Where something stands in a text: at which line (from 1), and at which place (bytes from 0).
#[derive(Clone, Copy)]
pub struct Position {
    pub line: usize,
    pub place: usize,
}

// A refused text: why, and where.
#[derive(Clone, Copy)]
pub struct Refusal {
    pub cause: Cause,
    pub position: Position,
}

impl Cause {
    pub fn number(self) -> u8
        ensures { result ≡ number_of self }
    {
        self as u8
    }
}

impl Position {
    // The refusal of what stands there.
    pub fn refused(self, cause: Cause) -> Refusal
        ensures { result ≡ refused_at cause self }
    {
        Refusal {
            cause,
            position: self,
        }
    }
}

impl fmt::Display for Refusal {
    ghost output = { λ r. Some (refusal_text r) };

    fn fmt<W: fmt::Write>(&self, f: &mut fmt::Formatter<W>) -> fmt::Result {
        let number = self.cause.number();
        let Position { line, place } = self.position;
        write!(f, "refused {number} line {line} at {place}")
    }
}
