ghost use Rattle.std.specs.Prelude.{◌≡◌, ◌+◌, ◌<◌, ◌≤◌, IsTrue, false, length, slice_index};
ghost use Rattle.text.specs.Ahead.{place_of, is_token};
ghost use Rattle.text.specs.Shape.{is_shaped};

use model::Position;

// A token of a line, by its shape, as the part of the text that it borrows.
#[derive(Clone, Copy)]
pub(crate) enum Token<'a> {
    // begins with a digit
    Numeral(&'a [u8]),
    // begins with a minus sign; what follows it
    Negative(&'a [u8]),
    // anything else, the empty token too
    Text(&'a [u8]),
}

// A token, with where it stands in the text.
#[derive(Clone, Copy)]
pub(crate) struct Placed<'a> {
    pub(crate) token: Token<'a>,
    pub(crate) position: Position,
    ghost shaped: { IsTrue (is_shaped token) },
}

// What stands next in a line, and its place.
#[derive(Clone, Copy)]
pub(crate) enum Ahead {
    Token(usize),
    // past the line's last token
    LineEnd(usize),
}

impl Ahead {
    pub(crate) fn place(self) -> usize
        ensures { result ≡ place_of self }
    {
        match self {
            Ahead::Token(place) | Ahead::LineEnd(place) => place,
        }
    }
}

// A cursor over the tokens of a text, line by line. After a refusal nothing is said of where it stands. It has no Model: clauses
// would see its scan alone, and nothing of that it is the scan of a text, cut at spaces and line feeds.
#[derive(Drop)]
pub struct Tokens<'a> {
    // the whole text, since places count from its start
    pub(crate) text: &'a [u8],
    // the line's number, from 1
    pub(crate) line: usize,
    pub(crate) ahead: Ahead,
    ghost within: { place_of ahead ≤ length text.now },
    ghost counted: { line ≤ place_of ahead + 1 },
    ghost over: { is_token ahead ≡ false → place_of ahead < length text.now → slice_index text.now (place_of ahead) ≡ 10 },
}
