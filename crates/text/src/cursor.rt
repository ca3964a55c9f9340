ghost use Rattle.std.specs.Prelude.{◌≡◌, ◌+◌, ◌≤◌, IsTrue, length, if◌then◌else◌, Ok, Err};
ghost use Rattle.std.specs.List.{position_or_len};
ghost use Rattle.model.specs.declared.Cause.TheVariants.{Form};
ghost use Rattle.model.specs.Refusals.{refused_at};
ghost use Rattle.text.specs.Scan.{start, taken, one, close, position, over, broken};
ghost use Rattle.text.specs.Readers.{natural, signed_word, optional, letter, the_letter, the_number, exactly};
ghost use Rattle.text.specs.Shape.{bytes_of, is_shaped};
ghost use Rattle.text.specs.Cursor.{scan_of};
ghost use Rattle.text.specs.Cut.{separates};
ghost use Rattle.text.specs.Meaning.{Next};

use crate::tokens::{Ahead, Placed, Token, Tokens};
use model::{Cause, Position, Refusal};

// How many bytes come before the first space or line feed, or the end.
fn token_length(rest: &[u8]) -> usize
    ensures value { result ≡ position_or_len separates rest.now }
    ensures most { result ≤ length rest.now }
{
    rest.iter()
        .take_while(|b| !matches!(b, b' ' | b'\n'))
        .count()
}

// A token by its first byte.
fn shape(word: &[u8]) -> Token<'_>
    ensures bytes { bytes_of result ≡ word.now }
    ensures shape { IsTrue (is_shaped result) }
{
    match word {
        [b'-', digits @ ..] => Token::Negative(digits),
        [b'0'..=b'9', ..] => Token::Numeral(word),
        _ => Token::Text(word),
    }
}

impl<'a> Tokens<'a> {
    // A cursor at the start of the text's first line.
    pub fn new(text: &'a [u8]) -> Tokens<'a>
        ensures { scan_of result ≡ start text.now }
    {
        Tokens {
            text,
            line: 1,
            ahead: Ahead::Token(0),
        }
    }

    // The line, and the place of its next token or, past the last one, of the line's end.
    #[tactic(auto, using(crate::proofs::Cuts::cursor_position))]
    pub fn position(&self) -> Position
        ensures value { result ≡ position (scan_of self.now) }
        ensures counted { result.line ≤ result.place + 1 }
    {
        Position {
            line: self.line,
            place: self.ahead.place(),
        }
    }

    // The refusal for a form that is broken here.
    pub fn broken(&self) -> Refusal
        ensures { result ≡ broken (scan_of self.now) }
    {
        self.position().refused(Cause::Form)
    }

    // The line's next token, or a broken form where it has none.
    fn next(&mut self) -> Result<Placed<'a>, Refusal>
        ensures { Next (scan_of self.old) result (scan_of self.new) }
    {
        let Ahead::Token(from) = self.ahead else {
            return Err(self.broken());
        };
        let position = self.position();
        let rest = &self.text[from..];
        let (word, after) = rest.split_at(token_length(rest));
        let end = from + word.len();
        self.ahead = match after {
            [b' ', ..] => Ahead::Token(end + 1),
            _ => Ahead::LineEnd(end),
        };
        let token = shape(word);
        Ok(Placed { token, position })
    }
}

impl Placed<'_> {
    // The refusal for a form that this token breaks.
    fn broken(&self) -> Refusal
        ensures { result ≡ refused_at Form self.now.position }
    {
        self.position.refused(Cause::Form)
    }
}

// Refuses what is not as expected.
fn require<T: PartialEq + Copy>(found: T, expected: T, refusal: Refusal) -> Result<(), Refusal>
    ensures { result ≡ (if T.eq found expected then Ok tt else Err refusal) }
{
    if found == expected {
        Ok(())
    } else {
        Err(refusal)
    }
}

// Each reads the next token by a method of its own; a function over those would have to say by a closure's results what one
// line says here.
impl Tokens<'_> {
    // The next token as a number from 0 to `most`.
    pub fn natural(&mut self, most: u32) -> Result<u32, Refusal>
        ensures { taken result (scan_of self.new) ≡ one (natural most) (scan_of self.old) }
    {
        let next = self.next()?;
        next.natural(most).ok_or(next.broken())
    }

    // The next token as a signed word; only a number below 0 has a minus sign.
    pub fn signed(&mut self) -> Result<i32, Refusal>
        ensures { taken result (scan_of self.new) ≡ one signed_word (scan_of self.old) }
    {
        let next = self.next()?;
        next.signed().ok_or(next.broken())
    }

    // The next token as a number from 0 to `most`, or a lone minus sign, for none.
    pub fn optional(&mut self, most: u32) -> Result<Option<u32>, Refusal>
        ensures { taken result (scan_of self.new) ≡ one (optional most) (scan_of self.old) }
    {
        let next = self.next()?;
        next.optional(most).ok_or(next.broken())
    }

    // The next token as a letter: one byte that is neither a digit nor a minus sign.
    pub fn letter(&mut self) -> Result<char, Refusal>
        ensures { taken result (scan_of self.new) ≡ one letter (scan_of self.old) }
    {
        let next = self.next()?;
        next.letter().ok_or(next.broken())
    }

    // The next token, which has to be that letter.
    pub fn only_letter(&mut self, expected: char) -> Result<(), Refusal>
        ensures { taken result (scan_of self.new) ≡ one (the_letter expected) (scan_of self.old) }
    {
        let refusal = self.broken();
        require(self.letter()?, expected, refusal)
    }

    // The next token, which has to be that number.
    pub fn only_number(&mut self, expected: u32) -> Result<(), Refusal>
        ensures { taken result (scan_of self.new) ≡ one (the_number expected) (scan_of self.old) }
    {
        let refusal = self.broken();
        require(self.natural(expected)?, expected, refusal)
    }

    // The next token, which has to be that word.
    pub fn keyword(&mut self, expected: &[u8]) -> Result<(), Refusal>
        ensures { taken result (scan_of self.new) ≡ one (exactly expected.now) (scan_of self.old) }
    {
        let next = self.next()?;
        match next.token {
            Token::Text(word) if word == expected => Ok(()),
            _ => Err(next.broken()),
        }
    }

    // The end of the line: no token is left, and a line feed stands there.
    #[tactic(auto, using(crate::proofs::Cuts::cursor_closes, crate::proofs::Cuts::cursor_past, crate::proofs::Cuts::cursor_due))]
    pub fn end_line(&mut self) -> Result<(), Refusal>
        ensures { taken result (scan_of self.new) ≡ close (scan_of self.old) }
    {
        match self.ahead {
            Ahead::LineEnd(end) if end < self.text.len() => {
                self.line += 1;
                self.ahead = Ahead::Token(end + 1);
                Ok(())
            }
            _ => Err(self.broken()),
        }
    }

    // At the start of a line: whether nothing is left of the text.
    #[tactic(auto, using(crate::proofs::Cuts::cursor_over))]
    pub fn is_over(&self) -> bool
        ensures { result ≡ over (scan_of self.now) }
    {
        match self.ahead {
            Ahead::Token(at) => at >= self.text.len(),
            Ahead::LineEnd(_) => false,
        }
    }
}
