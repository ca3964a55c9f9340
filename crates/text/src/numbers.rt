// What a token spells.
ghost use Rattle.std.specs.Prelude.{◌≡◌, ◌+◌, ◌<◌};
ghost use Rattle.text.specs.Readers.{natural, signed_word, optional, letter};
ghost use Rattle.text.specs.Shape.{bytes_of};

use crate::tokens::{Placed, Token};

// The number that digits spell in base ten, if it has no leading zero and is at most `most`. (`parse` would take leading
// zeros and a plus sign.)
fn value(digits: &[u8], most: u32) -> Option<u32>
    ensures { result ≡ natural most digits.now }
{
    if matches!(digits, [] | [b'0', _, ..]) {
        return None;
    }
    let mut n: u64 = 0;
    for d in digits {
        if !d.is_ascii_digit() {
            return None;
        }
        n = n * 10 + u64::from(*d - b'0');
        if n > u64::from(most) {
            return None;
        }
    }
    Some(n as u32)
}

impl Placed<'_> {
    // A number from 0 to `most`.
    pub(crate) fn natural(&self, most: u32) -> Option<u32>
        ensures { result ≡ natural most (bytes_of self.now.token) }
    {
        match self.token {
            Token::Numeral(digits) => value(digits, most),
            _ => None,
        }
    }

    // A signed word; only a number below 0 has a minus sign.
    pub(crate) fn signed(&self) -> Option<i32>
        ensures { result ≡ signed_word (bytes_of self.now.token) }
    {
        match self.token {
            Token::Numeral(digits) => value(digits, i32::MAX.unsigned_abs()).map(u32::cast_signed),
            Token::Negative(digits) => value(digits, i32::MIN.unsigned_abs())
                .filter(|n| *n > 0)
                .and_then(|n| 0_i32.checked_sub_unsigned(n)),
            Token::Text(_) => None,
        }
    }

    // A number from 0 to `most`, or a lone minus sign, for none.
    pub(crate) fn optional(&self, most: u32) -> Option<Option<u32>>
        ensures { result ≡ optional most (bytes_of self.now.token) }
    {
        match self.token {
            Token::Negative([]) => Some(None),
            _ => self.natural(most).map(Some),
        }
    }

    // A letter: one byte that is neither a digit nor a minus sign.
    pub(crate) fn letter(&self) -> Option<char>
        ensures { result ≡ letter (bytes_of self.now.token) }
    {
        match self.token {
            Token::Text([byte]) => Some(char::from(*byte)),
            _ => None,
        }
    }
}
