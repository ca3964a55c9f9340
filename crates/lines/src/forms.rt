// The form of each line of a plan text, token by token.
ghost use Rattle.std.specs.Prelude.{◌≡◌, true, IfOk};
ghost use Rattle.model.specs.Plan.{counts};
ghost use Rattle.text.specs.Scan.{taken};
ghost use Rattle.text.specs.Cursor.{scan_of};
ghost use Rattle.lines.specs.Lines.{named, opening, kind_letter, names_kind, count_line, event_line, arc_line, edge_line};

use crate::{ArcLine, EdgeLine, Named, PointLine};
use kinds::Spelling;
use model::Refusal;
use text::Tokens;

// The largest number that a node, a state, an event or a count is read as.
const LARGEST: u32 = 65535;

// A number with its place.
pub fn read_named(tokens: &mut Tokens<'_>) -> Result<Named, Refusal>
    ensures { taken result (scan_of tokens.new) ≡ named (scan_of tokens.old) }
{
    let position = tokens.position();
    let number = tokens.natural(LARGEST)?;
    Ok(Named { number, position })
}

// The first line, with its end.
pub fn read_opening<K: Spelling>(tokens: &mut Tokens<'_>) -> Result<(), Refusal>
    ensures { taken result (scan_of tokens.new) ≡ opening K.Spelling.formats (scan_of tokens.old) }
{
    tokens.keyword(b"plan")?;
    tokens.only_number(1)?;
    tokens.only_letter(K::letter())?;
    tokens.end_line()
}

// The letter of the kind that a text's first line names, where it has the form up to there.
fn kind_letter(text: &[u8]) -> Option<char>
    ensures { result ≡ kind_letter text.now }
{
    let mut tokens = Tokens::new(text);
    tokens.keyword(b"plan").ok()?;
    tokens.only_number(1).ok()?;
    tokens.letter().ok()
}

// Whether the text's first line names the kind.
pub fn names_kind<K: Spelling>(text: &[u8]) -> bool
    ensures { result ≡ names_kind K.Spelling.formats text.now }
{
    kind_letter(text) == Some(K::letter())
}

// The event and the fact of an arc, or none.
fn read_point<K: Spelling>(tokens: &mut Tokens<'_>) -> Result<Option<PointLine<K::Fact>>, Refusal>
    ensures { taken result (scan_of tokens.new) ≡ event_line K.Spelling.formats (scan_of tokens.old) }
{
    let start = tokens.position();
    let Some(number) = tokens.optional(LARGEST)? else {
        // an arc without event; `map` and `transpose` would put the rest into a closure
        return Ok(None);
    };
    let event = Named {
        number,
        position: start,
    };
    let position = tokens.position();
    let fact = K::fact(tokens)?;
    Ok(Some(PointLine {
        event,
        fact,
        position,
    }))
}

// An arc's line after its letter, up to its end.
pub fn read_arc<K: Spelling>(tokens: &mut Tokens<'_>) -> Result<ArcLine<K::Fact>, Refusal>
    ensures { taken result (scan_of tokens.new) ≡ arc_line K.Spelling.formats (scan_of tokens.old) }
{
    let from = read_named(tokens)?;
    let to = read_named(tokens)?;
    let point = read_point::<K>(tokens)?;
    Ok(ArcLine { from, to, point })
}

// An edge's line after its letter, up to its end.
pub fn read_edge<K: Spelling>(
    tokens: &mut Tokens<'_>,
) -> Result<EdgeLine<K::Guard, K::Action>, Refusal>
    ensures { taken result (scan_of tokens.new) ≡ edge_line K.Spelling.formats (scan_of tokens.old) }
{
    let from = read_named(tokens)?;
    let event = read_named(tokens)?;
    let to = read_named(tokens)?;
    let guard = K::guard(tokens)?;
    let action = K::action(tokens)?;
    Ok(EdgeLine {
        from,
        event,
        to,
        guard,
        action,
    })
}

// A line of a letter and a count, with its end.
pub fn read_count(tokens: &mut Tokens<'_>, letter: char, most: u8) -> Result<u8, Refusal>
    ensures value { taken result (scan_of tokens.new) ≡ count_line letter most (scan_of tokens.old) }
    ensures range { IfOk result (λ n. counts most n ≡ true) }
{
    tokens.only_letter(letter)?;
    let count = read_named(tokens)?;
    tokens.end_line()?;
    count.counted(most)
}
