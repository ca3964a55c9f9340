ghost use Rattle.std.specs.Prelude.{◌≡◌};
ghost use Rattle.text.specs.Scan.{taken};
ghost use Rattle.text.specs.Grammar.{take};
ghost use Rattle.text.specs.Cursor.{scan_of};
ghost use Rattle.kinds.specs.Spelling.{Spelling as Formats, ReadableParts};

use crate::kind::Kind;
use model::Refusal;
use text::Tokens;

// A kind whose facts, guards and actions are read from the tokens of a plan text.
pub trait Spelling: Kind {
    // the kind's letter, and how its parts are spelled
    ghost formats: { Formats Self.Fact Self.Guard Self.Action };

    // The letter that names the kind in a text's first line.
    fn letter() -> char
        ensures { result ≡ formats.letter };

    // The fact that the next tokens spell.
    fn fact(tokens: &mut Tokens<'_>) -> Result<Self::Fact, Refusal>
        ensures { taken result (scan_of tokens.new) ≡ take formats.facts.grammar (scan_of tokens.old) };

    // The guard that the next tokens spell.
    fn guard(tokens: &mut Tokens<'_>) -> Result<Self::Guard, Refusal>
        ensures { taken result (scan_of tokens.new) ≡ take formats.guards.grammar (scan_of tokens.old) };

    // The action that the next tokens spell.
    fn action(tokens: &mut Tokens<'_>) -> Result<Self::Action, Refusal>
        ensures { taken result (scan_of tokens.new) ≡ take formats.actions.grammar (scan_of tokens.old) };

    ghost readable: { ReadableParts formats };
}
