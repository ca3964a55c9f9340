// The tally kind: the store counts, and guards ask where the count and the datum lie.
// Stores and datums are words, read as signed by two's complement.
#![tactic(auto)]

ghost use Rattle.std.specs.Prelude.{◌≡◌, refl};
ghost use Rattle.tally.specs.Cases.{WorkedCases};
ghost use Rattle.tally.specs.Tally.{tally, contains, misses, covers, lowest, highest};
ghost use Rattle.tally.specs.Spelled.{spelling, facts};
ghost use Rattle.text.specs.Scan.{taken};
ghost use Rattle.text.specs.Grammar.{take};
ghost use Rattle.tally.specs.Laws.{begins, stays, datums, empties, idles, rates};
ghost use Rattle.tally.specs.Readable.{facts_read, guards_read, actions_read};

use kinds::{Kind, Spelling};
use model::{Rating, Refusal};
use text::Tokens;

mod data;

pub use data::{Action, Guard, Range};

// Names the kind where code is generic over one.
pub struct Tally;

impl Range {
    // The signed words.
    pub const ALL: Range = Range {
        lo: i32::MIN,
        hi: i32::MAX,
    };

    // Whether the number lies in the range.
    fn contains(&self, n: i32) -> bool
        ensures { result ≡ contains self.now n }
    {
        (self.lo..=self.hi).contains(&n)
    }

    // Whether the range reaches both ends of the other.
    fn covers(&self, other: Range) -> bool
        ensures { result ≡ covers self.now (lowest other) (highest other) }
    {
        self.lo <= other.lo && other.hi <= self.hi
    }

    // Whether no number lies in both ranges.
    fn misses(&self, other: Range) -> bool
        ensures { result ≡ misses self.now (lowest other) (highest other) }
    {
        self.hi.min(other.hi) < self.lo.max(other.lo)
    }
}

impl Kind for Tally {
    type Fact = Range;

    type Guard = Guard;

    type Action = Action;

    ghost answers = { tally };

    ghost lawful = { record {
      stores_fit = λ s h. h;
      datums_fit = λ d h. h;
      begins = begins;
      stays = stays;
      datums = datums;
      empties = empties;
      idles = idles;
      rates = rates;
    } };

    fn start() -> u32 {
        0
    }

    fn meets(fact: &Range, datum: u32) -> bool {
        fact.contains(datum.cast_signed())
    }

    fn is_empty(fact: &Range) -> bool {
        fact.hi < fact.lo
    }

    fn holds(guard: &Guard, store: u32, datum: u32) -> bool {
        guard.count.contains(store.cast_signed()) && guard.datum.contains(datum.cast_signed())
    }

    fn makes(action: &Action, store: u32, datum: u32) -> u32 {
        match *action {
            Action::Nothing => store,
            Action::Add(k) => store.cast_signed().saturating_add(k).cast_unsigned(),
            Action::AddDatum => store
                .cast_signed()
                .saturating_add(datum.cast_signed())
                .cast_unsigned(),
            Action::Set(k) => k.cast_unsigned(),
        }
    }

    fn is_idle(action: &Action) -> bool {
        matches!(*action, Action::Nothing | Action::Add(0))
    }

    fn rate(guard: &Guard, fact: &Range) -> Rating {
        if guard.count.misses(Range::ALL) || guard.datum.misses(*fact) {
            Rating::Never
        } else if guard.count.covers(Range::ALL) && guard.datum.covers(*fact) {
            Rating::Always
        } else {
            Rating::Maybe
        }
    }
}

// The worked cases of the definitions hold. Each kind states cases of its own.
pub fn worked_cases()
    ensures { WorkedCases }
{}

// Letters are matched against characters, as the format has them. A method of the cursor that is passed what each stands for
// would have a premise, that it may be called.
impl Spelling for Tally {
    ghost formats = { spelling };

    ghost readable = { record { letter_reads = refl; letter_unbroken = (refl, tt); facts_read = facts_read; guards_read = guards_read; actions_read = actions_read } };

    fn letter() -> char {
        't'
    }

    fn fact(tokens: &mut Tokens<'_>) -> Result<Range, Refusal> {
        let lo = tokens.signed()?;
        let hi = tokens.signed()?;
        Ok(Range { lo, hi })
    }

    fn guard(tokens: &mut Tokens<'_>) -> Result<Guard, Refusal> {
        let count = Tally::fact(tokens)?;
        let datum = Tally::fact(tokens)?;
        Ok(Guard { count, datum })
    }

    fn action(tokens: &mut Tokens<'_>) -> Result<Action, Refusal> {
        let refusal = tokens.broken();
        match tokens.letter()? {
            'n' => {
                tokens.only_number(0)?;
                Ok(Action::Nothing)
            }
            '+' => Ok(Action::Add(tokens.signed()?)),
            'd' => {
                tokens.only_number(0)?;
                Ok(Action::AddDatum)
            }
            '=' => Ok(Action::Set(tokens.signed()?)),
            _ => Err(refusal),
        }
    }
}
