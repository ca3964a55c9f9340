// The approvals kind: the store has a bit for each reviewer who has approved, and guards ask for bits of store and datum
// and for how many the store has.
#![tactic(auto)]

ghost use Rattle.std.specs.Prelude.{◌≡◌, refl};
ghost use Rattle.approvals.specs.Approvals.{approvals, matches, contradictory, both, asks_nothing, implied_by};
ghost use Rattle.approvals.specs.Cases.{WorkedCases};
ghost use Rattle.approvals.specs.Spelled.{spelling, facts, largest};
ghost use Rattle.text.specs.Scan.{taken, one};
ghost use Rattle.text.specs.Readers.{natural};
ghost use Rattle.text.specs.Grammar.{take};
ghost use Rattle.text.specs.Cursor.{scan_of};
ghost use Rattle.approvals.specs.Laws;
ghost use Rattle.approvals.specs.Laws.{stays, datums, empties, idles, rates};
ghost use Rattle.approvals.specs.Readable.{facts_read, guards_read, actions_read};

use kinds::{Kind, Spelling};
use model::{Rating, Refusal};
use text::Tokens;
use words::WordSet;

mod data;

pub use data::{Action, Guard, Pattern};

// Names the kind where code is generic over one.
pub struct Approvals;

// The largest mask: a bit for each of 32 reviewers.
const LARGEST: u32 = u32::MAX;

impl Pattern {
    // Whether the word has all of the ones and none of the zeros.
    fn matches(&self, word: WordSet) -> bool
        ensures { result ≡ matches self.now word }
    {
        WordSet::from(self.ones).is_subset(word) && WordSet::from(self.zeros).is_disjoint(word)
    }

    // Whether a bit is asked both ways, so that no word matches.
    fn is_contradictory(&self) -> bool
        ensures { result ≡ contradictory self.now }
    {
        !WordSet::from(self.ones).is_disjoint(self.zeros.into())
    }

    // What both patterns ask.
    fn both(a: Pattern, b: Pattern) -> Pattern
        ensures { result ≡ both a b }
    {
        Pattern {
            ones: WordSet::from(a.ones).union(b.ones.into()).into(),
            zeros: WordSet::from(a.zeros).union(b.zeros.into()).into(),
        }
    }

    // Whether every word matches.
    fn asks_nothing(&self) -> bool
        ensures { result ≡ asks_nothing self.now }
    {
        WordSet::from(self.ones).is_empty() && WordSet::from(self.zeros).is_empty()
    }

    // Whether the other asks all that this one does.
    fn is_implied_by(&self, other: Pattern) -> bool
        ensures { result ≡ implied_by self.now other }
    {
        WordSet::from(self.ones).is_subset(other.ones.into())
            && WordSet::from(self.zeros).is_subset(other.zeros.into())
    }
}

impl Kind for Approvals {
    type Fact = Pattern;

    type Guard = Guard;

    type Action = Action;

    ghost answers = { approvals };

    ghost lawful = { record {
      stores_fit = λ s h. h;
      datums_fit = λ d h. h;
      begins = Laws.begins;
      stays = stays;
      datums = datums;
      empties = empties;
      idles = idles;
      rates = rates;
    } };

    fn start() -> u32 {
        0
    }

    fn meets(fact: &Pattern, datum: u32) -> bool {
        fact.matches(datum.into())
    }

    fn is_empty(fact: &Pattern) -> bool {
        fact.is_contradictory()
    }

    fn holds(guard: &Guard, store: u32, datum: u32) -> bool {
        let store = WordSet::from(store);
        guard.store.matches(store)
            && guard.least <= store.count()
            && guard.datum.matches(datum.into())
    }

    fn makes(action: &Action, store: u32, _datum: u32) -> u32 {
        let (up, down) = (WordSet::from(action.up), WordSet::from(action.down));
        WordSet::from(store).union(up).difference(down).into()
    }

    fn is_idle(action: &Action) -> bool {
        WordSet::from(action.up).is_empty() && WordSet::from(action.down).is_empty()
    }

    fn rate(guard: &Guard, fact: &Pattern) -> Rating {
        if guard.store.is_contradictory()
            || guard.least > 32 - WordSet::from(guard.store.zeros).count()
            || Pattern::both(guard.datum, *fact).is_contradictory()
        {
            Rating::Never
        } else if guard.store.asks_nothing()
            && guard.least == 0
            && guard.datum.is_implied_by(*fact)
        {
            Rating::Always
        } else {
            Rating::Maybe
        }
    }
}

// The worked cases of the definitions hold. Each kind states cases of its own.
#[tactic(auto, unfolding(words::specs::Sets::bits, words::specs::Sets::every, words::specs::Sets::count, words::specs::Sets::mask))]
pub fn worked_cases()
    ensures { WorkedCases }
{}

// A mask is spelled by its number.
fn mask(tokens: &mut Tokens<'_>) -> Result<u32, Refusal>
    ensures { taken result (scan_of tokens.new) ≡ one (natural largest) (scan_of tokens.old) }
{
    tokens.natural(LARGEST)
}

impl Spelling for Approvals {
    ghost formats = { spelling };

    ghost readable = { record { letter_reads = refl; letter_unbroken = (refl, tt); facts_read = facts_read; guards_read = guards_read; actions_read = actions_read } };

    fn letter() -> char {
        'r'
    }

    fn fact(tokens: &mut Tokens<'_>) -> Result<Pattern, Refusal> {
        let ones = mask(tokens)?;
        let zeros = mask(tokens)?;
        Ok(Pattern { ones, zeros })
    }

    #[tactic(auto, using(crate::proofs::Guards::guard_by_parts))]
    fn guard(tokens: &mut Tokens<'_>) -> Result<Guard, Refusal> {
        let store = Approvals::fact(tokens)?;
        let least = tokens.natural(32)?;
        let datum = Approvals::fact(tokens)?;
        Ok(Guard {
            store,
            least,
            datum,
        })
    }

    fn action(tokens: &mut Tokens<'_>) -> Result<Action, Refusal> {
        let up = mask(tokens)?;
        let down = mask(tokens)?;
        Ok(Action { up, down })
    }
}
