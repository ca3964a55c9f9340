// The holder kind: the store is the user who holds, or 0 for nobody, and guards ask who holds and which user the datum
// is. Users are 1 to 65535.
#![tactic(auto)]

ghost use Rattle.std.specs.Prelude.{◌≡◌, refl};
ghost use Rattle.holder.specs.Cases.{WorkedCases};
ghost use Rattle.holder.specs.Holder.{holder, largest, is_user, meets, empty};
ghost use Rattle.holder.specs.Spelled.{spelling};
ghost use Rattle.text.specs.Scan.{taken, one};
ghost use Rattle.text.specs.Readers.{natural};
ghost use Rattle.text.specs.Cursor.{scan_of};
ghost use Rattle.holder.specs.Laws.{stores_fit, datums_fit, begins, stays, datums, empties, idles, rates};
ghost use Rattle.holder.specs.Readable.{facts_read, guards_read, actions_read};

use kinds::{Kind, Spelling};
use model::{Rating, Refusal};
use text::Tokens;

mod data;

pub use data::{Action, Fact, Guard};

// The largest user's number.
const LARGEST: u32 = 65535;

// Names the kind where code is generic over one.
pub struct Holder;

// Whether the number is a user's.
fn is_user(n: u32) -> bool
    ensures { result ≡ is_user n }
{
    (1..=LARGEST).contains(&n)
}

impl Fact {
    // Whether the datum is a user who meets the fact.
    fn is_met_by(&self, datum: u32) -> bool
        ensures { result ≡ meets self.now datum }
    {
        match *self {
            Fact::Any => is_user(datum),
            Fact::Only(u) => is_user(datum) && datum == u32::from(u),
            Fact::Except(u) => is_user(datum) && datum != u32::from(u),
        }
    }

    // Whether no user meets the fact.
    fn is_empty(&self) -> bool
        ensures { result ≡ empty self.now }
    {
        match *self {
            Fact::Only(u) => u == 0,
            Fact::Any | Fact::Except(_) => false,
        }
    }
}

impl Kind for Holder {
    type Fact = Fact;

    type Guard = Guard;

    type Action = Action;

    ghost answers = { holder };

    ghost lawful = { record {
      stores_fit = stores_fit;
      datums_fit = datums_fit;
      begins = begins;
      stays = stays;
      datums = datums;
      empties = empties;
      idles = idles;
      rates = rates;
    } };

    fn start() -> u32 {
        0
    }

    fn meets(fact: &Fact, datum: u32) -> bool {
        fact.is_met_by(datum)
    }

    fn is_empty(fact: &Fact) -> bool {
        fact.is_empty()
    }

    fn holds(guard: &Guard, store: u32, datum: u32) -> bool {
        match *guard {
            Guard::True => true,
            Guard::IsHolder => store == datum,
            Guard::NotHolder => store != datum,
            Guard::Nobody => store == 0,
            Guard::Somebody => store != 0,
            Guard::User(u) => datum == u32::from(u),
        }
    }

    fn makes(action: &Action, store: u32, datum: u32) -> u32 {
        match *action {
            Action::Nothing => store,
            Action::Take => datum,
            Action::Clear => 0,
        }
    }

    fn is_idle(action: &Action) -> bool {
        matches!(*action, Action::Nothing)
    }

    fn rate(guard: &Guard, fact: &Fact) -> Rating {
        if fact.is_empty() {
            return Rating::Never;
        }
        match (*guard, *fact) {
            (Guard::True, _) => Rating::Always,
            (Guard::User(u), _) if !fact.is_met_by(u32::from(u)) => Rating::Never,
            (Guard::User(_), Fact::Only(_)) => Rating::Always,
            _ => Rating::Maybe,
        }
    }
}

// The worked cases of the definitions hold. Each kind states cases of its own.
pub fn worked_cases()
    ensures { WorkedCases }
{}

// The number of a user, or 0.
fn user(tokens: &mut Tokens<'_>) -> Result<u16, Refusal>
    ensures { taken result (scan_of tokens.new) ≡ one (natural largest) (scan_of tokens.old) }
{
    Ok(tokens.natural(LARGEST)? as u16)
}

// Letters are matched against characters, as the format has them. A method of the cursor that is passed what each stands for
// would have a premise, that it may be called.
impl Spelling for Holder {
    ghost formats = { spelling };

    ghost readable = { record { letter_reads = refl; letter_unbroken = (refl, tt); facts_read = facts_read; guards_read = guards_read; actions_read = actions_read } };

    fn letter() -> char {
        'h'
    }

    fn fact(tokens: &mut Tokens<'_>) -> Result<Fact, Refusal> {
        let refusal = tokens.broken();
        match tokens.letter()? {
            '*' => {
                tokens.only_number(0)?;
                Ok(Fact::Any)
            }
            '=' => Ok(Fact::Only(user(tokens)?)),
            '!' => Ok(Fact::Except(user(tokens)?)),
            _ => Err(refusal),
        }
    }

    fn guard(tokens: &mut Tokens<'_>) -> Result<Guard, Refusal> {
        let refusal = tokens.broken();
        let guard = match tokens.letter()? {
            '*' => Guard::True,
            '=' => Guard::IsHolder,
            '!' => Guard::NotHolder,
            'f' => Guard::Nobody,
            'g' => Guard::Somebody,
            'u' => return Ok(Guard::User(user(tokens)?)),
            _ => return Err(refusal),
        };
        tokens.only_number(0)?;
        Ok(guard)
    }

    fn action(tokens: &mut Tokens<'_>) -> Result<Action, Refusal> {
        let refusal = tokens.broken();
        let action = match tokens.letter()? {
            'n' => Action::Nothing,
            't' => Action::Take,
            'c' => Action::Clear,
            _ => return Err(refusal),
        };
        tokens.only_number(0)?;
        Ok(action)
    }
}
