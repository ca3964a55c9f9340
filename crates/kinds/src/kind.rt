ghost use Rattle.std.specs.Prelude.{◌≡◌};
ghost use Rattle.model.specs.Kind.{Kind as Answers, Laws};

use model::Rating;

// A kind of guard: its facts, guards and actions, and six questions about them. Asking changes nothing.
// Store and datum are two parameters, since a store is kept by a run and a datum comes with a report.
pub trait Kind {
    type Fact: Copy;

    type Guard: Copy;

    type Action: Copy;

    // what the kind answers, with its stores and datums
    ghost answers: { Answers Self.Fact Self.Guard Self.Action };

    // The store that a run begins with.
    fn start() -> u32
        ensures { result ≡ answers.start };

    // Whether the datum meets the fact.
    fn meets(fact: &Self::Fact, datum: u32) -> bool
        ensures { result ≡ answers.meets fact.now datum };

    // Whether no datum meets the fact.
    fn is_empty(fact: &Self::Fact) -> bool
        ensures { result ≡ answers.empty fact.now };

    // Whether the guard holds of the store and the datum.
    fn holds(guard: &Self::Guard, store: u32, datum: u32) -> bool
        ensures { result ≡ answers.holds guard.now store datum };

    // The store that the action makes of a store and a datum.
    fn makes(action: &Self::Action, store: u32, datum: u32) -> u32
        ensures { result ≡ answers.makes action.now store datum };

    // Whether the action leaves every store as it is, for every datum.
    fn is_idle(action: &Self::Action) -> bool
        ensures { result ≡ answers.idle action.now };

    // How the guard fares under the fact.
    fn rate(guard: &Self::Guard, fact: &Self::Fact) -> Rating
        ensures { result ≡ answers.rate guard.now fact.now };

    ghost lawful: { Laws answers };
}
