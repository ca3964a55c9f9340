// What is asked of a word: every bit of `ones` is set, and no bit of `zeros`. A fact is a pattern for the datum. Both are
// words, and sets where they are asked: a `Copy` struct that holds a `WordSet` would not be copied at each of its uses.
#[derive(Clone, Copy)]
pub struct Pattern {
    pub ones: u32,
    pub zeros: u32,
}

// Holds when store and datum match their patterns and the store has at least `least` bits set. In a text it is
// `have lack least dhave dlack`: the store's ones and zeros, `least`, and the datum's ones and zeros.
#[derive(Clone, Copy)]
pub struct Guard {
    pub store: Pattern,
    pub least: u32,
    pub datum: Pattern,
}

// Sets the store's bits of `up`, then clears those of `down`.
#[derive(Clone, Copy)]
pub struct Action {
    pub up: u32,
    pub down: u32,
}
