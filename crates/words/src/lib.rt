// Sets of the numbers 0 to 31, each in a word: n is a member where bit n is set.
#![tactic(auto)]

ghost use Rattle.std.specs.Prelude.{◌≡◌, ◌^◌, ◌<◌, ◌≤◌};
ghost use Rattle.words.specs.Sets.{bits, word, insert, union_of, difference_of, is_empty, is_subset, is_disjoint, size};

use std::marker::Model;

// A set of the numbers 0 to 31; contracts see it as the number of its word.
#[derive(Clone, Copy, PartialEq, Eq)]
pub struct WordSet {
    word: u32,
}

// Every word is a set's: the invariant is the range of the field's type.
impl Model for WordSet {
    ghost use Rattle.std.specs.Prelude.{ℕ, ◌^◌, ◌<◌};

    ghost Value = { ℕ };

    ghost view = { λ a. a.word };

    ghost invariant = { λ a. a.word < 2 ^ 32 };

    ghost inverse = { λ n. record { word = n } };
}

// The set that the word stands for.
impl From<u32> for WordSet {
    ghost from_gives = { λ word set. set ≡ word };

    fn from(word: u32) -> WordSet {
        WordSet { word }
    }
}

// The word that stands for the set.
impl From<WordSet> for u32 {
    ghost from_gives = { λ set word. word ≡ set };

    fn from(set: WordSet) -> u32 {
        set.word
    }
}

impl WordSet {
    // Whether the number is a member.
    #[tactic(auto, using(crate::proofs::Bits::contains_word, crate::proofs::Bits::contains_past))]
    pub fn contains(self, n: u32) -> bool
        ensures value { result ≡ bits self n }
        ensures range { self < 2 ^ 32 }
    {
        n < 32 && self.word >> n & 1 == 1
    }

    // Makes the number a member; a number past 31 changes nothing.
    #[tactic(auto, using(crate::proofs::Bits::insert_word, crate::proofs::Bits::insert_past))]
    pub fn insert(&mut self, n: u32)
        ensures value { self.new ≡ word (insert (bits self.old) n) }
        ensures range { (self.old < 2 ^ 32) × (self.new < 2 ^ 32) }
    {
        if n < 32 {
            self.word |= 1 << n;
        }
    }

    // The members of either set.
    #[tactic(auto, using(crate::proofs::Bits::union_word))]
    pub fn union(self, other: WordSet) -> WordSet
        ensures value { result ≡ union_of self other }
        ensures range { (self < 2 ^ 32) × (other < 2 ^ 32) }
    {
        WordSet {
            word: self.word | other.word,
        }
    }

    // The members of this set that the other has not.
    #[tactic(auto, using(crate::proofs::Bits::difference_word))]
    pub fn difference(self, other: WordSet) -> WordSet
        ensures value { result ≡ difference_of self other }
        ensures range { (self < 2 ^ 32) × (other < 2 ^ 32) }
    {
        WordSet {
            word: self.word & !other.word,
        }
    }

    // Whether the set has no member.
    #[tactic(auto, using(crate::proofs::Bits::empty_word))]
    pub fn is_empty(self) -> bool
        ensures value { result ≡ is_empty (bits self) }
        ensures range { self < 2 ^ 32 }
    {
        self.word == 0
    }

    // Whether the other set has all members of this one.
    #[tactic(auto, using(crate::proofs::Bits::subset_word))]
    pub fn is_subset(self, other: WordSet) -> bool
        ensures value { result ≡ is_subset (bits self) (bits other) }
        ensures range { (self < 2 ^ 32) × (other < 2 ^ 32) }
    {
        self.word & other.word == self.word
    }

    // Whether the sets share no member.
    #[tactic(auto, using(crate::proofs::Bits::disjoint_word))]
    pub fn is_disjoint(self, other: WordSet) -> bool
        ensures value { result ≡ is_disjoint (bits self) (bits other) }
        ensures range { (self < 2 ^ 32) × (other < 2 ^ 32) }
    {
        self.word & other.word == 0
    }

    // How many members the set has.
    #[tactic(auto, using(crate::proofs::Bits::count_word))]
    pub fn count(self) -> u32
        ensures value { result ≡ size (bits self) }
        ensures most { result ≤ 32 }
        ensures range { self < 2 ^ 32 }
    {
        self.word.count_ones()
    }
}
