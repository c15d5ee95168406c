// Words of values and of dependencies: a set of universal positions, from 1 to 64.
ghost use Rattle.std.specs.Prelude.{◌≡◌};
ghost use Rattle.base.specs.Words.{empty_word, first_word, single_word, union_word, common_word, has_bit, within_word, equal_words};

// The bit worth 2^(k-1) belongs to universal position k.
#[derive(Clone, Copy, PartialEq, Eq, Debug, Default)]
pub struct ValueWord {
    pub bits: u64,
}

impl ValueWord {
    // No position.
    #[tactic(auto, unfolding(crate::specs::Words::empty_word))]
    pub fn empty() -> Self
        ensures { result ≡ empty_word }
    {
        ValueWord { bits: 0 }
    }

    // The positions 1 to n, or all 64 where n is larger.
    #[tactic(auto, unfolding(crate::specs::Words::first_word))]
    pub fn first(n: u32) -> Self
        ensures { result ≡ first_word n }
    {
        if n >= 64 {
            return ValueWord { bits: u64::MAX };
        }
        ValueWord {
            bits: (1u64 << n) - 1,
        }
    }

    // Position k alone, or none where k is no position.
    #[tactic(auto, unfolding(crate::specs::Words::single_word))]
    pub fn single(k: u32) -> Self
        ensures { result ≡ single_word k }
    {
        if k == 0 || k > 64 {
            return ValueWord { bits: 0 };
        }
        ValueWord {
            bits: 1u64 << (k - 1),
        }
    }

    // The positions in either word.
    #[tactic(auto, unfolding(crate::specs::Words::union_word))]
    pub fn union(self, other: ValueWord) -> Self
        ensures { result ≡ union_word self other }
    {
        ValueWord {
            bits: self.bits | other.bits,
        }
    }

    // The positions in both words.
    #[tactic(auto, unfolding(crate::specs::Words::common_word))]
    pub fn intersection(self, other: ValueWord) -> Self
        ensures { result ≡ common_word self other }
    {
        ValueWord {
            bits: self.bits & other.bits,
        }
    }

    // Whether position k is in the word.
    pub fn has(self, k: u32) -> bool
        ensures { result ≡ has_bit self k }
    {
        if k == 0 || k > 64 {
            return false;
        }
        self.bits >> (k - 1) & 1 == 1
    }

    // Whether each position of this word is in the other.
    pub fn is_within(self, other: ValueWord) -> bool
        ensures { result ≡ within_word self other }
    {
        self.bits & !other.bits == 0
    }

    // Whether both words have the same positions.
    #[tactic(auto, unfolding(crate::specs::Words::equal_words))]
    pub fn equals(self, other: ValueWord) -> bool
        ensures { result ≡ equal_words self other }
    {
        self == other
    }
}
