// Items that can be told alike, and the kinds of literal.
ghost use Rattle.std.specs.Prelude.{◌≡◌, Bool, true, not, ◌≢◌};
ghost use Rattle.clauses.specs.declared.entry.Entry.{Entry};
ghost use Rattle.clauses.specs.Worlds.{World, same_entry};

use super::entry::Entry;

// Items of which any two are alike or not, which is reflexive, symmetric and transitive. This is not `Eq`: literals are
// alike where they are stored alike, which may be so of literals that are not equal.
pub trait Alike {
    ghost like: { Self → Self → Bool };

    fn alike(&self, other: &Self) -> bool
        ensures { result ≡ like self.now other.now };

    ghost reflexive: { (x : Self) → like x x ≡ true };

    ghost symmetric: { (x y : Self) → like x y ≡ true → like y x ≡ true };

    ghost transitive: { (x y z : Self) → like x y ≡ true → like y z ≡ true → like x z ≡ true };
}

// A kind of literal. Each literal is stored as an entry, and the laws speak of entries: the complement of a
// complement is the entry itself, no entry is its own complement, and each world has exactly one of the two true.
pub trait Literal: Alike + Sized {
    ghost meaning: { Self → Entry };

    ghost opposite: { Self → Self };

    // The entry that the literal is stored as. Literals are alike exactly if their entries are equal.
    fn entry(&self) -> Entry
        ensures is { result ≡ meaning self.now }
        ensures alike { (y : Self) → Self.Alike.like self.now y ≡ same_entry (meaning self.now) (meaning y) };

    fn complement(&self) -> Self
        ensures { result ≡ opposite self.now };

    ghost twice: { (x : Self) → meaning (opposite (opposite x)) ≡ meaning x };

    ghost apart: { (x : Self) → meaning (opposite x) ≢ meaning x };

    ghost one: { (w : World) (x : Self) → w.holds (meaning (opposite x)) ≡ not (w.holds (meaning x)) };
}
