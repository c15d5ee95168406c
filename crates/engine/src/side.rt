// A side: what is claimed, with its premises, goals and worlds.
ghost use Rattle.std.specs.Prelude.{◌≡◌, ℕ, ◌≤◌, min, Bool, true, List, length, take, Ok, Result};
ghost use Rattle.base.specs.Causes.{Refusal, answered};
ghost use Rattle.clauses.specs.Clauses.{over};
ghost use Rattle.clauses.specs.Worlds.{World, true_in};
ghost use Rattle.clauses.specs.declared.entry.Entry.{Entry};
ghost use Rattle.records.specs.declared.step.Premise.{Premise};
ghost use Rattle.engine.specs.declared.side.Verdict.{Verdict};
ghost use Rattle.engine.specs.Laid.{Laid};

use base::faults::{Cause, Fault};
use clauses::entry::Entry;
use records::step::Premise;

// What a case says once all its goals are settled.
#[derive(Clone, Copy, PartialEq, Eq, Debug)]
pub enum Verdict {
    True,
    False,
}

// A side keeps its tables fixed. Where its opening accepts them, its premises are true in every world.
pub trait Side {
    // What makes worlds: for the truth of circuits an assignment, for the falsity of a formula a model.
    ghost Model: { Self → Type 0 };

    ghost world: { (s : Self) → Model s → World };

    // The refusal of the tables, or none.
    ghost opening: { Self → Result (Unit {0}) Refusal };

    // Whether a premise is of this side's kind.
    ghost admits: { Self → Premise → Bool };

    // The clause of a premise, or the cause why there is none.
    ghost claim: { Self → Premise → Result (List Entry) ℕ };

    ghost goals: { Self → ℕ };

    // The goal with a number, from 1.
    ghost goal: { Self → ℕ → List Entry };

    ghost says: { Self → Verdict };

    // What the verdict says of the subject. It follows where the tables are accepted and every goal is true in every world.
    ghost Meaning: { Self → Type 0 };

    ghost conclusion: { (s : Self) → opening s ≡ Ok tt → ((g : ℕ) → 1 ≤ g → g ≤ goals s → (m : Model s) → true_in (world s m) (goal s g) ≡ true) → Meaning s };

    ghost truthful: { (s : Self) → opening s ≡ Ok tt → (p : Premise) (c : List Entry) → claim s p ≡ Ok c → (m : Model s) → true_in (world s m) c ≡ true };

    // At most 16,384 goals, and at most 1,024 literals in a premise or a goal.
    ghost few: { (s : Self) → goals s ≤ 16384 };

    ghost short: { (s : Self) (p : Premise) (c : List Entry) → claim s p ≡ Ok c → length c ≤ 1024 };

    ghost brief: { (s : Self) (g : ℕ) → length (goal s g) ≤ 1024 };

    fn open(&self) -> Result<(), Fault>
        ensures { answered result ≡ opening self.now };

    fn is_own(&self, premise: Premise) -> bool
        ensures { result ≡ admits self.now premise };

    // Lays the premise's clause at the front of a row and answers how many literals it has; refuses with
    // `TableShort`, changing nothing, where the row is shorter.
    fn lay_premise(&self, premise: Premise, row: &mut [Entry]) -> Result<usize, Cause>
        ensures { Laid (claim self.now premise) result row.old row.new };

    fn goal_count(&self) -> u32
        ensures { result ≡ goals self.now };

    // Copies a goal, or as much of it as there is room for, to the front of a row; answers how many literals.
    fn copy_goal(&self, number: u32, row: &mut [Entry]) -> usize
        ensures answer { result ≡ min (length (goal self.now number)) (length row.old) }
        ensures after { row.new ≡ over (take (length row.old) (goal self.now number)) row.old };

    fn verdict(&self) -> Verdict
        ensures { result ≡ says self.now };
}
