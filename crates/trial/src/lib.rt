// A small side for trying examiners. Of the engine it sees only what it promises.
#![tactic(auto)]

ghost use Rattle.std.specs.Prelude.{◌≡◌, Ok};
ghost use Rattle.base.specs.Words.{empty_word};
ghost use Rattle.clauses.specs.Laid.{Laid as LaidClause};
ghost use Rattle.engine.specs.declared.side.Verdict.TheVariants as verdict;
ghost use Rattle.trial.specs.Trial.{trial_class, trial_claim, trial_admits, trial_goals, trial_goal, trial_opening};
ghost use Rattle.trial.specs.TrialWorld.{all_true, EachGoal, goals_few, goal_brief, claim_short, claim_true};

pub mod script;
#[cfg(test)]
mod tests;

use base::faults::{Cause, Fault, Layer};
use base::values::ValueWord;
use clauses::entry::Entry;
use engine::side::{Side, Verdict};
use records::step::Premise;

// Goal g is the variable g, and premises are clauses of variables that follow one another. Its one world makes every
// variable true.
#[derive(Clone, Copy, Drop)]
pub struct TrialSide {
    pub goals: u32,
}

// The literal with a code.
fn entry(code: u32) -> Entry
    ensures { result ≡ record { code = code; values = empty_word } }
{
    Entry {
        code,
        values: ValueWord::empty(),
    }
}

// Lays a clause at the front of a row.
fn lay(clause: &[Entry], row: &mut [Entry]) -> Result<usize, Cause>
    ensures { LaidClause (Ok clause.now) result row.old row.new }
{
    if row.len() < clause.len() {
        return Err(Cause::TableShort);
    }
    row[..clause.len()].copy_from_slice(clause);
    Ok(clause.len())
}

// Lays the clause of a class for the variable k.
fn lay_class(class: u8, k: u16, row: &mut [Entry]) -> Result<usize, Cause>
    ensures { LaidClause (trial_class class k) result row.old row.new }
{
    let own = entry(2 * k as u32);
    let not = entry(2 * k as u32 + 1);
    let next = entry(2 * (k as u32 + 1));
    match class {
        0 => lay(&[own], row),
        1 => lay(&[own, own], row),
        2 => lay(&[not, next], row),
        3 => lay(&[not, next, entry(2 * (k as u32 + 65_536))], row),
        4 => lay(&[own, not], row),
        _ => Err(Cause::NotThere),
    }
}

impl Side for TrialSide {
    ghost Model = { λ s. Unit {0} };

    ghost world = { λ s m. all_true };

    ghost opening = { λ s. trial_opening s.goals };

    ghost admits = { λ s. trial_admits };

    ghost claim = { λ s. trial_claim };

    ghost goals = { λ s. trial_goals s.goals };

    ghost goal = { λ s. trial_goal };

    ghost says = { λ s. verdict.True };

    ghost Meaning = { λ s. EachGoal s.goals };

    ghost conclusion = { λ s o h g low high. h g low high tt };

    ghost truthful = { λ s o p c e m. claim_true p c e };

    ghost few = { λ s. goals_few s.goals };

    ghost short = { λ s p c e. claim_short p c e };

    ghost brief = { λ s g. goal_brief g };

    fn open(&self) -> Result<(), Fault> {
        if self.goals > 16_384 {
            return Err(Layer::Case.fault(Cause::TablesUnlawful, 0));
        }
        Ok(())
    }

    fn is_own(&self, premise: Premise) -> bool {
        matches!(premise, Premise::Truth { .. })
    }

    fn lay_premise(&self, premise: Premise, row: &mut [Entry]) -> Result<usize, Cause> {
        match premise {
            Premise::Truth { class, number, .. } => lay_class(class, number, row),
            Premise::Falsity { .. } => Err(Cause::NotThere),
        }
    }

    fn goal_count(&self) -> u32 {
        self.goals.min(16_384)
    }

    fn copy_goal(&self, number: u32, row: &mut [Entry]) -> usize {
        if number > 16_384 || row.is_empty() {
            return 0;
        }
        row[0] = entry(2 * number);
        1
    }

    fn verdict(&self) -> Verdict {
        Verdict::True
    }
}
