// The falsity side: a formula is refuted by resolution over the instances of its clauses.
ghost use Rattle.std.specs.Prelude.{[]};
ghost use Rattle.expansion.specs.Instances.{falsity_admits, falsity_claim, falsity_opening};
ghost use Rattle.expansion.specs.ModelWorlds.{Model as FormulaModel, model_world};
ghost use Rattle.expansion.proofs.InstanceLaws.{claim_true, claim_short};
ghost use Rattle.models.specs.HeldTables.{formula_rows};
ghost use Rattle.sides.specs.Meanings.{SaysFalse, falsity_conclusion, falsity_few, falsity_brief};
ghost use Rattle.sides.specs.SideRules.{falsity_rules};

use base::faults::{Cause, Fault, Layer};
use clauses::entry::Entry;
use engine::side::{Side, Verdict};
use expansion::lay_instance;
use models::tables::FormulaTables;
use records::step::Premise;

// Its premises are clauses under a word of values, its one goal is the empty clause, and its worlds are the formula's models:
// where the empty clause is derived, there are none.
#[derive(Clone, Copy, Drop)]
pub struct FalsitySide<'a> {
    pub formula: FormulaTables<'a>,
}

impl<'a> Side for FalsitySide<'a> {
    ghost Model = { λ s. FormulaModel (formula_rows s.formula) };

    ghost world = { λ s m. model_world (formula_rows s.formula) m };

    ghost opening = { λ s. falsity_opening (formula_rows s.formula) };

    ghost admits = { λ s. falsity_admits };

    ghost claim = { λ s. falsity_claim (formula_rows s.formula) };

    ghost goals = { λ s. 1 };

    ghost goal = { λ s g. [] };

    ghost says = { λ s. (falsity_rules (formula_rows s.formula) 0 0).says };

    ghost Meaning = { λ s. SaysFalse (formula_rows s.formula) };

    ghost conclusion = { λ s o h. falsity_conclusion (formula_rows s.formula) h };

    ghost truthful = { λ s o p c e m. claim_true (formula_rows s.formula) p c e m };

    ghost few = { λ s. falsity_few };

    ghost short = { λ s p c e. claim_short (formula_rows s.formula) p c e };

    ghost brief = { λ s g. falsity_brief };

    fn open(&self) -> Result<(), Fault> {
        if !self.formula.is_lawful() {
            return Err(Layer::Case.fault(Cause::TablesUnlawful, 0));
        }
        Ok(())
    }

    fn is_own(&self, premise: Premise) -> bool {
        matches!(premise, Premise::Falsity { .. })
    }

    fn lay_premise(&self, premise: Premise, row: &mut [Entry]) -> Result<usize, Cause> {
        let Premise::Falsity { clause, values } = premise else {
            return Err(Cause::NotThere);
        };
        lay_instance(&self.formula, clause.into(), values, row)
    }

    fn goal_count(&self) -> u32 {
        1
    }

    fn copy_goal(&self, _number: u32, _row: &mut [Entry]) -> usize {
        0
    }

    fn verdict(&self) -> Verdict {
        Verdict::False
    }
}
