// The truth side: circuits are shown to make every clause of a formula true.
ghost use Rattle.gates.specs.CircuitWorlds.{circuit_world};
ghost use Rattle.gates.proofs.WiringLaws.{claim_short, goal_short};
ghost use Rattle.gates.specs.Wiring.{truth_admits, truth_claim, truth_opening, goal_number, goal_clause};
ghost use Rattle.models.specs.CircuitValues.{Inputs};
ghost use Rattle.models.specs.HeldTables.{formula_rows, circuit_rows, aig_of};
ghost use Rattle.sides.specs.Meanings.{SaysTrue, truth_conclusion, truth_holds, truth_few};
ghost use Rattle.sides.specs.SideRules.{truth_rules};

use base::faults::{Cause, Fault};
use clauses::entry::Entry;
use engine::side::{Side, Verdict};
use formula::tables::MAX_CLAUSES;
use gates::goals::copy_goal;
use gates::opening::check_opening;
use gates::wiring::lay_wiring;
use models::tables::{CircuitTables, FormulaTables};
use records::step::Premise;

// Its premises say what the circuits compute, goal j is clause j over their wires, and its worlds are the assignments of the
// inputs: where every goal is true in every world, the circuits' outputs are a model of the formula.
#[derive(Clone, Copy, Drop)]
pub struct TruthSide<'a> {
    pub formula: FormulaTables<'a>,
    pub circuit: CircuitTables<'a>,
}

impl<'a> Side for TruthSide<'a> {
    ghost Model = { λ s. Inputs };

    ghost world = { λ s m. circuit_world (aig_of (circuit_rows s.circuit)) m };

    ghost opening = { λ s. truth_opening (formula_rows s.formula) (circuit_rows s.circuit) };

    ghost admits = { λ s. truth_admits };

    ghost claim = { λ s. truth_claim (circuit_rows s.circuit) };

    ghost goals = { λ s. goal_number (formula_rows s.formula) };

    ghost goal = { λ s. goal_clause (formula_rows s.formula) s.circuit.head.wires };

    ghost says = { λ s. (truth_rules (formula_rows s.formula) (circuit_rows s.circuit) 0 0).says };

    ghost Meaning = { λ s. SaysTrue (formula_rows s.formula) (circuit_rows s.circuit) };

    ghost conclusion = { λ s o h. truth_conclusion (formula_rows s.formula) (circuit_rows s.circuit) o h };

    ghost truthful = { λ s o p c e m. truth_holds (formula_rows s.formula) (circuit_rows s.circuit) o p c e m };

    ghost few = { λ s. truth_few (formula_rows s.formula) };

    ghost short = { λ s p c e. claim_short (circuit_rows s.circuit) p c e };

    ghost brief = { λ s g. goal_short (formula_rows s.formula) s.circuit.head.wires g };

    fn open(&self) -> Result<(), Fault> {
        check_opening(&self.formula, &self.circuit)
    }

    fn is_own(&self, premise: Premise) -> bool {
        matches!(premise, Premise::Truth { .. })
    }

    fn lay_premise(&self, premise: Premise, row: &mut [Entry]) -> Result<usize, Cause> {
        let Premise::Truth {
            class,
            number,
            part,
        } = premise
        else {
            return Err(Cause::NotThere);
        };
        lay_wiring(&self.circuit, class, number, part, row)
    }

    fn goal_count(&self) -> u32 {
        self.formula.head.clauses.min(MAX_CLAUSES)
    }

    fn copy_goal(&self, number: u32, row: &mut [Entry]) -> usize {
        copy_goal(&self.formula, self.circuit.head.wires, number, row)
    }

    fn verdict(&self) -> Verdict {
        Verdict::True
    }
}
