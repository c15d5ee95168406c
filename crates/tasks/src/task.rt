// The task for a formula with circuits and a proof, and for a formula with a refutation.
ghost use Rattle.std.specs.Prelude.{◌≡◌, IfOk};
ghost use Rattle.engine.specs.Means.{rules};
ghost use Rattle.tasks.specs.Cases.{CaseHolds};
ghost use Rattle.tasks.specs.Outcomes.{told_outcome, case_ending, truth_ending, falsity_ending};
ghost use Rattle.tasks.specs.Verdicts.{Gives, TextsTrue, TextFalse, NeverBoth};

use super::outcome::{Heads, Outcome};
use engine::shelf::Shelf;
use engine::side::Side;
use records::slip::write_slip;
use replay::progress::Progress;
use replay::replay::replay;
use sides::falsity::FalsitySide;
use sides::truth::TruthSide;
use std::alloc::{AllocError, Global};
use texts::read::{circuit_rows, formula_rows};

// Checks that circuits are right for a formula: reads both texts, opens the case, takes the proof's records and closes. Where the
// slip says True, the texts spell a formula and circuits that read only what they may and whose outputs are a model of it.
pub fn check_truth<F: Shelf + Drop, P: Progress>(
    heap: Global,
    formula: &[u8],
    circuit: &[u8],
    proof: &[u8],
    case: u32,
    shelf: F,
    progress: &mut P,
) -> Result<Outcome, AllocError>
    ensures is { IfOk result (λ o. told_outcome o ≡ truth_ending formula.now circuit.now proof.now case (F.Shelf.K shelf) (F.Shelf.W shelf)) }
    ensures holds { IfOk result (λ o. Gives (told_outcome o) 1 → TextsTrue formula.now circuit.now) }
    ensures never { NeverBoth formula.now }
{
    // A text that is refused is an outcome and no error, so the fault takes no `?`.
    let rows = match formula_rows(heap, formula)? {
        Ok(rows) => rows,
        Err(fault) => return Ok(Outcome::FormulaRefused(fault)),
    };
    let circuits = match circuit_rows(heap, circuit)? {
        Ok(circuits) => circuits,
        Err(fault) => {
            return Ok(Outcome::CircuitRefused {
                formula: rows.head,
                fault,
            });
        }
    };
    let side = TruthSide::new(rows.tables(), circuits.tables());
    let heads = Heads {
        formula: rows.head,
        circuit: Some(circuits.head),
    };
    check_case(heap, heads, side, shelf, case, proof, progress)
}

// Checks that a formula is false: reads it, opens the case, takes the refutation's records and closes. Where the slip says False, the
// text spells a formula that has no model.
pub fn check_falsity<F: Shelf + Drop, P: Progress>(
    heap: Global,
    formula: &[u8],
    proof: &[u8],
    case: u32,
    shelf: F,
    progress: &mut P,
) -> Result<Outcome, AllocError>
    ensures is { IfOk result (λ o. told_outcome o ≡ falsity_ending formula.now proof.now case (F.Shelf.K shelf) (F.Shelf.W shelf)) }
    ensures holds { IfOk result (λ o. Gives (told_outcome o) 2 → TextFalse formula.now) }
    ensures never { NeverBoth formula.now }
{
    // A text that is refused is an outcome and no error, so the fault takes no `?`.
    let rows = match formula_rows(heap, formula)? {
        Ok(rows) => rows,
        Err(fault) => return Ok(Outcome::FormulaRefused(fault)),
    };
    let side = FalsitySide::new(rows.tables());
    let heads = Heads {
        formula: rows.head,
        circuit: None,
    };
    check_case(heap, heads, side, shelf, case, proof, progress)
}

// Replays the proof on a side and writes the slip. Where the slip has the side's verdict, every goal is true in every world.
// The parameters are those of `replay`, whose signature users have.
fn check_case<S: Side + Drop, F: Shelf + Drop, P: Progress>(
    heap: Global,
    heads: Heads,
    side: S,
    shelf: F,
    case: u32,
    proof: &[u8],
    progress: &mut P,
) -> Result<Outcome, AllocError>
    ensures is { IfOk result (λ o. told_outcome o ≡ case_ending heads (rules S.Side F.Shelf side shelf) case proof.now) }
    ensures holds { IfOk result (λ o. CaseHolds S.Side side o) }
{
    match replay(heap, side, shelf, case, proof, progress)? {
        Ok(report) => Ok(Outcome::Closed {
            heads,
            report,
            slip: write_slip(report.slip),
        }),
        Err(fault) => Ok(Outcome::OpeningRefused { heads, fault }),
    }
}
