// The sides as hosts make them, with the law that they never contradict each other.
ghost use Rattle.std.specs.Prelude.{◌≡◌};
ghost use Rattle.models.specs.declared.tables.CircuitTables.{CircuitTables as LentCircuit};
ghost use Rattle.models.specs.HeldTables.{formula_rows, circuit_rows};
ghost use Rattle.sides.specs.Agreement.{NeverBoth};

use super::falsity::FalsitySide;
use super::truth::TruthSide;
use models::tables::{CircuitTables, FormulaTables};

impl<'a> TruthSide<'a> {
    // The truth side of a formula and circuits. Whatever calls an examiner of it is given, and one of the formula's falsity side,
    // they do not say True and False.
    pub fn new(formula: FormulaTables<'a>, circuit: CircuitTables<'a>) -> TruthSide<'a>
        ensures formula { result.formula ≡ formula.entry }
        ensures circuit { result.circuit ≡ circuit.entry }
        ensures agrees { NeverBoth (formula_rows formula.entry) (circuit_rows circuit.entry) }
    {
        TruthSide { formula, circuit }
    }
}

impl<'a> FalsitySide<'a> {
    // The falsity side of a formula. Whatever calls an examiner of it is given, and one of circuits for the formula, they do
    // not say False and True.
    pub fn new(formula: FormulaTables<'a>) -> FalsitySide<'a>
        ensures formula { result.formula ≡ formula.entry }
        ensures agrees { (u : LentCircuit) → NeverBoth (formula_rows formula.entry) (circuit_rows u) }
    {
        FalsitySide { formula }
    }
}
