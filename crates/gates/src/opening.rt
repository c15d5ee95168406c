// What the truth side's opening checks: lawful tables, counts that fit, and that no output reads more than it may.
ghost use Rattle.std.specs.Prelude.{◌≡◌};
ghost use Rattle.base.specs.Causes.{answered};
ghost use Rattle.models.specs.HeldTables.{formula_rows, circuit_rows};
ghost use Rattle.gates.specs.CircuitWorlds.{OpensRight};
ghost use Rattle.gates.specs.Wiring.{output_reach, leaving, lowest_leaving, gate_reaches, truth_opening};

use super::wiring::output_literal;
use base::faults::{Cause, Fault, Layer};
use base::values::ValueWord;
use circuit::tables::MAX_WIRES;
use formula::tables::{Kind, Variable};
use models::tables::{CircuitTables, FormulaTables};
use reach::{fill_reaches, wire_reach};

// A circuit with a table of what each of its gates reads.
#[derive(Clone, Copy, Drop)]
struct Reached<'a> {
    circuit: &'a CircuitTables<'a>,
    reaches: &'a [ValueWord],
}

impl<'a> Reached<'a> {
    // The inputs that an output reads, by its number from 1.
    fn output_reach(&self, output: u32) -> ValueWord
        ensures { result ≡ output_reach (circuit_rows self.now.circuit.now) self.now.reaches.now output }
    {
        let literal = output_literal(self.circuit.outputs, output.saturating_sub(1) as usize);
        wire_reach(self.circuit.head.inputs, self.reaches, literal / 2)
    }

    // The position of an existential whose output reads an input outside its dependencies.
    fn leaving(&self, variable: Variable) -> Option<u32>
        ensures { result ≡ leaving (circuit_rows self.now.circuit.now) self.now.reaches.now variable }
    {
        if variable.kind != Kind::Existential {
            return None;
        }
        let reach = self.output_reach(variable.position);
        (!reach.is_within(variable.dependencies)).then_some(variable.position)
    }

    // The lowest output that reads an input outside its existential's dependencies.
    fn lowest_leaving(&self, variables: &[Variable]) -> Option<u32>
        ensures { result ≡ lowest_leaving (circuit_rows self.now.circuit.now) self.now.reaches.now variables.now }
    {
        variables
            .iter()
            .filter_map(|variable| self.leaving(*variable))
            .min()
    }
}

// The lowest output that reads an input outside its existential's dependencies. The reaches stand in a local array, since a
// call of a case asks for no memory.
fn lowest_too_wide(circuit: &CircuitTables, variables: &[Variable]) -> Option<u32>
    ensures { result ≡ lowest_leaving (circuit_rows circuit.now) (gate_reaches (circuit_rows circuit.now)) variables.now }
{
    // A circuit has no more gates than wires.
    let mut reaches = [ValueWord::empty(); MAX_WIRES as usize];
    fill_reaches(circuit.head, circuit.gates, &mut reaches);
    let reached = Reached {
        circuit,
        reaches: &reaches,
    };
    reached.lowest_leaving(variables)
}

// Whether a case may be opened on these tables.
pub fn check_opening(formula: &FormulaTables, circuit: &CircuitTables) -> Result<(), Fault>
    ensures is { answered result ≡ truth_opening (formula_rows formula.now) (circuit_rows circuit.now) }
    ensures right { OpensRight (answered result) (formula_rows formula.now) (circuit_rows circuit.now) }
{
    if !formula.is_lawful() || !circuit.is_lawful() {
        return Err(Layer::Case.fault(Cause::TablesUnlawful, 0));
    }
    if circuit.head.inputs != formula.head.universals
        || circuit.head.outputs != formula.head.existentials
    {
        return Err(Layer::Case.fault(Cause::CountsDiffer, 0));
    }
    if let Some(output) = lowest_too_wide(circuit, formula.variables) {
        return Err(Layer::Case.fault(Cause::ReachTooWide, output as usize));
    }
    Ok(())
}
