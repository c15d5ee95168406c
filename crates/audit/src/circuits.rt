// The audit of circuit tables.
ghost use Rattle.std.specs.Prelude.{◌≡◌, ◌+◌, ◌≤◌, length, Decides};
ghost use Rattle.audit.specs.CircuitAudit.{counts_lawful, outputs_lawful, gates_lawful, circuit_lawful, LeftByACircuitText};

use super::all_are;
use circuit::tables::{CircuitHead, Gate, MAX_INPUTS, MAX_OUTPUTS, MAX_WIRES};

fn lawful_counts(head: CircuitHead, outputs: usize, gates: usize) -> bool
    ensures { result ≡ counts_lawful head outputs gates }
{
    head.inputs <= MAX_INPUTS
        && head.wires <= MAX_WIRES
        && head.outputs <= MAX_OUTPUTS
        && head.gates <= MAX_WIRES
        && head.wires == head.inputs + head.gates
        && head.outputs as usize <= outputs
        && head.gates as usize <= gates
}

// Each of these outputs is a literal of some wire.
fn lawful_outputs(bound: u32, outputs: &[u32]) -> bool
    ensures { result ≡ outputs_lawful bound outputs.now }
{
    outputs.iter().all(|output| *output < bound)
}

// Each gate's right literals are below its own, the first gate's own being 2(inputs + 1).
fn lawful_gates(inputs: u32, gates: &[Gate]) -> bool
    requires { inputs + length gates.now ≤ MAX_WIRES }
    ensures { result ≡ gates_lawful inputs gates.now }
{
    gates.iter().enumerate().all(|(g, gate)| {
        let own = 2 * (inputs + g as u32 + 1);
        gate.left < own && gate.right < own
    })
}

// Whether an accepted reading of some text, of any length, leaves this head and these tables.
pub fn audit_circuit(head: CircuitHead, outputs: &[u32], gates: &[Gate]) -> bool
    ensures is { result ≡ circuit_lawful head outputs.now gates.now }
    ensures lawful { Decides result (LeftByACircuitText head outputs.now gates.now) }
{
    if !lawful_counts(head, outputs.len(), gates.len()) {
        return false;
    }
    let (used_outputs, free_outputs) = outputs.split_at(head.outputs as usize);
    let (used_gates, free_gates) = gates.split_at(head.gates as usize);
    lawful_outputs(2 * head.wires + 2, used_outputs)
        && all_are(free_outputs, &0)
        && lawful_gates(head.inputs, used_gates)
        && all_are(free_gates, &Gate::default())
}
