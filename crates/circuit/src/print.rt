// How a circuit's counts are printed.
use super::tables::CircuitHead;
use std::fmt;

impl fmt::Display for CircuitHead {
    fn fmt<W: fmt::Write>(&self, f: &mut fmt::Formatter<W>) -> fmt::Result {
        write!(
            f,
            "M {}, I {}, O {}, A {}",
            self.wires, self.inputs, self.outputs, self.gates
        )
    }
}
