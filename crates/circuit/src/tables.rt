// The tables that a circuit is read into. Literal 2w is wire w, 2w + 1 its negation; wire 0 is constant false.

// The most wires besides the constant one.
pub const MAX_WIRES: u32 = 60_000;

// The most inputs.
pub const MAX_INPUTS: u32 = 64;

// The most outputs.
pub const MAX_OUTPUTS: u32 = 4_096;

// The header's counts: the largest wire (M), inputs (I), outputs (O) and gates (A).
#[derive(Clone, Copy, PartialEq, Eq, Debug)]
pub struct CircuitHead {
    pub wires: u32,
    pub inputs: u32,
    pub outputs: u32,
    pub gates: u32,
}

// The two right literals of a gate, which is true exactly if both are.
#[derive(Clone, Copy, PartialEq, Eq, Debug, Default)]
pub struct Gate {
    pub left: u32,
    pub right: u32,
}
