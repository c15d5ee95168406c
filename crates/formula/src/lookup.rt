// Looks up what the tables hold.
ghost use Rattle.std.specs.Prelude.{◌≡◌, ◌<◌, ◌≤◌, length, OnSome};
ghost use Rattle.formula.specs.Groups.{variable_in};

use super::tables::Variable;

// The record of v, where v is one of these variables, which are numbered from 1.
pub fn variable(vars: &[Variable], v: u32) -> Option<Variable>
    ensures is { result ≡ variable_in vars.now v }
    ensures above { OnSome result (0 < v) }
    ensures within { OnSome result (v ≤ length vars.now) }
{
    vars.get((v as usize).checked_sub(1)?).copied()
}
