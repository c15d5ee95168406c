// Cases: texts with what their reading has to answer, computed from the definitions and run on the readers.
#![tactic(auto)]

ghost use Rattle.std.specs.Prelude.{◌≡◌, true};
ghost use Rattle.cases.specs.Cases.{all, shows, table};

#[cfg(test)]
mod circuits;
#[cfg(test)]
mod formulas;
#[cfg(test)]
mod outcomes;

// Of each case of the table the definitions answer what the table says.
pub fn cases_hold() -> u8
    ensures { all shows table ≡ true }
{
    0
}
