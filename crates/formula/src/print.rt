// How a formula's counts, variables and literals are printed.
use super::tables::{Head, Kind, Literal, Variable};
use std::fmt;

impl fmt::Display for Head {
    fn fmt<W: fmt::Write>(&self, f: &mut fmt::Formatter<W>) -> fmt::Result {
        write!(
            f,
            "V {}, C {}, n {}, E {}",
            self.variables, self.clauses, self.universals, self.existentials
        )
    }
}

impl fmt::Display for Variable {
    fn fmt<W: fmt::Write>(&self, f: &mut fmt::Formatter<W>) -> fmt::Result {
        let Variable {
            kind,
            position,
            dependencies,
        } = *self;
        match kind {
            Kind::Undeclared => f.write_str("undeclared"),
            Kind::Universal => write!(f, "universal {position}"),
            Kind::Existential => write!(
                f,
                "existential {position}, dependencies {:016x}",
                dependencies.bits
            ),
        }
    }
}

impl fmt::Display for Literal {
    fn fmt<W: fmt::Write>(&self, f: &mut fmt::Formatter<W>) -> fmt::Result {
        let sign = if self.negative { "-" } else { "" };
        write!(f, "{sign}{}", self.variable)
    }
}
