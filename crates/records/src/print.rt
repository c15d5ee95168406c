// How premises, steps, verdicts and slips are printed.
use super::slip::{Slip, Verdict};
use super::step::{Premise, Step};
use std::fmt;

impl fmt::Display for Premise {
    fn fmt<W: fmt::Write>(&self, f: &mut fmt::Formatter<W>) -> fmt::Result {
        match self {
            Premise::Truth {
                class,
                number,
                part,
            } => write!(
                f,
                "truth premise, class {class}, number {number}, part {part}"
            ),
            Premise::Falsity { clause, values } => write!(
                f,
                "falsity premise, clause {clause}, values {:016x}",
                values.bits
            ),
        }
    }
}

impl fmt::Display for Step {
    fn fmt<W: fmt::Write>(&self, f: &mut fmt::Formatter<W>) -> fmt::Result {
        match self {
            Step::Premise(premise) => premise.fmt(f),
            Step::Resolve {
                first,
                second,
                position,
            } => write!(f, "resolve {first}, {second}, position {position}"),
            Step::Settle { goal, clause } => write!(f, "settle goal {goal}, clause {clause}"),
        }
    }
}

impl fmt::Display for Verdict {
    fn fmt<W: fmt::Write>(&self, f: &mut fmt::Formatter<W>) -> fmt::Result {
        f.write_str(match self {
            Verdict::True => "True",
            Verdict::False => "False",
            Verdict::Unproved => "Unproved",
            Verdict::Stray => "Stray",
        })
    }
}

impl fmt::Display for Slip {
    fn fmt<W: fmt::Write>(&self, f: &mut fmt::Formatter<W>) -> fmt::Result {
        let (verdict, case, clauses, goal) = self.fields();
        write!(
            f,
            "{verdict}, case {case}, clauses {clauses}, open goal {goal}"
        )
    }
}
