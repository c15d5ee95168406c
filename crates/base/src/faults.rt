// A refusal: its cause, the place where it was found and the layer that found it.
ghost use Rattle.std.specs.Prelude.{◌≡◌};
ghost use Rattle.base.specs.Causes.{cause_number, layer_number};

use std::fmt;

// Why something was refused. Users know a cause by its number.
#[derive(Clone, Copy, PartialEq, Eq, Debug)]
pub enum Cause {
    TextTooLong = 1,
    WordForm = 2,
    NumberTooLong = 3,
    TextEnds = 4,
    FormulaLimit = 5,
    VariableUnfit = 6,
    VariableTwice = 7,
    TableShort = 8,
    CircuitCount = 9,
    CircuitLiteral = 10,
    CaseOpen = 11,
    TablesUnlawful = 12,
    CountsDiffer = 13,
    ReachTooWide = 14,
    NoCaseOpen = 15,
    NotThere = 16,
    UniversalTrue = 17,
    ComplementMissing = 18,
    BothSigns = 19,
    ClauseTooLong = 20,
    ShelfFull = 21,
    OutsideGoal = 22,
    GoalSettled = 23,
    RecordMalformed = 24,
    OtherSide = 25,
    SlipMalformed = 26,
}

impl Cause {
    // The number in the table of causes.
    pub fn number(self) -> u8
        ensures { result ≡ cause_number self }
    {
        self as u8
    }
}

// The part of the checker that found the fault.
#[derive(Clone, Copy, PartialEq, Eq, Debug)]
pub enum Layer {
    Words = 1,
    Formula = 2,
    Circuit = 3,
    Case = 4,
    Shelf = 5,
    Records = 6,
    Slips = 7,
}

impl Layer {
    // The number in the table of causes.
    pub fn number(self) -> u8
        ensures { result ≡ layer_number self }
    {
        self as u8
    }

    // The refusal that this layer tells.
    pub fn fault(self, cause: Cause, place: usize) -> Fault
        ensures { result ≡ record { cause = cause; place = place; layer = self } }
    {
        Fault {
            cause,
            place,
            layer: self,
        }
    }
}

// A refusal, carried unchanged through every layer above the one that found it.
#[derive(Clone, Copy, PartialEq, Eq, Debug)]
pub struct Fault {
    pub cause: Cause,
    pub place: usize,
    pub layer: Layer,
}

// What is wrong, in words.
impl fmt::Display for Cause {
    fn fmt<W: fmt::Write>(&self, f: &mut fmt::Formatter<W>) -> fmt::Result {
        f.write_str(match self {
            Cause::TextTooLong => "the text has more than 16777216 bytes",
            Cause::WordForm => "a word of this form may not stand here",
            Cause::NumberTooLong => "the number has more than nine digits",
            Cause::TextEnds => "the text ends too early",
            Cause::FormulaLimit => "a limit of formulas is broken",
            Cause::VariableUnfit => "no variable, or none of the kind that is due",
            Cause::VariableTwice => "the variable stands twice",
            Cause::TableShort => "a table is too short",
            Cause::CircuitCount => "a count breaks a limit, or M is not I + A",
            Cause::CircuitLiteral => "not the literal that is due, or too large",
            Cause::CaseOpen => "a case is open",
            Cause::TablesUnlawful => "no accepted text leaves these tables",
            Cause::CountsDiffer => "the circuit's inputs or outputs are not the formula's",
            Cause::ReachTooWide => "an output reads an input that it may not",
            Cause::NoCaseOpen => "no case is open",
            Cause::NotThere => "it names what does not exist",
            Cause::UniversalTrue => "a universal literal of the clause is true",
            Cause::ComplementMissing => "the second clause lacks the complement",
            Cause::BothSigns => "the clause would hold a literal and its complement",
            Cause::ClauseTooLong => "the clause would have more than 1024 literals",
            Cause::ShelfFull => "the shelf is full",
            Cause::OutsideGoal => "a literal is not in the goal",
            Cause::GoalSettled => "the goal is settled",
            Cause::RecordMalformed => "the record is malformed",
            Cause::OtherSide => "a premise of the other side",
            Cause::SlipMalformed => "the slip is malformed",
        })
    }
}

// The numbers of a refusal, and in brackets what is wrong.
impl fmt::Display for Fault {
    fn fmt<W: fmt::Write>(&self, f: &mut fmt::Formatter<W>) -> fmt::Result {
        let cause = self.cause.number();
        let layer = self.layer.number();
        write!(
            f,
            "refused: cause {cause}, place {}, layer {layer} ({})",
            self.place, self.cause
        )
    }
}
