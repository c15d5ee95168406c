// Slips: the sixteen bytes that say how a case ended.
ghost use Rattle.std.specs.Prelude.{◌≡◌, Ok};
ghost use Rattle.base.specs.Causes.{answered};
ghost use Rattle.records.specs.Slips.{LawfulSlip, MadeBy, ReadsSlip, case_of, clauses_of, decided, goal_of, slip_bytes, slip_by, slip_from, verdict_of};

use base::faults::{Cause, Fault, Layer};

// How a case ended: the verdict, the case's number, the clauses on the shelf and, where it is unproved, the lowest
// goal that is open. A stray slip answers a ticket that is not the open case's.
#[derive(Clone, Copy, PartialEq, Eq, Debug)]
pub enum Slip {
    True { case: u32, clauses: u32 },
    False { case: u32, clauses: u32 },
    Unproved { case: u32, clauses: u32, goal: u32 },
    Stray { case: u32 },
}

// What a slip says of its case, with its number in the slip's bytes.
#[derive(Clone, Copy, PartialEq, Eq, Debug)]
pub enum Verdict {
    True = 1,
    False = 2,
    Unproved = 3,
    Stray = 4,
}

impl Slip {
    // What the slip says of its case.
    pub fn verdict(self) -> Verdict
        ensures { result ≡ verdict_of self }
    {
        let (verdict, _, _, _) = self.fields();
        verdict
    }

    // Whether the slip says True or False.
    pub fn is_decided(self) -> bool
        ensures { result ≡ decided self }
    {
        matches!(self, Slip::True { .. } | Slip::False { .. })
    }

    // The verdict, the case's number, the clauses and the open goal: 0 where the slip has no such number.
    pub(crate) fn fields(self) -> (Verdict, u32, u32, u32)
        ensures { result ≡ (verdict_of self, case_of self, clauses_of self, goal_of self) }
    {
        match self {
            Slip::True { case, clauses } => (Verdict::True, case, clauses, 0),
            Slip::False { case, clauses } => (Verdict::False, case, clauses, 0),
            Slip::Unproved {
                case,
                clauses,
                goal,
            } => (Verdict::Unproved, case, clauses, goal),
            Slip::Stray { case } => (Verdict::Stray, case, 0, 0),
        }
    }
}

// The most clauses and the most goals of a slip: limits of the format, which knows neither shelves nor formulas.
const MOST_CLAUSES: u32 = 1_000_000;

const MOST_GOALS: u32 = 16_384;

// The slip's sixteen bytes.
pub fn write_slip(slip: Slip) -> [u8; 16]
    ensures is { result ≡ slip_bytes slip }
    ensures back { LawfulSlip slip → slip_from result ≡ Ok slip }
{
    let (verdict, case, clauses, goal) = slip.fields();
    let [a, b, c, d] = case.to_be_bytes();
    let [e, f, g, h] = clauses.to_be_bytes();
    let [i, j, k, l] = goal.to_be_bytes();
    [0, 14, 1, verdict as u8, a, b, c, d, e, f, g, h, i, j, k, l]
}

// Reads a slip from the first sixteen bytes.
pub fn read_slip(bytes: &[u8]) -> Result<Slip, Fault>
    ensures is { answered result ≡ slip_from bytes.now }
    ensures law { ReadsSlip bytes.now result }
{
    let malformed = Layer::Slips.fault(Cause::SlipMalformed, 0);
    match *bytes {
        [0, 14, 1, verdict, a, b, c, d, e, f, g, h, i, j, k, l, ..] => slip_with(
            verdict,
            u32::from_be_bytes([a, b, c, d]),
            u32::from_be_bytes([e, f, g, h]),
            u32::from_be_bytes([i, j, k, l]),
        )
        .ok_or(malformed),
        _ => Err(malformed),
    }
}

// The slip with this verdict's number and these fields, if they are lawful.
fn slip_with(verdict: u8, case: u32, clauses: u32, goal: u32) -> Option<Slip>
    ensures is { result ≡ slip_by verdict case clauses goal }
    ensures law { MadeBy verdict case clauses goal result }
{
    if clauses > MOST_CLAUSES {
        return None;
    }
    // The bytes of the format, as in Verdict: each has its own test of the fields.
    match (verdict, goal) {
        (1, 0) => Some(Slip::True { case, clauses }),
        (2, 0) => Some(Slip::False { case, clauses }),
        (3, 1..=MOST_GOALS) => Some(Slip::Unproved {
            case,
            clauses,
            goal,
        }),
        (4, 0) if clauses == 0 => Some(Slip::Stray { case }),
        _ => None,
    }
}
