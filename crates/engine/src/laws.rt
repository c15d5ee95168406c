// The theorems over runs: what a verdict means, when it is given, and which steps are refused.
ghost use Rattle.std.specs.Prelude.{◌≤◌};
ghost use Rattle.engine.specs.Lawful.{AllRunsLawful};
ghost use Rattle.engine.specs.Plain.{Rules};
ghost use Rattle.engine.specs.Verdicts.{SlipsHold};

use super::side::Side;

// Whatever calls were made of an examiner of this side, its verdicts hold.
pub fn verdicts_hold<S: Side>(side: &S) -> u8
    ensures { SlipsHold S.Side side.now }
{
    0
}

// After every list of calls, where a case is open: the shelf holds what was derived since the opening; an allowed step is
// refused exactly when the shelf is full or its clause too long, an allowed settling of an open goal never; and closing
// gives the side's verdict exactly when each goal was settled by a derived clause.
pub fn histories_hold() -> u8
    ensures { (r : Rules) → r.goals ≤ 16384 → AllRunsLawful r }
{
    0
}
