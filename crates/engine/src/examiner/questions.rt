// Questions that a host asks of an examiner between its calls. None of them changes it.
ghost use Rattle.std.specs.Prelude.{◌≡◌};
ghost use Rattle.engine.specs.Means.{state_of};
ghost use Rattle.engine.specs.Plain.{settled_count};
ghost use Rattle.engine.specs.Shelves.{entries_in};

use super::super::shelf::Shelf;
use super::super::side::Side;
use super::Examiner;

impl<S: Side, F: Shelf> Examiner<S, F> {
    // The side.
    pub fn side(&self) -> &S
        ensures { result.now ≡ self.now.side }
    {
        &self.side
    }

    // The shelf.
    pub fn shelf(&self) -> &F
        ensures { result.now ≡ self.now.shelf }
    {
        &self.shelf
    }

    // The open case's number.
    pub fn open_case(&self) -> Option<u32>
        ensures { result ≡ (state_of S.Side F.Shelf self.now).case }
    {
        self.case
    }

    // How many of the side's goals are settled.
    pub fn settled_count(&self) -> u32
        ensures { result ≡ settled_count (state_of S.Side F.Shelf self.now) (S.Side.goals self.now.side) }
    {
        let goals = self.side.goal_count() as usize;
        self.settled[..goals]
            .iter()
            .filter(|settled| **settled)
            .count() as u32
    }
}

// How many entries the clauses on a shelf have in all.
pub fn entries_on<F: Shelf>(shelf: &F) -> u32
    ensures { result ≡ entries_in (F.Shelf.list shelf.now) }
{
    // A loop: a proof does not find what a range yields through `map` and `sum`.
    let mut total = 0;
    for number in 1..=shelf.count() {
        total += shelf.length(number);
    }
    total
}
