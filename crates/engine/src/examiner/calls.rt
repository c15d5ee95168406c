// The six calls of an examiner. Each answers and leaves what the plain case does.
ghost use Rattle.std.specs.Prelude.{◌≡◌, ◌≤◌, not, take, position, IfOk};
ghost use Rattle.base.specs.Causes.{told, answered, cause_number};
ghost use Rattle.clauses.specs.Clauses.{told_clause};
ghost use Rattle.clauses.specs.Laid.{told_count};
ghost use Rattle.engine.specs.Means.{rules, rules_of, state_of, Steps, Opens, Closes, Takes};
ghost use Rattle.engine.specs.Plain.{start, is_open, on_ok, here, judged, file, numbered, are_there, premise_step, resolve_step, settle_step, step_result, lowest_open, is_case};
ghost use Rattle.engine.specs.Verdicts.{SoundSlip};

use super::super::shelf::Shelf;
use super::super::side::{Side, Verdict};
use super::super::ticket::Ticket;
use super::Examiner;
use base::faults::{Cause, Fault, Layer};
use clauses::clause::{LONGEST_CLAUSE, is_contained, keep_once, resolve};
use clauses::entry::Entry;
use records::record::read_record;
use records::slip::Slip;
use records::step::{Premise, Step};
use std::alloc::{AllocError, Global};

// The most goals of a side.
const GOALS: usize = 16_384;

// Where the first goal stands that is not settled.
fn first_unsettled(settled: &[bool]) -> Option<usize>
    ensures { result ≡ position not settled.now }
{
    settled.iter().position(|is_settled| !is_settled)
}

impl<S: Side + Drop, F: Shelf + Drop> Examiner<S, F> {
    // Makes an examiner: no case is open, the shelf keeps its list, and no goal is settled.
    pub fn new(heap: Global, side: S, shelf: F) -> Result<Self, AllocError>
        ensures rules { IfOk result (λ e. rules_of S.Side F.Shelf e ≡ rules S.Side F.Shelf side shelf) }
        ensures state { IfOk result (λ e. state_of S.Side F.Shelf e ≡ start (F.Shelf.list shelf)) }
        ensures side { IfOk result (λ e. e.side ≡ side) }
    {
        let settled = vec![in heap; false; GOALS]?;
        let first = vec![in heap; Entry::default(); 2 * LONGEST_CLAUSE]?;
        let second = vec![in heap; Entry::default(); LONGEST_CLAUSE]?;
        let row = vec![in heap; Entry::default(); 2 * LONGEST_CLAUSE]?;
        Ok(Examiner {
            side,
            shelf,
            case: None,
            settled,
            first,
            second,
            row,
        })
    }
}

impl<S: Side, F: Shelf> Examiner<S, F> {
    // Opens a case: refused where one is open, or the side refuses its tables. Else the number is kept, the shelf
    // emptied and no goal is settled.
    pub fn open(&mut self, number: u32) -> Result<Ticket, Fault>
        ensures { Opens S.Side F.Shelf number result self.old self.new }
    {
        if self.is_open() {
            return Err(Layer::Case.fault(Cause::CaseOpen, 0));
        }
        self.side.open()?;
        self.shelf.clear();
        self.settled.fill(false);
        self.case = Some(number);
        Ok(Ticket::of(number))
    }

    // A refusal of the case, at the number of clauses on the shelf.
    fn fault(&self, cause: Cause) -> Fault
        ensures { told result ≡ here (state_of S.Side F.Shelf self.now) (cause_number cause) }
    {
        Layer::Case.fault(cause, self.shelf.count() as usize)
    }

    fn is_open(&self) -> bool
        ensures { result ≡ is_open (state_of S.Side F.Shelf self.now) }
    {
        self.case.is_some()
    }

    // How long the clause is that was made, or the refusal of the case for the cause why none was.
    fn tell(&self, made: Result<usize, Cause>) -> Result<usize, Fault>
        ensures { answered result ≡ judged (state_of S.Side F.Shelf self.now) (told_count made) }
    {
        made.map_err(|cause| self.fault(cause))
    }

    // Files the clause that was made at the front of the row, if one was.
    fn file(&mut self, made: Result<usize, Cause>) -> Result<u32, Fault>
        requires { IfOk made (λ len. len ≤ 2048) }
        ensures { Steps S.Side F.Shelf (λ r s. on_ok (judged s (told_clause made self.old.row.items)) (λ c. file r s c)) result self.old self.new }
    {
        let len = self.tell(made)?;
        let filed = self.shelf.file(&self.row[..len]);
        filed.ok_or_else(|| Layer::Shelf.fault(Cause::ShelfFull, self.shelf.count() as usize))
    }

    // Whether a clause that a step may use has this number.
    fn is_numbered(&self, number: u32) -> bool
        ensures { result ≡ numbered (state_of S.Side F.Shelf self.now) number }
    {
        number >= 1
            && number <= self.shelf.count()
            && self.shelf.length(number) as usize <= LONGEST_CLAUSE
    }

    // Whether a goal and a clause that a step may use have these numbers.
    fn is_there(&self, goal: u16, clause: u32) -> bool
        ensures { result ≡ are_there (rules_of S.Side F.Shelf self.now) (state_of S.Side F.Shelf self.now) goal clause }
    {
        goal >= 1 && u32::from(goal) <= self.side.goal_count() && self.is_numbered(clause)
    }

    // Files a premise of this side, each literal kept once; answers its number.
    pub fn premise(&mut self, premise: Premise) -> Result<u32, Fault>
        ensures { Steps S.Side F.Shelf (λ r s. premise_step r s premise) result self.old self.new }
    {
        if !self.side.is_own(premise) {
            return Err(Layer::Records.fault(Cause::OtherSide, 0));
        }
        if !self.is_open() {
            return Err(self.fault(Cause::NoCaseOpen));
        }
        let laid = self.side.lay_premise(premise, &mut self.first);
        let len = self.tell(laid)?;
        let kept = keep_once(&self.first[..len], &mut self.row);
        self.file(kept)
    }

    // Files the resolvent of two clauses at a position of the first; answers its number.
    pub fn resolve(&mut self, first: u32, second: u32, position: u16) -> Result<u32, Fault>
        ensures { Steps S.Side F.Shelf (λ r s. resolve_step r s first second position) result self.old self.new }
    {
        if !self.is_open() {
            return Err(self.fault(Cause::NoCaseOpen));
        }
        if !self.is_numbered(first) || !self.is_numbered(second) {
            return Err(self.fault(Cause::NotThere));
        }
        let a = self.shelf.copy(first, &mut self.first);
        let b = self.shelf.copy(second, &mut self.second);
        let resolved = resolve(
            &self.first[..a],
            &self.second[..b],
            usize::from(position),
            &mut self.row,
        );
        self.file(resolved)
    }

    // Settles a goal by a clause all of whose literals it has. Answers 0, as the hosts' interface has it for
    // a step that files no clause.
    pub fn settle(&mut self, goal: u16, clause: u32) -> Result<u32, Fault>
        ensures { Steps S.Side F.Shelf (λ r s. settle_step r s goal clause) result self.old self.new }
    {
        if !self.is_open() {
            return Err(self.fault(Cause::NoCaseOpen));
        }
        if !self.is_there(goal, clause) {
            return Err(self.fault(Cause::NotThere));
        }
        let a = self.shelf.copy(clause, &mut self.first);
        let b = self.side.copy_goal(u32::from(goal), &mut self.second);
        if !is_contained(&self.first[..a], &self.second[..b]) {
            return Err(self.fault(Cause::OutsideGoal));
        }
        let at = usize::from(goal) - 1;
        if self.settled[at] {
            return Err(self.fault(Cause::GoalSettled));
        }
        self.settled[at] = true;
        Ok(0)
    }

    pub(crate) fn step(&mut self, step: Step) -> Result<u32, Fault>
        ensures { Steps S.Side F.Shelf (λ r s. step_result r s step) result self.old self.new }
    {
        match step {
            Step::Premise(premise) => self.premise(premise),
            Step::Resolve {
                first,
                second,
                position,
            } => self.resolve(first, second, position),
            Step::Settle { goal, clause } => self.settle(goal, clause),
        }
    }

    // Reads one record from the front of the bytes and does its step. Answers its result, and apart from it the bytes
    // used, as hosts are told them: none if refused.
    pub fn take(&mut self, bytes: &[u8]) -> (Result<u32, Fault>, usize)
        ensures { Takes S.Side F.Shelf bytes.now result.0 result.1 self.old self.new }
    {
        let (read, rest) = read_record(bytes);
        match read {
            Ok(step) => match self.step(step) {
                Ok(number) => (Ok(number), bytes.len() - rest.len()),
                Err(fault) => (Err(fault), 0),
            },
            Err(fault) => (Err(fault), 0),
        }
    }

    // The lowest goal that is not settled, if one is not.
    fn lowest_open(&self) -> Option<u32>
        ensures { result ≡ lowest_open (state_of S.Side F.Shelf self.now) 1 (S.Side.goals self.now.side) }
    {
        let goals = self.side.goal_count() as usize;
        first_unsettled(&self.settled[..goals]).map(|at| at as u32 + 1)
    }

    // Whether the open case has this number.
    fn is_case(&self, number: u32) -> bool
        ensures { result ≡ is_case (state_of S.Side F.Shelf self.now) number }
    {
        self.case == Some(number)
    }

    // Closes the case by its ticket: the side's verdict if all goals are settled, else unproved. Any other ticket is
    // stray, and all stays as it is. Whatever calls were made since the making, the verdict is given only where every
    // goal is true in every world.
    pub fn close(&mut self, ticket: Ticket) -> Slip
        ensures plain { Closes S.Side F.Shelf ticket.number result self.old self.new }
        ensures sound { SoundSlip S.Side F.Shelf self.old result }
    {
        let case = ticket.spend();
        if !self.is_case(case) {
            return Slip::Stray { case };
        }
        let clauses = self.shelf.count();
        self.case = None;
        if let Some(goal) = self.lowest_open() {
            return Slip::Unproved {
                case,
                clauses,
                goal,
            };
        }
        match self.side.verdict() {
            Verdict::True => Slip::True { case, clauses },
            Verdict::False => Slip::False { case, clauses },
        }
    }
}
