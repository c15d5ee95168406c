// Runs: calls of an examiner made in order, as hosts make them, and their answers.
ghost use Rattle.std.specs.Prelude.{◌≡◌, min, List, length};
ghost use Rattle.clauses.specs.declared.entry.Entry.{Entry};
ghost use Rattle.engine.specs.Called.{Calls, RunsTo};
ghost use Rattle.engine.specs.Runs.{Call as PlainCall};
ghost use Rattle.engine.specs.Verdicts.{Reached, AnswerHolds, SoundRun};

use super::examiner::Examiner;
use super::shelf::Shelf;
use super::side::Side;
use super::ticket::Ticket;
use base::faults::Fault;
use records::slip::Slip;
use records::step::Step;

// A call: a case is opened under a number; a step; a record's bytes; or the case with a number is closed.
// Calls are data: the laws speak of every list of them.
#[derive(Clone, Copy)]
pub enum Call<'a> {
    Open(u32),
    Step(Step),
    Take(&'a [u8]),
    Close(u32),
}

// An answer: the case's number, or the clause's number or 0; for a record with the bytes used; a refusal; or a slip.
#[derive(Clone, Copy)]
pub enum Answer {
    Number(u32),
    Took { number: u32, used: usize },
    Refused(Fault),
    Ended(Slip),
}

// Makes one call. The ticket of an opened case is spent: the number is kept instead. Whatever calls led to the examiner
// from the making on, a slip that is given holds.
pub fn make_call<S: Side, F: Shelf>(examiner: &mut Examiner<S, F>, call: Call) -> Answer
    ensures calls { Calls S.Side F.Shelf call.entry result examiner.old examiner.new }
    ensures sound { (list : List (List Entry)) (calls : List PlainCall) → Reached S.Side F.Shelf list calls examiner.old → AnswerHolds S.Side examiner.old.side result }
{
    match call {
        Call::Open(number) => {
            let opened = examiner.open(number);
            opened.map_or_else(Answer::Refused, |ticket| Answer::Number(ticket.spend()))
        }
        Call::Step(step) => {
            let stepped = examiner.step(step);
            stepped.map_or_else(Answer::Refused, Answer::Number)
        }
        Call::Take(bytes) => {
            let (taken, used) = examiner.take(bytes);
            taken.map_or_else(Answer::Refused, |number| Answer::Took { number, used })
        }
        Call::Close(number) => Answer::Ended(examiner.close(Ticket::of(number))),
    }
}

// Makes each call in order while there is room for its answer; answers how many were made. Whatever calls led to the
// examiner from the making on, the slips that are given hold, and the whole run is lawful.
pub fn run<S: Side, F: Shelf>(
    examiner: &mut Examiner<S, F>,
    calls: &[Call],
    answers: &mut [Answer],
) -> usize
    ensures count { result ≡ min (length calls.now) (length answers.old) }
    ensures runs { RunsTo S.Side F.Shelf result calls.now answers.old answers.new examiner.old examiner.new }
    ensures sound { (list : List (List Entry)) (before : List PlainCall) → Reached S.Side F.Shelf list before examiner.old → SoundRun S.Side F.Shelf result calls.now answers.new examiner.old examiner.new list before }
{
    let count = calls.len().min(answers.len());
    // By number: behind a loop over `iter_mut` and `zip` a proof does not know what was written.
    for (i, call) in calls[..count].iter().enumerate() {
        answers[i] = make_call(examiner, *call);
    }
    count
}
