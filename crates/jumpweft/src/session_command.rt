// `jumpweft session`: one examiner, which answers the calls on standard input.
use super::arguments::Arguments;
use super::failure::{Failure, text_refused};
use super::requests::{Request, hex_bytes, read_request};
use super::shelf_options::{ShelfKind, ShelfRows};
use super::slip_file::print_slip;
use super::text::Text;
use anyhow::bail;
use engine::examiner::Examiner;
use engine::examiner::questions::entries_on;
use engine::run::{Answer, Call, make_call};
use engine::shelf::Shelf;
use engine::side::Side;
use engine::ticket::Ticket;
use records::slip::write_slip;
use sides::falsity::FalsitySide;
use sides::truth::TruthSide;
use std::io;
use std::io::{BufRead, BufReader, BufWriter, Write};
use texts::read::{circuit_rows, formula_rows};
use texts::rows::{CircuitRows, FormulaRows};

const CALLS: &str =
    "usage: open N | premise truth CLASS NUMBER PART | premise falsity CLAUSE VALUES | resolve FIRST SECOND POSITION | settle GOAL CLAUSE | take BYTES | close N | show N | shelf";

pub(crate) fn run(rt: &HostRuntime, arguments: &Arguments<'_>) -> Result<(), Failure> {
    let (formula, circuit) = texts_of(arguments)?;
    let rows = ShelfRows::whole(arguments)?;
    let formula = Text::read(rt, formula)?;
    match circuit {
        Some(circuit) => run_truth(rt, rows, &formula, &Text::read(rt, circuit)?),
        None => run_falsity(rt, rows, &formula),
    }
}

// The file of the formula and, for the truth side, that of the circuit.
fn texts_of<'a>(arguments: &Arguments<'a>) -> anyhow::Result<(&'a str, Option<&'a str>)> {
    arguments.check_options(&["--shelf", "--filed", "--entries"])?;
    match arguments.files.as_slice() {
        [formula] => Ok((*formula, None)),
        [formula, circuit] => Ok((*formula, Some(*circuit))),
        _ => bail!("this command takes a formula and, for the truth side, a circuit"),
    }
}

fn run_falsity(rt: &HostRuntime, rows: ShelfRows, formula: &Text<'_>) -> Result<(), Failure> {
    let formulas = read_formula(rt, formula)?;
    answer_on(rt, rows, FalsitySide::new(formulas.tables()))
}

fn run_truth(
    rt: &HostRuntime,
    rows: ShelfRows,
    formula: &Text<'_>,
    circuit: &Text<'_>,
) -> Result<(), Failure> {
    let formulas = read_formula(rt, formula)?;
    let circuits = read_circuit(rt, circuit)?;
    answer_on(
        rt,
        rows,
        TruthSide::new(formulas.tables(), circuits.tables()),
    )
}

fn read_formula(rt: &HostRuntime, text: &Text<'_>) -> Result<FormulaRows, Failure> {
    let read = formula_rows(rt.alloc(), text.bytes.as_slice())?;
    read.or_else(|fault| text_refused(rt, "formula", text, fault))
}

// As for a formula, but for the reader that is called and the rows that it fills.
fn read_circuit(rt: &HostRuntime, text: &Text<'_>) -> Result<CircuitRows, Failure> {
    let read = circuit_rows(rt.alloc(), text.bytes.as_slice())?;
    read.or_else(|fault| text_refused(rt, "circuit", text, fault))
}

// Makes the examiner on the shelf that the options name.
fn answer_on<S: Side + Drop>(rt: &HostRuntime, rows: ShelfRows, side: S) -> Result<(), Failure> {
    // The two shelves are two types.
    match rows.kind {
        ShelfKind::Flat => answer_all(rt, side, rows.flat(rt.alloc())?),
        ShelfKind::Linked => answer_all(rt, side, rows.linked(rt.alloc())?),
    }
}

// Answers each line of standard input, and closes a case that is open at its end.
fn answer_all<S: Side + Drop, F: Shelf + Drop>(
    rt: &HostRuntime,
    side: S,
    shelf: F,
) -> Result<(), Failure> {
    let mut examiner = Examiner::new(rt.alloc(), side, shelf)?;
    answer_lines(rt, &mut examiner)?;
    if let Some(number) = examiner.open_case() {
        let slip = examiner.close(Ticket::of(number));
        print_slip(rt, write_slip(slip))?;
    }
    Ok(())
}

fn answer_lines<S: Side, F: Shelf>(
    rt: &HostRuntime,
    examiner: &mut Examiner<S, F>,
) -> Result<(), io::Error> {
    for line in BufReader::new(rt.alloc(), rt.stdin())?.split(rt.alloc(), b'\n') {
        let line = line?;
        answer_line(rt, examiner, line.as_slice())?;
    }
    Ok(())
}

fn answer_line<S: Side, F: Shelf>(
    rt: &HostRuntime,
    examiner: &mut Examiner<S, F>,
    line: &[u8],
) -> Result<(), io::Error> {
    match read_request(line) {
        Some(Request::Open(number)) => open(rt, examiner, number),
        Some(Request::Step(step)) => print_answer(rt, make_call(examiner, Call::Step(step))),
        Some(Request::Take(digits)) => take(rt, examiner, digits),
        Some(Request::Close(number)) => print_answer(rt, make_call(examiner, Call::Close(number))),
        Some(Request::Show(number)) => print_clause(rt, examiner.shelf(), number),
        Some(Request::Shelf) => print_shelf(rt, examiner.shelf()),
        None => println!(rt; "{CALLS}"),
    }
}

fn open<S: Side, F: Shelf>(
    rt: &HostRuntime,
    examiner: &mut Examiner<S, F>,
    number: u32,
) -> Result<(), io::Error> {
    match make_call(examiner, Call::Open(number)) {
        Answer::Number(ticket) => println!(rt; "ticket {ticket}"),
        answer => print_answer(rt, answer),
    }
}

fn take<S: Side, F: Shelf>(
    rt: &HostRuntime,
    examiner: &mut Examiner<S, F>,
    digits: &[u8],
) -> Result<(), io::Error> {
    match hex_bytes(rt.alloc(), digits)? {
        Some(bytes) => print_answer(rt, make_call(examiner, Call::Take(bytes.as_slice()))),
        None => println!(rt; "{CALLS}"),
    }
}

// Prints the answer of a call; clauses are numbered from 1, so a step that answers 0 has settled a goal.
fn print_answer(rt: &HostRuntime, answer: Answer) -> Result<(), io::Error> {
    match answer {
        Answer::Number(0) => println!(rt; "settled"),
        Answer::Number(number) => println!(rt; "clause {number}"),
        Answer::Took { number: 0, used } => println!(rt; "settled, {used} bytes"),
        Answer::Took { number, used } => println!(rt; "clause {number}, {used} bytes"),
        Answer::Refused(fault) => println!(rt; "{fault}"),
        Answer::Ended(slip) => print_slip(rt, write_slip(slip)),
    }
}

fn print_clause<F: Shelf>(rt: &HostRuntime, shelf: &F, number: u32) -> Result<(), io::Error> {
    if number == 0 || number > shelf.count() {
        return println!(rt; "clause {number}: not filed");
    }
    let mut out = BufWriter::new(rt.alloc(), rt.stdout())?;
    write!(out, "clause {number}:")?;
    // An index: entry by entry no row is needed to copy the clause to.
    for i in 0..shelf.length(number) {
        let entry = shelf.entry(number, i);
        write!(out, " {}:{:016x}", entry.code, entry.values.bits)?;
    }
    writeln!(out)?;
    out.flush()
}

fn print_shelf<F: Shelf>(rt: &HostRuntime, shelf: &F) -> Result<(), io::Error> {
    println!(rt;
        "clauses {}, entries {}, K {}, W {}",
        shelf.count(),
        entries_on(shelf),
        shelf.clause_limit(),
        shelf.entry_limit()
    )
}
