// `jumpweft true` and `jumpweft false`: the whole task, from the texts and the proof to the slip.
use super::arguments::Arguments;
use super::failure::{Failure, decided, refused, text_refused};
use super::number::plain;
use super::shelf_options::{ShelfKind, ShelfRows};
use super::slip_file::{print_slip, write_slip_file};
use super::standard_error::StandardError;
use super::text::Text;
use anyhow::{Context, anyhow};
use engine::shelf::Shelf;
use records::slip::Slip;
use replay::report::{Report, Taken};
use std::alloc::AllocError;
use std::io;
use tasks::outcome::{Heads, Outcome};
use tasks::task::{check_falsity, check_truth};

const OPTIONS: [&str; 5] = ["--case", "--slip", "--shelf", "--filed", "--entries"];

// The texts of a case, with a circuit on the truth side alone, its number, and where its slip is written.
#[derive(Clone, Copy, Drop)]
struct Case<'a> {
    formula: &'a Text<'a>,
    circuit: Option<&'a Text<'a>>,
    proof: &'a [u8],
    number: u32,
    slip: Option<&'a str>,
}

pub(crate) fn run_truth(rt: &HostRuntime, arguments: &Arguments<'_>) -> Result<(), Failure> {
    arguments.check_options(&OPTIONS)?;
    let [formula, circuit, proof] = arguments.files.as_slice() else {
        return Err(wrong_files());
    };
    let formula = Text::read(rt, formula)?;
    let circuit = Text::read(rt, circuit)?;
    let proof = Text::read(rt, proof)?;
    run_case(rt, arguments, &formula, Some(&circuit), &proof)
}

pub(crate) fn run_falsity(rt: &HostRuntime, arguments: &Arguments<'_>) -> Result<(), Failure> {
    arguments.check_options(&OPTIONS)?;
    let [formula, proof] = arguments.files.as_slice() else {
        return Err(wrong_files());
    };
    let formula = Text::read(rt, formula)?;
    let proof = Text::read(rt, proof)?;
    run_case(rt, arguments, &formula, None, &proof)
}

fn wrong_files() -> Failure {
    Failure::Error(anyhow!(
        "true takes a formula, a circuit and a proof; false takes a formula and a proof"
    ))
}

// Checks the case on the shelf that the options name.
fn run_case(
    rt: &HostRuntime,
    arguments: &Arguments<'_>,
    formula: &Text<'_>,
    circuit: Option<&Text<'_>>,
    proof: &Text<'_>,
) -> Result<(), Failure> {
    let case = Case {
        formula,
        circuit,
        proof: proof.bytes.as_slice(),
        number: case_number(arguments)?,
        slip: arguments.value("--slip"),
    };
    let rows = ShelfRows::for_proof(arguments, case.proof.len())?;
    // The two shelves are two types.
    match rows.kind {
        ShelfKind::Flat => check_and_print(rt, case, rows.flat(rt.alloc())?),
        ShelfKind::Linked => check_and_print(rt, case, rows.linked(rt.alloc())?),
    }
}

fn case_number(arguments: &Arguments<'_>) -> anyhow::Result<u32> {
    match arguments.value("--case") {
        Some(value) => plain(value.as_bytes()).context("--case takes a number below 2^32"),
        None => Ok(1),
    }
}

fn check_and_print<F: Shelf + Drop>(
    rt: &HostRuntime,
    case: Case<'_>,
    shelf: F,
) -> Result<(), Failure> {
    let outcome = check(rt, case, shelf)?;
    print_outcome(rt, case, outcome)
}

fn check<F: Shelf + Drop>(
    rt: &HostRuntime,
    case: Case<'_>,
    shelf: F,
) -> Result<Outcome, AllocError> {
    let heap = rt.alloc();
    let formula = case.formula.bytes.as_slice();
    let Case { proof, number, .. } = case;
    let mut progress = StandardError {
        rt,
        bytes: proof.len(),
    };
    match case.circuit {
        Some(circuit) => {
            let circuit = circuit.bytes.as_slice();
            check_truth(heap, formula, circuit, proof, number, shelf, &mut progress)
        }
        None => check_falsity(heap, formula, proof, number, shelf, &mut progress),
    }
}

// Prints how far the task came.
fn print_outcome(rt: &HostRuntime, case: Case<'_>, outcome: Outcome) -> Result<(), Failure> {
    match outcome {
        Outcome::FormulaRefused(fault) => text_refused(rt, "formula", case.formula, fault),
        Outcome::CircuitRefused { formula, fault } => {
            println!(rt; "formula {}, {formula}", case.formula)?;
            match case.circuit {
                Some(circuit) => text_refused(rt, "circuit", circuit, fault),
                None => refused(rt, fault),
            }
        }
        Outcome::OpeningRefused { heads, fault } => {
            print_opening(rt, case, heads)?;
            refused(rt, fault)
        }
        Outcome::Closed {
            heads,
            report,
            slip,
        } => {
            print_opening(rt, case, heads)?;
            print_report(rt, report)?;
            print_end(rt, case.slip, report.slip, slip)
        }
    }
}

// Prints the texts' counts and the case's number.
fn print_opening(rt: &HostRuntime, case: Case<'_>, heads: Heads) -> Result<(), io::Error> {
    println!(rt; "formula {}, {}", case.formula, heads.formula)?;
    if let (Some(circuit), Some(head)) = (case.circuit, heads.circuit) {
        println!(rt; "circuit {circuit}, {head}")?;
    }
    println!(rt; "open: case {}", case.number)
}

fn print_report(rt: &HostRuntime, report: Report) -> Result<(), io::Error> {
    let Taken {
        records,
        bytes,
        refusal,
    } = report.taken;
    if let Some(fault) = refusal {
        let number = records.saturating_add(1);
        println!(rt; "record {number}, at byte {bytes}\n{fault}")?;
    }
    let Report {
        clauses,
        entries,
        settled,
        goals,
        ..
    } = report;
    println!(rt;
        "taken: {records} records, {bytes} bytes; clauses {clauses}, entries {entries}; goals settled {settled} of {goals}"
    )
}

// Prints the slip, writes it where a file is named, and prints the verdict.
fn print_end(
    rt: &HostRuntime,
    file: Option<&str>,
    slip: Slip,
    bytes: [u8; 16],
) -> Result<(), Failure> {
    print_slip(rt, bytes)?;
    if let Some(name) = file {
        write_slip_file(rt, name, bytes)?;
    }
    println!(rt; "{}", slip.verdict())?;
    decided(slip)
}
