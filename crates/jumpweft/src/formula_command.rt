// `jumpweft formula`: reads a formula into tables and prints them.
use super::arguments::Arguments;
use super::failure::{Failure, refused};
use super::text::Text;
use base::faults::Fault;
use formula::tables::{Clause, Head, Literal, MAX_CLAUSES, MAX_VARIABLES, Variable};
use spelling::read_formula;
use std::alloc::Global;
use std::io;
use std::io::{BufWriter, Write};
use words::place::Place;
use words::word::LONGEST_TEXT;

// The tables of a formula, of the lengths that the options give; a circuit's have other columns.
#[derive(Drop)]
struct Tables {
    variables: Vec<Variable>,
    clauses: Vec<Clause>,
    literals: Vec<Literal>,
}

pub(crate) fn run(rt: &HostRuntime, arguments: &Arguments<'_>) -> Result<(), Failure> {
    arguments.check_options(&["--at", "--variables", "--clauses", "--literals"])?;
    let text = Text::read(rt, arguments.only_file()?)?;
    let mut place = Place {
        at: arguments.number("--at", 0)?,
    };
    let mut tables = Tables::new(rt.alloc(), arguments, text.bytes.len())?;
    let head = tables
        .read(text.bytes.as_slice(), &mut place)
        .or_else(|fault| refused(rt, fault))?;
    tables.print(rt, place, head)?;
    Ok(())
}

impl Tables {
    // Tables of the lengths that the options give, or else long enough for every formula of this many bytes.
    fn new(heap: Global, arguments: &Arguments<'_>, bytes: usize) -> anyhow::Result<Tables> {
        let variables = arguments.number("--variables", MAX_VARIABLES as usize)?;
        let clauses = arguments.number("--clauses", MAX_CLAUSES as usize)?;
        // A text of b bytes has at most b / 2 literals.
        let literals = arguments.number("--literals", (bytes / 2).min(LONGEST_TEXT))?;
        Ok(Tables {
            variables: vec![in heap; Variable::default(); variables]?,
            clauses: vec![in heap; Clause::default(); clauses]?,
            literals: vec![in heap; Literal::default(); literals]?,
        })
    }

    fn read(&mut self, text: &[u8], place: &mut Place) -> Result<Head, Fault> {
        read_formula(
            text,
            place,
            self.variables.as_mut_slice(),
            self.clauses.as_mut_slice(),
            self.literals.as_mut_slice(),
        )
    }

    fn print(&self, rt: &HostRuntime, place: Place, head: Head) -> Result<(), io::Error> {
        let mut out = BufWriter::new(rt.alloc(), rt.stdout())?;
        writeln!(out, "accepted, place {}\n{head}", place.at)?;
        for (number, variable) in (1..=head.variables).zip(&self.variables) {
            writeln!(out, "variable {number}: {variable}")?;
        }
        for (number, clause) in (1..=head.clauses).zip(&self.clauses) {
            print_clause(&mut out, number, *clause, self.literals.as_slice())?;
        }
        out.flush()
    }
}

fn print_clause<W: Write>(
    out: &mut W,
    number: u32,
    clause: Clause,
    literals: &[Literal],
) -> Result<(), io::Error> {
    let Clause { first, len } = clause;
    write!(out, "clause {number}: first {first}, length {len}:")?;
    let behind = literals.get(first as usize..).unwrap_or(&[]);
    for literal in behind.iter().take(len as usize) {
        write!(out, " {literal}")?;
    }
    writeln!(out)
}
