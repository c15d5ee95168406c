// `jumpweft circuit`: reads a circuit into tables and prints them with the reaches.
use super::arguments::Arguments;
use super::failure::{Failure, refused};
use super::text::Text;
use base::faults::Fault;
use base::values::ValueWord;
use circuit::tables::{CircuitHead, Gate, MAX_OUTPUTS, MAX_WIRES};
use reach::{fill_reaches, wire_reach};
use spelling::read_circuit;
use std::alloc::{AllocError, Global};
use std::io;
use std::io::{BufWriter, Write};
use words::place::Place;

// The tables of a circuit, of the lengths that the options give; a formula's have other columns.
#[derive(Drop)]
struct Tables {
    outputs: Vec<u32>,
    gates: Vec<Gate>,
}

pub(crate) fn run(rt: &HostRuntime, arguments: &Arguments<'_>) -> Result<(), Failure> {
    arguments.check_options(&["--at", "--outputs", "--gates"])?;
    let text = Text::read(rt, arguments.only_file()?)?;
    let mut place = Place {
        at: arguments.number("--at", 0)?,
    };
    let mut tables = Tables::new(rt.alloc(), arguments)?;
    let head = tables
        .read(text.bytes.as_slice(), &mut place)
        .or_else(|fault| refused(rt, fault))?;
    let reaches = tables.reaches(rt.alloc(), head)?;
    tables.print(rt, place, head, reaches.as_slice())?;
    Ok(())
}

impl Tables {
    // Tables of the lengths that the options give, or else long enough for every circuit.
    fn new(heap: Global, arguments: &Arguments<'_>) -> anyhow::Result<Tables> {
        let outputs = arguments.number("--outputs", MAX_OUTPUTS as usize)?;
        let gates = arguments.number("--gates", MAX_WIRES as usize)?;
        Ok(Tables {
            outputs: vec![in heap; 0u32; outputs]?,
            gates: vec![in heap; Gate::default(); gates]?,
        })
    }

    fn read(&mut self, text: &[u8], place: &mut Place) -> Result<CircuitHead, Fault> {
        read_circuit(
            text,
            place,
            self.outputs.as_mut_slice(),
            self.gates.as_mut_slice(),
        )
    }

    // The reach of each gate.
    fn reaches(&self, heap: Global, head: CircuitHead) -> Result<Vec<ValueWord>, AllocError> {
        let mut reaches = vec![in heap; ValueWord::empty(); head.gates as usize]?;
        let _ = fill_reaches(head, self.gates.as_slice(), reaches.as_mut_slice());
        Ok(reaches)
    }

    fn print(
        &self,
        rt: &HostRuntime,
        place: Place,
        head: CircuitHead,
        reaches: &[ValueWord],
    ) -> Result<(), io::Error> {
        let mut out = BufWriter::new(rt.alloc(), rt.stdout())?;
        writeln!(out, "accepted, place {}\n{head}", place.at)?;
        for (number, output) in (1..=head.outputs).zip(&self.outputs) {
            let reach = wire_reach(head.inputs, reaches, *output / 2);
            writeln!(out, "output {number}: {output}, reach {:016x}", reach.bits)?;
        }
        for (number, (gate, reach)) in (1..=head.gates).zip(self.gates.iter().zip(reaches)) {
            let Gate { left, right } = *gate;
            writeln!(
                out,
                "gate {number}: {left} {right}, reach {:016x}",
                reach.bits
            )?;
        }
        out.flush()
    }
}
