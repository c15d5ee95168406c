// The reader of circuit texts: `aag M I L O A`, then inputs, outputs and gates.
ghost use Rattle.std.specs.Prelude.{◌≡◌, ℕ, ◌+◌, ◌≤◌, Bool, false, [], length, replicate, IfOk, OnOk};
ghost use Rattle.base.specs.Causes.{answered};
ghost use Rattle.words.specs.Words.{words_from};
ghost use Rattle.words.specs.Due.{got};
ghost use Rattle.circuit.specs.Reading.{exact_from, below_from, count_from, at_most, Judges, table_count, header_from, inputs_from, outputs_from, gate_from, gates_from, told_table, told_circuit, Filled, circuit_from, head_read, outputs_read, gates_read, place_read, no_gate, Agrees};

use super::tables::{CircuitHead, Gate, MAX_INPUTS, MAX_OUTPUTS, MAX_WIRES};
use base::faults::{Cause, Fault, Layer};
use words::due::{read_name, read_number};
use words::place::{KeptPlace, Place};
use words::word::check_length;

// A literal that has to be this one.
fn read_exact(text: &[u8], place: &mut Place, due: u32) -> Result<(), Fault>
    ensures { got result (words_from text.now place.new.at) place.new.at ≡ exact_from due (words_from text.now place.old.at) (length text.now) }
{
    let (literal, at) = read_number(text, place)?;
    if literal != due {
        return Err(Layer::Circuit.fault(Cause::CircuitLiteral, at));
    }
    Ok(())
}

// A literal that has to be below a bound.
fn read_below(text: &[u8], place: &mut Place, bound: u32) -> Result<u32, Fault>
    ensures { got result (words_from text.now place.new.at) place.new.at ≡ below_from bound (words_from text.now place.old.at) (length text.now) }
{
    let (literal, at) = read_number(text, place)?;
    if literal >= bound {
        return Err(Layer::Circuit.fault(Cause::CircuitLiteral, at));
    }
    Ok(literal)
}

// A count that may not be above a limit.
fn read_count(text: &[u8], place: &mut Place, most: u32) -> Result<u32, Fault>
    ensures { got result (words_from text.now place.new.at) place.new.at ≡ count_from (at_most most) (words_from text.now place.old.at) (length text.now) }
{
    let (count, at) = read_number(text, place)?;
    if count > most {
        return Err(Layer::Circuit.fault(Cause::CircuitCount, at));
    }
    Ok(count)
}

// A table's count: a table that is too short comes before a count that breaks a limit.
fn read_table_count<F: Fn(u32) -> bool>(
    text: &[u8],
    place: &mut Place,
    room: usize,
    breaks: F,
) -> Result<u32, Fault>
    requires { F.IsAlwaysCallable breaks }
    ensures is { (rule : ℕ → Bool) → Judges (F.post breaks) rule → got result (words_from text.now place.new.at) place.new.at ≡ count_from (table_count room rule) (words_from text.now place.old.at) (length text.now) }
    ensures fits { IfOk result (λ n. n ≤ room) }
    ensures unbroken { IfOk result (λ n. F.post breaks n false) }
{
    let (count, at) = read_number(text, place)?;
    if count as usize > room {
        return Err(Layer::Circuit.fault(Cause::TableShort, at));
    }
    if breaks(count) {
        return Err(Layer::Circuit.fault(Cause::CircuitCount, at));
    }
    Ok(count)
}

// The counts, each judged at its word.
fn read_header(
    text: &[u8],
    place: &mut Place,
    output_room: usize,
    gate_room: usize,
) -> Result<CircuitHead, Fault>
    ensures is { got result (words_from text.now place.new.at) place.new.at ≡ header_from (words_from text.now place.old.at) output_room gate_room (length text.now) }
    ensures wires { IfOk result (λ h. h.wires ≤ MAX_WIRES) }
    ensures inputs { IfOk result (λ h. h.inputs ≤ MAX_INPUTS) }
    ensures output_room { IfOk result (λ h. h.outputs ≤ output_room) }
    ensures gate_room { IfOk result (λ h. h.gates ≤ gate_room) }
    ensures sum { IfOk result (λ h. h.wires ≡ h.inputs + h.gates) }
{
    read_name(text, place, b"aag")?;
    let wires = read_count(text, place, MAX_WIRES)?;
    let inputs = read_count(text, place, MAX_INPUTS)?;
    // There are no latches.
    read_count(text, place, 0)?;
    let outputs = read_table_count(text, place, output_room, |outputs| outputs > MAX_OUTPUTS)?;
    let gates = read_table_count(text, place, gate_room, |gates| {
        wires.checked_sub(inputs) != Some(gates)
    })?;
    Ok(CircuitHead {
        wires,
        inputs,
        outputs,
        gates,
    })
}

// Input i is the literal 2i.
#[tactic(auto, using(crate::proofs::CountLaws::one_left))]
fn read_inputs(text: &[u8], place: &mut Place, inputs: u32) -> Result<(), Fault>
    requires { inputs ≤ MAX_INPUTS }
    ensures { got result (words_from text.now place.new.at) place.new.at ≡ inputs_from inputs 1 (words_from text.now place.old.at) place.old.at (length text.now) }
{
    for i in 1..=inputs {
        read_exact(text, place, 2 * i)?;
    }
    Ok(())
}

// Each output is a literal of some wire.
fn read_outputs(
    text: &[u8],
    place: &mut Place,
    wires: u32,
    outputs: &mut [u32],
) -> Result<(), Fault>
    requires { wires ≤ MAX_WIRES }
    ensures { told_table result outputs.new (words_from text.now place.new.at) place.new.at ≡ outputs_from wires (length outputs.old) [] (words_from text.now place.old.at) place.old.at (length text.now) }
{
    for output in outputs.iter_mut() {
        *output = read_below(text, place, 2 * wires + 2)?;
    }
    Ok(())
}

// A gate, whose own literal is given: that literal, then two smaller ones.
fn read_gate(text: &[u8], place: &mut Place, own: u32) -> Result<Gate, Fault>
    ensures { got result (words_from text.now place.new.at) place.new.at ≡ gate_from own (words_from text.now place.old.at) (length text.now) }
{
    read_exact(text, place, own)?;
    let left = read_below(text, place, own)?;
    let right = read_below(text, place, own)?;
    Ok(Gate { left, right })
}

// Gate g, counted from 0, has the own literal 2(I + g + 1).
fn read_gates(text: &[u8], place: &mut Place, inputs: u32, gates: &mut [Gate]) -> Result<(), Fault>
    requires { inputs + length gates.old ≤ MAX_WIRES }
    ensures { told_table result gates.new (words_from text.now place.new.at) place.new.at ≡ gates_from inputs (length gates.old) [] (words_from text.now place.old.at) place.old.at (length text.now) }
{
    for (g, gate) in gates.iter_mut().enumerate() {
        *gate = read_gate(text, place, 2 * (inputs + g as u32 + 1))?;
    }
    Ok(())
}

// Reads a circuit to the front of the tables. After a refusal, the tables and the place may hold anything.
fn read_into(
    text: &[u8],
    place: &mut Place,
    outputs: &mut [u32],
    gates: &mut [Gate],
) -> Result<CircuitHead, Fault>
    ensures is { told_circuit result outputs.new gates.new place.new.at ≡ circuit_from text.now place.old.at (length outputs.old) (length gates.old) }
    ensures filled { IfOk result (λ h. Filled h outputs.old outputs.new gates.old gates.new) }
{
    check_length(text)?;
    let head = read_header(text, place, outputs.len(), gates.len())?;
    read_inputs(text, place, head.inputs)?;
    read_outputs(
        text,
        place,
        head.wires,
        &mut outputs[..head.outputs as usize],
    )?;
    read_gates(text, place, head.inputs, &mut gates[..head.gates as usize])?;
    Ok(head)
}

// Fills the tables with zeros. They are lent each by itself: of a struct of references each contract would also have to
// say that they stay.
fn clear(outputs: &mut [u32], gates: &mut [Gate])
    ensures outputs { outputs.new ≡ replicate (length outputs.old) 0 }
    ensures gates { gates.new ≡ replicate (length gates.old) no_gate }
{
    outputs.fill(0);
    gates.fill(Gate::default());
}

// Reads a circuit into tables that are cleared before, and again after a refusal.
fn read_or_clear(
    text: &[u8],
    place: &mut Place,
    outputs: &mut [u32],
    gates: &mut [Gate],
) -> Result<CircuitHead, Fault>
    ensures head { answered result ≡ head_read (circuit_from text.now place.old.at (length outputs.old) (length gates.old)) }
    ensures outputs { outputs.new ≡ outputs_read (circuit_from text.now place.old.at (length outputs.old) (length gates.old)) (length outputs.old) }
    ensures gates { gates.new ≡ gates_read (circuit_from text.now place.old.at (length outputs.old) (length gates.old)) (length gates.old) }
    ensures place { OnOk result (place.new.at ≡ place_read (circuit_from text.now place.old.at (length outputs.old) (length gates.old)) place.old.at) }
{
    clear(outputs, gates);
    let read = read_into(text, place, outputs, gates);
    if read.is_err() {
        clear(outputs, gates);
    }
    read
}

// Reads a circuit from the place on. Accepted, the tables hold it and are zero behind it, and the place is behind
// its last word; refused, the tables are zero and the place is as it was.
pub fn read_circuit(
    text: &[u8],
    place: &mut Place,
    outputs: &mut [u32],
    gates: &mut [Gate],
) -> Result<CircuitHead, Fault>
    ensures { Agrees (circuit_from text.now place.old.at (length outputs.old) (length gates.old)) result (length outputs.old) outputs.new (length gates.old) gates.new place.old.at place.new.at }
{
    let mut kept = KeptPlace::new(place);
    let head = read_or_clear(text, kept.place, outputs, gates)?;
    kept.confirm();
    Ok(head)
}
