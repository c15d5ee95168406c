// Circuit texts, read into tables, and the reaches of their outputs.
use super::outcomes::Outcome::{Accepted, Refused};
use super::outcomes::*;
use base::values::ValueWord;
use circuit::read::read_circuit;
use circuit::tables::{CircuitHead, Gate};
use reach::{fill_reaches, wire_reach};
use std::alloc::{AllocError, Global};
use std::test::Fail;
use words::place::Place;

// The lengths of the tables: outputs, gates.
type Rooms = (usize, usize);

const SMALL: Rooms = (4, 4);

// A text, the reading place, the tables, and what has to come of it.
static SHORT: [(&str, usize, Rooms, Outcome); 72] = [
    // The AIGER format's own examples: constants, buffer, inverter, and-gate, or-gate, half adder, toggle flip-flop.
    ("aag 0 0 0 1 0 0", 0, SMALL, Accepted(15, (0, 0, 1, 0), 0)),
    ("aag 0 0 0 1 0 1", 0, SMALL, Accepted(15, (0, 0, 1, 0), 0)),
    ("aag 1 1 0 1 0 2 2", 0, SMALL, Accepted(17, (1, 1, 1, 0), 1)),
    ("aag 1 1 0 1 0 2 3", 0, SMALL, Accepted(17, (1, 1, 1, 0), 1)),
    (
        "aag 3 2 0 1 1 2 4 6 6 2 4",
        0,
        SMALL,
        Accepted(25, (3, 2, 1, 1), 3),
    ),
    (
        "aag 3 2 0 1 1 2 4 7 6 3 5",
        0,
        SMALL,
        Accepted(25, (3, 2, 1, 1), 3),
    ),
    (
        "aag 7 2 0 2 3 2 4 6 12 6 13 15 12 2 4 14 3 5",
        0,
        SMALL,
        Refused(9, 12, 3),
    ),
    ("aag 1 0 1 2 0 2 3 2 3", 0, SMALL, Refused(9, 8, 3)),
    // Words.
    ("aig 0 0 0 0 0", 0, SMALL, Refused(2, 0, 1)),
    ("aagg 0 0 0 0 0", 0, SMALL, Refused(2, 0, 1)),
    ("aag -1 0 0 0 0", 0, SMALL, Refused(2, 4, 1)),
    ("aag 01 1 0 0 0", 0, SMALL, Refused(2, 4, 1)),
    ("aag 00 0 0 0 0", 0, SMALL, Refused(2, 4, 1)),
    ("aag +1 1 0 0 0", 0, SMALL, Refused(2, 4, 1)),
    ("aag 1234567890 0 0 0 0", 0, SMALL, Refused(3, 4, 1)),
    ("aag 0123456789 0 0 0 0", 0, SMALL, Refused(2, 4, 1)),
    ("aag -1234567890 0 0 0 0", 0, SMALL, Refused(2, 4, 1)),
    ("aag 1 1 0 1 0 2 -2", 0, SMALL, Refused(2, 16, 1)),
    ("aag 1 1 0 1 0 2 1234567890", 0, SMALL, Refused(3, 16, 1)),
    ("aag 1 1 0 1 0 2\0 2", 0, SMALL, Refused(2, 14, 1)),
    ("aag 1 1 0 1 0 2\x0c2", 0, SMALL, Refused(2, 14, 1)),
    ("aag 1 1 0 1 0 2 \u{ff}", 0, SMALL, Refused(2, 16, 1)),
    (
        "aag\t1\r\n1\n0 1 0\r\n2\t2\n",
        0,
        SMALL,
        Accepted(19, (1, 1, 1, 0), 1),
    ),
    (
        "aag 1 1 0 1 0 2 2 i0 x c none",
        0,
        SMALL,
        Accepted(17, (1, 1, 1, 0), 1),
    ),
    ("aag 0 0 0 0 0", 0, SMALL, Accepted(13, (0, 0, 0, 0), 0)),
    // Ends and reading places.
    ("", 0, SMALL, Refused(4, 0, 1)),
    ("aag", 0, SMALL, Refused(4, 3, 1)),
    ("aag 1 1 0 1", 0, SMALL, Refused(4, 11, 1)),
    ("aag 1 1 0 1 0", 0, SMALL, Refused(4, 13, 1)),
    ("aag 1 1 0 1 0 2", 0, SMALL, Refused(4, 15, 1)),
    ("aag 2 1 0 0 1 2 4 2", 0, SMALL, Refused(4, 19, 1)),
    ("aag 1 2 0 0", 0, SMALL, Refused(4, 11, 1)),
    ("aag 1 2 0 0 x", 0, SMALL, Refused(2, 12, 1)),
    ("aag 0 0 0 0 0", 13, SMALL, Refused(4, 13, 1)),
    ("aag 0 0 0 0 0", 99, SMALL, Refused(4, 13, 1)),
    (
        "junk aag 0 0 0 0 0 x",
        4,
        SMALL,
        Accepted(18, (0, 0, 0, 0), 0),
    ),
    ("xaag 0 0 0 1 0 1", 1, SMALL, Accepted(16, (0, 0, 1, 0), 0)),
    // Counts, and tables that are too short.
    ("aag 60001 0 0 0 0", 0, SMALL, Refused(9, 4, 3)),
    ("aag 60000 65 0 0 0", 0, SMALL, Refused(9, 10, 3)),
    ("aag 60000 0 1 0 0", 0, SMALL, Refused(9, 12, 3)),
    ("aag 60000 0 0 0 60000", 0, (4, 59999), Refused(8, 16, 3)),
    ("aag 60000 0 0 0 60001", 0, (4, 60001), Refused(9, 16, 3)),
    ("aag 1 0 0 5 1", 0, SMALL, Refused(8, 10, 3)),
    ("aag 0 0 0 4097 0", 0, (4096, 4), Refused(8, 10, 3)),
    ("aag 0 0 0 4097 0", 0, (4097, 4), Refused(9, 10, 3)),
    ("aag 0 0 0 4096 0", 0, (4095, 4), Refused(8, 10, 3)),
    ("aag 5 1 0 0 5 2", 0, SMALL, Refused(8, 12, 3)),
    ("aag 5 0 0 0 5 2", 0, SMALL, Refused(8, 12, 3)),
    ("aag 1 1 0 0 999999999 2", 0, SMALL, Refused(8, 12, 3)),
    ("aag 3 1 0 0 3 2", 0, SMALL, Refused(9, 12, 3)),
    ("aag 3 1 0 0 1 2", 0, SMALL, Refused(9, 12, 3)),
    ("aag 0 1 0 0 0 2", 0, SMALL, Refused(9, 12, 3)),
    ("aag 0 0 0 0 0", 0, (0, 0), Accepted(13, (0, 0, 0, 0), 0)),
    ("aag 0 0 0 1 0 0", 0, (0, 0), Refused(8, 10, 3)),
    ("aag 2 1 0 0 1 2 4 2 2", 0, (4, 0), Refused(8, 12, 3)),
    // Literals.
    ("aag 1 1 0 0 0 3", 0, SMALL, Refused(10, 14, 3)),
    ("aag 1 1 0 0 0 0", 0, SMALL, Refused(10, 14, 3)),
    ("aag 2 2 0 0 0 4 2", 0, SMALL, Refused(10, 14, 3)),
    ("aag 2 2 0 0 0 2 2", 0, SMALL, Refused(10, 16, 3)),
    ("aag 1 1 0 1 0 2 4", 0, SMALL, Refused(10, 16, 3)),
    ("aag 0 0 0 1 0 2", 0, SMALL, Refused(10, 14, 3)),
    (
        "aag 2 1 0 2 1 2 5 0 4 2 3",
        0,
        SMALL,
        Accepted(25, (2, 1, 2, 1), 0),
    ),
    ("aag 2 1 0 2 1 2 5 6 4 2 3", 0, SMALL, Refused(10, 18, 3)),
    ("aag 2 1 0 0 1 2 5 2 2", 0, SMALL, Refused(10, 16, 3)),
    ("aag 2 1 0 0 1 2 6 2 2", 0, SMALL, Refused(10, 16, 3)),
    ("aag 2 1 0 0 1 2 2 2 2", 0, SMALL, Refused(10, 16, 3)),
    ("aag 2 1 0 0 1 2 4 4 2", 0, SMALL, Refused(10, 18, 3)),
    ("aag 2 1 0 0 1 2 4 2 4", 0, SMALL, Refused(10, 20, 3)),
    ("aag 2 1 0 0 1 2 4 2 5", 0, SMALL, Refused(10, 20, 3)),
    ("aag 3 1 0 0 2 2 4 6 2 6 2 2", 0, SMALL, Refused(10, 18, 3)),
    (
        "aag 2 1 0 0 1 2 4 3 3",
        0,
        SMALL,
        Accepted(21, (2, 1, 0, 1), 0),
    ),
    (
        "aag 3 1 0 1 2 2 7 4 2 0 6 5 1",
        0,
        SMALL,
        Accepted(29, (3, 1, 1, 2), 1),
    ),
];

// The limits, at the largest number and one above it.
static LONG: [(&[Piece], Rooms, Outcome); 10] = [
    // 64 inputs.
    (
        &[("aag 64 64 0 0 0", 2, 2, 64, "")],
        SMALL,
        Accepted(218, (64, 64, 0, 0), 0),
    ),
    (
        &[("aag 64 64 0 1 0", 2, 2, 64, ""), (" 129", 0, 0, 0, "")],
        SMALL,
        Accepted(222, (64, 64, 1, 0), 0x8000000000000000),
    ),
    (
        &[("aag 64 64 0 1 0", 2, 2, 64, ""), (" 130", 0, 0, 0, "")],
        SMALL,
        Refused(10, 219, 3),
    ),
    (
        &[("aag 64 64 0 0 0", 2, 2, 63, ""), (" 126", 0, 0, 0, "")],
        SMALL,
        Refused(10, 215, 3),
    ),
    (
        &[
            ("aag 64 63 0 0 1", 2, 2, 63, ""),
            (" 128 127 126", 0, 0, 0, ""),
        ],
        SMALL,
        Accepted(226, (64, 63, 0, 1), 0),
    ),
    // 4,096 outputs.
    (
        &[("aag 0 0 0 4096 0", 0, 0, 4096, "")],
        (4096, 4),
        Accepted(8208, (0, 0, 4096, 0), 0),
    ),
    // 60,000 wires.
    (
        &[("aag 60000 0 0 1 60000 120001", 2, 2, 60000, " 0 1")],
        (4, 60000),
        Accepted(604478, (60000, 0, 1, 60000), 0),
    ),
    (
        &[("aag 60000 0 0 1 60000 120002", 2, 2, 60000, " 0 1")],
        (4, 60000),
        Refused(10, 22, 3),
    ),
    (
        &[
            ("aag 60000 64 0 1 59936", 2, 2, 64, ""),
            (" 120000", 130, 2, 59936, " 128 3"),
        ],
        (4, 59936),
        Accepted(724095, (60000, 64, 1, 59936), 0x8000000000000001),
    ),
    (
        &[
            ("aag 60000 64 0 1 59936", 2, 2, 64, ""),
            (" 120000", 130, 2, 59935, " 128 3"),
            (" 120000 120000 0", 0, 0, 0, ""),
        ],
        (4, 59936),
        Refused(10, 724090, 3),
    ),
];

// The zeros of a free entry, written out: the reader takes its own from `Default`.
const NO_GATE: Gate = Gate { left: 0, right: 0 };

// The reader of circuit texts, with the reaches.
struct CircuitReader;

impl Reader for CircuitReader {
    type Rooms = Rooms;

    fn outcome_of(
        heap: Global,
        text: &[u8],
        at: usize,
        rooms: Rooms,
    ) -> Result<Outcome, AllocError> {
        let mut place = Place { at };
        let mut outputs = vec![in heap; 7; rooms.0]?;
        let mut gates = vec![in heap; Gate { left: 7, right: 7 }; rooms.1]?;
        match read_circuit(
            text,
            &mut place,
            outputs.as_mut_slice(),
            gates.as_mut_slice(),
        ) {
            Ok(head) => accepted(heap, place, head, outputs.as_slice(), gates.as_slice()),
            Err(fault) => {
                let lawful = place.at == at
                    && all_are(outputs.as_slice(), 0)
                    && all_are(gates.as_slice(), NO_GATE);
                Ok(if lawful {
                    refusal(fault)
                } else {
                    Outcome::Unlawful
                })
            }
        }
    }
}

// What came of a reading that accepted.
fn accepted(
    heap: Global,
    place: Place,
    head: CircuitHead,
    outputs: &[u32],
    gates: &[Gate],
) -> Result<Outcome, AllocError> {
    let mut reaches = vec![in heap; ValueWord { bits: 7 }; head.gates as usize]?;
    let filled = fill_reaches(head, gates, reaches.as_mut_slice());
    let (Some((outputs, no_outputs)), Some((_, no_gates))) = (
        outputs.split_at_checked(head.outputs as usize),
        gates.split_at_checked(head.gates as usize),
    ) else {
        return Ok(Outcome::Unlawful);
    };
    if !filled || !all_are(no_outputs, 0) || !all_are(no_gates, NO_GATE) {
        return Ok(Outcome::Unlawful);
    }
    let word = match outputs.last() {
        Some(output) => wire_reach(head.inputs, reaches.as_slice(), *output / 2).bits,
        None => 0,
    };
    Ok(Accepted(
        place.at,
        (head.wires, head.inputs, head.outputs, head.gates),
        word,
    ))
}

#[test]
fn short_circuits(rt: HostRuntime) -> Result<(), Fail> {
    hold_short::<CircuitReader>(rt.alloc(), &SHORT)
}

#[test]
fn long_circuits(rt: HostRuntime) -> Result<(), Fail> {
    hold_long::<CircuitReader>(rt.alloc(), &LONG)?;
    hold_longest::<CircuitReader>(rt.alloc(), SMALL)
}

// The tables of two gates, the second of which reads the first.
#[test]
fn tables_of_a_circuit(rt: HostRuntime) {
    let mut place = Place { at: 0 };
    let mut outputs = [0; 2];
    let mut gates = [NO_GATE; 2];
    assert!(rt;
        read_circuit(
            b"aag 4 2 0 2 2 2 4 9 6 6 5 2 8 7 4",
            &mut place,
            &mut outputs,
            &mut gates,
        )
        .is_ok()
    );
    assert_eq!(rt; outputs[0], 9);
    assert_eq!(rt; outputs[1], 6);
    assert_eq!(rt; gates[0], Gate { left: 5, right: 2 });
    assert_eq!(rt; gates[1], Gate { left: 7, right: 4 });
}
