// Formula texts, read into tables.
use super::outcomes::Outcome::{Accepted, Refused};
use super::outcomes::*;
use base::values::ValueWord;
use formula::read::read_formula;
use formula::tables::{Clause, Head, Kind, Literal, Variable};
use std::alloc::{AllocError, Global};
use std::test::Fail;
use words::place::Place;

// The lengths of the tables: variables, clauses, literals.
type Rooms = (usize, usize, usize);

const SMALL: Rooms = (4, 4, 4);

// A text, the reading place, the tables, and what has to come of it.
static SHORT: [(&str, usize, Rooms, Outcome); 125] = [
    // The examples that show each kind of outcome.
    (
        "p cnf 3 0 a 1 0 a 3 0 d 2 3 0",
        0,
        SMALL,
        Accepted(29, (3, 0, 2, 1), 0),
    ),
    ("p cnf 2 1 a 1 0 e 2 0 1 -1 0", 0, SMALL, Refused(7, 24, 2)),
    (
        "p cnf 2 2 a 1 0 e 2 0 1 -2 0 -1 2 0",
        0,
        SMALL,
        Accepted(35, (2, 2, 1, 1), 1),
    ),
    // Words where a number is due.
    ("p cnf -0 0", 0, SMALL, Refused(2, 6, 1)),
    ("p cnf 00 0", 0, SMALL, Refused(2, 6, 1)),
    ("p cnf 01 0", 0, SMALL, Refused(2, 6, 1)),
    ("p cnf +1 0", 0, SMALL, Refused(2, 6, 1)),
    ("p cnf - 0", 0, SMALL, Refused(2, 6, 1)),
    ("p cnf 1x 0", 0, SMALL, Refused(2, 6, 1)),
    ("p cnf -1 0", 0, SMALL, Refused(2, 6, 1)),
    ("p cnf 1234567890 0", 0, SMALL, Refused(3, 6, 1)),
    ("p cnf 0123456789 0", 0, SMALL, Refused(2, 6, 1)),
    ("p cnf -1234567890 0", 0, SMALL, Refused(2, 6, 1)),
    ("p cnf x 0", 0, SMALL, Refused(2, 6, 1)),
    ("p cnf 123456789 0", 0, SMALL, Refused(5, 6, 2)),
    ("p cnf 1 -1", 0, SMALL, Refused(2, 8, 1)),
    ("p cnf 1 0 a -1 0", 0, SMALL, Refused(2, 12, 1)),
    ("p cnf 1 0 d -1 0", 0, SMALL, Refused(2, 12, 1)),
    ("p cnf 1 0 e 1234567890 0", 0, SMALL, Refused(3, 12, 1)),
    ("p cnf 1 0 e -1234567890 0", 0, SMALL, Refused(2, 12, 1)),
    // Words where a literal is due.
    ("p cnf 1 1 e 1 0 -0 0", 0, SMALL, Refused(2, 16, 1)),
    ("p cnf 1 1 e 1 0 00 0", 0, SMALL, Refused(2, 16, 1)),
    ("p cnf 1 1 e 1 0 -01 0", 0, SMALL, Refused(2, 16, 1)),
    ("p cnf 1 1 e 1 0 +1 0", 0, SMALL, Refused(2, 16, 1)),
    ("p cnf 1 1 e 1 0 - 0", 0, SMALL, Refused(2, 16, 1)),
    ("p cnf 1 1 e 1 0 --1 0", 0, SMALL, Refused(2, 16, 1)),
    ("p cnf 1 1 e 1 0 1x 0", 0, SMALL, Refused(2, 16, 1)),
    ("p cnf 1 1 e 1 0 x 0", 0, SMALL, Refused(2, 16, 1)),
    ("p cnf 1 1 e 1 0 1234567890 0", 0, SMALL, Refused(3, 16, 1)),
    ("p cnf 1 1 e 1 0 -1234567890 0", 0, SMALL, Refused(3, 16, 1)),
    ("p cnf 1 1 e 1 0 0123456789 0", 0, SMALL, Refused(2, 16, 1)),
    ("p cnf 1 1 e 1 0 -0123456789 0", 0, SMALL, Refused(2, 16, 1)),
    (
        "p cnf 1 1 e 1 0 -12345678901x 0",
        0,
        SMALL,
        Refused(2, 16, 1),
    ),
    // Blanks, and bytes that are none.
    (
        "p\tcnf\r\n1\n0\r\n\te\r1\t0\n",
        0,
        SMALL,
        Accepted(18, (1, 0, 0, 1), 0),
    ),
    ("p\x0ccnf 1 0", 0, SMALL, Refused(2, 0, 1)),
    ("p\x0b cnf 1 0", 0, SMALL, Refused(2, 0, 1)),
    ("p\0 cnf 1 0", 0, SMALL, Refused(2, 0, 1)),
    ("p cnf 1\u{ff} 0", 0, SMALL, Refused(2, 6, 1)),
    ("p cnf 1 1 \0 0", 0, SMALL, Refused(2, 10, 1)),
    ("p cnf 1 1 \u{a0}", 0, SMALL, Refused(2, 10, 1)),
    // Names.
    ("P cnf 1 0", 0, SMALL, Refused(2, 0, 1)),
    ("pp cnf 1 0", 0, SMALL, Refused(2, 0, 1)),
    ("1 cnf 1 0", 0, SMALL, Refused(2, 0, 1)),
    ("p CNF 1 0", 0, SMALL, Refused(2, 2, 1)),
    ("p cn 1 0", 0, SMALL, Refused(2, 2, 1)),
    ("p cnff 1 0", 0, SMALL, Refused(2, 2, 1)),
    ("p 1 1 0", 0, SMALL, Refused(2, 2, 1)),
    ("p cnf 1 1 ae 1 0", 0, SMALL, Refused(2, 10, 1)),
    ("p cnf 1 1 A 1 0", 0, SMALL, Refused(2, 10, 1)),
    ("p cnf 1 1 b 1 0", 0, SMALL, Refused(2, 10, 1)),
    ("p cnf 1 0 a e 1 0", 0, SMALL, Refused(2, 12, 1)),
    ("p cnf 1 2 0 a 1 0 0", 0, SMALL, Refused(2, 12, 1)),
    // Texts that end too early.
    ("", 0, SMALL, Refused(4, 0, 1)),
    ("   ", 0, SMALL, Refused(4, 3, 1)),
    ("p", 0, SMALL, Refused(4, 1, 1)),
    ("p cnf", 0, SMALL, Refused(4, 5, 1)),
    ("p cnf 1", 0, SMALL, Refused(4, 7, 1)),
    ("p cnf 1 1", 0, SMALL, Refused(4, 9, 1)),
    ("p cnf 1 0 a", 0, SMALL, Refused(4, 11, 1)),
    ("p cnf 1 0 a 1", 0, SMALL, Refused(4, 13, 1)),
    ("p cnf 1 0 d", 0, SMALL, Refused(4, 11, 1)),
    ("p cnf 1 0 d 1 ", 0, SMALL, Refused(4, 14, 1)),
    ("p cnf 1 1 e 1 0 1 ", 0, SMALL, Refused(4, 18, 1)),
    // Reading places.
    ("p cnf 1 0", 9, SMALL, Refused(4, 9, 1)),
    ("p cnf 1 0", 10, SMALL, Refused(4, 9, 1)),
    ("p cnf 1 0", usize::MAX, SMALL, Refused(4, 9, 1)),
    (
        "junk p cnf 1 0 a 1 0 end",
        4,
        SMALL,
        Accepted(20, (1, 0, 1, 0), 0),
    ),
    (
        "junk p cnf 1 0 a 1 0 end",
        5,
        SMALL,
        Accepted(20, (1, 0, 1, 0), 0),
    ),
    ("pp cnf 1 0", 1, SMALL, Accepted(10, (1, 0, 0, 0), 0)),
    ("junk p cnf 0 0", 5, SMALL, Refused(5, 11, 2)),
    // Groups of declarations.
    (
        "p cnf 4 0 e 1 0 a 2 0 d 3 2 0 e 4 0",
        0,
        SMALL,
        Accepted(35, (4, 0, 1, 3), 1),
    ),
    (
        "p cnf 1 0 a 0 e 0 a 0",
        0,
        SMALL,
        Accepted(21, (1, 0, 0, 0), 0),
    ),
    (
        "p cnf 2 0 a 1 0 d 2 0",
        0,
        SMALL,
        Accepted(21, (2, 0, 1, 1), 0),
    ),
    (
        "p cnf 4 0 a 1 2 0 a 3 0 e 4 0",
        0,
        SMALL,
        Accepted(29, (4, 0, 3, 1), 7),
    ),
    (
        "p cnf 4 0 a 1 2 3 0 d 4 3 1 0",
        0,
        SMALL,
        Accepted(29, (4, 0, 3, 1), 5),
    ),
    ("p cnf 3 0 d 0", 0, SMALL, Refused(6, 12, 2)),
    ("p cnf 3 0 d 4 0", 0, SMALL, Refused(6, 12, 2)),
    ("p cnf 3 0 a 1 0 d 2 2 0", 0, SMALL, Refused(6, 20, 2)),
    ("p cnf 3 0 a 1 0 d 2 4 0", 0, SMALL, Refused(6, 20, 2)),
    ("p cnf 3 0 a 1 0 d 2 3 0", 0, SMALL, Refused(6, 20, 2)),
    ("p cnf 3 0 e 1 0 d 2 1 0", 0, SMALL, Refused(6, 20, 2)),
    ("p cnf 3 0 d 2 1 0 a 1 0", 0, SMALL, Refused(6, 14, 2)),
    ("p cnf 3 0 a 1 0 d 2 1 1 0", 0, SMALL, Refused(7, 22, 2)),
    ("p cnf 3 0 a 1 0 d 1 0", 0, SMALL, Refused(7, 18, 2)),
    ("p cnf 3 0 a 1 1 0", 0, SMALL, Refused(7, 14, 2)),
    ("p cnf 3 0 a 1 0 e 1 0", 0, SMALL, Refused(7, 18, 2)),
    ("p cnf 3 0 e 1 0 a 1 0", 0, SMALL, Refused(7, 18, 2)),
    ("p cnf 3 0 d 1 0 e 1 0", 0, SMALL, Refused(7, 18, 2)),
    ("p cnf 3 0 a 4 0", 0, SMALL, Refused(6, 12, 2)),
    ("p cnf 3 0 e 4 0", 0, SMALL, Refused(6, 12, 2)),
    // Clauses, and what stands behind the last one.
    ("p cnf 1 2 0 0", 0, SMALL, Accepted(13, (1, 2, 0, 0), 0)),
    (
        "p cnf 2 2 e 1 2 0 1 -2 0 -1 0",
        0,
        SMALL,
        Accepted(29, (2, 2, 0, 2), 0),
    ),
    (
        "p cnf 1 1 e 1 0 1 0 -0",
        0,
        SMALL,
        Accepted(19, (1, 1, 0, 1), 0),
    ),
    ("p cnf 1 1 0 a 1 0", 0, SMALL, Accepted(11, (1, 1, 0, 0), 0)),
    ("p cnf 1 0", 0, SMALL, Accepted(9, (1, 0, 0, 0), 0)),
    ("p cnf 1 0 ", 0, SMALL, Accepted(9, (1, 0, 0, 0), 0)),
    ("p cnf 1 0 x1", 0, SMALL, Accepted(9, (1, 0, 0, 0), 0)),
    ("p cnf 1 0 -5", 0, SMALL, Accepted(9, (1, 0, 0, 0), 0)),
    (
        "p cnf 1 0 1234567890",
        0,
        SMALL,
        Accepted(9, (1, 0, 0, 0), 0),
    ),
    ("p cnf 1 0 \0", 0, SMALL, Accepted(9, (1, 0, 0, 0), 0)),
    ("p cnf 1 0 e 1 0 0", 0, SMALL, Accepted(15, (1, 0, 0, 1), 0)),
    ("p cnf 2 1 a 1 0 2 0", 0, SMALL, Refused(6, 16, 2)),
    ("p cnf 1 1 a 1 0 -2 0", 0, SMALL, Refused(6, 16, 2)),
    ("p cnf 1 1 a 1 0 1 1 0", 0, SMALL, Refused(7, 18, 2)),
    ("p cnf 1 1 a 1 0 -1 1 0", 0, SMALL, Refused(7, 19, 2)),
    ("p cnf 1 1 a 1 0 -1 -1 0", 0, SMALL, Refused(7, 19, 2)),
    // Limits of the header and tables that are too short.
    ("p cnf 0 0", 0, SMALL, Refused(5, 6, 2)),
    ("p cnf 65536 0", 0, SMALL, Refused(5, 6, 2)),
    ("p cnf 65536 0", 0, (65536, 4, 4), Refused(5, 6, 2)),
    (
        "p cnf 65535 0",
        0,
        (65535, 4, 4),
        Accepted(13, (65535, 0, 0, 0), 0),
    ),
    (
        "p cnf 65535 1 e 65535 0 -65535 0",
        0,
        (65535, 4, 4),
        Accepted(32, (65535, 1, 0, 1), 0),
    ),
    ("p cnf 65535 0", 0, (65534, 4, 4), Refused(8, 6, 2)),
    ("p cnf 5 0", 0, SMALL, Refused(8, 6, 2)),
    ("p cnf 1 0", 0, (0, 0, 0), Refused(8, 6, 2)),
    ("p cnf 4 16385", 0, SMALL, Refused(5, 8, 2)),
    ("p cnf 4 16385", 0, (4, 16385, 4), Refused(5, 8, 2)),
    ("p cnf 4 16384", 0, (4, 16383, 4), Refused(8, 8, 2)),
    ("p cnf 4 5", 0, SMALL, Refused(8, 8, 2)),
    ("p cnf 1 0", 0, (1, 0, 0), Accepted(9, (1, 0, 0, 0), 0)),
    (
        "p cnf 1 1 e 1 0 0",
        0,
        (1, 1, 0),
        Accepted(17, (1, 1, 0, 1), 0),
    ),
    ("p cnf 1 1 e 1 0 1 0", 0, (1, 1, 0), Refused(8, 16, 2)),
    (
        "p cnf 3 2 e 1 2 3 0 1 2 0 3 0",
        0,
        (4, 4, 2),
        Refused(8, 26, 2),
    ),
    (
        "p cnf 4 2 e 1 2 3 0 1 2 0 4 0",
        0,
        (4, 4, 2),
        Refused(6, 26, 2),
    ),
    (
        "p cnf 3 2 e 1 2 3 0 1 2 2 0 0",
        0,
        (4, 4, 2),
        Refused(7, 24, 2),
    ),
    (
        "p cnf 2 2 e 1 2 0 1 2 0 0",
        0,
        (4, 4, 2),
        Accepted(25, (2, 2, 0, 2), 0),
    ),
];

// The limits, at the largest number and one above it.
static LONG: [(&[Piece], Rooms, Outcome); 26] = [
    // 64 universals, and a 65th whatever it names.
    (
        &[("p cnf 65 0 a", 1, 1, 64, ""), (" 0 e 65 0", 0, 0, 0, "")],
        (65, 4, 4),
        Accepted(204, (65, 0, 64, 1), u64::MAX),
    ),
    (
        &[
            ("p cnf 65 0 a", 1, 1, 64, ""),
            (" 0 d 65", 1, 1, 64, ""),
            (" 0", 0, 0, 0, ""),
        ],
        (65, 4, 4),
        Accepted(387, (65, 0, 64, 1), u64::MAX),
    ),
    (
        &[
            ("p cnf 65 0 a", 1, 1, 64, ""),
            (" 0 d 65 64 0", 0, 0, 0, ""),
        ],
        (65, 4, 4),
        Accepted(207, (65, 0, 64, 1), 0x8000000000000000),
    ),
    (
        &[("p cnf 65 0 a", 1, 1, 65, ""), (" 0", 0, 0, 0, "")],
        (65, 4, 4),
        Refused(5, 196, 2),
    ),
    (
        &[("p cnf 65 0 a", 1, 1, 64, ""), (" 0 a 65 0", 0, 0, 0, "")],
        (65, 4, 4),
        Refused(5, 200, 2),
    ),
    (
        &[("p cnf 65 0 a", 1, 1, 64, ""), (" 1 0", 0, 0, 0, "")],
        (65, 4, 4),
        Refused(5, 196, 2),
    ),
    (
        &[("p cnf 65 0 a", 1, 1, 64, ""), (" 66 0", 0, 0, 0, "")],
        (65, 4, 4),
        Refused(5, 196, 2),
    ),
    (
        &[("p cnf 65 0 a", 1, 1, 64, ""), (" x 0", 0, 0, 0, "")],
        (65, 4, 4),
        Refused(2, 196, 1),
    ),
    // 4,096 existentials, and one more whatever it names.
    (
        &[("p cnf 4097 0 e", 1, 1, 4096, ""), (" 0", 0, 0, 0, "")],
        (4097, 4, 4),
        Accepted(19389, (4097, 0, 0, 4096), 0),
    ),
    (
        &[("p cnf 4097 0 e", 1, 1, 4097, ""), (" 0", 0, 0, 0, "")],
        (4097, 4, 4),
        Refused(5, 19388, 2),
    ),
    (
        &[("p cnf 4097 0 e", 1, 1, 4096, ""), (" 1 0", 0, 0, 0, "")],
        (4097, 4, 4),
        Refused(5, 19388, 2),
    ),
    (
        &[("p cnf 4097 0 e", 1, 1, 4096, ""), (" 4098 0", 0, 0, 0, "")],
        (4097, 4, 4),
        Refused(5, 19388, 2),
    ),
    (
        &[
            ("p cnf 4097 0 e", 1, 1, 4096, ""),
            (" 0 d 4097 0", 0, 0, 0, ""),
        ],
        (4097, 4, 4),
        Refused(5, 19392, 2),
    ),
    (
        &[("p cnf 4097 0 e", 1, 1, 4096, ""), (" 0 d 0", 0, 0, 0, "")],
        (4097, 4, 4),
        Refused(5, 19392, 2),
    ),
    (
        &[
            ("p cnf 4097 0 e", 1, 1, 4096, ""),
            (" 0 a 4097 0", 0, 0, 0, ""),
        ],
        (4097, 4, 4),
        Accepted(19398, (4097, 0, 1, 4096), 0),
    ),
    // 1,024 literals of a clause, and one more whatever it names.
    (
        &[
            ("p cnf 1026 1 e", 1, 1, 1025, ""),
            (" 0", 1, 1, 1024, ""),
            (" 0", 0, 0, 0, ""),
        ],
        (1026, 1, 1024),
        Accepted(8049, (1026, 1, 0, 1025), 0),
    ),
    (
        &[
            ("p cnf 1026 2 e", 1, 1, 1025, ""),
            (" 0", 1, 1, 1024, ""),
            (" 0 -1025 0", 0, 0, 0, ""),
        ],
        (1026, 2, 1025),
        Accepted(8057, (1026, 2, 0, 1025), 0),
    ),
    (
        &[
            ("p cnf 1026 2 e", 1, 1, 1025, ""),
            (" 0", 1, 1, 1024, ""),
            (" 0 -1025 0", 0, 0, 0, ""),
        ],
        (1026, 2, 1024),
        Refused(8, 8050, 2),
    ),
    (
        &[
            ("p cnf 1026 1 e", 1, 1, 1025, ""),
            (" 0", 1, 1, 1025, ""),
            (" 0", 0, 0, 0, ""),
        ],
        (1026, 1, 2000),
        Refused(5, 8048, 2),
    ),
    (
        &[
            ("p cnf 1026 1 e", 1, 1, 1025, ""),
            (" 0", 1, 1, 1025, ""),
            (" 0", 0, 0, 0, ""),
        ],
        (1026, 1, 1024),
        Refused(5, 8048, 2),
    ),
    (
        &[
            ("p cnf 1026 1 e", 1, 1, 1025, ""),
            (" 0", 1, 1, 1024, ""),
            (" -1 0", 0, 0, 0, ""),
        ],
        (1026, 1, 2000),
        Refused(5, 8048, 2),
    ),
    (
        &[
            ("p cnf 1026 1 e", 1, 1, 1025, ""),
            (" 0", 1, 1, 1024, ""),
            (" 1026 0", 0, 0, 0, ""),
        ],
        (1026, 1, 2000),
        Refused(5, 8048, 2),
    ),
    (
        &[
            ("p cnf 1026 1 e", 1, 1, 1025, ""),
            (" 0", 1, 1, 1024, ""),
            (" -1027 0", 0, 0, 0, ""),
        ],
        (1026, 1, 2000),
        Refused(5, 8048, 2),
    ),
    (
        &[
            ("p cnf 1026 1 e", 1, 1, 1025, ""),
            (" 0", 1, 1, 1023, ""),
            (" 1026 0", 0, 0, 0, ""),
        ],
        (1026, 1, 2000),
        Refused(6, 8043, 2),
    ),
    // 16,384 clauses.
    (
        &[("p cnf 1 16384", 0, 0, 16384, "")],
        (1, 16384, 0),
        Accepted(32781, (1, 16384, 0, 0), 0),
    ),
    (
        &[("p cnf 1 16384", 0, 0, 16383, "")],
        (1, 16384, 0),
        Refused(4, 32779, 1),
    ),
];

// The zeros of free entries, written out: the readers take theirs from `Default`.
const NO_VARIABLE: Variable = Variable {
    kind: Kind::Undeclared,
    position: 0,
    dependencies: ValueWord { bits: 0 },
};

const NO_CLAUSE: Clause = Clause { first: 0, len: 0 };

const NO_LITERAL: Literal = Literal {
    variable: 0,
    negative: false,
};

// The reader of formula texts.
struct FormulaReader;

impl Reader for FormulaReader {
    type Rooms = Rooms;

    fn outcome_of(
        heap: Global,
        text: &[u8],
        at: usize,
        rooms: Rooms,
    ) -> Result<Outcome, AllocError> {
        let mut place = Place { at };
        let mut variables = vec![in heap; Variable {
            kind: Kind::Universal,
            position: 7,
            dependencies: ValueWord { bits: 7 }
        }; rooms.0]?;
        let mut clauses = vec![in heap; Clause { first: 7, len: 7 }; rooms.1]?;
        let mut literals = vec![in heap; Literal {
            variable: 7,
            negative: true
        }; rooms.2]?;
        match read_formula(
            text,
            &mut place,
            variables.as_mut_slice(),
            clauses.as_mut_slice(),
            literals.as_mut_slice(),
        ) {
            Ok(head) => Ok(accepted(
                place,
                head,
                variables.as_slice(),
                clauses.as_slice(),
                literals.as_slice(),
            )),
            Err(fault) => {
                let lawful = place.at == at
                    && all_are(variables.as_slice(), NO_VARIABLE)
                    && all_are(clauses.as_slice(), NO_CLAUSE)
                    && all_are(literals.as_slice(), NO_LITERAL);
                Ok(if lawful {
                    refusal(fault)
                } else {
                    Outcome::Unlawful
                })
            }
        }
    }
}

// What came of a reading that accepted.
fn accepted(
    place: Place,
    head: Head,
    variables: &[Variable],
    clauses: &[Clause],
    literals: &[Literal],
) -> Outcome {
    let (Some((variables, no_variables)), Some((clauses, no_clauses))) = (
        variables.split_at_checked(head.variables as usize),
        clauses.split_at_checked(head.clauses as usize),
    ) else {
        return Outcome::Unlawful;
    };
    let used = clauses
        .last()
        .map_or(0, |last| last.first as usize + last.len as usize);
    let (Some(last), Some(no_literals)) = (variables.last(), literals.get(used..)) else {
        return Outcome::Unlawful;
    };
    if !all_are(no_variables, NO_VARIABLE)
        || !all_are(no_clauses, NO_CLAUSE)
        || !all_are(no_literals, NO_LITERAL)
    {
        return Outcome::Unlawful;
    }
    Accepted(
        place.at,
        (
            head.variables,
            head.clauses,
            head.universals,
            head.existentials,
        ),
        last.dependencies.bits,
    )
}

#[test]
fn short_formulas(rt: HostRuntime) -> Result<(), Fail> {
    hold_short::<FormulaReader>(rt.alloc(), &SHORT)
}

#[test]
fn long_formulas(rt: HostRuntime) -> Result<(), Fail> {
    hold_long::<FormulaReader>(rt.alloc(), &LONG)?;
    hold_longest::<FormulaReader>(rt.alloc(), SMALL)
}

// The tables of a formula whose existential, variable 2, has to equal its universal, variable 1.
#[test]
fn tables_of_a_formula(rt: HostRuntime) {
    let mut place = Place { at: 0 };
    let mut variables = [NO_VARIABLE; 2];
    let mut clauses = [NO_CLAUSE; 2];
    let mut literals = [NO_LITERAL; 4];
    assert!(rt;
        read_formula(
            b"p cnf 2 2 a 1 0 e 2 0 1 -2 0 -1 2 0",
            &mut place,
            &mut variables,
            &mut clauses,
            &mut literals,
        )
        .is_ok()
    );
    assert_eq!(rt;
        variables[0],
        Variable {
            kind: Kind::Universal,
            position: 1,
            dependencies: ValueWord { bits: 0 },
        }
    );
    assert_eq!(rt;
        variables[1],
        Variable {
            kind: Kind::Existential,
            position: 1,
            dependencies: ValueWord { bits: 1 },
        }
    );
    assert_eq!(rt; clauses[0], Clause { first: 0, len: 2 });
    assert_eq!(rt; clauses[1], Clause { first: 2, len: 2 });
    assert_eq!(rt;
        literals[0],
        Literal {
            variable: 1,
            negative: false,
        }
    );
    assert_eq!(rt;
        literals[1],
        Literal {
            variable: 2,
            negative: true,
        }
    );
    assert_eq!(rt;
        literals[2],
        Literal {
            variable: 1,
            negative: true,
        }
    );
    assert_eq!(rt;
        literals[3],
        Literal {
            variable: 2,
            negative: false,
        }
    );
}
