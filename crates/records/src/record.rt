// Records: the steps of a proof as bytes, each with its length in front.
ghost use Rattle.std.specs.Prelude.{◌≡◌, length};
ghost use Rattle.base.specs.Causes.{answered};
ghost use Rattle.records.specs.Records.{Reads, ReadsBack, put_count, put_front, rest_from, step_from, written_count, written_into};

use super::step::{Premise, Step};
use base::faults::{Cause, Fault, Layer};
use base::values::ValueWord;

// Reads one record from the front of the bytes: its step and the bytes behind it, or the refusal and all the bytes.
pub fn read_record(bytes: &[u8]) -> (Result<Step, Fault>, &[u8])
    ensures is { answered result.0 ≡ step_from bytes.now }
    ensures rest { result.1.now ≡ rest_from bytes.now }
    ensures law { Reads bytes.now result.0 result.1.now }
{
    match *bytes {
        [0, 6, 1, 1, class, hi, lo, part, ref rest @ ..] => {
            let premise = Premise::Truth {
                class,
                number: u16::from_be_bytes([hi, lo]),
                part,
            };
            (Ok(Step::Premise(premise)), rest)
        }
        [0, 12, 1, 2, hi, lo, a, b, c, d, e, f, g, h, ref rest @ ..] => {
            let premise = Premise::Falsity {
                clause: u16::from_be_bytes([hi, lo]),
                values: ValueWord {
                    bits: u64::from_be_bytes([a, b, c, d, e, f, g, h]),
                },
            };
            (Ok(Step::Premise(premise)), rest)
        }
        [0, 12, 1, 3, a, b, c, d, e, f, g, h, hi, lo, ref rest @ ..] => {
            let step = Step::Resolve {
                first: u32::from_be_bytes([a, b, c, d]),
                second: u32::from_be_bytes([e, f, g, h]),
                position: u16::from_be_bytes([hi, lo]),
            };
            (Ok(step), rest)
        }
        [0, 8, 1, 4, hi, lo, a, b, c, d, ref rest @ ..] => {
            let step = Step::Settle {
                goal: u16::from_be_bytes([hi, lo]),
                clause: u32::from_be_bytes([a, b, c, d]),
            };
            (Ok(step), rest)
        }
        _ => (Err(Layer::Records.fault(Cause::RecordMalformed, 0)), bytes),
    }
}

// Writes the step's record at the front of `out` and answers its length; where there is no room, it writes nothing.
pub fn write_record(step: Step, out: &mut [u8]) -> Option<usize>
    ensures count { result ≡ written_count step (length out.old) }
    ensures written { out.new ≡ written_into step out.old }
    ensures back { ReadsBack step result out.new }
{
    match step {
        Step::Premise(
            Premise::Truth {
                class,
                number,
                part,
            },
        ) => {
            let [hi, lo] = number.to_be_bytes();
            put_front(&[0, 6, 1, 1, class, hi, lo, part], out)
        }
        Step::Premise(Premise::Falsity { clause, values }) => {
            let [hi, lo] = clause.to_be_bytes();
            let [a, b, c, d, e, f, g, h] = values.bits.to_be_bytes();
            put_front(&[0, 12, 1, 2, hi, lo, a, b, c, d, e, f, g, h], out)
        }
        Step::Resolve {
            first,
            second,
            position,
        } => {
            let [a, b, c, d] = first.to_be_bytes();
            let [e, f, g, h] = second.to_be_bytes();
            let [hi, lo] = position.to_be_bytes();
            put_front(&[0, 12, 1, 3, a, b, c, d, e, f, g, h, hi, lo], out)
        }
        Step::Settle { goal, clause } => {
            let [hi, lo] = goal.to_be_bytes();
            let [a, b, c, d] = clause.to_be_bytes();
            put_front(&[0, 8, 1, 4, hi, lo, a, b, c, d], out)
        }
    }
}

// Copies `front` to the front of `out` and answers its length; where there is no room, it writes nothing.
fn put_front(front: &[u8], out: &mut [u8]) -> Option<usize>
    ensures count { result ≡ put_count front.now (length out.old) }
    ensures written { out.new ≡ put_front front.now out.old }
{
    if out.len() < front.len() {
        return None;
    }
    out[..front.len()].copy_from_slice(front);
    Some(front.len())
}
