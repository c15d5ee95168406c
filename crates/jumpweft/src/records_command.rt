// `jumpweft records`: prints each record of a proof file, up to the first that is refused.
use super::arguments::Arguments;
use super::failure::Failure;
use super::text::Text;
use records::record::read_record;
use std::io::{BufWriter, Write};

pub(crate) fn run(rt: &HostRuntime, arguments: &Arguments<'_>) -> Result<(), Failure> {
    arguments.check_no_options()?;
    let text = Text::read(rt, arguments.only_file()?)?;
    print_records(rt, text.bytes.as_slice())
}

fn print_records(rt: &HostRuntime, bytes: &[u8]) -> Result<(), Failure> {
    let mut out = BufWriter::new(rt.alloc(), rt.stdout())?;
    let mut rest = bytes;
    let mut count = 0usize;
    // The length of a record is known once it is read.
    while !rest.is_empty() {
        count += 1;
        let (read, behind) = read_record(rest);
        match read {
            Ok(step) => {
                let used = rest.len() - behind.len();
                writeln!(out, "record {count}, {used} bytes: {step}")?;
            }
            Err(fault) => {
                let at = bytes.len() - rest.len();
                writeln!(out, "record {count}, at byte {at}\n{fault}")?;
                out.flush()?;
                return Err(Failure::Told);
            }
        }
        rest = behind;
    }
    writeln!(out, "{count} records, {} bytes", bytes.len())?;
    out.flush()?;
    Ok(())
}
