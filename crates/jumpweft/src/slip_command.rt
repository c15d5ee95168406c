// `jumpweft slip`: prints what a slip says.
use super::arguments::Arguments;
use super::failure::{Failure, decided, refused};
use super::text::Text;
use records::slip::read_slip;

pub(crate) fn run(rt: &HostRuntime, arguments: &Arguments<'_>) -> Result<(), Failure> {
    arguments.check_no_options()?;
    let text = Text::read(rt, arguments.only_file()?)?;
    let slip = read_slip(text.bytes.as_slice()).or_else(|fault| refused(rt, fault))?;
    println!(rt; "{slip}")?;
    decided(slip)
}
