// The sixteen bytes of a slip: printed, and written to a file.
use super::failure::{Failure, file_failed};
use std::{fs, io};

// Prints a slip's sixteen bytes.
pub(crate) fn print_slip(rt: &HostRuntime, slip: [u8; 16]) -> Result<(), io::Error> {
    let number = u128::from_be_bytes(slip);
    println!(rt; "slip {number:032x}")
}

// Writes the slip through a temporary file beside it and a rename, so that no part of a slip is ever seen; standard
// error says where it did not go well.
pub(crate) fn write_slip_file(rt: &HostRuntime, name: &str, slip: [u8; 16]) -> Result<(), Failure> {
    replace_file(rt, name, slip).or_else(|e| file_failed(rt, name, e))
}

fn replace_file(rt: &HostRuntime, name: &str, slip: [u8; 16]) -> Result<(), io::Error> {
    let temporary = format!(in rt.alloc(); "{name}.new")?;
    fs::write(rt, temporary.as_str(), slip.as_slice())?;
    fs::rename(rt, temporary.as_str(), name)
}
