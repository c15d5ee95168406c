// The files that a command is run on.
use super::failure::{Failure, file_failed};
use std::fs::File;
use std::io::Read;
use std::{fmt, fs, io};

// A file's name and bytes.
#[derive(Drop)]
pub(crate) struct Text<'a> {
    pub name: &'a str,
    pub bytes: Vec<u8>,
}

impl<'a> Text<'a> {
    // Reads the file; where it cannot be read, standard error says why.
    pub(crate) fn read(rt: &HostRuntime, name: &'a str) -> Result<Text<'a>, Failure> {
        let bytes = read_bytes(rt, name).or_else(|e| file_failed(rt, name, e))?;
        Ok(Text { name, bytes })
    }
}

// The name and the length.
impl<'a> fmt::Display for Text<'a> {
    fn fmt<W: fmt::Write>(&self, f: &mut fmt::Formatter<W>) -> fmt::Result {
        write!(f, "{}: {} bytes", self.name, self.bytes.len())
    }
}

// Reads a regular file into a row of its length, which is fast for a long one, and anything else piece by piece.
fn read_bytes(rt: &HostRuntime, name: &str) -> Result<Vec<u8>, io::Error> {
    let mut file = File::open(rt, name)?;
    let found = file.metadata()?;
    if !found.is_file() || found.len() == 0 {
        return fs::read(rt, name);
    }
    let mut bytes = vec![in rt.alloc(); 0u8; found.len() as usize]?;
    file.read_exact(bytes.as_mut_slice())?;
    Ok(bytes)
}
