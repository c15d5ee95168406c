// Progress of long proofs, on standard error.
use replay::progress::Progress;

// Tells how many records and bytes were taken, of how many bytes.
#[derive(Drop)]
pub(crate) struct StandardError<'a> {
    pub rt: &'a HostRuntime,
    pub bytes: usize,
}

impl<'a> Progress for StandardError<'a> {
    fn taken(&mut self, records: usize, bytes: usize) {
        let all = self.bytes;
        let _ = eprintln!(self.rt; "jumpweft: {records} records, {bytes} of {all} bytes");
    }
}
