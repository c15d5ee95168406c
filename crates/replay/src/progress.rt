// Progress of long work.

// Whoever wants to know how far a replay has come. It is a trait, since a call that takes a closure would have to require
// something of it.
pub trait Progress {
    // So many records of so many bytes were taken.
    fn taken(&mut self, records: usize, bytes: usize);
}

// Nobody wants to know.
#[derive(Clone, Copy, Drop)]
pub struct Quiet {}

impl Progress for Quiet {
    fn taken(&mut self, _records: usize, _bytes: usize) {}
}
