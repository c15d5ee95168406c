// How commands fail.
use super::text::Text;
use base::faults::Fault;
use records::slip::Slip;
use std::alloc::AllocError;
use std::io;

// Why the status is 1.
#[derive(Drop)]
pub(crate) enum Failure {
    // It is printed already: a refusal, a case that is not decided, a file's error, the usage.
    Told,
    // It is still to be printed, to standard error.
    Error(anyhow::Error),
}

impl From<anyhow::Error> for Failure {
    fn from(e: anyhow::Error) -> Failure {
        Failure::Error(e)
    }
}

impl From<io::Error> for Failure {
    fn from(e: io::Error) -> Failure {
        Failure::Error(e.into())
    }
}

impl From<AllocError> for Failure {
    fn from(e: AllocError) -> Failure {
        Failure::Error(e.into())
    }
}

// Prints a refusal.
pub(crate) fn refused<T>(rt: &HostRuntime, fault: Fault) -> Result<T, Failure> {
    println!(rt; "{fault}")?;
    Err(Failure::Told)
}

// Prints a formula or a circuit whose text is refused, and the refusal.
pub(crate) fn text_refused<T>(
    rt: &HostRuntime,
    kind: &str,
    text: &Text<'_>,
    fault: Fault,
) -> Result<T, Failure> {
    println!(rt; "{kind} {text}\n{fault}")?;
    Err(Failure::Told)
}

// Says on standard error what went wrong with a file.
pub(crate) fn file_failed<T>(rt: &HostRuntime, name: &str, e: io::Error) -> Result<T, Failure> {
    eprintln!(rt; "jumpweft: {name}: {e}")?;
    Err(Failure::Told)
}

// Fails where a slip says neither True nor False.
pub(crate) fn decided(slip: Slip) -> Result<(), Failure> {
    if slip.is_decided() {
        Ok(())
    } else {
        Err(Failure::Told)
    }
}
