use library::faults::LineFault;
use std::alloc::{AllocError, AllocFailed};
use std::io;
use thiserror::Error;

// Why the program stops before its end.
#[derive(Debug, Drop, Error)]
pub enum Failure {
    #[error("libs: name a file with libraries, as libs FILE; libs --help says more")]
    NoFile,
    #[error("{0}: can't be read ({1}): name a file with libraries")]
    Unreadable(String, io::Error),
    // A line of a file, and what is wrong with it.
    #[error("{0}:{1}: {2}")]
    Line(String, usize, LineFault),
    #[error("libs: the files are too long to be read at once")]
    TooLong,
    #[error("libs: {0}")]
    Io(#[from] io::Error),
}

// Want of memory is told as an error of reading or writing is, so it is no variant that a derive could convert.
impl From<AllocError> for Failure {
    fn from(error: AllocError) -> Failure {
        Failure::Io(io::Error::from(error))
    }
}

impl<T: Drop> From<AllocFailed<T>> for Failure {
    fn from(_refused: AllocFailed<T>) -> Failure {
        Failure::Io(io::Error::from(io::ErrorKind::OutOfMemory))
    }
}
