//! Why rows cannot be tried.
use octets::Refusal;
use std::alloc::{AllocError, AllocFailed};
use std::{fmt, io};

#[derive(Debug, Drop)]
pub(crate) enum Bad {
    /// No memory was left.
    Memory,
    /// A file was not read, or standard output failed.
    File,
    /// What is wrong with a line or a block.
    Text(&'static str),
    /// The block that begins at this line has a fault.
    Line(usize, &'static str),
}

impl Bad {
    /// The same of the block that begins at this line.
    pub(crate) fn at(self, line: usize) -> Bad {
        match self {
            Bad::Text(text) => Bad::Line(line, text),
            other => other,
        }
    }
}

impl fmt::Display for Bad {
    fn fmt<W: fmt::Write>(&self, f: &mut fmt::Formatter<W>) -> fmt::Result {
        match self {
            Bad::Memory => f.write_str("no memory is left"),
            Bad::File => f.write_str("a file was not read, or the output failed"),
            Bad::Text(text) => f.write_str(text),
            Bad::Line(line, text) => write!(f, "line {line}: {text}"),
        }
    }
}

impl From<AllocError> for Bad {
    fn from(_: AllocError) -> Bad {
        Bad::Memory
    }
}

impl<T: Drop> From<AllocFailed<T>> for Bad {
    fn from(_: AllocFailed<T>) -> Bad {
        Bad::Memory
    }
}

impl From<io::Error> for Bad {
    fn from(_: io::Error) -> Bad {
        Bad::File
    }
}

impl From<Refusal> for Bad {
    fn from(refusal: Refusal) -> Bad {
        match refusal {
            Refusal::Memory => Bad::Memory,
            _ => Bad::Text("a text that the row reads beside its run is refused"),
        }
    }
}
