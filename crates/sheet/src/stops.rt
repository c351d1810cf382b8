// Why a command was not carried out: its line cannot be read, what it asks for is refused, or the output failed.
use markdown::{RenderRefusal, TableRefusal};
use std::alloc::{AllocError, AllocFailed};
use std::{fmt, io};
use words::Fault;

#[derive(Drop)]
pub enum Stop {
    Line(Fault),
    // a command on pages, and why it is refused
    Refused(&'static str, page::Refusal),
    // a load, and why it is refused
    NotLoaded(events::refusal::Refusal),
    // a question for a table, and why it is refused
    NoTable(TableRefusal),
    // a paint, and why it is refused
    NotPainted(RenderRefusal),
    // a command on pages, before there is one
    NoPage(&'static str),
    Output(io::Error),
}

impl From<events::refusal::Refusal> for Stop {
    fn from(refusal: events::refusal::Refusal) -> Stop {
        Stop::NotLoaded(refusal)
    }
}

impl From<TableRefusal> for Stop {
    fn from(refusal: TableRefusal) -> Stop {
        Stop::NoTable(refusal)
    }
}

impl From<RenderRefusal> for Stop {
    fn from(refusal: RenderRefusal) -> Stop {
        Stop::NotPainted(refusal)
    }
}

impl From<Fault> for Stop {
    fn from(fault: Fault) -> Stop {
        Stop::Line(fault)
    }
}

impl From<io::Error> for Stop {
    fn from(e: io::Error) -> Stop {
        Stop::Output(e)
    }
}

impl From<AllocError> for Stop {
    fn from(e: AllocError) -> Stop {
        Stop::Line(Fault::from(e))
    }
}

impl<T: Drop> From<AllocFailed<T>> for Stop {
    fn from(e: AllocFailed<T>) -> Stop {
        Stop::Line(Fault::from(e))
    }
}

impl From<fmt::Error> for Stop {
    fn from(e: fmt::Error) -> Stop {
        Stop::Line(Fault::from(e))
    }
}
