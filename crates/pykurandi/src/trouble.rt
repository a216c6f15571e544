// Why a line is not done.
use scripts::fault::Fault;
use std::alloc::AllocError;
use std::io;
use thiserror::Error;

#[derive(Debug, Drop, Error)]
pub enum Trouble {
    // The script goes on with the next line.
    #[error(transparent)]
    Fault(#[from] Fault),
    // Nothing more can be printed.
    #[error(transparent)]
    Output(#[from] io::Error),
}

// Want of memory is a fault of the line, so no derived conversion makes it.
impl From<AllocError> for Trouble {
    fn from(e: AllocError) -> Trouble {
        Trouble::Fault(e.into())
    }
}
