use calc_addr::NoMemory;
use thiserror::Error;

/// Why a table of names isn't changed.
#[derive(Clone, Copy, Debug, PartialEq, Eq, Error)]
pub enum NameFault {
    #[error("the name isn't spelled as names are")]
    BadName,
    #[error("the name isn't defined")]
    NoName,
    #[error("there are as many names as a book may have")]
    Full,
    #[error("memory was refused")]
    NoMemory(#[from(alloc)] NoMemory),
}
