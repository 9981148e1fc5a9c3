use calc_model::EditCause;
use thiserror::Error;

/// Why an edit isn't made, in the order in which the causes are looked for.
#[derive(Clone, Copy, Debug, PartialEq, Eq, Error)]
pub enum EditFault {
    #[error("memory was refused before, in the midst of an edit")]
    Dead,
    #[error("the edit is refused: {0:?}")]
    Refused(#[from] EditCause),
    #[error("memory was refused")]
    NoMemory,
}
