// Why a line of a script got no answer of its own.
use refusals::Refusal;
use std::alloc::AllocError;
use std::io;
use thiserror::Error;

/// What came in place of a command's answer: the first three are written as a line, the others end the script.
#[derive(Debug, Drop, Error)]
pub(crate) enum Failure {
    #[error("not understood")]
    NotUnderstood,
    #[error("no tree")]
    NoTree,
    #[error(transparent)]
    Refused(#[from] Refusal),
    #[error(transparent)]
    Output(#[from] io::Error),
    #[error(transparent)]
    Memory(#[from(alloc)] AllocError),
}
