//! The results of calls, as in rows.

use cell_registry::{CellError, Reply};

pub(crate) fn done(answer: Result<(), CellError>) -> Option<Result<Reply, CellError>> {
    match answer {
        Ok(()) => Some(Ok(Reply::Done)),
        Err(error) => Some(Err(error)),
    }
}

pub(crate) fn numbered(answer: Result<u16, CellError>) -> Option<Result<Reply, CellError>> {
    match answer {
        Ok(number) => Some(Ok(Reply::Number(number))),
        Err(error) => Some(Err(error)),
    }
}
