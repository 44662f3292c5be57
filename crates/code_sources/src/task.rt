//! The tasks of the walk through a text.

use crate::sources::StartRole;
use model_forms::Block;
use std::alloc::AllocError;

/// A task of the walk.
#[derive(Clone, Copy)]
pub(crate) enum Task {
    /// The words of the form of this number.
    Form(usize),
    /// This number of words of the form at this place.
    Words(usize, usize),
    /// A word of the form at this place, which starts a fiber of this role.
    Start(StartRole, usize),
    /// The rest of the sequence at this place: the lists of a block.
    Sequence(Block, usize),
}

/// Puts these tasks before the others, the first one first.
pub(crate) fn put_first(tasks: &mut Vec<Task>, first: &[Task]) -> Result<(), AllocError> {
    for task in first.iter().rev() {
        tasks.push(*task)?;
    }
    Ok(())
}
