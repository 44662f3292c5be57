//! The registry that the words of a closed table show.
ghost use Rattle.std.specs.Prelude.{◌≡◌, ◌+◌, ◌≤◌, length, IfOk};
ghost use Rattle.std.specs.Slots.{IsFull, slots_items, slots_len};
ghost use Rattle.cell_registry.specs.Cells.{AreLimits, Cells};
ghost use Rattle.cell_registry.specs.Private.Shown.{Copies, Shows, ShowsCell};

use crate::kept_cell::KeptCell;
use crate::limits::Limits;
use crate::words::{
    cell_place, deferred_place, outcome_answer, read_answer, ref_place, value_place,
};
use atomic_table::Closed;
use control_word::{unpack, word_value};
use effect_term::Value;
use std::alloc::{AllocError, Global};

/// A copy of the words of a closed table.
pub(crate) fn copied(
    alloc: Global,
    closed: &Closed<u8, Global>,
    count: usize,
) -> Result<Vec<u64>, AllocError>
    requires full { IsFull closed.now.words }
    requires count { slots_len closed.now.words ≡ count }
    ensures { IfOk result (λ it. Copies (slots_items closed.now.words) count it.items) }
{
    let mut words = Vec::with_capacity(alloc, count)?;
    for place in 0..count {
        words.push(closed.word(place))?;
    }
    Ok(words)
}

// The cell with this word and this value word.
fn cell(word: u64, value: u64) -> KeptCell
    ensures { ShowsCell word value result }
{
    let control = unpack(word);
    let mut cell = KeptCell::running(control.depth, control.cancel, control.waited, control.count);
    if control.phase == 0 {
        return cell;
    }
    if control.phase == 1 {
        cell.finalize();
        return cell;
    }
    cell.end(outcome_answer(word, value));
    cell
}

/// The cells of all fibers.
pub(crate) fn cells(
    alloc: Global,
    words: &[u64],
    limits: Limits,
) -> Result<Vec<KeptCell>, AllocError>
    requires limits { AreLimits limits }
    requires words { length words.now ≡ limits.fibers + limits.refs + limits.deferreds + limits.fibers + 3 }
    ensures { IfOk result (λ it. (s : Cells) → Shows limits words.now s → it.items ≡ s.cells) }
{
    let mut cells = Vec::with_capacity(alloc, usize::from(limits.fibers))?;
    for fiber in 0..limits.fibers {
        let word = words[cell_place(fiber)];
        let value = words[value_place(limits, fiber)];
        cells.push(cell(word, value))?;
    }
    Ok(cells)
}

/// The values of all refs.
pub(crate) fn refs(alloc: Global, words: &[u64], limits: Limits) -> Result<Vec<Value>, AllocError>
    requires limits { AreLimits limits }
    requires words { length words.now ≡ limits.fibers + limits.refs + limits.deferreds + limits.fibers + 3 }
    ensures { IfOk result (λ it. (s : Cells) → Shows limits words.now s → it.items ≡ s.refs) }
{
    let mut refs = Vec::with_capacity(alloc, usize::from(limits.refs))?;
    for number in 0..limits.refs {
        let word = words[ref_place(limits, number)];
        refs.push(word_value(word))?;
    }
    Ok(refs)
}

/// The values of all deferreds.
pub(crate) fn deferreds(
    alloc: Global,
    words: &[u64],
    limits: Limits,
) -> Result<Vec<Option<Value>>, AllocError>
    requires limits { AreLimits limits }
    requires words { length words.now ≡ limits.fibers + limits.refs + limits.deferreds + limits.fibers + 3 }
    ensures { IfOk result (λ it. (s : Cells) → Shows limits words.now s → it.items ≡ s.deferreds) }
{
    let mut deferreds = Vec::with_capacity(alloc, usize::from(limits.deferreds))?;
    for number in 0..limits.deferreds {
        let word = words[deferred_place(limits, number)];
        deferreds.push(read_answer(word))?;
    }
    Ok(deferreds)
}
