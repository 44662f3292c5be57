//! The messages for a fault of a file that is found before its models are translated.

use crate::near_names::near_word;
use crate::reading::bytes_of;
use crate::refused::{Refused, SourceFault};
use crate::told::{note_line, tell, tell_count, tell_quoted};
use crate::wording::{note_meant, note_place, tell_no_number};
use crate::wrong::Span;
use model_forms::{FormFault, read_forms};
use model_text::{FileFault, ItemFault};
use std::alloc::{AllocError, Global};
use term_parse::word_of;

/// The reason why a name is refused.
#[derive(Clone, Copy)]
pub enum NameFault {
    /// The name is a word of the language.
    Word,
    /// Another definition or constant, whose name begins here, has it.
    Twice(usize),
    /// Another model, whose name begins here, has it.
    TwoModels(usize),
}

// Appends the fault of the brackets and strings of a file.
fn tell_form(told: &mut Vec<u8>, fault: FormFault) -> Result<(), AllocError> {
    match fault {
        FormFault::NoMemory => tell(told, "no memory"),
        FormFault::Unclosed(count, _) => {
            tell_count(told, count)?;
            tell(told, if count == 1 { " bracket" } else { " brackets" })?;
            tell(told, " not closed: the innermost opens here")
        }
        FormFault::Unopened(_) => tell(told, "a closing bracket without an opening one"),
        FormFault::UnclosedText(_) => tell(told, "a string that isn't closed on its line"),
    }
}

// The message for the fault of an item, if it is the same for each file.
fn item_words(fault: ItemFault) -> &'static str {
    match fault {
        ItemFault::NoMemory => "no memory",
        ItemFault::NotAnItem(_) => "`define`, `defaults` or `model` was wanted",
        ItemFault::NotADefinition(_) => {
            "`(define (name part ..) term ..)` or `(define name number)` was wanted"
        }
        ItemFault::NotAName(_) => {
            "a name was wanted here: letters, digits, `-` and `_`, beginning with a letter"
        }
        ItemFault::NotANumber(_) => {
            "a number from -4611686018427387904 to 4611686018427387903 was wanted"
        }
        ItemFault::NotAPart(_) => {
            "a part was wanted: `x`, `r:ref`, `d:deferred`, `f:fiber`, `p:poll`, or `(body x ..)`"
        }
        ItemFault::NotABound(_) => "a bound was wanted, as `(worlds 200000)`",
        ItemFault::NotAModel(_) => "`(model name claim .. (run term ..))` was wanted",
        ItemFault::NotAClaim(_) => "a claim, a bound or `run` was wanted",
        ItemFault::NoRun(_) => "this model has no `(run ..)`",
        ItemFault::EmptyList(_) => "an empty bracket",
        ItemFault::NotAWord(_) => "behind an opening bracket a word was wanted",
        ItemFault::StrayText(_) => "a string stands behind the name of a model alone",
        ItemFault::EmptyRun(_) => "an empty block: at least one term was wanted",
        ItemFault::BehindRun(_) => "nothing stands behind `run` in a model",
    }
}

// Appends the fault of an item; `spelled` is its bytes.
fn tell_item(told: &mut Vec<u8>, fault: ItemFault, spelled: &[u8]) -> Result<(), AllocError> {
    match fault {
        ItemFault::NotANumber(_) => tell_no_number(told, spelled),
        ItemFault::NoRun(_) => {
            tell(told, "model ")?;
            tell_quoted(told, spelled)?;
            tell(told, " has no `(run ..)`")
        }
        ItemFault::NotAClaim(_) => {
            tell(
                told,
                "a claim (all-end, always, before, can, ever, fails, must, never, no-deadlock, want), ",
            )?;
            tell(
                told,
                "a bound (worlds, entries, fibers, refs, deferreds, count, times, seed) or `run` was wanted",
            )
        }
        _ => tell(told, item_words(fault)),
    }
}

// The end of the form that begins at `place`, or the place of the next byte if none does.
fn end_of(alloc: Global, text: &[u8], place: usize) -> usize {
    let next = place.saturating_add(1).min(text.len());
    match read_forms(alloc, text) {
        Ok(forms) => {
            for form in forms.as_slice() {
                if form.start == place {
                    return form.end;
                }
            }
            next
        }
        Err(_) => next,
    }
}

// The words of items.
const ITEMS: [&str; 3] = ["define", "defaults", "model"];

/// The words of what a model has.
pub(crate) const CLAIMS: [&str; 19] = [
    "all-end",
    "always",
    "before",
    "can",
    "ever",
    "fails",
    "must",
    "never",
    "no-deadlock",
    "want",
    "worlds",
    "entries",
    "fibers",
    "refs",
    "deferreds",
    "count",
    "times",
    "seed",
    "run",
];

// The word at the head of a list with these bytes.
fn head_of(list: &[u8]) -> &[u8] {
    let inside = list.get(1..).unwrap_or(&[]);
    let word = |byte: &u8| !matches!(
        *byte,
        b' ' | b'\n' | b'\t' | b'\r' | b'(' | b')' | b'"' | b';'
    );
    match inside.iter().position(|byte| !word(byte)) {
        Some(end) => inside.get(..end).unwrap_or(inside),
        None => inside,
    }
}

// Adds the notes on the fault of a form with these bytes.
fn note_file(
    alloc: Global,
    notes: &mut Vec<Vec<u8>>,
    fault: FileFault,
    spelled: &[u8],
) -> Result<(), AllocError> {
    let head = head_of(spelled);
    match fault {
        FileFault::Item(ItemFault::NotAnItem(_)) if word_of(head).is_some() => {
            note_line(
                alloc,
                notes,
                "this is a term: `fiber_cli explore` reads one from standard input",
            )
        }
        FileFault::Item(ItemFault::NotAnItem(_)) => {
            note_meant(alloc, notes, near_word(&ITEMS, head).spelled)
        }
        FileFault::Item(ItemFault::NotAClaim(_)) => {
            note_meant(alloc, notes, near_word(&CLAIMS, head).spelled)
        }
        _ => Ok(()),
    }
}

// The fault of a file with its message. The fault begins at `start`.
fn file_fault(
    alloc: Global,
    text: &[u8],
    fault: FileFault,
    start: usize,
) -> Result<SourceFault, AllocError> {
    let end = end_of(alloc, text, start);
    let spelled = text.get(start..end).unwrap_or(&[]);
    let mut message = Vec::new(alloc);
    match fault {
        FileFault::Form(form) => tell_form(&mut message, form)?,
        FileFault::Item(item) => tell_item(&mut message, item, spelled)?,
    }
    let mut notes = Vec::new(alloc);
    note_file(alloc, &mut notes, fault, spelled)?;
    Ok(SourceFault {
        code: fault.code(),
        message,
        start,
        end,
        notes,
    })
}

/// The refusal of a file for a fault of its forms or items.
pub fn file_refused(alloc: Global, text: &[u8], fault: FileFault) -> Refused {
    let Some(start) = fault.place() else {
        return Refused::NoMemory;
    };
    match file_fault(alloc, text, fault, start) {
        Ok(fault) => Refused::Fault(fault),
        Err(_) => Refused::NoMemory,
    }
}

// Appends the fault of a name.
fn tell_name_fault(told: &mut Vec<u8>, spelled: &[u8], fault: NameFault) -> Result<(), AllocError> {
    match fault {
        NameFault::Word => {
            tell_quoted(told, spelled)?;
            tell(told, " is a word of the language")
        }
        NameFault::Twice(_) => {
            tell_quoted(told, spelled)?;
            tell(told, " is defined twice")
        }
        NameFault::TwoModels(_) => {
            tell(told, "there are two models ")?;
            tell_quoted(told, spelled)
        }
    }
}

// The fault of a name of a file, with its message and note.
fn twice_fault(
    alloc: Global,
    text: &[u8],
    prelude: usize,
    name: Span,
    fault: NameFault,
) -> Result<SourceFault, AllocError> {
    let mut message = Vec::new(alloc);
    tell_name_fault(&mut message, bytes_of(text, name), fault)?;
    let mut notes = Vec::new(alloc);
    match fault {
        NameFault::Word => {}
        NameFault::Twice(place) | NameFault::TwoModels(place) => {
            note_place(alloc, &mut notes, text, prelude, "the first is at ", place)?;
        }
    }
    Ok(SourceFault {
        code: "E17",
        message,
        start: name.start,
        end: name.end,
        notes,
    })
}

/// The refusal of a file because of a name.
pub fn twice_refused(
    alloc: Global,
    text: &[u8],
    prelude: usize,
    name: Span,
    fault: NameFault,
) -> Refused {
    match twice_fault(alloc, text, prelude, name, fault) {
        Ok(fault) => Refused::Fault(fault),
        Err(_) => Refused::NoMemory,
    }
}
