//! The message for wrong words, in `clap`'s form.

ghost use Rattle.std.specs.Prelude.{◌≡◌, ◌⊎◌, false};
ghost use Rattle.command_words.specs.Telling.{LacksMemory, TellsWrong};

use crate::words::all_words;
use clap::Error;
use clap::error::ErrorKind;
use outcome_trace::{Status, TextFault, TextOut, tell_fault, write_text};
use std::alloc::{AllocError, Global};
use std::convert::AsStr;
use text_io::push_shown;

/// What is wrong with words that `clap` refuses, in its form. Of the words, a byte that isn't printable ASCII is shown
/// as its number ([`push_shown`]). `None` if words that are shown so aren't refused.
pub fn shown_reason<S: AsStr>(alloc: Global, words: &[S]) -> Result<Option<String>, AllocError> {
    let shown = shown_words(alloc, words)?;
    reason_of(alloc, shown.as_slice())
}

// What is wrong with words, if `clap` refuses them.
fn reason_of<'a>(alloc: Global, words: &'a [String]) -> Result<Option<String>, AllocError> {
    let all = all_words(alloc)?;
    match all.try_get_matches_from(words) {
        Ok(_matches) => Ok(None),
        Err(error) => refusal_text(alloc, &error),
    }
}

// The text of an error, unless help or the version is asked for.
fn refusal_text(alloc: Global, error: &Error) -> Result<Option<String>, AllocError> {
    if error.kind() == ErrorKind::OutOfMemory {
        return Err(AllocError);
    }
    if error.use_stderr() {
        return Ok(Some(error.to_string(alloc)?));
    }
    Ok(None)
}

// The words, with each byte that isn't printable ASCII shown as its number.
fn shown_words<S: AsStr>(alloc: Global, words: &[S]) -> Result<Vec<String>, AllocError> {
    let mut shown = Vec::new(alloc);
    for word in words {
        shown.push(shown_word(alloc, word.as_str())?)?;
    }
    Ok(shown)
}

// The same for one word.
fn shown_word(alloc: Global, word: &str) -> Result<String, AllocError> {
    let mut shown = Vec::new(alloc);
    push_shown(&mut shown, word.as_bytes())?;
    String::from_utf8_lossy(alloc, shown.as_slice())
}

/// Writes `message` to `err`, in `clap`'s form. This is for words that `clap` doesn't read, or that it accepts but that
/// give no request. Returns `Usage`, or `Fault` if memory ran out.
pub fn refuse_words<E: TextOut>(alloc: Global, message: &str, err: &mut E) -> Status
    requires { (E.seen err.old).failed ≡ false }
    ensures { TellsWrong (E.seen err.old) (E.seen err.new) result ⊎
        LacksMemory (E.seen err.old) (E.seen err.new) result }
{
    let Ok(mut all) = all_words(alloc) else {
        return tell_fault(TextFault::NoMemory, err);
    };
    let Ok(error) = all.error(ErrorKind::ValueValidation, message) else {
        return tell_fault(TextFault::NoMemory, err);
    };
    let Ok(text) = error.to_string(alloc) else {
        return tell_fault(TextFault::NoMemory, err);
    };
    let _ = write_text(text.as_bytes(), err);
    Status::Usage
}
