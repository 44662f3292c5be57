//! The forms that are open at a place of a text, and the binders around the place.

use crate::language::is_under;
use effect_term::Kind;
use std::alloc::{AllocError, Global};
use term_parse::{Part, Word, parts_of, word_of};

/// A name that a form binds.
#[derive(Clone, Copy)]
pub(crate) struct Binder {
    /// The place where the name begins.
    pub start: usize,
    /// The place behind the name.
    pub end: usize,
    /// The kind of the name.
    pub kind: Kind,
}

/// A form whose closing bracket hasn't been read.
#[derive(Clone, Copy)]
pub(crate) struct OpenForm {
    /// Its word, if it has been read.
    pub word: Option<Word>,
    /// The number of its parts that have been read.
    pub next: usize,
    /// The number of binders before the form's own.
    pub first: usize,
}

impl OpenForm {
    /// The part that is expected next.
    pub fn part(&self) -> Option<Part> {
        parts_of(self.word?).get(self.next).copied()
    }

    // Counts one more part. `More` remains the expected part.
    fn count(&mut self) {
        match self.part() {
            Some(Part::More) => {}
            _ => self.next = self.next.saturating_add(1),
        }
    }
}

/// The surroundings of a place in a text.
#[derive(Drop)]
pub(crate) struct Around {
    /// The open forms, the innermost last.
    pub forms: Vec<OpenForm>,
    /// The binders of these forms, the innermost last.
    pub binders: Vec<Binder>,
}

/// The open forms and the binders at the end of `front`, the beginning of a text, which has no fault.
pub(crate) fn around_end(alloc: Global, front: &[u8]) -> Result<Around, AllocError> {
    let mut around = Around {
        forms: Vec::new(alloc),
        binders: Vec::new(alloc),
    };
    let mut start = None;
    for (at, byte) in front.iter().enumerate() {
        if is_name_byte(*byte) && start.is_some() {
            continue;
        }
        around.end_token(front, start, at)?;
        start = start_at(*byte, at);
        around.bracket(*byte)?;
    }
    around.end_token(front, start, front.len())?;
    Ok(around)
}

// `at`, if this byte begins a name or a number.
fn start_at(byte: u8, at: usize) -> Option<usize> {
    if is_name_byte(byte) || byte == b'-' {
        Some(at)
    } else {
        None
    }
}

// Whether this byte continues a name or a number.
fn is_name_byte(byte: u8) -> bool {
    (b'a' <= byte && byte <= b'z') || (b'0' <= byte && byte <= b'9')
}

impl Around {
    // Ends a name or a number, if one has begun.
    fn end_token(
        &mut self,
        front: &[u8],
        start: Option<usize>,
        end: usize,
    ) -> Result<(), AllocError> {
        let Some(start) = start else {
            return Ok(());
        };
        let Some(spelled) = front.get(start..end) else {
            return Ok(());
        };
        let Some(mut form) = self.forms.pop() else {
            return Ok(());
        };
        if form.word.is_none() {
            form.word = word_of(spelled);
        } else {
            self.bind(&form, start, end)?;
            form.count();
        }
        self.forms.push(form)?;
        Ok(())
    }

    // Binds a name, if the form binds one here.
    fn bind(&mut self, form: &OpenForm, start: usize, end: usize) -> Result<(), AllocError> {
        if let Some(Part::Bind(kind)) = form.part() {
            self.binders.push(Binder { start, end, kind })?;
        }
        Ok(())
    }

    // Handles a bracket, if this byte is one.
    fn bracket(&mut self, byte: u8) -> Result<(), AllocError> {
        match byte {
            b'(' => self.forms.push(OpenForm {
                word: None,
                next: 0,
                first: self.binders.len(),
            })?,
            b')' => self.close(),
            _ => {}
        }
        Ok(())
    }

    // Closes the innermost form.
    fn close(&mut self) {
        let Some(form) = self.forms.pop() else {
            return;
        };
        self.binders.truncate(form.first);
        if let Some(outer) = self.forms.last_mut() {
            outer.count();
        }
    }

    /// The innermost open form.
    pub fn innermost(&self) -> Option<OpenForm> {
        self.forms.as_slice().last().copied()
    }

    /// The binders whose scope contains the place, the innermost last.
    pub fn in_scope(&self, alloc: Global) -> Result<Vec<Binder>, AllocError> {
        let mut seen = Vec::new(alloc);
        for (at, form) in self.forms.iter().enumerate() {
            let end = match self.forms.get(at.saturating_add(1)) {
                Some(inner) => inner.first,
                None => self.binders.len(),
            };
            if let Some(part) = form.part() {
                self.add_those(&mut seen, part, form.first, end)?;
            }
        }
        Ok(seen)
    }

    // Adds the form's binders whose scope contains this part.
    fn add_those(
        &self,
        seen: &mut Vec<Binder>,
        part: Part,
        first: usize,
        end: usize,
    ) -> Result<(), AllocError> {
        let Some(own) = self.binders.as_slice().get(first..end) else {
            return Ok(());
        };
        for (number, binder) in own.iter().enumerate() {
            if is_under(part, number) {
                seen.push(*binder)?;
            }
        }
        Ok(())
    }
}
