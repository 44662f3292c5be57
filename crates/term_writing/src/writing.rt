//! The part of a term that is written, and the tasks for the rest.

use crate::binder::{Binder, BinderName, NameKind, WordPlace};
use crate::reading::bytes_of;
use crate::scope::{Bound, FiberName, Handed, Meaning, NONE, Operand, Use};
use crate::spelling::Spellings;
use crate::task::Task;
use crate::wrong::{Limit, Span, Stop};
use itoa::Buffer;
use std::alloc::{AllocError, Global};
use term_parse::{Word, spelling_of};

/// The greatest number of bytes of a term.
pub const MOST_BYTES: usize = 65536;

// The greatest number of open brackets of a term.
const MOST_OPEN: usize = 100;

// The greatest amount of work: 1 for each step, binder, name that is compared, and part that is passed.
const MOST_WORK: usize = 5_000_000;

/// A `say` of a fiber.
#[derive(Clone, Copy)]
pub struct SaidBy {
    /// The number of the form that spells the fiber's name.
    pub fiber: usize,
    /// The value.
    pub value: i64,
}

/// A `say` of a value that isn't a number of the file.
#[derive(Clone, Copy)]
pub struct ComputedSay {
    /// The fiber that says it.
    pub fiber: FiberName,
    /// The number of the form of the `say`.
    pub form: usize,
}

/// A term that is partly written.
#[derive(Drop)]
pub struct Writing {
    /// The text of the term.
    pub text: Vec<u8>,
    /// Its binders, in the order of the text.
    pub binders: Vec<Binder>,
    /// The places in the file that its forms come from, in the order of the text.
    pub places: Vec<WordPlace>,
    /// The forms of the file that read a ref whose value then changes the ref.
    pub torn: Vec<usize>,
    /// The `say`s of values that only a run shows, in the order of the text.
    pub computed: Vec<ComputedSay>,
    /// Whether the term can say a number that the translation says for a name: computed, or written in the file.
    pub says_names: bool,
    /// The binder whose refs are watched.
    pub watched: Option<BinderName>,
    /// The two `say`s whose order is compared.
    pub said: Option<(SaidBy, SaidBy)>,
    /// Whether each fiber but fiber 0 says a value for its name first.
    pub names: bool,
    /// The name of the hidden ref that records whether the first of the two `say`s came.
    pub order: usize,
    pub(crate) spellings: Spellings,
    pub(crate) bounds: Vec<Bound>,
    pub(crate) handed: Vec<Handed>,
    pub(crate) uses: Vec<Use>,
    /// The tasks that the present step plans, the next one first.
    pub(crate) plan: Vec<Task>,
    /// The tasks that earlier steps planned, the next one last.
    pub(crate) stack: Vec<Task>,
    /// The values of the form that is planned.
    pub(crate) values: Vec<Operand>,
    /// The binders of the form that is planned.
    pub(crate) made: Vec<Bound>,
    /// The number of open `let`s around the form that is planned.
    pub(crate) lets: usize,
    open: usize,
    work: usize,
}

impl Writing {
    /// Makes a term without bytes.
    pub fn new(alloc: Global) -> Result<Writing, AllocError> {
        let spellings = Spellings::new(alloc)?;
        Ok(Writing {
            text: Vec::new(alloc),
            binders: Vec::new(alloc),
            places: Vec::new(alloc),
            torn: Vec::new(alloc),
            computed: Vec::new(alloc),
            says_names: false,
            watched: None,
            said: None,
            names: false,
            order: NONE,
            spellings,
            bounds: Vec::new(alloc),
            handed: Vec::new(alloc),
            uses: Vec::new(alloc),
            plan: Vec::new(alloc),
            stack: Vec::new(alloc),
            values: Vec::new(alloc),
            made: Vec::new(alloc),
            lets: 0,
            open: 0,
            work: MOST_WORK,
        })
    }

    /// Takes `count` from the work that is left, or returns [`Limit::TooMuchWork`] if less is left.
    pub(crate) fn pay(&mut self, count: usize) -> Result<(), Stop> {
        match self.work.checked_sub(count) {
            Some(left) => {
                self.work = left;
                Ok(())
            }
            None => Err(Stop::Limit(Limit::TooMuchWork)),
        }
    }

    /// Limits the work that is left to `most`, for the trial of a definition.
    pub(crate) fn limit_work(&mut self, most: usize) {
        self.work = self.work.min(most);
    }

    /// The amount of work that is left.
    pub(crate) fn work_left(&self) -> usize {
        self.work
    }

    /// Moves the tasks that the step planned onto the stack.
    pub(crate) fn settle(&mut self) -> Result<(), Stop> {
        let mut left = self.plan.len();
        for _ in 0..self.plan.len() {
            left = left.saturating_sub(1);
            if let Some(task) = self.plan.get(left) {
                self.stack.push(*task)?;
            }
        }
        self.plan.clear();
        Ok(())
    }

    /// Plans a task.
    pub fn then(&mut self, task: Task) -> Result<(), Stop> {
        self.plan.push(task)?;
        Ok(())
    }

    /// Makes a new name with a spelling near `name`, and returns its number.
    pub fn fresh(&mut self, name: &[u8]) -> Result<usize, Stop> {
        let number = self.spellings.fresh(name)?;
        Ok(number)
    }

    /// Adds a name to a scope, and returns the new scope.
    pub(crate) fn bind(
        &mut self,
        scope: usize,
        name: Span,
        meaning: Meaning,
    ) -> Result<usize, Stop> {
        self.pay(1)?;
        let number = self.bounds.len();
        self.bounds.push(Bound {
            name,
            meaning,
            next: scope,
        })?;
        Ok(number)
    }

    /// The meaning of this spelling in a scope, if it has a binder there.
    pub(crate) fn innermost(
        &mut self,
        text: &[u8],
        spelled: &[u8],
        scope: usize,
    ) -> Result<Option<Meaning>, Stop> {
        let mut at = scope;
        let mut looked: usize = 1;
        let mut found = None;
        for _ in 0..self.bounds.len() {
            let Some(bound) = self.bounds.get(at) else {
                break;
            };
            if bytes_of(text, bound.name) == spelled {
                found = Some(bound.meaning);
                break;
            }
            looked = looked.saturating_add(1);
            at = bound.next;
        }
        self.pay(looked)?;
        Ok(found)
    }

    // Writes bytes, or returns [`Limit::TooLong`] if the term would become too long.
    fn write(&mut self, bytes: &[u8]) -> Result<(), Stop> {
        if MOST_BYTES < self.text.len().saturating_add(bytes.len()) {
            return Err(Stop::Limit(Limit::TooLong));
        }
        self.text.extend_from_slice(bytes)?;
        Ok(())
    }

    // Writes a space, except at the beginning.
    fn write_space(&mut self) -> Result<(), Stop> {
        if self.text.is_empty() {
            return Ok(());
        }
        self.write(b" ")
    }

    /// Writes an opening bracket and its word, for the form with this number. `is_added` is that of its
    /// [`WordPlace`].
    pub(crate) fn write_open(
        &mut self,
        word: Word,
        form: usize,
        is_added: bool,
    ) -> Result<(), Stop> {
        if MOST_OPEN <= self.open {
            return Err(Stop::Limit(Limit::TooDeep));
        }
        self.open = self.open.saturating_add(1);
        self.write_space()?;
        let term = self.text.len();
        self.places.push(WordPlace {
            term,
            form,
            is_added,
        })?;
        self.write(b"(")?;
        self.write(spelling_of(word))
    }

    /// Writes `count` closing brackets.
    pub(crate) fn write_close(&mut self, count: usize) -> Result<(), Stop> {
        self.open = self.open.saturating_sub(count);
        for _ in 0..count {
            self.write(b")")?;
        }
        Ok(())
    }

    // Writes the name with this number.
    fn write_name(&mut self, number: usize) -> Result<(), Stop> {
        self.write_space()?;
        let spelled = self.spellings.spelled(number);
        if MOST_BYTES < self.text.len().saturating_add(spelled.len()) {
            return Err(Stop::Limit(Limit::TooLong));
        }
        self.text.extend_from_slice(spelled)?;
        Ok(())
    }

    // Writes a number.
    fn write_number(&mut self, number: i64) -> Result<(), Stop> {
        self.write_space()?;
        let mut buffer = Buffer::new();
        self.write(buffer.format(number).as_bytes())
    }

    /// Writes a value.
    pub(crate) fn write_operand(&mut self, operand: Operand) -> Result<(), Stop> {
        match operand {
            Operand::Number(number) => self.write_number(number),
            Operand::Name(number) => self.write_name(number),
        }
    }

    /// Writes a binder.
    pub(crate) fn write_binder(
        &mut self,
        number: usize,
        kind: NameKind,
        name: BinderName,
    ) -> Result<(), Stop> {
        self.write_name(number)?;
        let end = self.text.len();
        let start = end.saturating_sub(self.spellings.spelled(number).len());
        self.binders.push(Binder {
            kind,
            start,
            end,
            name,
        })?;
        Ok(())
    }
}
