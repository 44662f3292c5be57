//! The names of a term. Each has a spelling of its own.

use crate::named::list_of;
use crate::scope::NONE;
use itoa::Buffer;
use std::alloc::{AllocError, Global};

// The number of lists of spellings.
const LISTS: usize = 1024;

// A name: the range of its bytes, the next number to try as a suffix of it, and the next name of its list.
#[derive(Clone, Copy)]
struct Spelling {
    start: usize,
    end: usize,
    number: usize,
    next: usize,
}

/// The names of a term.
#[derive(Drop)]
pub(crate) struct Spellings {
    bytes: Vec<u8>,
    spellings: Vec<Spelling>,
    lists: Vec<usize>,
}

impl Spellings {
    /// Makes an empty table of names.
    pub(crate) fn new(alloc: Global) -> Result<Spellings, AllocError> {
        let mut lists = Vec::with_capacity(alloc, LISTS)?;
        for _ in 0..LISTS {
            lists.push(NONE)?;
        }
        let bytes = Vec::new(alloc);
        let spellings = Vec::new(alloc);
        Ok(Spellings {
            bytes,
            spellings,
            lists,
        })
    }

    /// The bytes of the name with this number.
    pub(crate) fn spelled(&self, number: usize) -> &[u8] {
        match self.spellings.get(number) {
            Some(spelling) => self.range(spelling.start, spelling.end),
            None => &[],
        }
    }

    // The bytes from `start` to `end`.
    fn range(&self, start: usize, end: usize) -> &[u8] {
        self.bytes.as_slice().get(start..end).unwrap_or(&[])
    }

    // The number of the name that the bytes from `start` on spell, if there is one.
    fn find(&self, start: usize) -> Option<usize> {
        let wanted = self.range(start, self.bytes.len());
        let mut at = self
            .lists
            .get(list_of(wanted, LISTS))
            .copied()
            .unwrap_or(NONE);
        for _ in 0..self.spellings.len() {
            let spelling = self.spellings.get(at).copied()?;
            if self.range(spelling.start, spelling.end) == wanted {
                return Some(at);
            }
            at = spelling.next;
        }
        None
    }

    // Makes a name of the bytes from `start` on, and returns its number.
    fn take(&mut self, start: usize) -> Result<usize, AllocError> {
        let end = self.bytes.len();
        let list = list_of(self.range(start, end), LISTS);
        let next = self.lists.get(list).copied().unwrap_or(NONE);
        let number = self.spellings.len();
        self.spellings.push(Spelling {
            start,
            end,
            number: 2,
            next,
        })?;
        if let Some(first) = self.lists.get_mut(list) {
            *first = number;
        }
        Ok(number)
    }

    // Appends a name's letters and digits in lower case, with an `x` in front if they don't begin with a letter.
    fn write_base(&mut self, name: &[u8]) -> Result<(), AllocError> {
        let start = self.bytes.len();
        for byte in name {
            if byte.is_ascii_alphanumeric() {
                if self.bytes.len() == start && byte.is_ascii_digit() {
                    self.bytes.push(b'x')?;
                }
                self.bytes.push(byte.to_ascii_lowercase())?;
            }
        }
        if self.bytes.len() == start {
            self.bytes.push(b'x')?;
        }
        Ok(())
    }

    // Appends a number to a spelling that is taken, with an `n` between if the spelling ends in a digit.
    fn write_number(&mut self, number: usize) -> Result<(), AllocError> {
        let ends_in_digit = match self.bytes.as_slice().last() {
            Some(byte) => byte.is_ascii_digit(),
            None => false,
        };
        if ends_in_digit {
            self.bytes.push(b'n')?;
        }
        let mut buffer = Buffer::new();
        self.bytes
            .extend_from_slice(buffer.format(number).as_bytes())
    }

    // The next number to try as a suffix of the name with this number.
    fn number_behind(&self, number: usize) -> usize {
        match self.spellings.get(number) {
            Some(spelling) => spelling.number,
            None => 2,
        }
    }

    // Stores the next number to try as a suffix of the name with this number.
    fn keep_number(&mut self, number: usize, behind: usize) {
        if let Some(spelling) = self.spellings.get_mut(number) {
            spelling.number = behind;
        }
    }

    /// Makes a new name with a spelling near `name`, and returns its number.
    pub(crate) fn fresh(&mut self, name: &[u8]) -> Result<usize, AllocError> {
        let start = self.bytes.len();
        self.write_base(name)?;
        match self.find(start) {
            None => self.take(start),
            Some(taken) => self.numbered(start, taken),
        }
    }

    // Makes a new name of the bytes from `start` on, which are taken, and a number behind them.
    fn numbered(&mut self, start: usize, taken: usize) -> Result<usize, AllocError> {
        let end = self.bytes.len();
        let mut number = self.number_behind(taken);
        for _ in 0..self.spellings.len() {
            self.write_number(number)?;
            number = number.saturating_add(1);
            if self.find(start).is_none() {
                break;
            }
            self.bytes.truncate(end);
        }
        self.keep_number(taken, number);
        self.take(start)
    }
}
