//! The words of a code, as they are written.

ghost use Rattle.std.specs.Prelude.{◌≡◌, ◌≤◌, ◌-◌, ◌++◌, [], ◌∷◌, length, reverse, OnOk};
ghost use Rattle.derived_ops.specs.Private.Writing.{distance};

use crate::core_word::CoreWord;
use std::alloc::{AllocError, Global};
use std::marker::Model;

/// The words of a code. They are written from the last to the first, so the number of words in each part is known when
/// its word is written.
///
/// Contracts see it as the list of these words, the first word first.
#[derive(Drop)]
pub(crate) struct Writer {
    reversed: Vec<CoreWord>,
}

impl Model for Writer {
    ghost use Rattle.derived_ops.specs.declared.core_word.CoreWord.{CoreWord};
    ghost use Rattle.std.specs.Prelude.{List, reverse};

    ghost Value = { List CoreWord };

    ghost view = { λ w. reverse w.reversed.items };
}

impl Writer {
    /// No words.
    pub(crate) fn new(alloc: Global) -> Writer
        ensures { result ≡ [] }
    {
        Writer {
            reversed: Vec::new(alloc),
        }
    }

    /// Writes a word before the others.
    #[tactic(auto, using(crate::proofs::Written::reverse_more))]
    #[inline(always)]
    pub(crate) fn put(&mut self, word: CoreWord) -> Result<(), AllocError>
        ensures { OnOk result (self.new ≡ word ∷ self.old) }
    {
        self.reversed.extend_from_slice(&[word])
    }

    /// Writes these words before the others, one after another, so the last of them comes first.
    #[tactic(auto, using(crate::proofs::Written::reverse_more))]
    pub(crate) fn put_all(&mut self, words: &[CoreWord]) -> Result<(), AllocError>
        ensures { OnOk result (self.new ≡ reverse words.now ++ self.old) }
    {
        self.reversed.extend_from_slice(words)
    }

    /// The number of words.
    #[tactic(auto, using(crate::proofs::Written::length_reversed))]
    #[inline(always)]
    pub(crate) fn len(&self) -> usize
        ensures { result ≡ length self.now }
    {
        self.reversed.len()
    }

    /// The distance from the first word to the last `last` words. A distance has 32 bits; a longer one loses its higher
    /// bits.
    #[inline(always)]
    pub(crate) fn distance(&self, last: usize) -> u32
        requires { last ≤ length self.now }
        ensures { result ≡ distance (length self.now - last) }
    {
        ((self.len() - last) % 4_294_967_296) as u32
    }

    /// The words in their order.
    pub(crate) fn into_words(self) -> Vec<CoreWord>
        ensures { result.items ≡ self }
    {
        let Writer { mut reversed } = self;
        reversed.reverse();
        reversed
    }
}
