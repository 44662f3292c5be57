//! The expansions of the words that release, `guarantee` and the brackets, apart from their parts.
//!
//! The words of a term are written from the last to the first. None of these functions is inlined, so what they hold
//! takes no room on the stack below the parts.

ghost use Rattle.std.specs.Prelude.{◌≡◌, ◌+◌, ◌<◌, ◌^◌, ◌∷◌, List, OnOk};
ghost use Rattle.derived_ops.specs.Private.Closings.{last_of_closing, opened_by};
ghost use Rattle.derived_ops.specs.Private.Writing.{before};
ghost use Rattle.derived_ops.specs.Tree.{Tree};
ghost use Rattle.derived_ops.specs.declared.core_term.BracketMark.TheVariants as mark;
ghost use Rattle.derived_ops.specs.declared.core_word.CoreWord.{CoreWord};
ghost use Rattle.derived_ops.specs.declared.core_word.CoreWord.TheVariants as word;
ghost use Rattle.derived_ops.specs.declared.core_word.Rest.TheVariants as rest;

use crate::core_term::BracketMark;
use crate::core_word::{CoreWord, Rest};
use crate::writer::Writer;
use std::alloc::AllocError;

/// What a word does after each outcome of its body, with the slot of the word's outer mask.
#[derive(Clone, Copy)]
pub(crate) enum Closing {
    /// The finalizer of a `guarantee`.
    Finalizer(u32),
    /// The release of a bracket.
    Release(u32),
}

impl Writer {
    /// Undoes the masks around a body for the words written so far.
    #[inline(never)]
    pub(crate) fn opened(&mut self, closing: Closing) -> Result<(), AllocError>
        requires { last_of_closing closing < 2 ^ 32 }
        ensures { OnOk result ((e : Tree) (ws : List CoreWord) → self.old ≡ before e ws →
            self.new ≡ before (opened_by closing e) ws) }
    {
        match closing {
            Closing::Finalizer(slot) => self.put(CoreWord::Poll(slot)),
            Closing::Release(slot) => {
                self.put_all(&[CoreWord::Poll(slot), CoreWord::Poll(slot + 2)])
            }
        }
    }

    /// Notes that the bracket of this mask is released, and goes on with the word.
    #[inline(never)]
    pub(crate) fn noted(&mut self, poll: u32, next: CoreWord) -> Result<(), AllocError>
        ensures { OnOk result (self.new ≡ word.Seq rest.Last 1 ∷ word.Note mark.Released poll ∷ next ∷ self.old) }
    {
        self.put_all(&[
            next,
            CoreWord::Note(BracketMark::Released, poll),
            CoreWord::Seq(Rest::Last, 1),
        ])
    }

    /// Notes that the release of the bracket of this mask begins, and goes on with the release, which has `release`
    /// words, and with what follows it.
    #[inline(never)]
    pub(crate) fn begun(&mut self, poll: u32, left: Rest, release: u32) -> Result<(), AllocError>
        ensures { OnOk result (self.new ≡ word.Seq rest.More 1 ∷ word.Note mark.Releasing poll ∷
            word.Seq left release ∷ self.old) }
    {
        self.put_all(&[
            CoreWord::Seq(left, release),
            CoreWord::Note(BracketMark::Releasing, poll),
            CoreWord::Seq(Rest::More, 1),
        ])
    }

    /// Notes that the bracket of this mask has acquired its resource, and goes on with the words written so far.
    #[inline(never)]
    pub(crate) fn acquired(&mut self, poll: u32) -> Result<(), AllocError>
        ensures { OnOk result (self.new ≡ word.Seq rest.Last 1 ∷ word.Note mark.Acquired poll ∷ self.old) }
    {
        self.put_all(&[
            CoreWord::Note(BracketMark::Acquired, poll),
            CoreWord::Seq(Rest::Last, 1),
        ])
    }

    /// Masks the words written so far: a first term of `first` words, and a second one that binds its value.
    #[inline(never)]
    pub(crate) fn masked_let(&mut self, first: u32) -> Result<(), AllocError>
        ensures { OnOk result (self.new ≡ word.Uncancelable ∷ word.Let first ∷ self.old) }
    {
        self.put_all(&[CoreWord::Let(first), CoreWord::Uncancelable])
    }
}
