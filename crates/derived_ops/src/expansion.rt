//! The expansion of a term, part by part, from the last word to the first.

ghost use Rattle.std.specs.Prelude.{◌≡◌, ◌+◌, ◌<◌, ◌^◌, [], ◌∷◌, map, IfOk, OnOk};
ghost use Rattle.effect_term.specs.ExpansionSize.{expansion_size_of, total_expansion_size};
ghost use Rattle.derived_ops.specs.Expansion.{attempted, both, bracket_case, expansion, race, released_then_raised};
ghost use Rattle.derived_ops.specs.Expansion.{runs_side};
ghost use Rattle.derived_ops.specs.Private.Closings.{closed_on_cancel, closed_on_error, closed_on_value, concluded_by};
ghost use Rattle.derived_ops.specs.Private.Closings.{guarded_by, handled_by, last_of_closing};
ghost use Rattle.derived_ops.specs.Private.Sequences.{rest_before, trees_behind, trees_in_order};
ghost use Rattle.derived_ops.specs.Private.Shapes.{end_tree, part_tree, tree_of_two};
ghost use Rattle.derived_ops.specs.Private.Shapes.{EndFits, EndsFit, Fits};
ghost use Rattle.derived_ops.specs.Private.Writing.{before, both_raced, distance, race_before, size, stored_rest};
ghost use Rattle.derived_ops.specs.Reading.{source_of};
ghost use Rattle.derived_ops.specs.Tree as tree;
ghost use Rattle.derived_ops.specs.Tree.{Named, Tree};
ghost use Rattle.effect_term.specs.declared.term.Term.{Term};
ghost use Rattle.derived_ops.specs.declared.core_word.CoreWord.TheVariants as word;

use crate::closing::Closing;
use crate::core_term::{Action, BracketMark, Maker, Operand};
use crate::core_word::{CoreWord, Rest};
use crate::shape::{
    End, Ends, Part, Shape, Two, bind, shape_of, word_of_bare, word_of_one, word_of_two,
};
use crate::writer::Writer;
use effect_term::{Term, Value};
use std::alloc::{AllocError, Global};

/// The words of an expansion so far, and the new slot of each binder of the program around the next part, outermost
/// first.
#[derive(Drop)]
pub(crate) struct Expansion {
    slots: Vec<u32>,
    words: Writer,
}

// What comes behind the first of two parts and these.
fn rest_before(more: &[Term]) -> Rest
    ensures { (f : Term → Tree) → result ≡ stored_rest (rest_before (map f more.now)) }
{
    if more.is_empty() {
        Rest::Last
    } else {
        Rest::More
    }
}

impl Expansion {
    pub(crate) fn new(alloc: Global) -> Expansion
        ensures slots { result.slots.items ≡ [] }
        ensures words { result.words ≡ [] }
    {
        Expansion {
            slots: Vec::new(alloc),
            words: Writer::new(alloc),
        }
    }

    /// The words in their order.
    pub(crate) fn into_words(self) -> Vec<CoreWord>
        ensures { result.items ≡ self.words }
    {
        let Expansion { slots: _, words } = self;
        words.into_words()
    }

    /// Writes the expansion of a term inside `depth` binders, or returns `AllocError` if memory is refused.
    #[cycle(expansion)]
    pub(crate) fn part(&mut self, term: &Term, depth: u32) -> Result<(), AllocError>
        requires { depth + expansion_size_of term.now < 2 ^ 32 }
        ensures words { OnOk result (self.new.words ≡
            before (expansion self.old.slots.items depth (source_of term.now)) self.old.words) }
        ensures slots { OnOk result (self.new.slots.items ≡ self.old.slots.items) }
    {
        match shape_of(&self.slots, term, depth) {
            Shape::Bare(bare) => self.words.put(word_of_bare(bare)),
            Shape::One(word, a) => {
                self.placed(a, depth)?;
                self.words.put(word_of_one(word))
            }
            Shape::Two(word, a, b) => self.two(word, a, b, depth),
            Shape::Seq(a, b, more) => self.sequence(a, b, more, depth),
            Shape::Join(fiber, a, b, c) => self.join(fiber, a, b, c, depth),
            Shape::Guarantee(body, ends) => {
                self.concluded(Closing::Finalizer(depth), body, ends, depth)
            }
            Shape::Bracket(acquired, body, ends) => self.bracket(acquired, body, ends, depth),
            Shape::Race(a, b) => self.race(a, b, depth),
            Shape::Both(a, b, k) => self.both(a, b, k, depth),
        }
    }

    // Writes a part of a word inside `depth` binders.
    #[cycle(expansion)]
    #[tactic(auto, using(crate::proofs::Slots::slots_before))]
    fn placed(&mut self, part: Part<'_>, depth: u32) -> Result<(), AllocError>
        requires { Fits depth part }
        ensures words { OnOk result (self.new.words ≡
            before (part_tree self.old.slots.items depth part.entry) self.old.words) }
        ensures slots { OnOk result (self.new.slots.items ≡ self.old.slots.items) }
    {
        let around = self.slots.len();
        let below = bind(&mut self.slots, part.place, depth)?;
        self.part(part.term, below)?;
        self.slots.truncate(around);
        Ok(())
    }

    // Writes a word of two parts.
    #[cycle(expansion)]
    #[tactic(auto, using(crate::proofs::Written::length_before))]
    fn two(
        &mut self,
        word: Two,
        first: Part<'_>,
        second: Part<'_>,
        depth: u32,
    ) -> Result<(), AllocError>
        requires first { Fits depth first }
        requires second { Fits depth second }
        ensures words { OnOk result (self.new.words ≡ before (tree_of_two depth word
            (part_tree self.old.slots.items depth first.entry) (part_tree self.old.slots.items depth second.entry))
            self.old.words) }
        ensures slots { OnOk result (self.new.slots.items ≡ self.old.slots.items) }
    {
        self.placed(second, depth)?;
        let last = self.words.len();
        self.placed(first, depth)?;
        let first = self.words.distance(last);
        self.words.put(word_of_two(word, first))
    }

    // Writes a `join`: the wait for a fiber, and a term for each outcome.
    #[cycle(expansion)]
    #[tactic(auto, using(crate::proofs::Written::length_before))]
    fn join(
        &mut self,
        fiber: u32,
        succeeded: Part<'_>,
        errored: Part<'_>,
        canceled: Part<'_>,
        depth: u32,
    ) -> Result<(), AllocError>
        requires succeeded { Fits depth succeeded }
        requires errored { Fits depth errored }
        requires canceled { Fits depth canceled }
        ensures words { OnOk result (self.new.words ≡ before (tree.Join (tree.Open_slot fiber)
            depth (part_tree self.old.slots.items depth succeeded.entry)
            depth (part_tree self.old.slots.items depth errored.entry)
            (part_tree self.old.slots.items depth canceled.entry)) self.old.words) }
        ensures slots { OnOk result (self.new.slots.items ≡ self.old.slots.items) }
    {
        self.placed(canceled, depth)?;
        let last = self.words.len();
        self.placed(errored, depth)?;
        let later = self.words.len();
        self.placed(succeeded, depth)?;
        let first = self.words.distance(later);
        let both = self.words.distance(last);
        self.words.put(CoreWord::Join(fiber, first, both))
    }

    // Writes a part of a sequence before the parts written so far, and the word with the distance to these.
    #[cycle(expansion)]
    #[tactic(auto, using(crate::proofs::Written::length_before))]
    fn in_front(&mut self, term: &Term, rest: Rest, depth: u32) -> Result<(), AllocError>
        requires { depth + expansion_size_of term.now < 2 ^ 32 }
        ensures words { OnOk result (self.new.words ≡
            word.Seq rest (distance (size (expansion self.old.slots.items depth (source_of term.now)))) ∷
            before (expansion self.old.slots.items depth (source_of term.now)) self.old.words) }
        ensures slots { OnOk result (self.new.slots.items ≡ self.old.slots.items) }
    {
        let last = self.words.len();
        self.part(term, depth)?;
        let first = self.words.distance(last);
        self.words.put(CoreWord::Seq(rest, first))
    }

    // Writes a sequence of two parts and more.
    #[cycle(expansion)]
    #[tactic(auto, using(crate::proofs::Sequences::in_order_is))]
    fn sequence(
        &mut self,
        first: &Term,
        second: &Term,
        more: &[Term],
        depth: u32,
    ) -> Result<(), AllocError>
        requires { depth + expansion_size_of first.now + expansion_size_of second.now +
            total_expansion_size more.now < 2 ^ 32 }
        ensures words { OnOk result (self.new.words ≡
            before (trees_in_order (expansion self.old.slots.items depth (source_of first.now))
            (expansion self.old.slots.items depth (source_of second.now))
            (map (λ t. expansion self.old.slots.items depth (source_of t)) more.now)) self.old.words) }
        ensures slots { OnOk result (self.new.slots.items ≡ self.old.slots.items) }
    {
        self.behind(second, more, depth)?;
        self.in_front(first, rest_before(more), depth)
    }

    // Writes what comes behind the first part of a sequence: a part, and these.
    #[cycle(expansion)]
    fn behind(&mut self, second: &Term, more: &[Term], depth: u32) -> Result<(), AllocError>
        requires { depth + expansion_size_of second.now + total_expansion_size more.now < 2 ^ 32 }
        ensures words { OnOk result (self.new.words ≡
            before (trees_behind (expansion self.old.slots.items depth (source_of second.now))
            (map (λ t. expansion self.old.slots.items depth (source_of t)) more.now)) self.old.words) }
        ensures slots { OnOk result (self.new.slots.items ≡ self.old.slots.items) }
    {
        if more.is_empty() {
            return self.part(second, depth);
        }
        self.part(&more[more.len() - 1], depth)?;
        let mut rest = Rest::Last;
        for i in (0..more.len() - 1).rev() {
            self.in_front(&more[i], rest, depth)?;
            rest = Rest::More;
        }
        self.in_front(second, rest, depth)
    }

    // Writes the part for an outcome.
    #[cycle(expansion)]
    fn end(&mut self, end: End<'_>, depth: u32) -> Result<(), AllocError>
        requires { EndFits depth end }
        ensures words { OnOk result (self.new.words ≡
            before (end_tree self.old.slots.items depth end.entry) self.old.words) }
        ensures slots { OnOk result (self.new.slots.items ≡ self.old.slots.items) }
    {
        match end {
            End::Part(part) => self.placed(part, depth),
            End::Done(deferred, side) => {
                let number = Operand::Number(Value::from_i32(i32::from(side)));
                self.words
                    .put(CoreWord::Act(Action::Complete(deferred, number)))
            }
        }
    }

    // Writes the part for an outcome, with its error dropped.
    #[cycle(expansion)]
    #[tactic(auto, using(crate::proofs::Written::length_before))]
    fn attempted(&mut self, end: End<'_>, depth: u32) -> Result<(), AllocError>
        requires { EndFits depth end }
        ensures words { OnOk result (self.new.words ≡
            before (attempted (end_tree self.old.slots.items depth end.entry) 0) self.old.words) }
        ensures slots { OnOk result (self.new.slots.items ≡ self.old.slots.items) }
    {
        self.words
            .put(CoreWord::Pure(Operand::Number(Value::ZERO)))?;
        let last = self.words.len();
        self.end(end, depth)?;
        let first = self.words.distance(last);
        self.words.put(CoreWord::Handle(first))
    }

    // Writes the release of the bracket of this mask. If it fails, the mask is noted as released, and its error, which
    // has this slot, is raised again.
    #[cycle(expansion)]
    #[tactic(auto, using(crate::proofs::Written::length_before))]
    fn released_then_raised(
        &mut self,
        poll: u32,
        end: End<'_>,
        slot: u32,
        depth: u32,
    ) -> Result<(), AllocError>
        requires { EndFits depth end }
        ensures words { OnOk result (self.new.words ≡ before (released_then_raised (Named poll)
            (end_tree self.old.slots.items depth end.entry) slot) self.old.words) }
        ensures slots { OnOk result (self.new.slots.items ≡ self.old.slots.items) }
    {
        self.words
            .noted(poll, CoreWord::Raise(Operand::Slot(slot)))?;
        let last = self.words.len();
        self.end(end, depth)?;
        let first = self.words.distance(last);
        self.words.put(CoreWord::Handle(first))
    }

    // Writes what is done if the body was canceled.
    #[cycle(expansion)]
    #[tactic(auto, using(crate::proofs::Written::length_before))]
    fn on_cancel(&mut self, closing: Closing, end: End<'_>, depth: u32) -> Result<(), AllocError>
        requires end { EndFits depth end }
        requires closing { last_of_closing closing < 2 ^ 32 }
        ensures words { OnOk result (self.new.words ≡ before (closed_on_cancel closing
            (end_tree self.old.slots.items depth end.entry)) self.old.words) }
        ensures slots { OnOk result (self.new.slots.items ≡ self.old.slots.items) }
    {
        match closing {
            Closing::Finalizer(_) => self.end(end, depth),
            Closing::Release(slot) => {
                self.words.put(CoreWord::Note(BracketMark::Released, slot))?;
                let last = self.words.len();
                self.released_then_raised(slot, end, slot + 3, depth)?;
                let first = self.words.distance(last);
                self.words.begun(slot, Rest::Last, first)
            }
        }
    }

    // Writes what is done if the body raised an error.
    #[cycle(expansion)]
    #[tactic(auto, using(crate::proofs::Written::length_before))]
    fn on_error(&mut self, closing: Closing, end: End<'_>, depth: u32) -> Result<(), AllocError>
        requires end { EndFits depth end }
        requires closing { last_of_closing closing < 2 ^ 32 }
        ensures words { OnOk result (self.new.words ≡ before (closed_on_error closing
            (end_tree self.old.slots.items depth end.entry)) self.old.words) }
        ensures slots { OnOk result (self.new.slots.items ≡ self.old.slots.items) }
    {
        match closing {
            Closing::Finalizer(slot) => {
                self.words.put(CoreWord::Raise(Operand::Slot(slot + 1)))?;
                let last = self.words.len();
                self.attempted(end, depth)?;
                let first = self.words.distance(last);
                self.words.put(CoreWord::Seq(Rest::Last, first))
            }
            Closing::Release(slot) => {
                self.words
                    .noted(slot, CoreWord::Raise(Operand::Slot(slot + 3)))?;
                let last = self.words.len();
                self.attempted(end, depth)?;
                let first = self.words.distance(last);
                self.words.begun(slot, Rest::More, first)
            }
        }
    }

    // Writes what is done if the body gave a value.
    #[cycle(expansion)]
    #[tactic(auto, using(crate::proofs::Written::length_before))]
    fn on_value(&mut self, closing: Closing, end: End<'_>, depth: u32) -> Result<(), AllocError>
        requires end { EndFits depth end }
        requires closing { last_of_closing closing < 2 ^ 32 }
        ensures words { OnOk result (self.new.words ≡ before (closed_on_value closing
            (end_tree self.old.slots.items depth end.entry)) self.old.words) }
        ensures slots { OnOk result (self.new.slots.items ≡ self.old.slots.items) }
    {
        match closing {
            Closing::Finalizer(slot) => {
                self.words.put(CoreWord::Pure(Operand::Slot(slot + 1)))?;
                let last = self.words.len();
                self.end(end, depth)?;
                let first = self.words.distance(last);
                self.words.put(CoreWord::Seq(Rest::Last, first))
            }
            Closing::Release(slot) => {
                self.words
                    .noted(slot, CoreWord::Pure(Operand::Slot(slot + 3)))?;
                let last = self.words.len();
                self.released_then_raised(slot, end, slot + 4, depth)?;
                let first = self.words.distance(last);
                self.words.begun(slot, Rest::More, first)
            }
        }
    }

    // Writes a body with its case of cancellation.
    #[cycle(expansion)]
    #[tactic(auto, using(crate::proofs::Written::length_before))]
    fn guarded(
        &mut self,
        closing: Closing,
        body: Part<'_>,
        on_cancel: End<'_>,
        depth: u32,
    ) -> Result<(), AllocError>
        requires body { Fits depth body }
        requires end { EndFits depth on_cancel }
        requires closing { last_of_closing closing < 2 ^ 32 }
        ensures words { OnOk result (self.new.words ≡ before (guarded_by closing
            (part_tree self.old.slots.items depth body.entry)
            (end_tree self.old.slots.items depth on_cancel.entry)) self.old.words) }
        ensures slots { OnOk result (self.new.slots.items ≡ self.old.slots.items) }
    {
        self.on_cancel(closing, on_cancel, depth)?;
        let last = self.words.len();
        self.placed(body, depth)?;
        self.words.opened(closing)?;
        let first = self.words.distance(last);
        self.words.put(CoreWord::OnCancel(first))
    }

    // Writes a body with its cases of cancellation and of an error.
    #[cycle(expansion)]
    #[tactic(auto, using(crate::proofs::Written::length_before))]
    fn handled(
        &mut self,
        closing: Closing,
        body: Part<'_>,
        ends: Ends<'_>,
        depth: u32,
    ) -> Result<(), AllocError>
        requires body { Fits depth body }
        requires ends { EndsFit depth ends }
        requires closing { last_of_closing closing < 2 ^ 32 }
        ensures words { OnOk result (self.new.words ≡ before (handled_by closing
            (part_tree self.old.slots.items depth body.entry)
            (end_tree self.old.slots.items depth ends.entry.on_cancel)
            (end_tree self.old.slots.items depth ends.entry.on_error)) self.old.words) }
        ensures slots { OnOk result (self.new.slots.items ≡ self.old.slots.items) }
    {
        self.on_error(closing, ends.on_error, depth)?;
        let last = self.words.len();
        self.guarded(closing, body, ends.on_cancel, depth)?;
        let first = self.words.distance(last);
        self.words.put(CoreWord::Handle(first))
    }

    // Writes a body in its mask, and then the case of its outcome.
    #[cycle(expansion)]
    #[tactic(auto, using(crate::proofs::Written::length_before))]
    fn concluded(
        &mut self,
        closing: Closing,
        body: Part<'_>,
        ends: Ends<'_>,
        depth: u32,
    ) -> Result<(), AllocError>
        requires body { Fits depth body }
        requires ends { EndsFit depth ends }
        requires closing { last_of_closing closing < 2 ^ 32 }
        ensures words { OnOk result (self.new.words ≡ before (concluded_by closing
            (part_tree self.old.slots.items depth body.entry)
            (end_tree self.old.slots.items depth ends.entry.on_cancel)
            (end_tree self.old.slots.items depth ends.entry.on_error)
            (end_tree self.old.slots.items depth ends.entry.on_value)) self.old.words) }
        ensures slots { OnOk result (self.new.slots.items ≡ self.old.slots.items) }
    {
        self.on_value(closing, ends.on_value, depth)?;
        let last = self.words.len();
        self.handled(closing, body, ends, depth)?;
        let first = self.words.distance(last);
        self.words.masked_let(first)
    }

    // Writes a bracket: a term that acquires, the body that uses the resource, and its release by the outcome.
    #[cycle(expansion)]
    #[tactic(auto, using(crate::proofs::Written::length_before))]
    fn bracket(
        &mut self,
        acquired: Part<'_>,
        body: Part<'_>,
        ends: Ends<'_>,
        depth: u32,
    ) -> Result<(), AllocError>
        requires acquired { Fits depth acquired }
        requires body { Fits depth body }
        requires ends { EndsFit depth ends }
        requires slots { depth + 4 < 2 ^ 32 }
        ensures words { OnOk result (self.new.words ≡ before (bracket_case depth
            (part_tree self.old.slots.items depth acquired.entry)
            (part_tree self.old.slots.items depth body.entry)
            (end_tree self.old.slots.items depth ends.entry.on_value)
            (end_tree self.old.slots.items depth ends.entry.on_error)
            (end_tree self.old.slots.items depth ends.entry.on_cancel)) self.old.words) }
        ensures slots { OnOk result (self.new.slots.items ≡ self.old.slots.items) }
    {
        self.concluded(Closing::Release(depth), body, ends, depth)?;
        self.words.acquired(depth)?;
        let last = self.words.len();
        self.placed(acquired, depth)?;
        let first = self.words.distance(last);
        self.words.masked_let(first)
    }

    // Writes the start of a side of a race in a fiber of its own, which after every outcome completes the deferred with
    // its number.
    #[cycle(expansion)]
    #[tactic(auto, using(crate::proofs::Written::length_before))]
    fn starts_side(
        &mut self,
        slot: u32,
        deferred: u32,
        side: u8,
        body: Part<'_>,
        depth: u32,
    ) -> Result<(), AllocError>
        requires body { Fits depth body }
        requires slots { slot + 2 < 2 ^ 32 }
        ensures words { OnOk result (self.new.words ≡
            word.Start (distance (size (runs_side slot deferred side
            (part_tree self.old.slots.items depth body.entry)))) ∷
            before (runs_side slot deferred side (part_tree self.old.slots.items depth body.entry)) self.old.words) }
        ensures slots { OnOk result (self.new.slots.items ≡ self.old.slots.items) }
    {
        let last = self.words.len();
        let done = End::Done(deferred, side);
        let ends = Ends {
            on_cancel: done,
            on_error: done,
            on_value: done,
        };
        self.concluded(Closing::Finalizer(slot), body, ends, depth)?;
        let first = self.words.distance(last);
        self.words.put(CoreWord::Start(first))
    }

    // Writes a race of the poll before what follows it: the slots after the poll's are those of the deferred, the two
    // fibers, and, in what follows, the winner.
    #[cycle(expansion)]
    fn pair_race(
        &mut self,
        poll: u32,
        first: Part<'_>,
        second: Part<'_>,
        depth: u32,
    ) -> Result<(), AllocError>
        requires first { Fits depth first }
        requires second { Fits depth second }
        requires slots { poll + 6 < 2 ^ 32 }
        ensures words { OnOk result (self.new.words ≡ race_before poll
            (part_tree self.old.slots.items depth first.entry)
            (part_tree self.old.slots.items depth second.entry) self.old.words) }
        ensures slots { OnOk result (self.new.slots.items ≡ self.old.slots.items) }
    {
        self.words.decided(poll)?;
        self.starts_side(poll + 3, poll + 1, 1, second, depth)?;
        self.starts_side(poll + 2, poll + 1, 0, first, depth)?;
        self.words.put(CoreWord::Make(Maker::Deferred))
    }

    // Writes a race: the outcome of the side that ends first, or of the other side if that was canceled.
    #[cycle(expansion)]
    fn race(&mut self, first: Part<'_>, second: Part<'_>, depth: u32) -> Result<(), AllocError>
        requires first { Fits depth first }
        requires second { Fits depth second }
        requires slots { depth + 6 < 2 ^ 32 }
        ensures words { OnOk result (self.new.words ≡ before (race depth
            (part_tree self.old.slots.items depth first.entry)
            (part_tree self.old.slots.items depth second.entry)) self.old.words) }
        ensures slots { OnOk result (self.new.slots.items ≡ self.old.slots.items) }
    {
        self.words.race_outcome(depth)?;
        self.pair_race(depth, first, second, depth)?;
        self.words.put(CoreWord::Uncancelable)
    }

    // Writes the race of `both`. The ref, whose slot is the first, then holds the second value.
    #[cycle(expansion)]
    fn both_raced(
        &mut self,
        first: Part<'_>,
        second: Part<'_>,
        depth: u32,
    ) -> Result<(), AllocError>
        requires first { Fits depth first }
        requires second { Fits depth second }
        requires slots { depth + 7 < 2 ^ 32 }
        ensures words { OnOk result (self.new.words ≡ before (both_raced depth
            (part_tree self.old.slots.items depth first.entry)
            (part_tree self.old.slots.items depth second.entry)) self.old.words) }
        ensures slots { OnOk result (self.new.slots.items ≡ self.old.slots.items) }
    {
        self.words.both_outcome(depth + 1, depth)?;
        self.pair_race(depth + 1, first, second, depth)?;
        self.words.put(CoreWord::Uncancelable)
    }

    // Writes the values of both sides, bound in what follows. The ref, whose slot is the first, holds the second value.
    #[cycle(expansion)]
    #[tactic(auto, using(crate::proofs::Written::length_before))]
    fn both(
        &mut self,
        first: Part<'_>,
        second: Part<'_>,
        next: Part<'_>,
        depth: u32,
    ) -> Result<(), AllocError>
        requires first { Fits depth first }
        requires second { Fits depth second }
        requires next { Fits depth next }
        requires slots { depth + 7 < 2 ^ 32 }
        ensures words { OnOk result (self.new.words ≡ before (both depth
            (part_tree self.old.slots.items depth first.entry)
            (part_tree self.old.slots.items depth second.entry)
            (part_tree self.old.slots.items depth next.entry)) self.old.words) }
        ensures slots { OnOk result (self.new.slots.items ≡ self.old.slots.items) }
    {
        self.placed(next, depth)?;
        self.words.get_bound(depth)?;
        let last = self.words.len();
        self.both_raced(first, second, depth)?;
        let raced = self.words.distance(last);
        self.words.made_let(raced)
    }
}
