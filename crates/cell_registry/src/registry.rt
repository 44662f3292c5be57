//! The registry: the cells that fibers share, each in words that change in single atomic steps.
ghost use Rattle.std.specs.Prelude.{◌≡◌, ◌<◌, IfErr, IfOk, true};
ghost use Rattle.effect_term.specs.declared.reply.Reply.TheVariants as reply;
ghost use Rattle.cell_registry.specs.declared.limits.Band.TheVariants.{Deferreds, Fibers, Refs};
ghost use Rattle.cell_registry.specs.declared.limits.CellError.TheVariants.{Full};
ghost use Rattle.cell_registry.specs.declared.call.Call.TheVariants as call;
ghost use Rattle.cell_registry.specs.Cells.{AreLimits, IsOpen};
ghost use Rattle.cell_registry.specs.Cancellation.{WasCancelled};
ghost use Rattle.cell_registry.specs.Passes.{Calls, Counts, Gives, IsLeftWord, IsOf, IsPass, Meets, OnlySees};
ghost use Rattle.cell_registry.specs.Plain.{IsLeftPlain, IsPlain};
ghost use Rattle.cell_registry.specs.Passes.{SeesAllGiven, Starts, first_pass};

use crate::claims::claim;
use crate::knowledge::Knowledge;
use crate::limits::{Band, CellError, Limits};
use crate::pass::Pass;
use crate::phase::Phase;
use crate::plain::PlainRegistry;
use crate::rule::{self, Rule};
use crate::shown::copied;
use crate::words::{
    CANCEL, CLAIM_WORDS, WAITED, cancel_answer, cell_place, claim_place, has_ended, look_answer,
    outcome_answer, value_place,
};
use atomic_table::Table;
use effect_term::{CancelReply, JoinReply, Value};
use std::alloc::{AllocError, Global};
use std::marker::Model;

/// The cells of all fibers, refs and deferreds, which fibers on any threads share.
///
/// Each call takes effect in one atomic step on one word. A call that takes a number loads the word first, and tries
/// again if another fiber took that number in between. The value or code that a fiber ends with has a word of its own:
/// an end stores it before its step, and a join that finds an end loads it after its step. Every step is `SeqCst`, the
/// only ordering that `atomic_table` has. So all steps on all words are in one order, and the history lists in that
/// order the steps that made a call. This is a history that one thread could have made, and each pass has seen a
/// beginning of it. No call locks or waits, and only `new` allocates memory.
///
/// The cells of all numbers below the limits exist from the start: a fiber's is running, unmasked and without a
/// request, a ref holds 0 and a deferred is empty. So a call can name a number that no call has given yet.
#[derive(Drop)]
pub struct Registry {
    pub(crate) table: Table<u8, Knowledge, Limits, Rule, Global>,
    pub(crate) limits: Limits,
}

impl Model for Registry {
    ghost use Rattle.cell_registry.specs.Passes.{IsRegistry, RegistryView};

    ghost Value = { RegistryView };

    ghost view = { λ r. record { table = r.table.shared.table_id; limits = r.limits } };

    ghost invariant = { λ r. IsRegistry r.table.shared.key
        record { table = r.table.shared.table_id; limits = r.limits } };
}

impl Registry {
    /// A registry for these numbers of fibers, refs and deferreds, each from 1 to 1000, in which each fiber can change
    /// its own cell `limit` times, from 1 to 1,099,511,627,775. The pass is that of fiber 0, which is running. Returns
    /// `AllocError` if there is no memory for the words.
    pub fn new(
        alloc: Global,
        fibers: u16,
        refs: u16,
        deferreds: u16,
        limit: u64,
    ) -> Result<(Registry, Pass), AllocError>
        requires limits { AreLimits record { fibers = fibers; refs = refs; deferreds = deferreds; count = limit } }
        ensures limits { IfOk result (λ r. r.0.limits ≡ record {
          fibers = fibers;
          refs = refs;
          deferreds = deferreds;
          count = limit;
        }) }
        ensures pass { IfOk result (λ r. r.1 ≡ first_pass r.0) }
        ensures lawful { IfOk result (λ r. IsPass r.1) }
    {
        let limits = Limits {
            fibers,
            refs,
            deferreds,
            count: limit,
        };
        let values = usize::from(fibers);
        let cells = usize::from(fibers) + usize::from(refs) + usize::from(deferreds);
        let mut words = Vec::from_elem(alloc, 0u64, cells + values + CLAIM_WORDS)?;
        words[claim_place(Band::Fibers)] = 1;
        let (table, seat) = Table::of_words(alloc, words.as_slice(), &limits)?;
        let pass = Pass {
            seat,
            count: 0,
            value: Value::ZERO,
            phase: Phase::Running,
            number: 0,
            depth: 0,
            saw: false,
        };
        Ok((Registry { table, limits }, pass))
    }

    /// Starts a fiber, which is running and unmasked, as in Cats Effect 3's `GenSpawn::start`. Its pass has seen what
    /// the caller's has. The caller's fiber hasn't ended. Returns `Full(Band::Fibers, n)` if all n fibers of the
    /// registry were started.
    pub fn start(&self, pass: &mut Pass) -> Result<Pass, CellError>
        requires own { IsOf self.now pass.old }
        requires open { IsOpen pass.old.stage }
        ensures same { OnlySees pass.old pass.new }
        ensures lawful { IsPass pass.new }
        ensures started { IfOk result (λ child. Starts pass.old child pass.new) }
        ensures child { IfOk result (λ child. IsPass child) }
        ensures limit { IfErr result (λ e. e ≡ Full Fibers self.now.limits.fibers) }
        ensures given { IfErr result (λ _. SeesAllGiven Fibers pass.old pass.new) }
    {
        let limit = self.limits.fibers;
        let Some(number) = claim(&self.table.shared, &mut pass.seat, Band::Fibers, limit) else {
            return Err(CellError::Full(Band::Fibers, limit));
        };
        let seat = self.table.shared.split_seat::<rule::Child>(&mut pass.seat);
        Ok(Pass {
            seat,
            count: 0,
            value: Value::ZERO,
            phase: Phase::Running,
            number,
            depth: 0,
            saw: false,
        })
    }

    /// Makes a ref, which holds 0, as in Cats Effect 3's `Ref`, and returns its number. Returns `Full(Band::Refs, n)`
    /// if all n refs of the registry were made.
    pub fn new_ref(&self, pass: &mut Pass) -> Result<u16, CellError>
        requires own { IsOf self.now pass.old }
        ensures same { OnlySees pass.old pass.new }
        ensures lawful { IsPass pass.new }
        ensures made { IfOk result (λ r. Gives Refs pass.old r pass.new) }
        ensures limit { IfErr result (λ e. e ≡ Full Refs self.now.limits.refs) }
        ensures given { IfErr result (λ _. SeesAllGiven Refs pass.old pass.new) }
    {
        let limit = self.limits.refs;
        claim(&self.table.shared, &mut pass.seat, Band::Refs, limit).ok_or(CellError::Full(
            Band::Refs,
            limit,
        ))
    }

    /// Makes an empty deferred, as in Cats Effect 3's `Deferred`, and returns its number. Returns
    /// `Full(Band::Deferreds, n)` if all n deferreds of the registry were made.
    pub fn new_deferred(&self, pass: &mut Pass) -> Result<u16, CellError>
        requires own { IsOf self.now pass.old }
        ensures same { OnlySees pass.old pass.new }
        ensures lawful { IsPass pass.new }
        ensures made { IfOk result (λ d. Gives Deferreds pass.old d pass.new) }
        ensures limit { IfErr result (λ e. e ≡ Full Deferreds self.now.limits.deferreds) }
        ensures given { IfErr result (λ _. SeesAllGiven Deferreds pass.old pass.new) }
    {
        let limit = self.limits.deferreds;
        claim(&self.table.shared, &mut pass.seat, Band::Deferreds, limit).ok_or(CellError::Full(
            Band::Deferreds,
            limit,
        ))
    }

    /// Requests the cancellation of a fiber, as in Cats Effect 3's `GenSpawn` (`Fiber::cancel`), and doesn't wait for
    /// its end. The number is below the limit of fibers; the cell of each such number exists from the start. The
    /// request is set in every phase of the fiber. Returns `Ended` if the fiber has ended, else whether this request is
    /// the first.
    pub fn cancel(&self, pass: &mut Pass, fiber: u16) -> CancelReply
        requires own { IsOf self.now pass.old }
        requires within { fiber < self.now.limits.fibers }
        ensures same { OnlySees pass.old pass.new }
        ensures lawful { IsPass pass.new }
        ensures call { Calls pass.old (call.Cancel fiber) (reply.Cancel result) pass.new }
    {
        let found = self
            .table
            .shared
            .fetch_or::<rule::Cancels>(&mut pass.seat, cell_place(fiber), CANCEL);
        cancel_answer(found)
    }

    /// Returns how a fiber ended, as in Cats Effect 3's `GenSpawn` (`Fiber::join`), or `Waits` if it hasn't. The number
    /// is below the limit of fibers; the cell of each such number exists from the start. In every phase of the fiber,
    /// its cell notes that it was joined.
    pub fn join(&self, pass: &mut Pass, fiber: u16) -> JoinReply
        requires own { IsOf self.now pass.old }
        requires within { fiber < self.now.limits.fibers }
        ensures same { OnlySees pass.old pass.new }
        ensures lawful { IsPass pass.new }
        ensures call { Calls pass.old (call.Join fiber) (reply.Join result) pass.new }
    {
        let place = value_place(self.limits, fiber);
        let found = self
            .table
            .shared
            .fetch_or::<rule::Joins>(&mut pass.seat, cell_place(fiber), WAITED);
        if !has_ended(found) {
            return JoinReply::Waits;
        }
        let value = self.table.shared.load::<rule::Finds>(&mut pass.seat, place);
        JoinReply::Ended(outcome_answer(found, value))
    }

    /// Returns whether the caller's own cancellation is requested. The fiber hasn't ended, and is unmasked.
    pub fn look(&self, pass: &mut Pass) -> bool
        requires own { IsOf self.now pass.old }
        requires open { IsOpen pass.old.stage }
        requires unmasked { pass.old.depth ≡ 0 }
        ensures same { pass.new ≡ record pass.old { saw = result; seen = pass.new.seen } }
        ensures lawful { IsPass pass.new }
        ensures call { Calls pass.old call.Look (reply.Seen result) pass.new }
        ensures asked { result ≡ true → WasCancelled pass.new.seen pass.old.number }
    {
        let found = self
            .table
            .shared
            .load::<rule::Looks>(&mut pass.seat, cell_place(pass.number));
        let requested = look_answer(found);
        pass.saw = requested;
        requested
    }

    /// Returns the pass of `a`'s fiber, which has now also seen what `b` has seen; `b`'s fiber makes no more calls.
    /// Joining the two seats reads no word, so a load follows, by which the pass sees the whole history up to that
    /// moment.
    pub fn meet(&self, a: Pass, b: Pass) -> Pass
        requires first { IsOf self.now a }
        requires second { IsOf self.now b }
        ensures met { Meets a b result }
        ensures lawful { IsPass result }
    {
        let mut met = a;
        let Pass {
            seat,
            count: _,
            value: _,
            phase: _,
            number: _,
            depth: _,
            saw: _,
        } = b;
        let shared = &self.table.shared;
        shared.join_seat::<rule::Host>(&mut met.seat, seat);
        shared.load::<rule::Meets>(&mut met.seat, claim_place(Band::Fibers));
        met
    }

    /// Returns the number of fibers that were started, fiber 0 included: from 1 to the limit of fibers. Below that
    /// limit, the result is the number that the next start gives. This is a load of the fibers' claim word, by which
    /// the pass sees the whole history up to that moment. The load isn't a call of the fiber.
    pub fn born(&self, pass: &mut Pass) -> u16
        requires own { IsOf self.now pass.old }
        ensures same { OnlySees pass.old pass.new }
        ensures lawful { IsPass pass.new }
        ensures counted { Counts pass.old result pass.new }
    {
        let found = self
            .table
            .shared
            .load::<rule::Nexts>(&mut pass.seat, claim_place(Band::Fibers));
        found as u16
    }

    /// Returns the word of a fiber once no thread shares the registry any longer. Some legal history leaves this word,
    /// begins with all that the pass had seen and has no further call by the pass's fibers. The number is below the
    /// limit of fibers.
    pub fn last_word(self, pass: Pass, fiber: u16) -> u64
        requires own { IsOf self pass }
        requires within { fiber < self.limits.fibers }
        ensures left { IsLeftWord self.limits pass.fibers pass.seen fiber result }
    {
        let Registry { table, limits: _ } = self;
        let Pass {
            seat,
            count: _,
            value: _,
            phase: _,
            number: _,
            depth: _,
            saw: _,
        } = pass;
        let closed = table.close_with(seat);
        let word = closed.word(cell_place(fiber));
        closed.free();
        word
    }

    /// Turns this registry into one for one thread, once no thread shares it any longer. Some legal history leaves it,
    /// begins with all that the pass had seen and has no further call by the pass's fibers. Returns `AllocError` if
    /// there is no memory for it; this registry is dropped.
    pub fn into_plain(self, alloc: Global, pass: Pass) -> Result<PlainRegistry, AllocError>
        requires own { IsOf self pass }
        ensures left { IfOk result (λ r. IsLeftPlain self.limits pass.fibers pass.seen r) }
        ensures lawful { IfOk result (λ r. IsPlain r) }
    {
        let Registry { table, limits } = self;
        let Pass {
            seat,
            count: _,
            value: _,
            phase: _,
            number: _,
            depth: _,
            saw: _,
        } = pass;
        let values = usize::from(limits.fibers);
        let cells = usize::from(limits.fibers)
            + usize::from(limits.refs)
            + usize::from(limits.deferreds);
        let closed = table.close_with(seat);
        let words = copied(alloc, &closed, cells + values + CLAIM_WORDS);
        closed.free();
        let words = words?;
        PlainRegistry::shown(alloc, words.as_slice(), limits)
    }
}
