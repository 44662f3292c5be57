//! The moves from one state of a fiber to another, kept by the numbers of states.
ghost use Rattle.std.specs.Prelude.{◌≡◌, ◌++◌, ◌<◌, [], ◌∷◌, length, IfSome, OnErr, OnOk};
ghost use Rattle.effect_term.specs.Values.{IsValue};
ghost use Rattle.effect_term.specs.declared.reply.JoinReply.TheVariants as TheJoin;
ghost use Rattle.effect_term.specs.declared.reply.Reply.TheVariants as TheReply;
ghost use Rattle.every_schedule.specs.Private.Turning.{IsAmong, IsSaid, reply_of};

use crate::table::Table;
use effect_term::{CancelReply, JoinReply, Outcome, Reply, Value};
use std::alloc::{AllocError, Global};

/// A reply in one enum, with a plain number in place of a value.
#[derive(Clone, Copy, PartialEq, Eq)]
pub(crate) enum Said {
    /// The call was made.
    Done,
    /// A look: whether the cancellation of the fiber was requested.
    Seen(bool),
    /// A request: the first one.
    Asked,
    /// A request: there was one before.
    Already,
    /// A request: the fiber had ended.
    Over,
    /// A join: the fiber hasn't ended.
    Waits,
    /// A join: the fiber succeeded.
    Succeeded(i64),
    /// A join: the fiber raised an error.
    Errored(i64),
    /// A join: the fiber was canceled.
    Canceled,
    /// The number of the new fiber, ref or deferred.
    Number(u16),
    /// The value of a ref.
    Value(i64),
    /// Whether this call completed the deferred.
    Completed(bool),
    /// The deferred isn't completed.
    Empty,
    /// The value of a deferred that is completed.
    Full(i64),
}

/// The number of a fiber's state after a move, and the number of the child that the move starts, if it starts one.
#[derive(Clone, Copy)]
pub(crate) struct Turn {
    pub(crate) state: u32,
    pub(crate) child: Option<u32>,
}

/// The move of the state of this number, under this reply, and where it leads.
#[derive(Clone, Copy)]
pub(crate) struct Turned {
    pub(crate) state: u32,
    pub(crate) said: Said,
    pub(crate) turn: Turn,
}

/// The moves that were made, filed by their keys. Whatever the table returns, a lookup finds only the right move.
#[derive(Drop)]
pub(crate) struct Turns {
    alloc: Global,
    pub(crate) kept: Vec<Turned>,
    table: Table,
}

impl Turns {
    /// Returns an empty list of moves.
    pub(crate) fn new(alloc: Global) -> Turns
        ensures { result.kept.items ≡ [] }
    {
        Turns {
            alloc,
            kept: Vec::new(alloc),
            table: Table::new(alloc),
        }
    }

    /// Where the move of this state under this reply leads, if it was made before.
    pub(crate) fn find(&self, state: u32, said: Said) -> Option<Turn>
        ensures { IfSome result (λ turn. IsAmong self.now.kept.items
            record { state = state; said = said; turn = turn }) }
    {
        let key = key(state, said);
        for behind in 0..self.kept.len() {
            let number = self.table.get(key, behind)?;
            let found = self.kept.get(number as usize)?;
            if found.state == state && found.said == said {
                return Some(found.turn);
            }
        }
        None
    }

    /// Keeps a move. `AllocError` past 2^32 - 1 moves.
    pub(crate) fn add(&mut self, state: u32, said: Said, turn: Turn) -> Result<(), AllocError>
        ensures added { OnOk result (self.new.kept.items ≡
            self.old.kept.items ++ record { state = state; said = said; turn = turn } ∷ []) }
        ensures same { OnErr result (self.new.kept.items ≡ self.old.kept.items) }
    {
        let place = self.kept.len();
        if place >= u32::MAX as usize {
            return Err(AllocError);
        }
        if self.table.is_full() {
            self.table = refiled(self.alloc, self.kept.as_slice(), &self.table)?;
        }
        self.kept.push(Turned { state, said, turn })?;
        self.table.file(key(state, said), place as u32);
        Ok(())
    }
}

// Returns a table of twice the size, with these moves filed.
fn refiled(alloc: Global, kept: &[Turned], table: &Table) -> Result<Table, AllocError>
    requires { length kept.now < 4294967295 }
{
    let mut larger = table.larger(alloc)?;
    for (number, it) in kept.iter().enumerate() {
        larger.file(key(it.state, it.said), number as u32);
    }
    Ok(larger)
}

// The hash under which a move is filed.
fn key(state: u32, said: Said) -> u64 {
    let (kind, value) = said_key(said);
    mixed(mixed(mixed(0x9E37_79B9, u64::from(state)), kind), value)
}

// The hash `key`, extended by a word.
fn mixed(key: u64, word: u64) -> u64 {
    let product = (key ^ word).wrapping_mul(0x9E37_79B9_7F4A_7C15);
    product ^ (product >> 32)
}

// Two numbers that differ between any two replies.
fn said_key(said: Said) -> (u64, u64) {
    match said {
        Said::Done => (1, 0),
        Said::Seen(seen) => (2, u64::from(seen)),
        Said::Asked => (3, 0),
        Said::Already => (4, 0),
        Said::Over => (5, 0),
        Said::Waits => (6, 0),
        Said::Succeeded(value) => (7, value.cast_unsigned()),
        Said::Errored(code) => (8, code.cast_unsigned()),
        Said::Canceled => (9, 0),
        Said::Number(number) => (10, u64::from(number)),
        Said::Value(value) => (11, value.cast_unsigned()),
        Said::Completed(completed) => (12, u64::from(completed)),
        Said::Empty => (13, 0),
        Said::Full(value) => (14, value.cast_unsigned()),
    }
}

/// Returns the reply as a `Said`.
pub(crate) fn told(reply: Reply) -> Said
    ensures reply { reply_of result ≡ reply }
    ensures value { IsSaid result }
{
    match reply {
        Reply::Done => Said::Done,
        Reply::Seen(seen) => Said::Seen(seen),
        Reply::Cancel(cancel) => said_cancel(cancel),
        Reply::Join(join) => said_join(join),
        Reply::Number(number) => Said::Number(number),
        Reply::Value(value) => said_value(value),
        Reply::Completed(completed) => Said::Completed(completed),
        Reply::Read(read) => said_read(read),
    }
}

// The reply to a request.
fn said_cancel(cancel: CancelReply) -> Said
    ensures reply { reply_of result ≡ TheReply.Cancel cancel }
    ensures value { IsSaid result }
{
    match cancel {
        CancelReply::Asked => Said::Asked,
        CancelReply::Already => Said::Already,
        CancelReply::Ended => Said::Over,
    }
}

// The value of a ref.
fn said_value(value: Value) -> Said
    ensures reply { reply_of result ≡ TheReply.Value value }
    ensures value { IsSaid result }
{
    Said::Value(value.get())
}

// The reply to a join.
fn said_join(join: JoinReply) -> Said
    ensures reply { reply_of result ≡ TheReply.Join join }
    ensures value { IsSaid result }
{
    match join {
        JoinReply::Waits => Said::Waits,
        JoinReply::Ended(outcome) => said_of(outcome),
    }
}

// The reply to a join of a fiber that ended with this outcome.
fn said_of(outcome: Outcome) -> Said
    ensures reply { reply_of result ≡ TheReply.Join (TheJoin.Ended outcome) }
    ensures value { IsSaid result }
{
    match outcome {
        Outcome::Succeeded(value) => Said::Succeeded(value.get()),
        Outcome::Errored(code) => Said::Errored(code.get()),
        Outcome::Canceled => Said::Canceled,
    }
}

// The reply to a wait for a deferred.
fn said_read(read: Option<Value>) -> Said
    ensures reply { reply_of result ≡ TheReply.Read read }
    ensures value { IsSaid result }
{
    match read {
        None => Said::Empty,
        Some(value) => Said::Full(value.get()),
    }
}

/// Returns the reply of this `Said`.
pub(crate) fn reply_said(said: Said) -> Reply
    requires { IsSaid said }
    ensures { result ≡ reply_of said }
{
    match said {
        Said::Done => Reply::Done,
        Said::Seen(seen) => Reply::Seen(seen),
        Said::Asked => Reply::Cancel(CancelReply::Asked),
        Said::Already => Reply::Cancel(CancelReply::Already),
        Said::Over => Reply::Cancel(CancelReply::Ended),
        Said::Waits => Reply::Join(JoinReply::Waits),
        Said::Succeeded(number) => Reply::Join(JoinReply::Ended(Outcome::Succeeded(value_of(
            number,
        )))),
        Said::Errored(number) => Reply::Join(JoinReply::Ended(Outcome::Errored(value_of(number)))),
        Said::Canceled => Reply::Join(JoinReply::Ended(Outcome::Canceled)),
        Said::Number(number) => Reply::Number(number),
        Said::Value(number) => Reply::Value(value_of(number)),
        Said::Completed(completed) => Reply::Completed(completed),
        Said::Empty => Reply::Read(None),
        Said::Full(number) => Reply::Read(Some(value_of(number))),
    }
}

// The value of this number.
fn value_of(number: i64) -> Value
    requires { IsValue number }
    ensures { result ≡ number }
{
    match Value::of(number) {
        Some(value) => value,
        None => Value::ZERO,
    }
}
