//! The bay: its slots and lists, and the operations on the lists.
ghost use Rattle.std.specs.Prelude.{◌≡◌, ◌<◌, ◌↔◌, [], IfOk, IsNone, IsOk, IsTrue, false};
ghost use Rattle.wait_bay.specs.Names.{named_of};
ghost use Rattle.wait_bay.specs.Bays.{IsSeatOf, IsWithin};

use crate::lists::{Lists, WaiterList};
use crate::rule::{BayRule, Knowledge, Names, Same};
use crate::seat::BaySeat;
use atomic_table::Table;
use cell_registry::Registry;
use derived_ops::Code;
use fiber_poll::{FiberTask, Topic};
use slot_laws::Slot;
use std::alloc::{AllocError, Global};
use std::marker::Model;
use std::sync::atomic::Ordering;
use std::sync::{Mutex, Wait};

/// The tasks of fibers that no worker holds, and the lists of waiting fibers, which workers on any threads share.
///
/// A fiber is in one of three states: its task is in its slot and its number is on no queue, its task is in its slot
/// and its number is queued once, or a worker has the task. The calls that put and wake return whether the caller has
/// to queue the number, so that it is never queued twice.
#[derive(Drop)]
pub struct Bay<'a> {
    pub(crate) alloc: Global,
    pub(crate) count: u16,
    pub(crate) slots: Vec<Mutex<Slot>>,
    fibers: Lists,
    deferreds: Lists,
    pub(crate) table: Table<Option<FiberTask<'a>>, Knowledge, Names<'a>, BayRule, Global>,
}

impl<'a> Model for Bay<'a> {
    ghost use Rattle.std.specs.Prelude.{vec_len, ◌≡◌};
    ghost use Rattle.std.specs.Coded.{codes};
    ghost use Rattle.derived_ops.specs.Stored.{tree_code};
    ghost use Rattle.atomic_table.specs.Seated.{table_id_coded};
    ghost use Rattle.wait_bay.specs.Bays.{BayView};

    ghost Value = { BayView };

    ghost coded = { Prim.hlevel (codes, tree_code, table_id_coded) };

    ghost view = { λ b. record {
      table = b.table.shared.table_id;
      named = b.table.shared.key;
      fibers = b.count;
      deferreds = b.deferreds.count;
    } };

    ghost invariant = { λ b. (b.fibers.count ≡ b.count) × (vec_len b.slots ≡ b.count) ×
        (b.table.shared.table_id.words ≡ b.count) × (b.table.shared.table_id.slots ≡ b.count) };
}

impl<'a> Bay<'a> {
    /// A bay with a slot for each number of a fiber below `fibers` and a list for each fiber and each deferred below
    /// `deferreds`, all empty, and its first seat. The bay names this registry, this code and the number of moves of
    /// fiber 0, or nothing. Returns `AllocError` if there is no memory for it.
    pub fn new(
        alloc: Global,
        fibers: u16,
        deferreds: u16,
        named: Option<(&'a Registry, &'a Code, u32)>,
    ) -> Result<(Bay<'a>, BaySeat<'a>), AllocError>
        ensures fibers { IfOk result (λ b. b.0.fibers ≡ fibers) }
        ensures deferreds { IfOk result (λ b. b.0.deferreds ≡ deferreds) }
        ensures named { IfOk result (λ b. b.0.named ≡ named_of named.entry) }
        ensures seat { IfOk result (λ b. IsSeatOf b.0 b.1) }
    {
        let many = usize::from(fibers);
        let mut slots = Vec::with_capacity(alloc, many)?;
        for _ in 0..fibers {
            slots.push(Mutex::new(Slot::new()))?;
        }
        let words = Vec::from_elem(alloc, 0u64, many)?;
        let names = Names { named };
        let (table, seat) = Table::vacant(alloc, words.as_slice(), many, &names)?;
        let bay = Bay {
            alloc,
            count: fibers,
            slots,
            fibers: Lists::new(alloc, fibers)?,
            deferreds: Lists::new(alloc, deferreds)?,
            table,
        };
        Ok((bay, BaySeat { seat }))
    }

    /// The number of fibers that the bay has slots for.
    #[inline(always)]
    pub fn fibers(&self) -> u16
        ensures { result ≡ self.now.fibers }
    {
        self.count
    }

    /// Whether the bay has a list for the topic. `Never` needs none.
    #[inline(always)]
    pub fn has(&self, topic: Topic) -> bool
        ensures { IsTrue result ↔ IsWithin self.now topic }
    {
        match topic {
            Topic::Fiber(f) => f < self.count,
            Topic::Deferred(d) => d < self.deferreds.count,
            Topic::Never => true,
        }
    }

    /// Another seat of this bay, for another worker. The call loads one word, so the bay has at least one slot.
    pub fn split(&self, seat: &mut BaySeat<'a>) -> BaySeat<'a>
        requires here { IsSeatOf self.now seat.old }
        requires some { 0 < self.now.fibers }
        ensures same { seat.new ≡ seat.old }
        ensures seat { result ≡ seat.old }
    {
        let seat = self.table.shared.split_seat::<Same>(&mut seat.seat);
        BaySeat { seat }
    }

    /// Records that a fiber waits for a topic. A fiber that waits for `Never` isn't recorded, since nothing wakes it.
    /// Returns `AllocError` if there is no memory for it, and then changes nothing.
    pub fn register(&self, rt: &impl Wait, topic: Topic, f: u16) -> Result<(), AllocError>
        requires within { IsWithin self.now topic }
        ensures never { topic ≡ Topic.Never → IsOk result }
    {
        let list = match topic {
            Topic::Fiber(g) => self.fibers.made(g)?,
            Topic::Deferred(d) => self.deferreds.made(d)?,
            Topic::Never => return Ok(()),
        };
        let mut waiters = list.waiters.lock(rt);
        waiters.register(f)?;
        list.noted.store(true, Ordering::SeqCst);
        Ok(())
    }

    /// Whether a fiber was recorded as waiting for a topic since the topic's list was last drained. Takes no lock. A
    /// fiber that is recorded after a `false` sees at its next look what had happened before the call.
    #[inline(always)]
    pub fn is_awaited(&self, topic: Topic) -> bool
        requires within { IsWithin self.now topic }
        ensures never { topic ≡ Topic.Never → result ≡ false }
    {
        match self.list(topic) {
            Some(list) => list.noted.load(Ordering::SeqCst),
            None => false,
        }
    }

    /// Takes the fibers that wait for a topic, in the order in which they came; the list is then empty. Allocates no
    /// memory.
    pub fn drain_topic(&self, rt: &impl Wait, topic: Topic) -> Vec<u16>
        requires within { IsWithin self.now topic }
        ensures never { topic ≡ Topic.Never → result.items ≡ [] }
    {
        let Some(list) = self.list(topic) else {
            return Vec::new(self.alloc);
        };
        let mut waiters = list.waiters.lock(rt);
        list.noted.store(false, Ordering::SeqCst);
        waiters.drain()
    }

    // The list of a topic, if fibers can be recorded there. `Never` has none.
    #[inline(always)]
    fn list(&self, topic: Topic) -> Option<&WaiterList>
        requires within { IsWithin self.now topic }
        ensures never { topic ≡ Topic.Never → IsNone result }
    {
        match topic {
            Topic::Fiber(g) => self.fibers.get(g),
            Topic::Deferred(d) => self.deferreds.get(d),
            Topic::Never => None,
        }
    }
}
