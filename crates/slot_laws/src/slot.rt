//! The steps on the slot of a fiber.
ghost use Rattle.std.specs.Prelude.{◌≡◌, ◌↔◌, ◌⊎◌, IfOk, IsErr, IsTrue, OnErr, false, true};

/// The data under the lock of a fiber.
#[derive(Clone, Copy, Drop)]
pub struct Slot {
    /// Whether the fiber's task is here.
    pub full: bool,
    /// Whether the fiber's number was queued, or has to be queued once its task is put here.
    pub woken: bool,
}

/// The slot already has a task.
#[derive(Drop)]
pub struct IsFull;

impl Slot {
    /// The slot of a fiber that wasn't put or woken yet.
    pub fn new() -> Slot
        ensures { result ≡ record { full = false; woken = false } }
    {
        Slot {
            full: false,
            woken: false,
        }
    }

    /// Puts a task, and returns whether its number has to be queued: if it is `ready`, or a wake came since it was
    /// taken. Refuses if a task is here already.
    #[inline(always)]
    pub fn put(&mut self, ready: bool) -> Result<bool, IsFull>
        ensures refused { IsErr result ↔ IsTrue self.old.full }
        ensures unchanged { OnErr result (self.new ≡ self.old) }
        ensures slot { IfOk result (λ queued. self.new ≡ record { full = true; woken = queued }) }
        ensures queued { IfOk result (λ queued. IsTrue queued ↔ (IsTrue ready ⊎ IsTrue self.old.woken)) }
    {
        if self.full {
            return Err(IsFull);
        }
        self.full = true;
        self.woken = self.woken || ready;
        Ok(self.woken)
    }

    /// Takes the task, and forgets the wakes so far. Returns whether a task was here; if not, changes nothing.
    #[inline(always)]
    pub fn take(&mut self) -> bool
        ensures value { result ≡ self.old.full }
        ensures taken { IsTrue result → self.new ≡ record { full = false; woken = false } }
        ensures unchanged { self.old.full ≡ false → self.new ≡ self.old }
    {
        if !self.full {
            return false;
        }
        self.full = false;
        self.woken = false;
        true
    }

    /// Records a wake, and returns whether the number has to be queued: if the task is here and no wake came before.
    /// The next `put` reports a wake that came while a worker had the task.
    #[inline(always)]
    pub fn wake(&mut self) -> bool
        ensures slot { self.new ≡ record self.old { woken = true } }
        ensures value { IsTrue result ↔ ((self.old.woken ≡ false) × IsTrue self.old.full) }
    {
        if self.woken {
            return false;
        }
        self.woken = true;
        self.full
    }
}
