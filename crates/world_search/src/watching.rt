//! Watchers of a search, which can end it.

ghost use Rattle.std.specs.Prelude.{◌≡◌, Bool, true, false};

/// A watcher: it gets the progress of a running search from time to time, and can end the search.
pub trait Watcher {
    // Whether the watcher can end a search.
    ghost can_stop: { Self → Bool };
    // Whether the watcher has ended a search.
    ghost has_stopped: { Self → Bool };

    /// Whether the search goes on. It has met `worlds` worlds, and next makes the entries at a world to which `depth`
    /// entries lead.
    fn goes_on(&mut self, worlds: usize, depth: usize) -> bool
        ensures same { can_stop self.new ≡ can_stop self.old }
        ensures can { result ≡ false → can_stop self.old ≡ true }
        ensures says { result ≡ false → has_stopped self.new ≡ true };

    /// Whether the work after a search goes on: the listing of what the search has found, or a sample. It can take
    /// `quarters` quarters of the time that the watcher leaves for all of this work. Without a body of its own, a
    /// watcher lets this work go on.
    fn lists_on(&mut self, _quarters: u32) -> bool
        ensures same { can_stop self.new ≡ can_stop self.old }
        ensures can { result ≡ false → can_stop self.old ≡ true }
        ensures says { result ≡ false → has_stopped self.new ≡ true }
        ensures keeps { has_stopped self.old ≡ true → has_stopped self.new ≡ true }
    {
        true
    }
}

/// A watcher that lets each search go on.
#[derive(Drop)]
pub struct Unwatched;

impl Watcher for Unwatched {
    ghost can_stop = { λ it. false };

    ghost has_stopped = { λ it. false };

    fn goes_on(&mut self, _worlds: usize, _depth: usize) -> bool {
        true
    }
}
