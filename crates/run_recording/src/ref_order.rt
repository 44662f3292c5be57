//! The order in which the calls on one ref were made.

use crate::notes::RefCall;
use crate::schedules::NoSchedule;
use std::alloc::Global;

// The greatest number of workers, and so of calls under way at once.
const MOST_WORKERS: usize = 16;

// The greatest number of times that a search goes back.
const MOST_BACK: u32 = 1_000_000;

// The number of calls that a search looks ahead.
const AHEAD: usize = 64;

// Some of the calls that are under way at once.
#[derive(Clone, Copy)]
struct Few {
    places: [u32; MOST_WORKERS],
    many: usize,
}

impl Few {
    fn none() -> Few {
        Few {
            places: [0; MOST_WORKERS],
            many: 0,
        }
    }

    fn as_slice(&self) -> &[u32] {
        match self.places.get(..self.many) {
            Some(places) => places,
            None => &[],
        }
    }

    // Adds a call. Returns whether there is room for it.
    fn add(&mut self, place: u32) -> bool {
        match self.places.get_mut(self.many) {
            Some(slot) => {
                *slot = place;
                self.many = self.many.saturating_add(1);
                true
            }
            None => false,
        }
    }

    // These without one.
    fn without(&self, place: u32) -> Few {
        let mut rest = Few::none();
        for other in self.as_slice() {
            if *other != place {
                let _ = rest.add(*other);
            }
        }
        rest
    }
}

// A choice of a search: the numbers of placed and of begun calls, the value, the calls under way, and those of them
// that weren't tried yet.
#[derive(Clone, Copy)]
struct Choice {
    placed: usize,
    begun: usize,
    value: i64,
    under: Few,
    untried: Few,
}

// A search for an order of the calls on one ref in which each call finds the value that it found, and comes after every
// call that had ended when it began. The search is depth-first: a call that only reads goes first; if several fit, it
// tries the best candidate; if none fits, it goes back to the last choice.
#[derive(Drop)]
struct Search<'a> {
    // In the order of their beginnings.
    calls: &'a [u32],
    refs: &'a [RefCall],
    order: Vec<u32>,
    value: i64,
    begun: usize,
    under: Few,
    open: Vec<Choice>,
    back: u32,
}

// Used for a place that doesn't exist.
const NO_CALL: RefCall = RefCall {
    found: None,
    left: 0,
    begun: 0,
    ended: 0,
};

/// The calls at these places, which are in the order of their beginnings, in an order that the search finds.
pub(crate) fn ref_order(
    alloc: Global,
    calls: &[u32],
    refs: &[RefCall],
) -> Result<Vec<u32>, NoSchedule> {
    let mut search = Search {
        calls,
        refs,
        order: Vec::new(alloc),
        value: 0,
        begun: 0,
        under: Few::none(),
        open: Vec::new(alloc),
        back: 0,
    };
    for _ in 0..u64::MAX {
        if !search.begin() {
            return Err(NoSchedule::NotFound);
        }
        if search.under.many == 0 {
            let Search { order, .. } = search;
            return Ok(order);
        }
        search.place_one()?;
    }
    Err(NoSchedule::NotFound)
}

impl<'a> Search<'a> {
    fn call(&self, place: u32) -> RefCall {
        match self.refs.get(place as usize) {
            Some(call) => *call,
            None => NO_CALL,
        }
    }

    // The earliest end of the calls under way.
    fn first_end(&self) -> u64 {
        let mut end = u64::MAX;
        for place in self.under.as_slice() {
            end = end.min(self.call(*place).ended);
        }
        end
    }

    // Adds the calls that began before the earliest end of the calls that aren't placed. Returns whether there is room.
    fn begin(&mut self) -> bool {
        let mut end = self.first_end();
        for _ in 0..self.calls.len() {
            let Some(place) = self.calls.get(self.begun).copied() else {
                return true;
            };
            let call = self.call(place);
            if call.begun > end {
                return true;
            }
            end = end.min(call.ended);
            if !self.under.add(place) {
                return false;
            }
            self.begun = self.begun.saturating_add(1);
        }
        true
    }

    // Places the next call.
    fn place_one(&mut self) -> Result<(), NoSchedule> {
        let fitting = self.fitting();
        let place = if fitting.many == 0 {
            self.go_back()?
        } else {
            self.choose(fitting)?
        };
        self.under = self.under.without(place);
        self.order.push(place)?;
        self.value = self.call(place).left;
        Ok(())
    }

    // The calls under way that fit the value. If one of them only reads, it is the only result; a call that sets the
    // present value isn't, since it can be needed later.
    fn fitting(&self) -> Few {
        let mut fitting = Few::none();
        for place in self.under.as_slice() {
            let call = self.call(*place);
            let finds = call.found == Some(self.value);
            if finds && call.left == self.value {
                let mut alone = Few::none();
                let _ = alone.add(*place);
                return alone;
            }
            if finds || call.found.is_none() {
                let _ = fitting.add(*place);
            }
        }
        fitting
    }

    // Picks the best candidate, and keeps the others for backtracking.
    fn choose(&mut self, fitting: Few) -> Result<u32, NoSchedule> {
        let best = self.best(fitting);
        let untried = fitting.without(best);
        if untried.many > 0 {
            self.open.push(Choice {
                placed: self.order.len(),
                begun: self.begun,
                value: self.value,
                under: self.under,
                untried,
            })?;
        }
        Ok(best)
    }

    // Goes back to the last choice, and returns its next candidate.
    fn go_back(&mut self) -> Result<u32, NoSchedule> {
        self.back = self.back.saturating_add(1);
        if self.back > MOST_BACK {
            return Err(NoSchedule::NotFound);
        }
        let Some(choice) = self.open.pop() else {
            return Err(NoSchedule::NotFound);
        };
        self.order.truncate(choice.placed);
        self.begun = choice.begun;
        self.value = choice.value;
        self.under = choice.under;
        self.choose(choice.untried)
    }

    // The best candidate: of the least class, and among these the one that ended first.
    fn best(&self, of: Few) -> u32 {
        let mut best = 0u32;
        let mut least = (u32::MAX, u64::MAX);
        for place in of.as_slice() {
            let class = self.class(*place);
            let ended = self.call(*place).ended;
            if class < least.0 || (class == least.0 && ended <= least.1) {
                least = (class, ended);
                best = *place;
            }
        }
        best
    }

    // The class of a call that fits, by preference: 0 for a call that finds the present value; then for a call that
    // sets the value, 1 if no call needs the new value, 2 if one needs it now, 3 if one needs it later.
    fn class(&self, place: u32) -> u32 {
        let call = self.call(place);
        if call.found.is_some() {
            return 0;
        }
        for other in self.under.as_slice() {
            if self.call(*other).found == Some(call.left) {
                return 2;
            }
        }
        if self.is_wanted_soon(call.left) { 3 } else { 1 }
    }

    // Whether one of the next calls to begin finds this value.
    fn is_wanted_soon(&self, value: i64) -> bool {
        for ahead in 0..AHEAD {
            match self.calls.get(self.begun.saturating_add(ahead)) {
                Some(place) => {
                    if self.call(*place).found == Some(value) {
                        return true;
                    }
                }
                None => return false,
            }
        }
        false
    }
}
