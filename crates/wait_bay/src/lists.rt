//! The lists of waiting fibers, by the numbers of what they wait for.
ghost use Rattle.std.specs.Prelude.{◌≡◌, ◌<◌, ◌≤◌, ◌*◌, IfOk, vec_len};

use once_cell::race::OnceBox;
use slot_laws::Waiters;
use std::alloc::{AllocError, Global};
use std::sync::Mutex;
use std::sync::atomic::AtomicBool;

// The number of lists of a page.
const PAGE: usize = 64;

/// The fibers that wait for one topic, as workers share them.
#[derive(Drop)]
pub(crate) struct WaiterList {
    /// Whether a fiber was recorded since the list was last drained. The flag changes under the lock.
    pub noted: AtomicBool,
    pub waiters: Mutex<Waiters>,
}

/// A list of waiters for each number below `count`.
///
/// The lists are in pages. A page is made when a fiber first waits for one of its numbers, since no fiber waits for
/// most fibers and deferreds.
#[derive(Drop)]
pub(crate) struct Lists {
    alloc: Global,
    pub count: u16,
    pages: Vec<OnceBox<Page>>,
    ghost covered: { count ≤ vec_len pages * 64 },
}

#[derive(Drop)]
struct Page {
    lists: Vec<WaiterList>,
    ghost whole: { vec_len lists ≡ 64 },
}

impl Lists {
    /// `count` empty lists, without pages.
    pub(crate) fn new(alloc: Global, count: u16) -> Result<Lists, AllocError>
        ensures { IfOk result (λ lists. lists.count ≡ count) }
    {
        let many = usize::from(count) / PAGE + 1;
        let mut pages = Vec::with_capacity(alloc, many)?;
        for _ in 0..many {
            pages.push(OnceBox::new(alloc))?;
        }
        Ok(Lists {
            alloc,
            count,
            pages,
        })
    }

    /// The list of a number, or `None` if no fiber ever waited for a number of its page.
    #[inline(always)]
    pub(crate) fn get(&self, number: u16) -> Option<&WaiterList>
        requires { number < self.now.count }
    {
        let at = usize::from(number);
        let page = self.pages[at / PAGE].get()?;
        Some(&page.lists[at % PAGE])
    }

    /// The list of a number, for a fiber that waits for it. Returns `AllocError` if there is no memory for its page.
    pub(crate) fn made(&self, number: u16) -> Result<&WaiterList, AllocError>
        requires { number < self.now.count }
    {
        let alloc = self.alloc;
        let at = usize::from(number);
        let page = self.pages[at / PAGE].get_or_try_init(move || Page::new(alloc))?;
        Ok(&page.lists[at % PAGE])
    }
}

impl Page {
    // A page of empty lists.
    fn new(alloc: Global) -> Result<Box<Page>, AllocError> {
        let mut lists = Vec::with_capacity(alloc, PAGE)?;
        for _ in 0..PAGE {
            lists.push(WaiterList {
                noted: AtomicBool::new(false),
                waiters: Mutex::new(Waiters::new(alloc)),
            })?;
        }
        Ok(Box::new(alloc, Page { lists })?)
    }
}
