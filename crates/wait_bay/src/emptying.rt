//! The tasks that are left in a bay at its end.
ghost use Rattle.std.specs.Prelude.{◌≡◌, ◌⊎◌, ◌∷◌, ◌++◌, [], All, AllPairs, IfOk, Some, true};
ghost use Rattle.fiber_poll.specs.Tasks.{TaskView};
ghost use Rattle.wait_bay.specs.Names.{ComesBefore, IsNamed};

use crate::bay::Bay;
use fiber_poll::FiberTask;
use std::alloc::AllocError;

impl<'a> Bay<'a> {
    /// The tasks in the slots, in the order of their numbers. A slot that is out with a seat is skipped. Returns
    /// `AllocError` if there is no memory for the list; the tasks are then dropped.
    pub fn empty(self) -> Result<Vec<FiberTask<'a>>, AllocError>
        ensures named { IfOk result (λ tasks. All (IsNamed self.entry.named) tasks.items) }
        ensures order { IfOk result (λ tasks. AllPairs ComesBefore tasks.items) }
    {
        let Bay {
            alloc,
            count,
            table,
            ..
        } = self;
        let mut tasks = Vec::with_capacity(alloc, usize::from(count))?;
        let mut closed = table.close();
        let mut lost = false;
        for f in 0..count {
            let found = closed.take(f as usize);
            let home = closed.word(f as usize) == 0;
            if !keep(&mut tasks, found, home) {
                lost = true;
            }
        }
        closed.free();
        if lost { Err(AllocError) } else { Ok(tasks) }
    }
}

// Keeps what was found in a slot, if it was at home. Returns whether there was memory for it.
fn keep<'a>(tasks: &mut Vec<FiberTask<'a>>, found: Option<FiberTask<'a>>, home: bool) -> bool
    ensures kept { (tasks.new.items ≡ tasks.old.items) ⊎ ((t : TaskView) × (home ≡ true) × (found.entry ≡ Some t) ×
        (tasks.new.items ≡ tasks.old.items ++ t ∷ [])) }
    ensures whole { result ≡ true → home ≡ true → (t : TaskView) → found.entry ≡ Some t →
        tasks.new.items ≡ tasks.old.items ++ t ∷ [] }
{
    match found {
        Some(task) => { if home { tasks.push(task).is_ok() } else { true } }
        None => true,
    }
}
