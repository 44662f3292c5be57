//! The exploration of models, by one thread or several.

ghost use Rattle.std.specs.Prelude.{◌≡◌, IfOk, false};
ghost use Rattle.model_runs.specs.Verdicts.{worst};

use crate::board::{Board, Far};
use crate::progress::Progress;
use crate::suite::{Models, SuiteFile, SuiteForm};
use crate::tested::{Became, Explored, Tested, UndecidedModel};
use crate::unexplored::undecided_result;
use crate::watching::{Noting, is_within};
use model_reports::Unexplored;
use model_runs::{ModelResult, SearchBounds, run_model_watched};
use model_terms::Refused;
use model_text::Model;
use std::alloc::{AllocError, Global};
use std::sync::Wait;
use std::thread;
use std::thread::Threads;
use std::time::{Clock, Duration, Instant};
use text_io::TextOut;

// The greatest number of seconds for which a thread that waits for a model shows progress.
const MOST_SECONDS: usize = 10_000_000;

// What is noted of a model when its searches begin.
const START: Far = Far {
    worlds: 0,
    rate: 0,
    depth: 0,
};

// Explores the model of this number, unless models are only listed.
fn explore<C: Clock>(
    clock: &C,
    alloc: Global,
    models: &Models<'_>,
    board: &Board,
    index: usize,
) -> Result<Became, AllocError> {
    let Some(entry) = models.entries.get(index) else {
        return Ok(Became::Listed);
    };
    let Some(file) = models.files.get(entry.file) else {
        return Ok(Became::Listed);
    };
    match models.order.form {
        SuiteForm::List => Ok(Became::Listed),
        SuiteForm::Report | SuiteForm::Json | SuiteForm::Tap => {
            if !is_within(clock, models.begun, models.order.total_seconds) {
                return undecided(alloc, file, &entry.model, 0, Unexplored::NoTime);
            }
            let mut noting = noting(clock, models, board, index);
            explore_model(alloc, models, board, file, &entry.model, &mut noting)
        }
    }
}

// Explores a model, and notes on the board when that begins and ends.
fn explore_model<C: Clock>(
    alloc: Global,
    models: &Models<'_>,
    board: &Board,
    file: &SuiteFile<'_>,
    model: &Model,
    noting: &mut Noting<'_, C>,
) -> Result<Became, AllocError> {
    let bounds = SearchBounds {
        worlds: models.order.worlds as usize,
        memory: board.memory,
    };
    board.note(noting.index, START);
    let (clock, begun) = (noting.clock, noting.begun);
    let found = run_model_watched(alloc, &file.source, model, bounds, noting);
    board.rest(noting.index);
    let milliseconds = milliseconds_since(clock, begun);
    match found {
        Ok(result) => Ok(Became::Explored(explored(result, milliseconds))),
        Err(Refused::Fault(fault)) => Ok(Became::Refused(fault)),
        Err(Refused::NoMemory) => {
            undecided(alloc, file, model, milliseconds, Unexplored::NoMemory)
        }
    }
}

// The watcher of a model whose searches begin now.
fn noting<'w, C: Clock>(
    clock: &'w C,
    models: &Models<'_>,
    board: &'w Board,
    index: usize,
) -> Noting<'w, C> {
    Noting {
        clock,
        begun: Instant::now(clock).ok(),
        seconds: models.order.seconds,
        test_begun: models.begun,
        total_seconds: models.order.total_seconds,
        stopped: false,
        board,
        index,
        worlds: 0,
        since: Duration::ZERO,
    }
}

// The result of a model without a result of a search, and why there is none.
fn undecided(
    alloc: Global,
    file: &SuiteFile<'_>,
    model: &Model,
    milliseconds: u64,
    why: Unexplored,
) -> Result<Became, AllocError> {
    match undecided_result(alloc, &file.source, model) {
        Ok(result) => Ok(Became::Undecided(UndecidedModel {
            result,
            milliseconds,
            why,
        })),
        Err(Refused::NoMemory) => Err(AllocError),
        Err(Refused::Fault(fault)) => Ok(Became::Refused(fault)),
    }
}

// The result of a model that was explored in this number of milliseconds.
fn explored(found: ModelResult, milliseconds: u64) -> Explored
    requires { found.verdict ≡ worst found.claims.items }
{
    Explored {
        result: found,
        milliseconds,
    }
}

// The number of milliseconds since `begun`; 0 if the clock fails.
fn milliseconds_since<C: Clock>(clock: &C, begun: Option<Instant>) -> u64 {
    let Some(begun) = begun else {
        return 0;
    };
    match begun.elapsed(clock) {
        Ok(time) => time
            .as_secs()
            .saturating_mul(1000)
            .saturating_add(u64::from(time.subsec_millis())),
        Err(_) => 0,
    }
}

// Explores models that no thread has claimed, until there are none left.
fn help<R: Clock + Wait>(rt: &R, alloc: Global, models: &Models<'_>, board: &Board) {
    for _ in 0..models.entries.len() {
        let Some(index) = board.claim() else {
            return;
        };
        board.put(rt, index, explore(rt, alloc, models, board, index));
    }
}

/// Explores models that no thread has claimed in `threads` threads, or in fewer if memory runs out.
pub(crate) fn help_all<R: Clock + Threads + Wait + Sync>(
    rt: &R,
    alloc: Global,
    models: &Models<'_>,
    board: &Board,
    threads: usize,
) {
    let _ = thread::map_indices(rt, alloc, threads, &|_| help(rt, alloc, models, board));
}

/// Returns the result of the model of this number, from the board or by exploring the model. While another thread
/// explores the model, the calling thread explores others, and then waits.
pub(crate) fn tested_at<R: Clock + Wait>(
    rt: &R,
    alloc: Global,
    models: &Models<'_>,
    board: &Board,
    index: usize,
) -> Result<Tested, AllocError>
    ensures { IfOk result (λ it. it.index ≡ index) }
{
    let became = became_at(rt, alloc, models, board, index)?;
    Ok(Tested { index, became })
}

// Returns this result without the number of the model.
fn became_at<R: Clock + Wait>(
    rt: &R,
    alloc: Global,
    models: &Models<'_>,
    board: &Board,
    index: usize,
) -> Result<Became, AllocError> {
    for _ in 0..models.entries.len() {
        if board.has(rt, index) {
            return board.take(rt, index);
        }
        let Some(free) = board.claim() else {
            return board.take(rt, index);
        };
        let found = explore(rt, alloc, models, board, free);
        if free == index {
            return found;
        }
        board.put(rt, free, found);
    }
    board.take(rt, index)
}

/// Waits until the result of the model of this number is on the board, and shows progress each second. Returns at once
/// if no progress is shown, and after a second if no thread has claimed the model.
pub(crate) fn show<R: Clock + Wait, E: TextOut>(
    rt: &R,
    models: &Models<'_>,
    board: &Board,
    index: usize,
    progress: &mut Progress,
    err: &mut E,
)
    requires { progress.old.failed ≡ false → (E.seen err.old).failed ≡ false }
    ensures { progress.new.failed ≡ false → (E.seen err.new).failed ≡ false }
{
    if !progress.is_shown() {
        return;
    }
    for _ in 0..MOST_SECONDS {
        if board.waits_a_second(rt, index) {
            return;
        }
        progress.tell(rt, models, board, err);
        if !board.is_claimed(index) {
            return;
        }
    }
}
