//! Models and samples whose searches their watcher ends.

ghost use Rattle.std.specs.Prelude.{true};

use crate::watched::Ends;
use cell_registry::Limits;
use model_claims::Verdict;
use model_runs::{ModelResult, SearchBounds, run_model_watched};
use model_terms::read_source;
use model_text::Item;
use outcome_trace::read_program;
use sampled_schedules::{Sample, sample_watched};
use std::alloc::Global;
use std::process::Abort;
use std::test::Fail;
use world_search::{Unwatched, Watcher};

// Three fibers count for ever in two refs: there is no last world, and no answer.
const COUNTERS: &[u8] = b"(model counters (want 0) (run (ref a 0) (ref b 0) \
    (start f (forever (modify a 1))) (start g (forever (modify b 1))) (forever (modify a 1) (modify b 1))))";

const BOUNDS: SearchBounds = SearchBounds {
    worlds: 2000,
    memory: 1 << 30,
};

// The result of the model with this watcher.
fn ran<V: Watcher>(alloc: Global, watcher: &mut V) -> Result<ModelResult, Fail> {
    let Ok(source) = read_source(alloc, COUNTERS) else {
        return Err(Fail::new("the file is refused"));
    };
    for item in source.file.items.iter() {
        if let Item::Model(model) = item {
            return match run_model_watched(alloc, &source, model, BOUNDS, watcher) {
                Ok(result) => Ok(result),
                Err(_) => Err(Fail::new("the model is refused")),
            };
        }
    }
    Err(Fail::new("the file has no model"))
}

// Compares what was found of the model's only term. The verdict must be undecided.
fn expect<R: Abort + AllocGlobal>(
    rt: &R,
    became: &ModelResult,
    halted: bool,
    worlds: usize,
    sampled: u32,
) {
    assert!(rt; became.verdict == Verdict::Undecided);
    for search in became.searches.iter() {
        assert_eq!(rt;
            (
                search.complete,
                search.halted,
                search.worlds,
                search.sampled
            ),
            (false, halted, worlds, sampled)
        );
    }
    assert_eq!(rt; became.searches.len(), 1);
}

// The watcher is asked at each hundredth world, and ends the search when it is asked first. Then 200 schedules are
// drawn, and the watcher isn't asked again whether a search goes on.
#[test]
fn a_model_whose_time_is_over_is_undecided(rt: HostRuntime) -> Result<(), Fail> {
    let mut ends = Ends::new(1);
    let result = ran(rt.alloc(), &mut ends)?;
    let worlds = match result.searches.first() {
        Some(search) => search.worlds,
        None => 0,
    };
    expect(&rt, &result, true, worlds, 200);
    assert!(rt; worlds >= 100 && worlds < 2000);
    assert_eq!(rt; ends.asked(), 1);
    Ok(())
}

#[test]
fn an_unwatched_model_runs_to_its_bound(rt: HostRuntime) -> Result<(), Fail> {
    let result = ran(rt.alloc(), &mut Unwatched)?;
    expect(&rt, &result, false, 2000, 2000);
    Ok(())
}

const LIMITS: Limits = Limits {
    fibers: 3,
    refs: 1,
    deferreds: 1,
    count: 1000,
};

// What a sample of at most `times` schedules finds with this watcher.
fn sampled<V: Watcher>(alloc: Global, times: u32, watcher: &mut V) -> Result<Sample, Fail> {
    let Ok(program) = read_program(alloc, b"(race (say 1) (say 2))") else {
        return Err(Fail::new("the program is refused"));
    };
    match sample_watched(alloc, &program, LIMITS, 7, times, 1000, watcher) {
        Ok(found) => Ok(found),
        Err(_) => Err(Fail::new("memory ran out")),
    }
}

// A watcher that ends a sample when it is asked for the time with the number `most`.
#[derive(Drop)]
struct EndsDrawing {
    most: usize,
    asked: usize,
}

impl Watcher for EndsDrawing {
    ghost can_stop = { λ it. true };

    ghost has_stopped = { λ it. true };

    fn goes_on(&mut self, _worlds: usize, _depth: usize) -> bool {
        true
    }

    fn lists_on(&mut self, _quarters: u32) -> bool {
        self.asked = self.asked.wrapping_add(1);
        self.asked < self.most
    }
}

// The watcher is asked before the first entry of each schedule, and again after 50 rows of entries, which these don't
// have. A sample that it ends has the schedules drawn until then, the same as a sample of that size.
#[test]
fn a_watcher_ends_a_sample(rt: HostRuntime) -> Result<(), Fail> {
    let mut ends = EndsDrawing { most: 6, asked: 0 };
    let ended = sampled(rt.alloc(), 1000, &mut ends)?;
    let whole = sampled(rt.alloc(), 5, &mut Unwatched)?;
    assert_eq!(rt; (ended.schedules, whole.schedules), (5, 5));
    assert_eq!(rt;
        ended.comings.as_slice().len(),
        whole.comings.as_slice().len()
    );
    for (one, other) in ended
        .comings
        .as_slice()
        .iter()
        .zip(whole.comings.as_slice())
    {
        assert_eq!(rt;
            (one.times, one.answer.schedule.as_slice()),
            (other.times, other.answer.schedule.as_slice())
        );
    }
    Ok(())
}
