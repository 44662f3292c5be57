//! The request that the words of a command line make.

ghost use Rattle.std.specs.Prelude.{◌≡◌, ◌≢◌, ◌≤◌, ◌<◌, ℕ, codes, IfOk, IfSome, IfNone, List, Option, Some, map};
ghost use Rattle.cell_registry.specs.declared.limits.Limits.{Limits};
ghost use Rattle.cell_registry.specs.Cells.{AreLimits};
ghost use Rattle.clap.specs.Words.{first_of, found_of, rows_of, subcommand_rows_of};
ghost use Rattle.exploration_text.specs.declared.explore_texts.ExploreOrder.{ExploreOrder};
ghost use Rattle.exploration_text.specs.declared.wants.Want.{Want};
ghost use Rattle.exploration_text.specs.Wants.{IsInRange, want_text};
ghost use Rattle.command_words.specs.declared.exploring.Exploring.{Exploring};
ghost use Rattle.command_words.specs.declared.replay.Replay.{Replay};
ghost use Rattle.command_words.specs.declared.running.Running.{Running};
ghost use Rattle.command_words.specs.declared.sampling.Sampling.{Sampling};
ghost use Rattle.exploration_text.specs.declared.sample_texts.SampleOrder.{SampleOrder};
ghost use Rattle.steal_pool.specs.declared.options.Options.{Options};
ghost use Rattle.steal_pool.specs.Runs.{limits_of};
ghost use Rattle.command_words.specs.Memory.{SaysMemory};
ghost use Rattle.command_words.specs.Numbers.{IsNumberOf, SaysNumber, SaysSeconds};
ghost use Rattle.command_words.specs.Flags.{SaysMarks};
ghost use Rattle.command_words.specs.Requests.{HasMarks, HasNoClaims};
ghost use Rattle.command_words.specs.Requests.{AreWants, GivesRequest, Says, SaysBounds, SaysExplore};
ghost use Rattle.command_words.specs.Requests.{SaysExploring, SaysLimits, SaysReplay, SaysRun};
ghost use Rattle.command_words.specs.Requests.{SaysRunning, SaysSample, SaysSampling, texts_said};

use crate::checking::{Checking, Showing};
use crate::compare_requests::comparing_of;
use crate::comparing::Comparing;
use crate::decide_requests::deciding_of;
use crate::deciding::Deciding;
use crate::exploring::Exploring;
use crate::flags::{beside, explore_form, given, replay_form, run_form, text_of};
use crate::judge_requests::{has_claims, judging_of};
use crate::judging::Judging;
use crate::marks::Marks;
use crate::memory::bytes_of;
use crate::ranges::{
    BAND, BUDGET, COUNT, ENTRIES, FEW, MEMORY, MOVES, NumberRange, SECONDS, SEED, TIMES, WORKERS,
    WORLDS,
};
use crate::replay::Replay;
use crate::running::Running;
use crate::sampling::Sampling;
use crate::say_requests::saying_of;
use crate::saying::Saying;
use crate::seek_requests::seeking_of;
use crate::seeking::Seeking;
use crate::test_requests::{testing_of, texts_of, translating_of};
use crate::testing::{Testing, Translating};
use crate::unmark_requests::{has_text, marks_of, unmarking_of};
use crate::unmarking::Unmarking;
use clap::ArgMatches;
use exploration_text::{Bounds, ExploreOrder, SampleOrder, Want, read_want};
use outcome_trace::Limits;
use std::alloc::{AllocError, Global};
use steal_pool::Options;

/// What the words of a command line ask for.
#[derive(Drop)]
pub enum Request<'a> {
    /// To check whether the text is a program.
    Check(Checking),
    /// To print the expansion of the text's program.
    Show(Showing),
    /// To run the text's program under a schedule, and to print its report.
    Replay(Replay<'a>),
    /// To explore every schedule of the text's program.
    Explore(Exploring),
    /// To search for the first finding of the text's program.
    Seek(Seeking),
    /// To explore every schedule of the text's program, and to decide whether every fair schedule ends.
    Decide(Deciding),
    /// To explore every schedule of the text's program, and to judge claims on its moments.
    Judge(Judging<'a>),
    /// To explore every schedule of the text's program for the outcomes of its fibers, without their marks.
    Unmark(Unmarking),
    /// To explore every schedule of the text's program for the outcomes and says of its fibers.
    Say(Saying),
    /// To run the text's program on workers, and to print its report.
    Run(Running),
    /// To draw schedules of the text's program at random, and to count the reports and faults.
    Sample(Sampling<'a>),
    /// To compare the programs of two files.
    Compare(Comparing<'a>),
    /// To test the models of files.
    Test(Testing<'a>),
    /// To print the terms of the models of a file.
    Terms(Translating<'a>),
}

/// The number that a text spells, if it is in `range`.
pub(crate) fn number(text: &str, range: NumberRange) -> Option<u64>
    ensures spelled { IfSome result (SaysNumber range (Some text.now)) }
    ensures none { IfNone result (IsNumberOf range text.now → ⊥) }
{
    match text.parse::<u64>() {
        Ok(number) if range.least <= number && number <= range.most => Some(number),
        _ => None,
    }
}

/// The number of an option, or `range.usual` if the option isn't given. `None` if its text is no number of `range`.
pub(crate) fn number_of(matches: &ArgMatches<'_>, name: &str, range: NumberRange) -> Option<u64>
    requires { (range.least ≤ range.usual) × (range.usual ≤ range.most) }
    ensures said { IfSome result (SaysNumber range (first_of name.now (rows_of (found_of matches.now)))) }
    ensures none { IfNone result ((n : ℕ) → SaysNumber range (first_of name.now (rows_of (found_of matches.now))) n →
        ⊥) }
    ensures least { IfSome result (λ n. range.least ≤ n) }
    ensures most { IfSome result (λ n. n ≤ range.most) }
{
    match text_of(matches, name) {
        Some(text) => number(text, range),
        None => Some(range.usual),
    }
}

/// The limits that the options of a subcommand give, with `band` as the range of fibers, of refs and of deferreds.
pub(crate) fn limits_of(options: &ArgMatches<'_>, band: NumberRange) -> Option<Limits>
    requires least { band.least ≡ 1 }
    requires most { band.most ≡ 1000 }
    requires usual { (1 ≤ band.usual) × (band.usual ≤ 1000) }
    ensures said { IfSome result (SaysLimits band (rows_of (found_of options.now))) }
    ensures none { IfNone result ((limits : Limits) → SaysLimits band (rows_of (found_of options.now)) limits → ⊥) }
    ensures ranges { IfSome result AreLimits }
{
    let fibers = number_of(options, "fibers", band)?;
    let refs = number_of(options, "refs", band)?;
    let deferreds = number_of(options, "deferreds", band)?;
    let count = number_of(options, "count", COUNT)?;
    Some(Limits {
        fibers: fibers as u16,
        refs: refs as u16,
        deferreds: deferreds as u16,
        count,
    })
}

// The workers, limits, budget and moves that the options of `run` give.
fn run_options(run: &ArgMatches<'_>) -> Option<Options>
    ensures said { IfSome result (SaysRun (rows_of (found_of run.now))) }
    ensures none { IfNone result ((options : Options) → SaysRun (rows_of (found_of run.now)) options → ⊥) }
    ensures limits { IfSome result (λ o. AreLimits (limits_of o)) }
    ensures budget { IfSome result (λ o. 1 < o.budget) }
{
    let workers = number_of(run, "workers", WORKERS)?;
    let limits = limits_of(run, BAND)?;
    let budget = number_of(run, "budget", BUDGET)?;
    let moves = number_of(run, "moves", MOVES)?;
    Some(Options {
        workers: workers as u8,
        fibers: limits.fibers,
        refs: limits.refs,
        deferreds: limits.deferreds,
        count: limits.count,
        budget: budget as u32,
        moves: moves as u32,
    })
}

// The run that the options of `run` ask for.
fn running_of(run: &ArgMatches<'_>) -> Option<Running>
    ensures said { IfSome result (SaysRunning (rows_of (found_of run.now))) }
    ensures none { IfNone result ((said : Running) → SaysRunning (rows_of (found_of run.now)) said → ⊥) }
{
    let (form, explain) = run_form(run)?;
    let options = run_options(run)?;
    Some(Running {
        options,
        form,
        explain,
    })
}

// The replay that the options of `replay` ask for.
fn replay_of<'a>(replay: &ArgMatches<'a>) -> Option<Replay<'a>>
    ensures said { IfSome result (SaysReplay (rows_of (found_of replay.now))) }
    ensures none { IfNone result ((said : Replay) → SaysReplay (rows_of (found_of replay.now)) said → ⊥) }
{
    let schedule = text_of(replay, "schedule")?;
    let form = replay_form(replay)?;
    let limits = limits_of(replay, BAND)?;
    Some(Replay {
        schedule,
        form,
        explain: given(replay, "explain"),
        limits,
    })
}

/// The bytes at which a search stops, by the options of a subcommand.
pub(crate) fn memory_of(explore: &ArgMatches<'_>) -> Option<u64>
    ensures said { IfSome result (SaysMemory (first_of (codes "memory") (rows_of (found_of explore.now)))) }
    ensures none { IfNone result ((n : ℕ) →
        SaysMemory (first_of (codes "memory") (rows_of (found_of explore.now))) n → ⊥) }
{
    match text_of(explore, "memory") {
        Some(text) => bytes_of(text),
        None => Some(MEMORY.usual),
    }
}

/// The seconds after which a search ends, by the options of `explore` or of `test`. `Some(None)` means no bound.
pub(crate) fn seconds_of(explore: &ArgMatches<'_>) -> Option<Option<u64>>
    ensures said { IfSome result (SaysSeconds (first_of (codes "seconds") (rows_of (found_of explore.now)))) }
    ensures none { IfNone result ((seconds : Option ℕ) →
        SaysSeconds (first_of (codes "seconds") (rows_of (found_of explore.now))) seconds → ⊥) }
{
    seconds_in(explore, "seconds")
}

/// The seconds that the option of this name gives. `Some(None)` means no bound.
pub(crate) fn seconds_in(options: &ArgMatches<'_>, name: &str) -> Option<Option<u64>>
    ensures said { IfSome result (SaysSeconds (first_of name.now (rows_of (found_of options.now)))) }
    ensures none { IfNone result ((seconds : Option ℕ) →
        SaysSeconds (first_of name.now (rows_of (found_of options.now))) seconds → ⊥) }
{
    match text_of(options, name) {
        Some(text) => Some(Some(number(text, SECONDS)?)),
        None => Some(None),
    }
}

/// The bounds of a search, by the options of `explore` or of `compare`.
pub(crate) fn bounds_of(explore: &ArgMatches<'_>) -> Option<Bounds>
    ensures said { IfSome result (λ b. SaysBounds (rows_of (found_of explore.now)) b.worlds b.entries b.memory) }
    ensures none { IfNone result ((worlds : ℕ) (entries : ℕ) (memory : ℕ) →
        SaysBounds (rows_of (found_of explore.now)) worlds entries memory → ⊥) }
    ensures short { IfSome result (λ b. b.entries ≤ 1000000) }
{
    let worlds = number_of(explore, "worlds", WORLDS)?;
    let entries = number_of(explore, "entries", ENTRIES)?;
    let memory = memory_of(explore)?;
    Some(Bounds {
        worlds: worlds as usize,
        entries: entries as usize,
        memory: memory as usize,
    })
}

// The outcomes that `texts` spell, or `None` if one of the texts spells none.
fn wants_of(alloc: Global, texts: &[&str]) -> Result<Option<Vec<Want>>, AllocError>
    ensures said { IfOk result (λ found. IfSome found (λ wants. AreWants (map (λ s. s.now) texts.now) wants.items)) }
    ensures none { IfOk result (λ found. IfNone found ((wants : List Want) →
        AreWants (map (λ s. s.now) texts.now) wants → ⊥)) }
{
    let mut wants = Vec::new(alloc);
    for text in texts {
        match read_want(text) {
            Some(Want::Ended(outcome)) => wants.push(Want::Ended(outcome))?,
            Some(Want::Unended) => wants.push(Want::Unended)?,
            None => return Ok(None),
        }
    }
    Ok(Some(wants))
}

// The wanted outcomes, by the options of `explore` or of `sample`, or `None` if one of the texts spells none.
fn wants_said(alloc: Global, explore: &ArgMatches<'_>) -> Result<Option<Vec<Want>>, AllocError>
    ensures said { IfOk result (λ found. IfSome found (λ wants.
        AreWants (texts_said (codes "want") (rows_of (found_of explore.now))) wants.items)) }
    ensures none { IfOk result (λ found. IfNone found ((wants : List Want) →
        AreWants (texts_said (codes "want") (rows_of (found_of explore.now))) wants → ⊥)) }
{
    match explore.get_strs("want") {
        Some(texts) => wants_of(alloc, texts),
        None => Ok(Some(Vec::new(alloc))),
    }
}

/// The limits, bounds and wanted outcomes that the options of `explore` give.
pub(crate) fn explore_order(
    alloc: Global,
    explore: &ArgMatches<'_>,
) -> Result<Option<ExploreOrder>, AllocError>
    ensures said { IfOk result (λ found. IfSome found (SaysExplore (rows_of (found_of explore.now)))) }
    ensures none { IfOk result (λ found. IfNone found ((order : ExploreOrder) →
        SaysExplore (rows_of (found_of explore.now)) order → ⊥)) }
{
    let Some(limits) = limits_of(explore, FEW) else {
        return Ok(None);
    };
    let Some(bounds) = bounds_of(explore) else {
        return Ok(None);
    };
    let Some(wants) = wants_said(alloc, explore)? else {
        return Ok(None);
    };
    Ok(Some(ExploreOrder {
        limits,
        bounds,
        wants,
    }))
}

// The exploration that the options of `explore` ask for.
fn exploring_of(alloc: Global, explore: &ArgMatches<'_>) -> Result<Option<Exploring>, AllocError>
    requires { HasNoClaims (rows_of (found_of explore.now)) }
    ensures said { IfOk result (λ found. IfSome found (SaysExploring (rows_of (found_of explore.now)))) }
    ensures none { IfOk result (λ found. IfNone found ((said : Exploring) →
        SaysExploring (rows_of (found_of explore.now)) said → ⊥)) }
{
    let Some(form) = explore_form(explore) else {
        return Ok(None);
    };
    let Some(beside) = beside(explore) else {
        return Ok(None);
    };
    let Some(seconds) = seconds_of(explore) else {
        return Ok(None);
    };
    match explore_order(alloc, explore)? {
        Some(order) => Ok(Some(Exploring {
            order,
            form,
            seconds,
            beside,
        })),
        None => Ok(None),
    }
}

// The seed, the number of schedules, their entries, the limits and the wanted outcomes, by the options of `sample`.
fn sample_order(alloc: Global, sample: &ArgMatches<'_>) -> Result<Option<SampleOrder>, AllocError>
    ensures said { IfOk result (λ found. IfSome found (SaysSample (rows_of (found_of sample.now)))) }
    ensures none { IfOk result (λ found. IfNone found ((order : SampleOrder) →
        SaysSample (rows_of (found_of sample.now)) order → ⊥)) }
{
    let Some(seed) = number_of(sample, "seed", SEED) else {
        return Ok(None);
    };
    let Some(times) = number_of(sample, "times", TIMES) else {
        return Ok(None);
    };
    let Some(entries) = number_of(sample, "entries", ENTRIES) else {
        return Ok(None);
    };
    let Some(limits) = limits_of(sample, FEW) else {
        return Ok(None);
    };
    let Some(wants) = wants_said(alloc, sample)? else {
        return Ok(None);
    };
    Ok(Some(SampleOrder {
        limits,
        seed,
        times: times as u32,
        entries: entries as u32,
        wants,
    }))
}

// The sample that the options of `sample` ask for.
fn sampling_of<'a>(
    alloc: Global,
    sample: &ArgMatches<'a>,
) -> Result<Option<Sampling<'a>>, AllocError>
    ensures said { IfOk result (λ found. IfSome found (SaysSampling (rows_of (found_of sample.now)))) }
    ensures none { IfOk result (λ found. IfNone found ((said : Sampling) →
        SaysSampling (rows_of (found_of sample.now)) said → ⊥)) }
{
    match sample_order(alloc, sample)? {
        Some(order) => Ok(Some(Sampling {
            order,
            json: given(sample, "json"),
            always: texts_of(alloc, sample, "always")?,
            never: texts_of(alloc, sample, "never")?,
            reach: texts_of(alloc, sample, "reach")?,
        })),
        None => Ok(None),
    }
}

// The request that `check` gives with its options.
fn check_request<'a>(options: &ArgMatches<'a>) -> Request<'a>
    ensures { Says (codes "check", rows_of (found_of options.now)) result }
{
    Request::Check(Checking {
        json: given(options, "json"),
        explain: given(options, "explain"),
    })
}

// The request that `show` gives with its options.
fn show_request<'a>(options: &ArgMatches<'a>) -> Request<'a>
    ensures { Says (codes "show", rows_of (found_of options.now)) result }
{
    Request::Show(Showing {
        explain: given(options, "explain"),
    })
}

// The request that a subcommand other than `explore`, `sample` and `test` gives with its options.
fn plain_request<'a>(name: &str, options: &ArgMatches<'a>) -> Option<Request<'a>>
    requires explore { name.now ≢ codes "explore" }
    requires sample { name.now ≢ codes "sample" }
    requires test { name.now ≢ codes "test" }
    ensures { GivesRequest (Some (name.now, rows_of (found_of options.now))) result }
{
    match name {
        "check" => Some(check_request(options)),
        "show" => Some(show_request(options)),
        "replay" => Some(Request::Replay(replay_of(options)?)),
        "run" => Some(Request::Run(running_of(options)?)),
        "compare" => Some(Request::Compare(comparing_of(options)?)),
        "terms" => Some(Request::Terms(translating_of(options)?)),
        _ => None,
    }
}

// The request that `explore` gives with its options.
fn explore_request<'a>(
    alloc: Global,
    options: &ArgMatches<'a>,
) -> Result<Option<Request<'a>>, AllocError>
    ensures { IfOk result (GivesRequest (Some (codes "explore", rows_of (found_of options.now)))) }
{
    match marks_of(options) {
        Some(Marks::All) => whole_request(alloc, options),
        Some(Marks::Says) => says_request(alloc, options),
        Some(Marks::Nothing) => unmarked_request(alloc, options),
        None => Ok(None),
    }
}

// The request of `explore` for reports with says.
fn says_request<'a>(
    alloc: Global,
    options: &ArgMatches<'a>,
) -> Result<Option<Request<'a>>, AllocError>
    requires { SaysMarks (first_of (codes "marks") (rows_of (found_of options.now))) Marks.Says }
    ensures { IfOk result (GivesRequest (Some (codes "explore", rows_of (found_of options.now)))) }
{
    match saying_of(alloc, options)? {
        Some(saying) => Ok(Some(Request::Say(saying))),
        None => Ok(None),
    }
}

// The request of `explore` for reports without marks.
fn unmarked_request<'a>(
    alloc: Global,
    options: &ArgMatches<'a>,
) -> Result<Option<Request<'a>>, AllocError>
    requires { SaysMarks (first_of (codes "marks") (rows_of (found_of options.now))) Marks.Nothing }
    ensures { IfOk result (GivesRequest (Some (codes "explore", rows_of (found_of options.now)))) }
{
    match unmarking_of(alloc, options)? {
        Some(unmarking) => Ok(Some(Request::Unmark(unmarking))),
        None => Ok(None),
    }
}

// The request of `explore` for reports with all marks.
fn whole_request<'a>(
    alloc: Global,
    options: &ArgMatches<'a>,
) -> Result<Option<Request<'a>>, AllocError>
    requires { SaysMarks (first_of (codes "marks") (rows_of (found_of options.now))) Marks.All }
    ensures { IfOk result (GivesRequest (Some (codes "explore", rows_of (found_of options.now)))) }
{
    if has_text(options, "only") {
        return Ok(None);
    }
    marked_request(alloc, options)
}

// The request of `explore` for reports with all marks, without `--only`.
fn marked_request<'a>(
    alloc: Global,
    options: &ArgMatches<'a>,
) -> Result<Option<Request<'a>>, AllocError>
    requires { HasMarks (rows_of (found_of options.now)) }
    ensures { IfOk result (GivesRequest (Some (codes "explore", rows_of (found_of options.now)))) }
{
    if has_claims(options) {
        return match judging_of(alloc, options)? {
            Some(judging) => Ok(Some(Request::Judge(judging))),
            None => Ok(None),
        };
    }
    if given(options, "ends") {
        return match deciding_of(alloc, options)? {
            Some(deciding) => Ok(Some(Request::Decide(deciding))),
            None => Ok(None),
        };
    }
    if given(options, "first") {
        return match seeking_of(alloc, options)? {
            Some(seeking) => Ok(Some(Request::Seek(seeking))),
            None => Ok(None),
        };
    }
    match exploring_of(alloc, options)? {
        Some(exploring) => Ok(Some(Request::Explore(exploring))),
        None => Ok(None),
    }
}

// The request that `sample` gives with its options.
fn sample_request<'a>(
    alloc: Global,
    options: &ArgMatches<'a>,
) -> Result<Option<Request<'a>>, AllocError>
    ensures { IfOk result (GivesRequest (Some (codes "sample", rows_of (found_of options.now)))) }
{
    match sampling_of(alloc, options)? {
        Some(sampling) => Ok(Some(Request::Sample(sampling))),
        None => Ok(None),
    }
}

// The request that `test` gives with its options.
fn test_request<'a>(
    alloc: Global,
    options: &ArgMatches<'a>,
) -> Result<Option<Request<'a>>, AllocError>
    ensures { IfOk result (GivesRequest (Some (codes "test", rows_of (found_of options.now)))) }
{
    match testing_of(alloc, options)? {
        Some(testing) => Ok(Some(Request::Test(testing))),
        None => Ok(None),
    }
}

/// Returns the request that the words make, or `None` if they make none. `AllocError` if memory ran out.
pub fn request_of<'a>(
    alloc: Global,
    matches: &ArgMatches<'a>,
) -> Result<Option<Request<'a>>, AllocError>
    ensures request { IfOk result (GivesRequest (subcommand_rows_of matches.now)) }
{
    let Some((name, options)) = matches.subcommand() else {
        return Ok(None);
    };
    if name == "explore" {
        explore_request(alloc, options)
    } else if name == "sample" {
        sample_request(alloc, options)
    } else if name == "test" {
        test_request(alloc, options)
    } else {
        Ok(plain_request(name, options))
    }
}
