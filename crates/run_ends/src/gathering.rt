//! The tasks of one registry, gathered into a report.
ghost use Rattle.std.specs.Prelude.{◌≡◌, ◌⊎◌, ℕ, All, IfOk, IfErr, IfSome, IfNone, OnOk, Err as Fails, ◌++◌, ◌∷◌, []};
ghost use Rattle.cell_registry.specs.Passes.{IsOf};
ghost use Rattle.derived_ops.specs.Tree.{Tree};
ghost use Rattle.fiber_poll.specs.Tasks.{IsTaskOf};
ghost use Rattle.scheduled_core.specs.Core.{fiber_report};
ghost use Rattle.scheduled_core.specs.Stands.{IsOfSomeSchedule};
ghost use Rattle.run_ends.specs.Gathering.{IsLawful, IsMissing, TellsEach, TellsNoOther};
ghost use Rattle.run_ends.specs.Private.Gathered.{AreLines, AreMet, IsAtHome, IsIn, IsLeast, IsNowhere, Taken};

use cell_registry::{Pass, Registry, RunError};
use derived_ops::Code;
use effect_term::facts_of;
use fiber_frames::{Ask, Config};
use fiber_poll::FiberTask;
use scheduled_core::{FiberReport, FiberReports, Marks, Report};
use std::alloc::{AllocError, Global};

/// The report of tasks of one registry and one code: all of them belong to this registry, and moves of this code led to
/// each one's state, where each fiber began with as many moves as its parent had left.
///
/// It doesn't matter who moved them, or in which order: the report is that of the core under some schedule. The report
/// has a line for each task, at the number of its fiber, and no other. Returns [`RunError::Lost`] with the least number
/// of a started fiber that has no task among these, which is 0 if there is no task, and [`RunError::NoMemory`] if
/// memory is refused. The tasks are dropped.
pub fn gather<'a>(
    alloc: Global,
    registry: &Registry,
    code: &Code,
    tasks: Vec<FiberTask<'a>>,
) -> Result<Report, RunError>
    requires { (most : ℕ) × All (IsTaskOf registry.now code.now most) tasks.items }
    ensures schedule { IfOk result (λ report. IsOfSomeSchedule code.now registry.now.limits report) }
    ensures lawful { IfOk result (λ report. All IsLawful report.fibers) }
    ensures each { IfOk result (TellsEach tasks.entry.items) }
    ensures only { IfOk result (TellsNoOther tasks.entry.items) }
    ensures lost { IfErr result (λ error. (error ≡ RunError.NoMemory) ⊎
        ((f : ℕ) × (error ≡ RunError.Lost f) × IsMissing registry.now.limits tasks.entry.items f)) }
    ensures empty { tasks.entry.items ≡ [] → result ≡ Fails (RunError.Lost 0) }
{
    let (mut met, configs) = meet(alloc, registry, tasks)?;
    let born = registry.born(&mut met);
    let fibers = lines(alloc, configs.as_slice(), born)?;
    Ok(Report {
        fibers: FiberReports::new(fibers),
    })
}

/// One pass that has met those of all tasks, and the states of their fibers, that of the last task first.
pub(crate) fn meet<'a>(
    alloc: Global,
    registry: &Registry,
    tasks: Vec<FiberTask<'a>>,
) -> Result<(Pass, Vec<Config>), RunError>
    requires { All (IsAtHome registry.now) tasks.items }
    ensures gathered { IfOk result (λ it. (code : Tree) (most : ℕ) →
        All (IsTaskOf registry.now code most) tasks.entry.items →
        AreMet registry.now code most tasks.entry.items it.0 it.1.items) }
    ensures home { IfOk result (λ it. IsOf registry.now it.0) }
    ensures taken { IfOk result (λ it. Taken tasks.entry.items [] it.0 it.1.items) }
    ensures lost { IfErr result (λ error. (error ≡ RunError.NoMemory) ⊎
        ((error ≡ RunError.Lost 0) × (tasks.entry.items ≡ []))) }
    ensures empty { tasks.entry.items ≡ [] → result ≡ Fails (RunError.Lost 0) }
{
    let mut tasks = tasks;
    let many = tasks.len();
    let Some(task) = tasks.pop() else {
        return Err(RunError::Lost(0));
    };
    let mut configs = Vec::with_capacity(alloc, many)?;
    let (pass, config) = task.into_parts();
    facts_of(pass.number());
    let mut met = pass;
    push(&mut configs, config)?;
    while let Some(task) = tasks.pop() {
        let (pass, config) = task.into_parts();
        facts_of(pass.number());
        met = registry.meet(met, pass);
        push(&mut configs, config)?;
    }
    Ok((met, configs))
}

/// Adds a state.
pub(crate) fn push(configs: &mut Vec<Config>, config: Config) -> Result<(), RunError>
    ensures pushed { OnOk result (configs.new.items ≡ configs.old.items ++ config ∷ []) }
    ensures refused { IfErr result (λ error. error ≡ RunError.NoMemory) }
{
    match configs.push(config) {
        Ok(_) => Ok(()),
        Err(_) => Err(RunError::NoMemory),
    }
}

// The reports of the fibers below a number, or the least number whose state is missing.
fn lines(alloc: Global, configs: &[Config], born: u16) -> Result<Vec<FiberReport>, RunError>
    ensures lines { IfOk result (λ it. AreLines configs.now born it.items) }
    ensures lawful { IfOk result (λ it. All IsLawful it.items) }
    ensures lost { IfErr result (λ error. (error ≡ RunError.NoMemory) ⊎
        ((f : ℕ) × (error ≡ RunError.Lost f) × IsLeast configs.now born f)) }
{
    let mut lines = Vec::new(alloc);
    for number in 0..born {
        let Some(config) = find(configs, number) else {
            return Err(RunError::Lost(number));
        };
        let line = line(alloc, config)?;
        match lines.push(line) {
            Ok(_) => {}
            Err(_) => return Err(RunError::NoMemory),
        }
    }
    Ok(lines)
}

// The state of a fiber, if it is one of these. The tasks of a bay come in the order of their numbers, and the last one
// was taken first, so fiber f usually is f places before the end.
fn find(configs: &[Config], number: u16) -> Option<&Config>
    ensures found { IfSome result (λ it. IsIn it.now configs.now number) }
    ensures nowhere { IfNone result (IsNowhere configs.now number) }
{
    let behind = usize::from(number) + 1;
    if behind <= configs.len() {
        let likely = &configs[configs.len() - behind];
        if likely.number() == number {
            return Some(likely);
        }
    }
    for config in configs {
        if config.number() == number {
            return Some(config);
        }
    }
    None
}

// The report of one fiber.
fn line(alloc: Global, config: &Config) -> Result<FiberReport, AllocError>
    ensures line { IfOk result (λ it. it ≡ fiber_report config.now) }
    ensures lawful { IfOk result (λ it. IsLawful it) }
{
    let outcome = match config.ask() {
        Ask::Over(outcome) => Some(outcome),
        _ => None,
    };
    let marks = Vec::from_slice(alloc, config.trace())?;
    Ok(FiberReport {
        outcome,
        marks: Marks::new(marks),
    })
}
