//! The answer to a program on workers, without its schedule.

ghost use Rattle.std.specs.Prelude.{◌≡◌, ◌<◌, IfOk};
ghost use Rattle.cell_registry.specs.Cells.{AreLimits};
ghost use Rattle.command_line.specs.Workers.{IsJsonWorkersAnswer, IsWorkersAnswer};
ghost use Rattle.outcome_trace.specs.Answers.{IsRefusalAnswer, IsRefused};
ghost use Rattle.outcome_trace.specs.Lines.{run_line};
ghost use Rattle.steal_pool.specs.Runs.{limits_of};

use cell_registry::RunError;
use effect_term::Program;
use json_answers::{fault_json_answer, report_json_answer};
use outcome_trace::{Answer, Refused, Status, line, refusal, report_answer};
use std::alloc::{AllocError, Global};
use std::sync::Wait;
use std::thread::Threads;
use steal_pool::{OpenGate, Options, run};

/// The answer to a run that ended with a fault, which can be that memory ran out in the run.
pub fn fault_answer(alloc: Global, error: RunError) -> Result<Answer, AllocError>
    ensures line { IfOk result (λ a. a.text.items ≡ run_line error) }
    ensures status { IfOk result (λ a. a.status ≡ Status.Fault) }
{
    Ok(Answer {
        text: line(alloc, &Refused::Run(error))?,
        status: Status::Fault,
    })
}

/// The answer to a refused text, in words. `AllocError` if memory ran out, also if that is why the text is refused.
pub fn text_refusal(alloc: Global, text: &[u8], refused: Refused) -> Result<Answer, AllocError>
    requires { IsRefused text.now refused }
    ensures { IfOk result (λ a. IsRefusalAnswer text.now a.text.items a.status) }
{
    // Only the contract uses the text.
    let _ = text;
    refusal(alloc, refused)
}

/// The answer to a program on workers. `AllocError` if memory ran out for the text of the answer.
pub fn run_answer<R: Threads + Wait + Sync>(
    rt: &R,
    alloc: Global,
    program: Program,
    options: Options,
) -> Result<Answer, AllocError>
    requires limits { AreLimits (limits_of options) }
    requires budget { 1 < options.budget }
    ensures { IfOk result (λ a. IsWorkersAnswer program options a.text.items a.status) }
{
    let ended = run(rt, alloc, program, options, &OpenGate);
    match ended {
        Ok(report) => report_answer(alloc, &report),
        Err(error) => fault_answer(alloc, error),
    }
}

/// The same as JSON.
pub fn json_answer<R: Threads + Wait + Sync>(
    rt: &R,
    alloc: Global,
    program: Program,
    options: Options,
) -> Result<Answer, AllocError>
    requires limits { AreLimits (limits_of options) }
    requires budget { 1 < options.budget }
    ensures { IfOk result (λ a. IsJsonWorkersAnswer program options a.text.items a.status) }
{
    match run(rt, alloc, program, options, &OpenGate) {
        Ok(report) => report_json_answer(alloc, &report),
        Err(error) => fault_json_answer(alloc, error),
    }
}
