//! The exploration of a text's program, with a timeline for each answer.

ghost use Rattle.std.specs.Prelude.{IfOk, false};
ghost use Rattle.std.specs.List.{All};
ghost use Rattle.cell_registry.specs.Cells.{AreLimits};
ghost use Rattle.exploration_text.specs.ExplorationText.{IsSpellable};
ghost use Rattle.timelines.specs.ExploreTimelines.{IsNotedTold, IsToldExploration, IsToldExplored};
ghost use Rattle.timelines.specs.ExploreTimelines.{IsToldPart, IsToldText};

use crate::timeline_order::push_rows;
use crate::timeline_rows::timeline;
use cell_registry::Limits;
use effect_term::Program;
use every_schedule::{Answer, Exploration, Unwatched, Watcher, explore_watched};
use exploration_text::{
    ExploreOrder, NotedAnswer, SearchOrder, Want, WatchedOrder, exploration_status, first_line,
    is_listed_so, missing_of_exploration, text_of_answer,
};
use fiber_events::replay_events;
use outcome_trace::{InWords, ProgramOrder};
use std::alloc::{AllocError, Global};

/// Answers a text's program with its exploration and timelines: the answer of `ExploreOrder` of `exploration_text`, in
/// which a blank line and a timeline ([`timeline`]) follow each report and each line of a fault. The timeline is that
/// of the replay under the answer's schedule. The first line, the headings, the order of the answers and the status are
/// the same. A refused text is answered only by the line of its refusal, with `Status::Refused`.
#[derive(Drop)]
pub struct ExploreTimelineOrder {
    /// The limits, the bounds and the wanted reports of the exploration.
    pub order: ExploreOrder,
}

impl WatchedOrder for ExploreTimelineOrder {
    type Refusals = InWords;

    ghost finds = { λ it timed note t.
        IsNotedTold t it.order.limits it.order.bounds timed it.order.wants.items note };

    fn answer_watched<V: Watcher>(
        &self,
        alloc: Global,
        program: &Program,
        watcher: &mut V,
    ) -> Result<NotedAnswer, AllocError> {
        let ExploreOrder {
            limits,
            bounds,
            wants,
        } = &self.order;
        let Ok(exploration) = explore_watched(alloc, program, *limits, *bounds, watcher) else {
            return Err(AllocError);
        };
        let wants = wants.as_slice();
        Ok(NotedAnswer {
            note: missing_of_exploration(alloc, &exploration, wants)?,
            answer: outcome_trace::Answer {
                text: told_exploration(alloc, program, *limits, &exploration, wants)?,
                status: exploration_status(&exploration, wants),
            },
        })
    }
}

impl SearchOrder for ExploreTimelineOrder {
    type Findings = InWords;

    ghost searches = { λ it. it.order };

    fn search_order(&self) -> &ExploreOrder {
        &self.order
    }
}

impl ProgramOrder for ExploreTimelineOrder {
    type Refusals = InWords;

    ghost comes = { λ it t. IsToldExplored t it.order.limits it.order.bounds false it.order.wants.items };

    fn answer_program(
        &self,
        alloc: Global,
        program: &Program,
    ) -> Result<outcome_trace::Answer, AllocError> {
        Ok(self.answer_watched(alloc, program, &mut Unwatched)?.answer)
    }
}

// The text of an exploration, with timelines.
fn told_exploration(
    alloc: Global,
    program: &Program,
    limits: Limits,
    exploration: &Exploration,
    wants: &[Want],
) -> Result<Vec<u8>, AllocError>
    requires limits { AreLimits limits }
    requires spelled { All IsSpellable exploration.now.answers }
    ensures { IfOk result (λ text. IsToldExploration wants.now exploration.now text.items) }
{
    let answers = exploration.answers.as_slice();
    let unwanted = told_part(alloc, program, limits, answers, wants, true)?;
    let others = told_part(alloc, program, limits, answers, wants, false)?;
    let mut text = first_line(alloc, exploration)?.into_bytes();
    text.extend_from_slice(unwanted.as_slice())?;
    text.extend_from_slice(others.as_slice())?;
    Ok(text)
}

// The text of the answers that are listed as unwanted, or of the other answers, with timelines.
fn told_part(
    alloc: Global,
    program: &Program,
    limits: Limits,
    answers: &[Answer],
    wants: &[Want],
    unwanted: bool,
) -> Result<Vec<u8>, AllocError>
    requires limits { AreLimits limits }
    requires spelled { All IsSpellable answers.now }
    ensures { IfOk result (λ text. IsToldPart unwanted wants.now answers.now text.items) }
{
    let mut text = Vec::new(alloc);
    for answer in answers {
        if is_listed_so(answer, wants, unwanted) {
            let part = told_text(alloc, program, limits, answer, unwanted)?;
            text.extend_from_slice(part.as_slice())?;
        }
    }
    Ok(text)
}

// The text of an answer, with its timeline.
fn told_text(
    alloc: Global,
    program: &Program,
    limits: Limits,
    answer: &Answer,
    unwanted: bool,
) -> Result<Vec<u8>, AllocError>
    requires limits { AreLimits limits }
    requires spelled { IsSpellable answer.now }
    ensures { IfOk result (λ text. IsToldText unwanted answer.now text.items) }
{
    let told = replay_events(alloc, program, answer.schedule.as_slice(), limits)?;
    let rows = timeline(alloc, &told)?;
    let mut text = text_of_answer(alloc, answer, unwanted)?;
    push_rows(&mut text, rows.as_bytes())?;
    Ok(text)
}
