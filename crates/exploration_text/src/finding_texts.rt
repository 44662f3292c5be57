//! The answer to a text whose program is explored until a finding.

ghost use Rattle.std.specs.Prelude.{◌≡◌, IfOk};
ghost use Rattle.exploration_text.specs.ExplorationText.{IsSpellable};
ghost use Rattle.exploration_text.specs.Findings.{IsFindingText, IsFirstAnswer, extent_text, source_text};

use crate::explore_texts::ExploreOrder;
use crate::findings::{Finding, First, first_finding};
use crate::missing::missing_of_exploration;
use crate::noted::NotedAnswer;
use crate::texts::{end_text, exploration_status, text_of_exploration};
use crate::watched_orders::WatchedOrder;
use effect_term::Program;
use every_schedule::Watcher;
use outcome_trace::{Answer, InWords, Status, schedule_text};
use std::alloc::{AllocError, Global};

/// Answers a text by the first finding of its program ([`first_finding`]), with `Status::Errored`. If there is none,
/// the answer is that of [`ExploreOrder`], with a note that names the wanted outcomes to which no schedule comes. A
/// refused text is answered by the line of its refusal, with `Status::Refused`.
#[derive(Drop)]
pub struct FirstOrder {
    /// The limits, the bounds and the wanted outcomes.
    pub order: ExploreOrder,
}

impl WatchedOrder for FirstOrder {
    type Refusals = InWords;

    ghost finds = { λ it timed note t.
        IsFirstAnswer t it.order.limits it.order.bounds timed it.order.wants.items note };

    fn answer_watched<V: Watcher>(
        &self,
        alloc: Global,
        program: &Program,
        watcher: &mut V,
    ) -> Result<NotedAnswer, AllocError> {
        let wants = self.order.wants.as_slice();
        match first_finding(alloc, program, &self.order, watcher)? {
            First::Found(finding) => Ok(NotedAnswer {
                answer: Answer {
                    text: text_of_finding(alloc, &finding)?,
                    status: Status::Errored,
                },
                note: Vec::new(alloc),
            }),
            First::Explored(exploration) => Ok(NotedAnswer {
                answer: Answer {
                    text: text_of_exploration(alloc, &exploration, wants)?,
                    status: exploration_status(&exploration, wants),
                },
                note: missing_of_exploration(alloc, &exploration, wants)?,
            }),
        }
    }
}

/// The text of a finding: how it was found, whether its end is final, its schedule, and its end as a replay writes it.
pub(crate) fn text_of_finding(alloc: Global, finding: &Finding) -> Result<Vec<u8>, AllocError>
    requires { IsSpellable finding.now.answer }
    ensures { IfOk result (λ text. IsFindingText finding.now text.items) }
{
    let schedule = schedule_text(alloc, finding.answer.schedule.as_slice())?;
    let end = end_text(alloc, &finding.answer.end)?;
    let mut text = Vec::from_slice(alloc, source_text(finding.drawn))?;
    text.extend_from_slice(extent_text(finding.last))?;
    text.push(b'"')?;
    text.extend_from_slice(schedule.as_bytes())?;
    text.extend_from_slice(b"\"\n")?;
    text.extend_from_slice(end.as_slice())?;
    Ok(text)
}

// How a finding was found.
fn source_text(drawn: bool) -> &'static [u8]
    ensures { result.now ≡ source_text drawn }
{
    if drawn {
        b"found at random: not wanted, "
    } else {
        b"found by search: not wanted, "
    }
}

// Whether more entries can change the end of a finding.
fn extent_text(last: bool) -> &'static [u8]
    ensures { result.now ≡ extent_text last }
{
    if last {
        b"final, under "
    } else {
        b"others may go on, under "
    }
}
