//! Random schedules behind a search that a bound stopped.

ghost use Rattle.std.specs.Prelude.{◌≡◌, ◌++◌, IfOk, List, ℕ, true};
ghost use Rattle.exploration_text.specs.declared.explore_texts.ExploreOrder.{ExploreOrder as TheOrder};
ghost use Rattle.exploration_text.specs.declared.findings.Finding.{Finding as TheFinding};
ghost use Rattle.exploration_text.specs.Draws.{IsWithDraws, IsWordsBehind};
ghost use Rattle.exploration_text.specs.ExplorationText.{IsSpellable};

use crate::explore_texts::ExploreOrder;
use crate::finding_texts::text_of_finding;
use crate::findings::{Finding, drawn_finding};
use crate::noted::NotedAnswer;
use crate::watched_orders::WatchedOrder;
use effect_term::Program;
use every_schedule::Watcher;
use outcome_trace::{Answer, InWords, Status};
use std::alloc::{AllocError, Global};

/// A form in which a finding is written behind an answer.
pub trait FindingForm {
    // The possible texts of a finding.
    ghost tells: { TheFinding → List ℕ → Type 0 };

    /// The text of a finding. `AllocError` where memory is refused.
    fn finding_text(alloc: Global, finding: &Finding) -> Result<Vec<u8>, AllocError>
        requires { IsSpellable finding.now.answer }
        ensures { IfOk result (λ text. tells finding.now text.items) };
}

impl FindingForm for InWords {
    ghost tells = { IsWordsBehind };

    fn finding_text(alloc: Global, finding: &Finding) -> Result<Vec<u8>, AllocError> {
        let told = text_of_finding(alloc, finding)?;
        let mut text = Vec::from_slice(alloc, b"\n")?;
        text.extend_from_slice(told.as_slice())?;
        Ok(text)
    }
}

/// An order with a search for the outcomes of a program.
pub trait SearchOrder: WatchedOrder {
    /// The form in which a finding is written behind its answer.
    type Findings: FindingForm;

    // The limits, the bounds and the wanted outcomes of the search.
    ghost searches: { Self → TheOrder };

    /// The limits, the bounds and the wanted outcomes of the search.
    fn search_order(&self) -> &ExploreOrder
        ensures { result.now ≡ searches self.now };
}

impl SearchOrder for ExploreOrder {
    type Findings = InWords;

    ghost searches = { λ it. it };

    fn search_order(&self) -> &ExploreOrder {
        self
    }
}

/// Answers as another order does. If a bound stopped the search (`Status::Unended`), and outcomes are wanted, 3,000
/// schedules are drawn at random, as [`first_finding`](crate::first_finding) draws them, until the watcher ends the
/// drawing. The first finding among their ends is written behind the answer, and the status is `Status::Errored`.
#[derive(Drop)]
pub struct WithDraws<W: SearchOrder + Drop> {
    /// The other order.
    pub order: W,
}

impl<W: SearchOrder + Drop> WatchedOrder for WithDraws<W> {
    type Refusals = W::Refusals;

    ghost finds = { λ it timed note t.
        IsWithDraws W.Findings.tells (W.searches it.order) t (W.finds it.order timed note t) };

    fn answer_watched<V: Watcher>(
        &self,
        alloc: Global,
        program: &Program,
        watcher: &mut V,
    ) -> Result<NotedAnswer, AllocError> {
        let noted = self.order.answer_watched(alloc, program, &mut *watcher)?;
        let order = self.order.search_order();
        if order.wants.is_empty() || !is_unended(noted.answer.status) {
            return Ok(noted);
        }
        match drawn_finding(alloc, program, order, watcher)? {
            None => Ok(noted),
            Some(finding) => {
                let told = W::Findings::finding_text(alloc, &finding)?;
                behind(noted, told.as_slice())
            }
        }
    }
}

// Whether the status is that of a search which a bound stopped and which found nothing unwanted.
fn is_unended(status: Status) -> bool
    ensures { result ≡ true → status ≡ Status.Unended }
{
    matches!(status, Status::Unended)
}

// The answer with this text behind its own, with the status of something unwanted.
fn behind(noted: NotedAnswer, told: &[u8]) -> Result<NotedAnswer, AllocError>
    ensures text { IfOk result (λ it. it.answer.text.items ≡ noted.answer.text.items ++ told.now) }
    ensures note { IfOk result (λ it. it.note ≡ noted.note) }
    ensures status { IfOk result (λ it. it.answer.status ≡ Status.Errored) }
{
    let NotedAnswer { answer, note } = noted;
    let Answer { mut text, .. } = answer;
    text.extend_from_slice(told)?;
    Ok(NotedAnswer {
        answer: Answer {
            text,
            status: Status::Errored,
        },
        note,
    })
}
