//! The verdict of a claim over all answers of an exploration.

ghost use Rattle.std.specs.Prelude.{◌≡◌};
ghost use Rattle.claim_verdicts.specs.Judging.{IsJudged, IsShown, decides, plain_verdict, turned, under};

/// Whether a claim is about every answer or about some answer.
#[derive(Clone, Copy, PartialEq, Eq, Debug)]
pub enum Rule {
    /// Every answer meets the condition.
    Every,
    /// Some answer meets the condition.
    Some,
}

/// The truth of a condition at one answer.
#[derive(Clone, Copy, PartialEq, Eq, Debug)]
pub enum Truth {
    /// The condition holds of the answer.
    Holds,
    /// The condition doesn't hold of the answer.
    Fails,
    /// The answer has nothing that the condition is about.
    SaysNothing,
    /// The answer is a fault: a call was refused.
    Faulty,
}

/// Whether a claim holds.
#[derive(Clone, Copy, PartialEq, Eq, Debug)]
pub enum Verdict {
    /// The claim holds.
    Passed,
    /// The claim doesn't hold.
    Failed,
    /// A bound was met, and no answer that was found decides the claim.
    Undecided,
}

/// A verdict, and the answer that decides the claim.
#[derive(Clone, Copy, PartialEq, Eq, Debug)]
pub struct Judged {
    /// The verdict.
    pub verdict: Verdict,
    /// The number of the first answer that decides the claim: one that refutes a claim about every answer, or one that
    /// meets a claim about some answer. None if no answer does.
    pub shown: Option<usize>,
}

// Whether an answer decides a claim by itself.
fn decides(rule: Rule, truth: Truth) -> bool
    ensures { result ≡ decides rule truth }
{
    match rule {
        Rule::Every => match truth {
            Truth::Fails => true,
            Truth::Faulty => true,
            Truth::Holds => false,
            Truth::SaysNothing => false,
        },
        Rule::Some => match truth {
            Truth::Holds => true,
            Truth::Fails => false,
            Truth::Faulty => false,
            Truth::SaysNothing => false,
        },
    }
}

// The number of the first answer that decides a claim, if any.
fn first_decisive(truths: &[Truth], rule: Rule) -> Option<usize>
    ensures { IsShown rule truths.now result }
{
    for at in 0..truths.len() {
        if decides(rule, truths[at]) {
            return Some(at);
        }
    }
    None
}

// The verdict of a claim that isn't under `fails`. `closed` says that there are no other answers.
fn plain_verdict(rule: Rule, shown: Option<usize>, closed: bool) -> Verdict
    ensures { result ≡ plain_verdict rule shown closed }
{
    match shown {
        Some(_) => match rule {
            Rule::Every => Verdict::Failed,
            Rule::Some => Verdict::Passed,
        },
        None => {
            if !closed {
                return Verdict::Undecided;
            }
            match rule {
                Rule::Every => Verdict::Passed,
                Rule::Some => Verdict::Failed,
            }
        }
    }
}

fn turned(verdict: Verdict) -> Verdict
    ensures { result ≡ turned verdict }
{
    match verdict {
        Verdict::Passed => Verdict::Failed,
        Verdict::Failed => Verdict::Passed,
        Verdict::Undecided => Verdict::Undecided,
    }
}

/// Returns the verdict, with passed and failed exchanged if `fails`.
pub fn under(fails: bool, verdict: Verdict) -> Verdict
    ensures { result ≡ under fails verdict }
{
    if fails { turned(verdict) } else { verdict }
}

/// Returns the verdict of a claim over the answers that were found, and the first answer that decides the claim.
/// `fails` says that the claim has to be refuted, and `complete` that there are no other answers.
pub fn judge(truths: &[Truth], rule: Rule, fails: bool, complete: bool) -> Judged
    ensures shown { IsShown rule truths.now result.shown }
    ensures verdict { IsJudged rule complete truths.now result.shown (under fails result.verdict) }
{
    let shown = first_decisive(truths, rule);
    let plain = plain_verdict(rule, shown, complete);
    let verdict = under(fails, plain);
    Judged { verdict, shown }
}
