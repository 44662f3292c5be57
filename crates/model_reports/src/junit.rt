//! Reports in the format of JUnit.

use crate::claim_details::model_details;
use crate::digits::{push_about, push_seconds, push_word};
use crate::escaped::push_escaped;
use crate::judged::{JudgedModel, name_of};
use crate::unexplored::undecided_words;
use crate::verdicts::counts_of;
use model_claims::Verdict;
use std::alloc::{AllocError, Global};

/// The bytes with which each document begins, up to the number of its models.
pub const JUNIT_HEAD: &str =
    "<?xml version=\"1.0\" encoding=\"UTF-8\"?>\n<testsuite name=\"fiber_cli\" tests=\"";

/// Returns a document of test cases, each made by [`junit_case`]. `verdicts` are those of its models. `AllocError` if
/// memory runs out.
pub fn junit_document(
    alloc: Global,
    verdicts: &[Verdict],
    cases: &[u8],
) -> Result<Vec<u8>, AllocError> {
    let counts = counts_of(verdicts);
    let mut told = Vec::new(alloc);
    push_about(&mut told, JUNIT_HEAD, verdicts.len())?;
    push_about(&mut told, "\" failures=\"", counts.failed)?;
    push_about(&mut told, "\" errors=\"0\" skipped=\"", counts.undecided)?;
    push_word(&mut told, "\">\n")?;
    told.extend_from_slice(cases)?;
    push_word(&mut told, "</testsuite>\n")?;
    Ok(told)
}

/// Returns a model as a test case: passed, failed, or skipped if the model is undecided. The last two have the details
/// of the model's claims. `AllocError` if memory runs out.
pub fn junit_case(alloc: Global, judged: JudgedModel) -> Result<Vec<u8>, AllocError> {
    let mut told = Vec::new(alloc);
    push_word(&mut told, "  <testcase classname=\"")?;
    push_escaped(&mut told, alloc, judged.file.name)?;
    push_word(&mut told, "\" name=\"")?;
    push_escaped(&mut told, alloc, name_of(judged.source, judged.model))?;
    push_word(&mut told, "\" time=\"")?;
    push_seconds(&mut told, judged.milliseconds)?;
    push_word(&mut told, "\"")?;
    match judged.result.verdict {
        Verdict::Passed => push_word(&mut told, "/>\n")?,
        Verdict::Failed => push_element(&mut told, alloc, judged, FAILURE)?,
        Verdict::Undecided => push_element(&mut told, alloc, judged, SKIPPED)?,
    }
    Ok(told)
}

// The tags around the details of a model.
#[derive(Clone, Copy)]
struct Element {
    start: &'static str,
    message: &'static str,
    end: &'static str,
}

// The tags for a model that failed.
const FAILURE: Element = Element {
    start: ">\n    <failure message=\"",
    message: "a claim failed",
    end: "</failure>\n  </testcase>\n",
};

// The tags for a model that is undecided. Their message is why it is.
const SKIPPED: Element = Element {
    start: ">\n    <skipped message=\"",
    message: "a bound was met",
    end: "</skipped>\n  </testcase>\n",
};

// Adds the details of a model between these tags.
fn push_element(
    told: &mut Vec<u8>,
    alloc: Global,
    judged: JudgedModel,
    element: Element,
) -> Result<(), AllocError> {
    let details = model_details(alloc, judged, false)?;
    push_word(told, element.start)?;
    push_word(told, undecided_words(judged).unwrap_or(element.message))?;
    push_word(told, "\">")?;
    push_escaped(told, alloc, details.as_slice())?;
    push_word(told, element.end)
}
