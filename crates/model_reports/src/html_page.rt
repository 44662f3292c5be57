//! Reports as a page of HTML.

use crate::digits::{push_number, push_word};
use crate::escaped::push_escaped;
use crate::html_models::{html_word, push_html_model, push_html_refused, push_verdict};
use crate::html_style::PAGE_STYLE;
use crate::judged::{JudgedModel, name_of};
use crate::verdicts::counts_of;
use model_claims::Verdict;
use std::alloc::{AllocError, Global};
use timelines::STYLE;

/// The bytes with which each page begins, up to its generator.
pub const HTML_HEAD: &str =
    "<!DOCTYPE html>\n<html lang=\"en\">\n<head>\n<meta charset=\"utf-8\">\n\
    <meta name=\"generator\" content=\"fiber_cli test\">\n";

/// A page of models, which are added one after another.
#[derive(Drop)]
pub struct HtmlPage {
    alloc: Global,
    // The number of models that were added.
    count: usize,
    // The file of the last model.
    file: Vec<u8>,
    // A link to each model that didn't pass.
    links: Vec<u8>,
    // The models, after the names of their files.
    models: Vec<u8>,
}

impl HtmlPage {
    /// Returns a page without models.
    pub fn new(alloc: Global) -> HtmlPage {
        HtmlPage {
            alloc,
            count: 0,
            file: Vec::new(alloc),
            links: Vec::new(alloc),
            models: Vec::new(alloc),
        }
    }

    /// Adds a model with its verdict and its claims. Below each claim is what decides the claim: what was found, the
    /// schedule, and its timeline as a table and as a picture. `AllocError` if memory runs out.
    pub fn add(&mut self, judged: JudgedModel) -> Result<(), AllocError> {
        let name = name_of(judged.source, judged.model);
        self.begin_model(judged.file.name, name, judged.result.verdict)?;
        push_html_model(&mut self.models, self.alloc, judged, self.count)
    }

    /// Adds a model of a file that was refused, with the text of its fault. `AllocError` if memory runs out.
    pub fn add_refused(
        &mut self,
        file: &[u8],
        name: &[u8],
        reason: &[u8],
    ) -> Result<(), AllocError> {
        self.begin_model(file, name, Verdict::Failed)?;
        push_html_refused(&mut self.models, self.alloc, name, reason, self.count)
    }

    // Adds the name of a file, if the last model has another file, and a link, if the model didn't pass.
    fn begin_model(
        &mut self,
        file: &[u8],
        name: &[u8],
        verdict: Verdict,
    ) -> Result<(), AllocError> {
        self.count = self.count.saturating_add(1);
        if self.count == 1 || self.file.as_slice() != file {
            push_word(&mut self.models, "<h2>")?;
            push_escaped(&mut self.models, self.alloc, file)?;
            push_word(&mut self.models, "</h2>\n")?;
            self.file = Vec::from_slice(self.alloc, file)?;
        }
        match verdict {
            Verdict::Passed => Ok(()),
            Verdict::Failed | Verdict::Undecided => self.push_link(name, verdict),
        }
    }

    // Adds a link to the last model.
    fn push_link(&mut self, name: &[u8], verdict: Verdict) -> Result<(), AllocError> {
        push_word(&mut self.links, "<li>")?;
        push_verdict(&mut self.links, verdict)?;
        push_word(&mut self.links, "<a href=\"#m")?;
        push_number(&mut self.links, self.count)?;
        push_word(&mut self.links, "\">")?;
        push_escaped(&mut self.links, self.alloc, name)?;
        push_word(&mut self.links, "</a></li>\n")
    }

    /// Returns the page. The page has its style in it, has no scripts, and loads nothing. `verdicts` are those of its
    /// models. `AllocError` if memory runs out.
    pub fn document(&self, verdicts: &[Verdict]) -> Result<Vec<u8>, AllocError> {
        let mut told = Vec::new(self.alloc);
        push_head(&mut told, verdicts)?;
        if !self.links.is_empty() {
            push_word(&mut told, "<ul class=\"claims\">\n")?;
            told.extend_from_slice(self.links.as_slice())?;
            push_word(&mut told, "</ul>\n")?;
        }
        told.extend_from_slice(self.models.as_slice())?;
        push_word(&mut told, "</body>\n</html>\n")?;
        Ok(told)
    }
}

// Adds the beginning of a page: its style, that of its pictures, and how many models passed, failed and are undecided.
fn push_head(told: &mut Vec<u8>, verdicts: &[Verdict]) -> Result<(), AllocError> {
    push_word(told, HTML_HEAD)?;
    push_word(
        told,
        "<meta name=\"viewport\" content=\"width=device-width, initial-scale=1\">\n<title>",
    )?;
    let counts = counts_of(verdicts);
    push_number(told, counts.passed)?;
    push_word(told, " passed, ")?;
    push_number(told, counts.failed)?;
    push_word(told, " failed, ")?;
    push_number(told, counts.undecided)?;
    push_word(told, " undecided</title>\n")?;
    push_word(told, PAGE_STYLE)?;
    push_word(
        told,
        "</head>\n<body>\n<svg class=\"none\" width=\"0\" height=\"0\" aria-hidden=\"true\">\n",
    )?;
    push_word(told, STYLE)?;
    push_word(
        told,
        "</svg>\n<h1>Tested models</h1>\n<ul class=\"counts\">",
    )?;
    push_counted(told, Verdict::Passed, counts.passed)?;
    push_counted(told, Verdict::Failed, counts.failed)?;
    push_counted(told, Verdict::Undecided, counts.undecided)?;
    push_word(told, "</ul>\n")
}

// Adds the number of models with a verdict.
fn push_counted(told: &mut Vec<u8>, verdict: Verdict, count: usize) -> Result<(), AllocError> {
    push_word(told, "<li class=\"")?;
    push_word(told, html_word(verdict))?;
    push_word(told, "\">")?;
    push_number(told, count)?;
    told.push(b' ')?;
    push_word(told, html_word(verdict))?;
    push_word(told, "</li>")
}
