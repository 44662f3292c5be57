//! The reports of the models that were tested so far.

ghost use Rattle.std.specs.Prelude.{◌≡◌, ◌++◌, ◌∷◌, [], OnOk};
ghost use Rattle.model_suites.specs.Statuses.{IsSuiteStatus, suite_status, verdict_in};

use crate::suite::{Models, SuiteFile, SuiteForm, SuiteOrder, named};
use crate::tested::{Became, Explored, Tested, UndecidedModel};
use model_claims::Verdict;
use model_forms::form_bytes;
use model_reports::{
    HtmlPage, JudgedModel, fault_text, json_report, junit_case, junit_document, listed_model,
    model_details, model_json, model_line, summary, tap_model,
};
use model_terms::SourceFault;
use model_text::Model;
use serde_json::Value;
use std::alloc::{AllocError, Global};
use suite_statuses::status_of;
use text_io::Status;

/// The reports of the models that were tested so far, without what is printed at once.
#[derive(Drop)]
pub struct Told {
    /// The number of models that are tested in all.
    pub models: usize,
    /// The verdict of each model that was tested so far, in their order. Empty if the models are only listed.
    pub verdicts: Vec<Verdict>,
    /// The number of bytes that were printed of them.
    pub printed: usize,
    alloc: Global,
    // What is printed after the lines of all models.
    details: Vec<u8>,
    // Each model as JSON.
    values: Vec<Value>,
    // Each model as a test case of JUnit.
    cases: Vec<u8>,
    // The page of the models.
    page: HtmlPage,
}

impl Told {
    /// Returns the reports of `models` models before any was tested.
    pub(crate) fn new(alloc: Global, models: usize) -> Told
        ensures models { result.models ≡ models }
        ensures none { result.verdicts.items ≡ [] }
    {
        Told {
            models,
            verdicts: Vec::new(alloc),
            printed: 0,
            alloc,
            details: Vec::new(alloc),
            values: Vec::new(alloc),
            cases: Vec::new(alloc),
            page: HtmlPage::new(alloc),
        }
    }

    /// Adds the result of a model, and returns what is printed of the model at once.
    pub(crate) fn add(
        &mut self,
        alloc: Global,
        models: &Models<'_>,
        tested: Tested,
    ) -> Result<Vec<u8>, AllocError>
        ensures { OnOk result (self.new.verdicts.items ≡ self.old.verdicts.items ++ verdict_in tested.became) }
    {
        let Some(entry) = models.entries.get(tested.index) else {
            return Err(AllocError);
        };
        let Some(file) = models.files.get(entry.file) else {
            return Err(AllocError);
        };
        match tested.became {
            Became::Listed => listed_model(alloc, named(file), &file.source, &entry.model),
            Became::Refused(fault) => self.add_refused(alloc, file, &entry.model, &fault),
            Became::Explored(explored) => {
                self.add_explored(alloc, &models.order, file, &entry.model, &explored)
            }
            Became::Undecided(undecided) => {
                self.add_undecided(alloc, &models.order, file, &entry.model, &undecided)
            }
        }
    }

    // Adds the result of a model that was explored.
    fn add_explored(
        &mut self,
        alloc: Global,
        order: &SuiteOrder<'_>,
        file: &SuiteFile<'_>,
        model: &Model,
        explored: &Explored,
    ) -> Result<Vec<u8>, AllocError>
        ensures { OnOk result (self.new.verdicts.items ≡
            self.old.verdicts.items ++ explored.now.result.verdict ∷ []) }
    {
        let judged = JudgedModel {
            file: named(file),
            source: &file.source,
            model,
            result: &explored.result,
            milliseconds: explored.milliseconds,
            unexplored: None,
        };
        self.verdicts.push(explored.result.verdict)?;
        self.add_reports(alloc, order, judged)?;
        self.add_form(alloc, order, judged)
    }

    // Adds a model without a result of a search.
    fn add_undecided(
        &mut self,
        alloc: Global,
        order: &SuiteOrder<'_>,
        file: &SuiteFile<'_>,
        model: &Model,
        undecided: &UndecidedModel,
    ) -> Result<Vec<u8>, AllocError>
        ensures { OnOk result (self.new.verdicts.items ≡ self.old.verdicts.items ++ Verdict.Undecided ∷ []) }
    {
        let judged = JudgedModel {
            file: named(file),
            source: &file.source,
            model,
            result: &undecided.result,
            milliseconds: undecided.milliseconds,
            unexplored: Some(undecided.why),
        };
        self.verdicts.push(undecided.result.verdict)?;
        self.add_reports(alloc, order, judged)?;
        self.add_form(alloc, order, judged)
    }

    // Adds a model to the reports that are wanted besides what is printed.
    fn add_reports(
        &mut self,
        alloc: Global,
        order: &SuiteOrder<'_>,
        judged: JudgedModel<'_>,
    ) -> Result<(), AllocError>
        ensures { self.new.verdicts.items ≡ self.old.verdicts.items }
    {
        if order.junit {
            let case = junit_case(alloc, judged)?;
            self.cases.extend_from_slice(case.as_slice())?;
        }
        if order.html {
            self.page.add(judged)?;
        }
        Ok(())
    }

    // Adds a model to what is printed, and returns what is printed at once.
    fn add_form(
        &mut self,
        alloc: Global,
        order: &SuiteOrder<'_>,
        judged: JudgedModel<'_>,
    ) -> Result<Vec<u8>, AllocError>
        ensures { self.new.verdicts.items ≡ self.old.verdicts.items }
    {
        match order.form {
            SuiteForm::Report => {
                let details = model_details(alloc, judged, order.filter.is_some())?;
                self.details.extend_from_slice(details.as_slice())?;
                model_line(alloc, judged, order.color)
            }
            SuiteForm::Json => {
                let value = model_json(alloc, judged)?;
                self.values.push(value)?;
                Ok(Vec::new(alloc))
            }
            SuiteForm::Tap => tap_model(alloc, self.verdicts.len(), judged),
            SuiteForm::List => Ok(Vec::new(alloc)),
        }
    }

    // Adds a model of a file that was refused for this fault.
    fn add_refused(
        &mut self,
        alloc: Global,
        file: &SuiteFile<'_>,
        model: &Model,
        fault: &SourceFault,
    ) -> Result<Vec<u8>, AllocError>
        ensures { OnOk result (self.new.verdicts.items ≡ self.old.verdicts.items ++ Verdict.Failed ∷ []) }
    {
        let reason = fault_text(alloc, named(file), fault)?;
        let name = form_bytes(file.source.text.as_slice(), model.name);
        self.verdicts.push(Verdict::Failed)?;
        self.page
            .add_refused(file.name.as_bytes(), name, reason.as_slice())?;
        self.details.extend_from_slice(reason.as_slice())?;
        Ok(Vec::new(alloc))
    }

    /// Returns what is printed after all models.
    pub(crate) fn ending(&mut self, alloc: Global, form: SuiteForm) -> Result<Vec<u8>, AllocError>
        ensures { self.new.verdicts.items ≡ self.old.verdicts.items }
    {
        match form {
            SuiteForm::Report => {
                let last = summary(alloc, self.verdicts.as_slice())?;
                let mut text = Vec::from_slice(alloc, self.details.as_slice())?;
                text.extend_from_slice(last.as_slice())?;
                Ok(text)
            }
            SuiteForm::Json => {
                let values = std::mem::replace(&mut self.values, Vec::new(alloc));
                json_report(alloc, self.verdicts.as_slice(), values)
            }
            SuiteForm::Tap | SuiteForm::List => Ok(Vec::new(alloc)),
        }
    }

    /// Returns the report for CI. `AllocError` if memory runs out.
    pub fn junit(&self) -> Result<Vec<u8>, AllocError> {
        junit_document(self.alloc, self.verdicts.as_slice(), self.cases.as_slice())
    }

    /// Returns the page of the models that were tested. `AllocError` if memory runs out.
    pub fn html(&self) -> Result<Vec<u8>, AllocError> {
        self.page.document(self.verdicts.as_slice())
    }

    /// Returns the status of the models that were tested: 1 if one failed or there is none to test, else 3 if one is
    /// undecided, else 0. The status of models that are only listed is 0.
    #[tactic(auto, using(crate::proofs::Known::known))]
    pub fn status(&self) -> Status
        ensures verdicts { result ≡ suite_status self.now.models self.now.verdicts.items }
        ensures known { IsSuiteStatus result }
    {
        if self.models == 0 {
            return Status::Errored;
        }
        status_of(self.verdicts.as_slice())
    }
}
