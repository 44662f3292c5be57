//! The flags in the words, and the forms that they ask for.

ghost use Rattle.std.specs.Prelude.{◌≡◌, Bool, codes, IfSome, IfNone, false, option_map, true};
ghost use Rattle.clap.specs.Words.{first_of, found_of, rows_of};
ghost use Rattle.command_words.specs.declared.exploring.Beside.{Beside};
ghost use Rattle.command_words.specs.declared.exploring.ExploreForm.{ExploreForm};
ghost use Rattle.command_words.specs.declared.replay.AnswerForm.{AnswerForm};
ghost use Rattle.command_words.specs.declared.running.RunForm.{RunForm};
ghost use Rattle.command_words.specs.Flags.{IsGiven, SaysBeside, SaysExploreForm, SaysFlag, SaysForm, SaysRunForm};

use crate::exploring::{Beside, ExploreForm};
use crate::replay::AnswerForm;
use crate::running::RunForm;
use clap::ArgMatches;

/// The text of an option, or `None` if the option isn't given.
pub fn text_of<'a>(matches: &ArgMatches<'a>, name: &str) -> Option<&'a str>
    ensures { option_map (λ s. s.now) result ≡ first_of name.now (rows_of (found_of matches.now)) }
{
    matches.get_str(name)
}

/// Whether a flag is given.
pub fn given(options: &ArgMatches<'_>, name: &str) -> bool
    ensures given { result ≡ true → IsGiven name.now (rows_of (found_of options.now)) }
    ensures other { result ≡ false → IsGiven name.now (rows_of (found_of options.now)) → ⊥ }
    ensures said { SaysFlag name.now (rows_of (found_of options.now)) result }
{
    match text_of(options, name) {
        Some("true") => true,
        _ => false,
    }
}

/// The form that the options of `replay` ask for, or `None` if they ask for two.
#[tactic(auto, using(crate::proofs::FormLemmas::timeline_with_svg, crate::proofs::FormLemmas::timeline_with_json, crate::proofs::FormLemmas::svg_with_json))]
pub fn replay_form(options: &ArgMatches<'_>) -> Option<AnswerForm>
    ensures said { IfSome result (SaysForm (rows_of (found_of options.now))) }
    ensures none { IfNone result ((form : AnswerForm) → SaysForm (rows_of (found_of options.now)) form → ⊥) }
{
    let timeline = given(options, "timeline");
    let svg = given(options, "svg");
    let json = given(options, "json");
    if timeline {
        if svg || json {
            None
        } else {
            Some(AnswerForm::Timeline)
        }
    } else if svg {
        if json {
            None
        } else {
            Some(AnswerForm::Picture)
        }
    } else if json {
        Some(AnswerForm::Json)
    } else {
        Some(AnswerForm::Report)
    }
}

/// The form that the options of `explore` ask for, or `None` if they ask for two.
#[tactic(auto, using(crate::proofs::FormLemmas::explored_timeline_with_json))]
pub fn explore_form(options: &ArgMatches<'_>) -> Option<ExploreForm>
    ensures said { IfSome result (SaysExploreForm (rows_of (found_of options.now))) }
    ensures none { IfNone result ((form : ExploreForm) → SaysExploreForm (rows_of (found_of options.now)) form → ⊥) }
{
    let timeline = given(options, "timeline");
    let json = given(options, "json");
    if timeline {
        if json {
            None
        } else {
            Some(ExploreForm::Timeline)
        }
    } else if json {
        Some(ExploreForm::Json)
    } else {
        Some(ExploreForm::Report)
    }
}

/// What is written beside the answer, by the options of `explore`, or `None` if they ask for two things.
#[tactic(auto, using(crate::proofs::FormLemmas::progress_with_reasons))]
pub fn beside(options: &ArgMatches<'_>) -> Option<Beside>
    ensures said { IfSome result (SaysBeside (rows_of (found_of options.now))) }
    ensures none { IfNone result ((beside : Beside) → SaysBeside (rows_of (found_of options.now)) beside → ⊥) }
{
    let progress = given(options, "progress");
    let explain = given(options, "explain");
    if progress {
        if explain {
            None
        } else {
            Some(Beside::Progress)
        }
    } else if explain {
        Some(Beside::Reasons)
    } else {
        Some(Beside::Nothing)
    }
}

/// The form that the options of `run` ask for, and whether reasons are written. `None` if the flags conflict.
#[tactic(auto, using(crate::proofs::FormLemmas::record_with_json, crate::proofs::FormLemmas::record_with_reasons, crate::proofs::FormLemmas::timeline_without_record, crate::proofs::FormLemmas::json_with_reasons))]
pub fn run_form(options: &ArgMatches<'_>) -> Option<(RunForm, bool)>
    ensures said { IfSome result (λ said. SaysRunForm (rows_of (found_of options.now)) said.0 said.1) }
    ensures none { IfNone result ((form : RunForm) (explain : Bool) →
        SaysRunForm (rows_of (found_of options.now)) form explain → ⊥) }
{
    let record = given(options, "record");
    let timeline = given(options, "timeline");
    let json = given(options, "json");
    let explain = given(options, "explain");
    if record {
        if json || explain {
            None
        } else if timeline {
            Some((RunForm::Timeline, false))
        } else {
            Some((RunForm::Record, false))
        }
    } else if timeline {
        None
    } else if json {
        if explain {
            None
        } else {
            Some((RunForm::Json, false))
        }
    } else {
        Some((RunForm::Report, explain))
    }
}
