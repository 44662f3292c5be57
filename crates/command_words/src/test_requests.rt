//! The test of model files that the words of a command line ask for.

ghost use Rattle.std.specs.Prelude.{◌≡◌, ◌++◌, codes, IfNone, IfOk, IfSome, Some, map, option_map};
ghost use Rattle.clap.specs.Words.{first_of, found_of, rows_of};
ghost use Rattle.command_words.specs.declared.testing.TestForm.{TestForm};
ghost use Rattle.command_words.specs.declared.testing.Testing.{Testing};
ghost use Rattle.command_words.specs.declared.testing.Translating.{Translating};
ghost use Rattle.command_words.specs.declared.testing.Coloring.{Coloring};
ghost use Rattle.command_words.specs.Flags.{SaysColoring, SaysTestForm};
ghost use Rattle.command_words.specs.Requests.{SaysTesting, SaysTranslating, texts_said};

use crate::flags::{given, text_of};
use crate::ranges::{JOBS, MODEL_WORLDS};
use crate::requests::{memory_of, number_of, seconds_in, seconds_of};
use crate::testing::{Coloring, TestForm, Testing, Translating};
use clap::ArgMatches;
use std::alloc::{AllocError, Global};

// The form that the options of `test` ask for, or `None` if they ask for two.
#[tactic(auto, using(crate::proofs::TestLemmas::list_with_json, crate::proofs::TestLemmas::list_with_tap, crate::proofs::TestLemmas::json_with_tap))]
fn test_form(test: &ArgMatches<'_>) -> Option<TestForm>
    ensures said { IfSome result (SaysTestForm (rows_of (found_of test.now))) }
    ensures none { IfNone result ((form : TestForm) → SaysTestForm (rows_of (found_of test.now)) form → ⊥) }
{
    let list = given(test, "list");
    let json = given(test, "json");
    let tap = given(test, "tap");
    if list {
        if json || tap {
            None
        } else {
            Some(TestForm::List)
        }
    } else if json {
        if tap { None } else { Some(TestForm::Json) }
    } else if tap {
        Some(TestForm::Tap)
    } else {
        Some(TestForm::Report)
    }
}

// A copy of `texts`.
fn copied<'a>(alloc: Global, texts: &[&'a str]) -> Result<Vec<&'a str>, AllocError>
    ensures { IfOk result (λ copy. map (λ s. s.now) copy.items ≡ map (λ s. s.now) texts.now) }
{
    let mut copy = Vec::new(alloc);
    for text in texts {
        copy.push(*text)?;
    }
    Ok(copy)
}

/// The texts of an option; none if it isn't given.
pub(crate) fn texts_of<'a>(
    alloc: Global,
    options: &ArgMatches<'a>,
    name: &str,
) -> Result<Vec<&'a str>, AllocError>
    ensures { IfOk result (λ texts. map (λ s. s.now) texts.items ≡
        texts_said name.now (rows_of (found_of options.now))) }
{
    match options.get_strs(name) {
        Some(texts) => copied(alloc, texts),
        None => Ok(Vec::new(alloc)),
    }
}

/// When verdicts have colours, by a text, or `None` if the text is none of the three that are accepted.
#[tactic(auto, using(crate::proofs::TestLemmas::no_color))]
pub(crate) fn coloring(text: &str) -> Option<Coloring>
    ensures said { IfSome result (SaysColoring (Some text.now)) }
    ensures none { IfNone result ((color : Coloring) → SaysColoring (Some text.now) color → ⊥) }
{
    match text {
        "auto" => Some(Coloring::Auto),
        "always" => Some(Coloring::Always),
        "never" => Some(Coloring::Never),
        _ => None,
    }
}

// When verdicts have colours, by the options of `test`.
fn coloring_of(test: &ArgMatches<'_>) -> Option<Coloring>
    ensures said { IfSome result (SaysColoring (first_of (codes "color") (rows_of (found_of test.now)))) }
    ensures none { IfNone result ((color : Coloring) →
        SaysColoring (first_of (codes "color") (rows_of (found_of test.now))) color → ⊥) }
{
    match text_of(test, "color") {
        Some(text) => coloring(text),
        None => Some(Coloring::Auto),
    }
}

/// The test that the options of `test` ask for, or `None` if they conflict or a value is wrong.
pub(crate) fn testing_of<'a>(
    alloc: Global,
    test: &ArgMatches<'a>,
) -> Result<Option<Testing<'a>>, AllocError>
    ensures said { IfOk result (λ found. IfSome found (SaysTesting (rows_of (found_of test.now)))) }
    ensures none { IfOk result (λ found. IfNone found ((said : Testing) →
        SaysTesting (rows_of (found_of test.now)) said → ⊥)) }
{
    let Some(form) = test_form(test) else {
        return Ok(None);
    };
    let Some(worlds) = number_of(test, "worlds", MODEL_WORLDS) else {
        return Ok(None);
    };
    let Some(memory) = memory_of(test) else {
        return Ok(None);
    };
    let Some(seconds) = seconds_of(test) else {
        return Ok(None);
    };
    let Some(total_seconds) = seconds_in(test, "total-seconds") else {
        return Ok(None);
    };
    let Some(jobs) = number_of(test, "jobs", JOBS) else {
        return Ok(None);
    };
    let Some(color) = coloring_of(test) else {
        return Ok(None);
    };
    let files = texts_of(alloc, test, "files")?;
    let filter = text_of(test, "filter");
    let junit = text_of(test, "junit");
    let html = text_of(test, "html");
    let progress = given(test, "progress");
    Ok(Some(Testing {
        files,
        filter,
        junit,
        html,
        worlds,
        memory,
        seconds,
        total_seconds,
        jobs,
        form,
        color,
        progress,
    }))
}

/// The translation that the options of `terms` ask for.
pub(crate) fn translating_of<'a>(terms: &ArgMatches<'a>) -> Option<Translating<'a>>
    ensures said { IfSome result (SaysTranslating (rows_of (found_of terms.now))) }
    ensures none { IfNone result ((said : Translating) → SaysTranslating (rows_of (found_of terms.now)) said → ⊥) }
{
    let file = text_of(terms, "file")?;
    Some(Translating { file })
}
