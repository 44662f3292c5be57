//! Why words that `clap` accepts give no request.

use crate::flags::{given, text_of};
use crate::judge_requests::has_claims;
use crate::marks::Marks;
use crate::memory::bytes_of;
use crate::test_requests::coloring;
use crate::unmark_requests::{marks_said, only_of};
use clap::ArgMatches;
use exploration_text::read_want;
use std::alloc::{AllocError, Global};
use text_io::push_shown;

// Two flags of a subcommand that don't go together, and why.
#[derive(Clone, Copy)]
struct Conflict {
    subcommand: &'static str,
    first: &'static str,
    second: &'static str,
    why: &'static str,
}

// The flags that don't go together, in the order in which they are reported.
const CONFLICTS: &[Conflict] = &[
    Conflict {
        subcommand: "replay",
        first: "timeline",
        second: "svg",
        why: "a timeline is text, and a picture is one SVG document",
    },
    Conflict {
        subcommand: "replay",
        first: "timeline",
        second: "json",
        why: "a timeline is text",
    },
    Conflict {
        subcommand: "replay",
        first: "svg",
        second: "json",
        why: "a picture is one SVG document",
    },
    Conflict {
        subcommand: "explore",
        first: "progress",
        second: "explain",
        why: "standard error has the lines of progress or the reasons",
    },
    Conflict {
        subcommand: "explore",
        first: "timeline",
        second: "json",
        why: "a timeline is text",
    },
    Conflict {
        subcommand: "explore",
        first: "timeline",
        second: "first",
        why: "a finding has no timeline, but 'replay --timeline' writes that of its schedule",
    },
    Conflict {
        subcommand: "explore",
        first: "timeline",
        second: "ends",
        why: "this answer has no timelines, but 'replay --timeline' writes that of a schedule",
    },
    Conflict {
        subcommand: "explore",
        first: "first",
        second: "ends",
        why: "one ends at the first finding, and the other needs every schedule",
    },
    Conflict {
        subcommand: "run",
        first: "record",
        second: "json",
        why: "the line of the schedule is text",
    },
    Conflict {
        subcommand: "run",
        first: "record",
        second: "explain",
        why: "'replay --explain' writes the reasons under the recorded schedule",
    },
    Conflict {
        subcommand: "run",
        first: "json",
        second: "explain",
        why: "a run has reasons beside its text alone",
    },
    Conflict {
        subcommand: "test",
        first: "list",
        second: "json",
        why: "one writes the names of the models, and the other their results",
    },
    Conflict {
        subcommand: "test",
        first: "list",
        second: "tap",
        why: "one writes the names of the models, and the other their results",
    },
    Conflict {
        subcommand: "test",
        first: "json",
        second: "tap",
        why: "the results have one form on standard output",
    },
];

/// Why words that `clap` accepts give no request: two flags conflict, a flag needs another, or a value is wrong.
pub fn no_request_reason(alloc: Global, matches: &ArgMatches<'_>) -> Result<String, AllocError> {
    let Some((subcommand, options)) = matches.subcommand() else {
        return String::from_str(alloc, "a subcommand is needed");
    };
    if let Some(conflict) = first_conflict(subcommand, options) {
        return conflict_reason(alloc, conflict);
    }
    if let Some(reason) = claims_conflict(alloc, subcommand, options)? {
        return Ok(reason);
    }
    if subcommand == "explore"
        && let Some(reason) = marks_reason(alloc, options)?
    {
        return Ok(reason);
    }
    if subcommand == "run" && given(options, "timeline") {
        let reason =
            "'--timeline' needs '--record': the timeline is that of the recorded schedule; add '--record'";
        return String::from_str(alloc, reason);
    }
    if let Some(text) = wrong_want(options) {
        return value_reason(
            alloc,
            text,
            "--want <OUTCOME>",
            "expected 'succeeded V', 'errored C', 'canceled' or 'unended'",
        );
    }
    if let Some(text) = wrong_color(options) {
        return value_reason(
            alloc,
            text,
            "--color <WHEN>",
            "expected 'auto', 'always' or 'never'",
        );
    }
    memory_reason(alloc, options)
}

// The first conflict whose two flags are given.
fn first_conflict(subcommand: &str, options: &ArgMatches<'_>) -> Option<Conflict> {
    for conflict in CONFLICTS {
        if conflict.subcommand == subcommand
            && given(options, conflict.first)
            && given(options, conflict.second)
        {
            return Some(*conflict);
        }
    }
    None
}

// Why claims conflict with another given option, or `None` if they don't.
fn claims_conflict(
    alloc: Global,
    subcommand: &str,
    options: &ArgMatches<'_>,
) -> Result<Option<String>, AllocError> {
    if subcommand != "explore" || !has_claims(options) {
        return Ok(None);
    }
    for other in ["first", "ends", "progress", "explain", "seconds"] {
        if is_used(options, other) {
            return Ok(Some(claims_reason(alloc, other)?));
        }
    }
    Ok(None)
}

// The reason that claims don't go together with an option.
fn claims_reason(alloc: Global, other: &str) -> Result<String, AllocError> {
    let mut text = String::from_str(alloc, "claims ('--always', '--never', '--reach')")?;
    push_apart(&mut text, other, claims_why(other))?;
    Ok(text)
}

// Why claims don't go together with an option of `explore`.
fn claims_why(other: &str) -> &'static str {
    match other {
        "first" => "claims are checked in every world, and a finding ends the search",
        "ends" => "claims have a search of their own",
        "progress" => "the search for claims writes no progress",
        "explain" => "an answer with claims has no reasons",
        "seconds" => "only '--worlds', '--entries' and '--memory' bound the search for claims",
        _ => "claims are judged beside reports with all marks",
    }
}

// Why `--marks` and `--only` give no request, or `None` if they give one.
fn marks_reason(alloc: Global, explore: &ArgMatches<'_>) -> Result<Option<String>, AllocError> {
    let marks = text_of(explore, "marks").unwrap_or("all");
    match marks_said(marks) {
        Some(Marks::All) => only_reason(alloc, explore),
        Some(Marks::Says) => says_reason(alloc, explore),
        Some(Marks::Nothing) => unmarked_reason(alloc, explore),
        None => {
            let expected = "expected 'all', 'say' or 'none'";
            Ok(Some(value_reason(alloc, marks, "--marks <MARKS>", expected)?))
        }
    }
}

// The reason if `--only` is given without `--marks none`.
fn only_reason(alloc: Global, explore: &ArgMatches<'_>) -> Result<Option<String>, AllocError> {
    if text_of(explore, "only").is_none() {
        return Ok(None);
    }
    let reason =
        "'--only' needs '--marks none': reports with marks have every fiber; add '--marks none', or leave out \
                  '--only'";
    Ok(Some(String::from_str(alloc, reason)?))
}

// Why the options of an exploration with says give no request, or `None` if they give one.
fn says_reason(alloc: Global, explore: &ArgMatches<'_>) -> Result<Option<String>, AllocError> {
    match marked_reason(alloc, explore, "marks say")? {
        Some(reason) => Ok(Some(reason)),
        None => only_reason(alloc, explore),
    }
}

// The reason if an option is given that only an exploration with all marks takes, beside `marks`, which asks for fewer.
fn marked_reason(
    alloc: Global,
    explore: &ArgMatches<'_>,
    marks: &str,
) -> Result<Option<String>, AllocError> {
    if has_claims(explore) {
        return Ok(Some(claims_reason(alloc, marks)?));
    }
    for other in ["timeline", "first", "ends", "count"] {
        if is_used(explore, other) {
            return Ok(Some(apart(alloc, marks, other, marked_why(other))?));
        }
    }
    Ok(None)
}

// Why an option goes together with all marks alone.
fn marked_why(other: &str) -> &'static str {
    match other {
        "timeline" => "a timeline has all marks",
        "first" => "a finding has all marks",
        "ends" => "the search for fair schedules keeps all marks",
        _ => "without all marks there is no bound on how often a fiber changes its own state",
    }
}

// Why the options of an exploration without marks give no request, or `None` if they give one.
fn unmarked_reason(alloc: Global, explore: &ArgMatches<'_>) -> Result<Option<String>, AllocError> {
    if let Some(reason) = marked_reason(alloc, explore, "marks none")? {
        return Ok(Some(reason));
    }
    match text_of(explore, "only") {
        Some(text) if only_of(explore).is_none() => Ok(Some(value_reason(
            alloc,
            text,
            "--only <FIBER>",
            "expected '0'",
        )?)),
        _ => Ok(None),
    }
}

// The reason that two flags don't go together.
fn conflict_reason(alloc: Global, conflict: Conflict) -> Result<String, AllocError> {
    apart(alloc, conflict.first, conflict.second, conflict.why)
}

// The reason that one argument doesn't go together with another.
fn apart(alloc: Global, first: &str, second: &str, why: &str) -> Result<String, AllocError> {
    let mut text = String::from_str(alloc, "'--")?;
    text.push_str(first)?;
    text.push_str("'")?;
    push_apart(&mut text, second, why)?;
    Ok(text)
}

// Adds that what the text names doesn't go together with another argument.
fn push_apart(text: &mut String, second: &str, why: &str) -> Result<(), AllocError> {
    text.push_str(" and '--")?;
    text.push_str(second)?;
    text.push_str("' don't go together: ")?;
    text.push_str(why)?;
    text.push_str("; leave out one of them")
}

// Whether a flag, or an option with a number, is given.
fn is_used(options: &ArgMatches<'_>, name: &str) -> bool {
    match text_of(options, name) {
        Some("false") | None => false,
        Some(_) => true,
    }
}

// The first text of `--want` that spells no outcome.
fn wrong_want<'a>(options: &ArgMatches<'a>) -> Option<&'a str> {
    let texts = options.get_strs("want")?;
    for text in texts {
        if read_want(text).is_none() {
            return Some(*text);
        }
    }
    None
}

// The text of `--color`, if it isn't one of the three that are accepted.
fn wrong_color<'a>(options: &ArgMatches<'a>) -> Option<&'a str> {
    let text = text_of(options, "color")?;
    if coloring(text).is_none() {
        Some(text)
    } else {
        None
    }
}

// The reason that the text of `--memory` is wrong, or else that the arguments ask for nothing.
fn memory_reason(alloc: Global, options: &ArgMatches<'_>) -> Result<String, AllocError> {
    let expected = "expected 1 to 10000000000, and behind it nothing, k, M or G";
    match text_of(options, "memory") {
        Some(text) if bytes_of(text).is_none() => {
            value_reason(alloc, text, "--memory <BYTES>", expected)
        }
        _ => String::from_str(alloc, "the arguments ask for nothing"),
    }
}

/// The reason that the value of an option is wrong, with what was expected. Of the value, a byte that isn't printable
/// ASCII is shown as its number ([`push_shown`]).
pub fn value_reason(
    alloc: Global,
    value: &str,
    option: &str,
    expected: &str,
) -> Result<String, AllocError> {
    let mut text = Vec::from_slice(alloc, b"invalid value '")?;
    push_shown(&mut text, value.as_bytes())?;
    text.extend_from_slice(b"' for '")?;
    text.extend_from_slice(option.as_bytes())?;
    text.extend_from_slice(b"': ")?;
    text.extend_from_slice(expected.as_bytes())?;
    String::from_utf8_lossy(alloc, text.as_slice())
}
