//! One command line, over devices.

ghost use Rattle.std.specs.Prelude.{◌≡◌, ◌⊎◌, ◌<◌, ◌^◌, false, map};
ghost use Rattle.clap.specs.Words.{kind_of};
ghost use Rattle.command_line.specs.KeptDevices.{input_of, text_of};
ghost use Rattle.command_line.specs.Obeying.{ObeysRequest, Runs, RunsNoted};
ghost use Rattle.command_words.specs.Requests.{AreSettledByInput, IsSettledByInput};
ghost use Rattle.command_words.specs.Telling.{LacksMemory, TellsKind, TellsWrong};
ghost use Rattle.text_io.specs.Devices.{devices};

use crate::check_order::{obey_check, obey_show};
use crate::compare_order::obey_compare;
use crate::decide_order::obey_decide;
use crate::explore_order::obey_explore;
use crate::judge_order::obey_judge;
use crate::kept_devices::{HeardOutput, KeptInput};
use crate::model_notes::note_model;
use crate::replay_order::obey_replay;
use crate::run_order::obey_run;
use crate::sample_order::obey_sample;
use crate::say_order::obey_say;
use crate::seek_order::obey_seek;
use crate::test_order::{obey_terms, obey_test};
use crate::unmark_order::obey_unmark;
use clap::error::ErrorKind;
use clap::{ArgMatches, Error};
use command_words::{
    Request, all_words, no_request_reason, refuse_words, request_of, shown_reason,
};
use outcome_trace::{Status, TextFault, TextIn, TextOut, tell_fault, write_text};
use std::alloc::{AllocError, Global};
use std::convert::AsStr;
use std::rt::Files;
use std::sync::Wait;
use std::thread::Threads;
use std::time::Clock;

// What is written of words that `clap` refuses, or of a request for help or the version.
fn error_text<S: AsStr>(alloc: Global, words: &[S], error: &Error) -> Result<String, AllocError> {
    if error.use_stderr() {
        if let Some(text) = shown_reason(alloc, words)? {
            return Ok(text);
        }
    }
    error.to_string(alloc)
}

// Writes help or the version to `out`, or what is wrong with the words to `err`, in `clap`'s words. If help can't be
// written, the line of the fault goes to `err`.
fn usage<S: AsStr, O: TextOut, E: TextOut>(
    alloc: Global,
    words: &[S],
    error: &Error,
    out: &mut O,
    err: &mut E,
) -> Status
    requires out { (O.seen out.old).failed ≡ false }
    requires err { (E.seen err.old).failed ≡ false }
    ensures { TellsKind (kind_of error.now) (O.seen out.old) (O.seen out.new) (E.seen err.old) (E.seen err.new) result }
{
    if error.kind() == ErrorKind::OutOfMemory {
        return tell_fault(TextFault::NoMemory, err);
    }
    let Ok(text) = error_text(alloc, words, error) else {
        return tell_fault(TextFault::NoMemory, err);
    };
    if error.use_stderr() {
        let _ = write_text(text.as_bytes(), err);
        return Status::Usage;
    }
    match write_text(text.as_bytes(), out) {
        Ok(()) => Status::Succeeded,
        Err(fault) => tell_fault(fault, err),
    }
}

// Obeys the request, and returns the status.
fn obey_request<R, I, O, E>(
    rt: &R,
    request: Request<'_>,
    colors: bool,
    input: &mut I,
    out: &mut O,
    err: &mut E,
) -> Status
where
    R: AllocGlobal + Clock + Files + Threads + Wait + Sync,
    I: TextIn,
    O: TextOut,
    E: TextOut,
    requires input { (I.seen input.old).failed ≡ false }
    requires countable { (I.seen input.old).reads < 2 ^ 63 }
    requires out { (O.seen out.old).failed ≡ false }
    requires err { (E.seen err.old).failed ≡ false }
    ensures obeyed { ObeysRequest request.entry (devices (I.seen input.old) (O.seen out.old) (E.seen err.old))
        (devices (I.seen input.new) (O.seen out.new) (E.seen err.new)) result }

    // What is wrong with the words alone is reported before the input is read.
    ensures unread { result ≡ Status.Usage → (IsSettledByInput request.entry → ⊥) → input.new ≡ input.old }
{
    match request {
        Request::Check(checking) => obey_check(rt.alloc(), checking, input, out, err),
        Request::Show(showing) => obey_show(rt.alloc(), showing, input, out, err),
        Request::Replay(replay) => obey_replay(rt.alloc(), replay, input, out, err),
        Request::Explore(exploring) => obey_explore(rt, rt.alloc(), exploring, input, out, err),
        Request::Seek(seeking) => obey_seek(rt, rt.alloc(), seeking, input, out, err),
        Request::Decide(deciding) => obey_decide(rt, rt.alloc(), deciding, input, out, err),
        Request::Judge(judging) => obey_judge(rt.alloc(), judging, input, out, err),
        Request::Unmark(unmarking) => obey_unmark(rt, rt.alloc(), unmarking, input, out, err),
        Request::Say(saying) => obey_say(rt, rt.alloc(), saying, input, out, err),
        Request::Run(running) => obey_run(rt, rt.alloc(), running, input, out, err),
        Request::Sample(sampling) => obey_sample(rt.alloc(), sampling, input, out, err),
        Request::Compare(comparing) => obey_compare(rt, rt.alloc(), comparing, out, err),
        Request::Test(testing) => obey_test(rt, rt.alloc(), testing, colors, out, err),
        Request::Terms(translating) => obey_terms(rt, rt.alloc(), translating, out, err),
    }
}

// Writes why words make no request.
fn refuse_request<E: TextOut>(alloc: Global, matches: &ArgMatches<'_>, err: &mut E) -> Status
    requires { (E.seen err.old).failed ≡ false }
    ensures { TellsWrong (E.seen err.old) (E.seen err.new) result ⊎
        LacksMemory (E.seen err.old) (E.seen err.new) result }
{
    match no_request_reason(alloc, matches) {
        Ok(reason) => refuse_words(alloc, reason.as_str(), err),
        Err(_) => tell_fault(TextFault::NoMemory, err),
    }
}

/// Runs one command line over these devices. Returns the status of the program: that of the request,
/// `Status::Succeeded` for help or the version, `Status::Usage` if the words or the schedule are wrong, and
/// `Status::Fault` if memory ran out or a device failed.
///
/// Help and the version go to `out`, what is wrong with the words to `err`, both in `clap`'s words. `colors` is whether
/// verdicts have colours if the words leave that open. If the text of the input is refused, and begins as a model file,
/// a note on that goes to `err` at last.
pub fn command<'a, R, S, I, O, E>(
    rt: &R,
    words: &'a [S],
    colors: bool,
    input: &mut KeptInput<I>,
    out: &mut O,
    err: &mut HeardOutput<E>,
) -> Status
where
    R: AllocGlobal + Clock + Files + Threads + Wait + Sync,
    S: AsStr,
    I: TextIn,
    O: TextOut,
    E: TextOut,
    requires input { (I.seen (input_of input.old)).failed ≡ false }
    requires countable { (I.seen (input_of input.old)).reads < 2 ^ 63 }
    requires out { (O.seen out.old).failed ≡ false }
    requires err { (E.seen err.old.inner).failed ≡ false }
    ensures runs { RunsNoted (map S.text words.entry.now) (text_of input.new)
        (devices (I.seen (input_of input.old)) (O.seen out.old) (E.seen err.old.inner))
        (devices (I.seen (input_of input.new)) (O.seen out.new) (E.seen err.new.inner)) result }

    // What is wrong with the words alone is reported before the input is read.
    ensures unread { result ≡ Status.Usage → (AreSettledByInput (map S.text words.entry.now) → ⊥) →
        input.new ≡ input.old }
{
    let status = run_words(rt, words, colors, input, out, err);
    note_model(status, input, err);
    status
}

// The same without the note.
fn run_words<'a, R, S, I, O, E>(
    rt: &R,
    words: &'a [S],
    colors: bool,
    input: &mut I,
    out: &mut O,
    err: &mut E,
) -> Status
where
    R: AllocGlobal + Clock + Files + Threads + Wait + Sync,
    S: AsStr,
    I: TextIn,
    O: TextOut,
    E: TextOut,
    requires input { (I.seen input.old).failed ≡ false }
    requires countable { (I.seen input.old).reads < 2 ^ 63 }
    requires out { (O.seen out.old).failed ≡ false }
    requires err { (E.seen err.old).failed ≡ false }
    ensures runs { Runs (map S.text words.entry.now) (devices (I.seen input.old) (O.seen out.old) (E.seen err.old))
        (devices (I.seen input.new) (O.seen out.new) (E.seen err.new)) result }

    // What is wrong with the words alone is reported before the input is read.
    ensures unread { result ≡ Status.Usage → (AreSettledByInput (map S.text words.entry.now) → ⊥) →
        input.new ≡ input.old }
{
    let alloc = rt.alloc();
    let Ok(all) = all_words(alloc) else {
        return tell_fault(TextFault::NoMemory, err);
    };
    match all.try_get_matches_from(words) {
        Ok(matches) => match request_of(alloc, &matches) {
            Ok(Some(request)) => obey_request(rt, request, colors, input, out, err),
            Ok(None) => refuse_request(alloc, &matches, err),
            Err(_) => tell_fault(TextFault::NoMemory, err),
        },
        Err(error) => usage(alloc, words, &error, out, err),
    }
}
