//! Rows: fibers, deferreds and refs of one name, numbered from 0.

use crate::binder::{BinderName, NameKind};
use crate::look::{bound_at, enter, is_hidden, known_number, under, value, want_name, wrong_at};
use crate::probe::{say_name, watch};
use crate::reading::{Reading, count_of, first_of, inside_at, nth_of};
use crate::scope::{FiberName, Here, Meaning, Operand};
use crate::task::{Follow, Task};
use crate::writing::Writing;
use crate::wrong::{Stop, Wrong};
use model_forms::FormKind;
use term_parse::Word;

// The greatest number of names in a row.
const MOST_NAMES: i64 = 16;

/// The words that make rows.
#[derive(Clone, Copy)]
pub(crate) enum RowWord {
    Starts,
    Deferreds,
    Refs,
}

/// The word with this spelling that makes rows, if there is one.
pub(crate) fn row_word(spelled: &[u8]) -> Option<RowWord> {
    match spelled {
        b"starts" => Some(RowWord::Starts),
        b"deferreds" => Some(RowWord::Deferreds),
        b"refs" => Some(RowWord::Refs),
        _ => None,
    }
}

/// The number of parts of a row without its last part.
pub(crate) fn row_parts(word: RowWord) -> usize {
    match word {
        RowWord::Starts | RowWord::Refs => 3,
        RowWord::Deferreds => 2,
    }
}

fn row_kind(word: RowWord) -> NameKind {
    match word {
        RowWord::Starts => NameKind::Fiber,
        RowWord::Deferreds => NameKind::Deferred,
        RowWord::Refs => NameKind::Ref,
    }
}

// A row to write: its form, its word, the forms of its name and of its index, if it has one, the number of its names,
// the first of them, and its surroundings.
#[derive(Clone, Copy)]
struct RowWork {
    at: usize,
    word: RowWord,
    name: usize,
    index: Option<usize>,
    count: usize,
    first: usize,
    here: Here,
}

/// Writes the row with this number, which must have its last part.
pub(crate) fn row_form(
    read: Reading,
    out: &mut Writing,
    at: usize,
    word: RowWord,
    here: Here,
) -> Result<(), Stop> {
    let parts = read.parts(at);
    let wanted = row_parts(word);
    let last = nth_of(read.forms, parts, wanted);
    match last {
        Some(last) => {
            if count_of(read.forms, parts) == wanted.saturating_add(1) {
                return row(read, out, at, word, Follow::Part(last), here);
            }
        }
        None => {}
    }
    let head = read.span(at.saturating_add(1));
    Err(wrong_at(read, Wrong::RowParts(head), at, here.view))
}

/// Writes the row with this number and its last part, `follow`.
pub(crate) fn row(
    read: Reading,
    out: &mut Writing,
    at: usize,
    word: RowWord,
    follow: Follow,
    here: Here,
) -> Result<(), Stop> {
    let parts = read.parts(at);
    let Some(front) = first_of(read.forms, parts) else {
        return Err(wrong_at(read, Wrong::NoName, at, here.view));
    };
    let (name, index) = name_and_index(read, front, word, here)?;
    let Some(number) = nth_of(read.forms, parts, 1) else {
        return Err(wrong_at(read, Wrong::HowMany, at, here.view));
    };
    let count = how_many(read, out, number, here)?;
    let first = names(read, out, name, count)?;
    let work = RowWork {
        at,
        word,
        name,
        index,
        count,
        first,
        here,
    };
    plan_row(read, out, work, nth_of(read.forms, parts, 2), follow)
}

// The forms of a row's name and of its index, if it has one.
fn name_and_index(
    read: Reading,
    front: usize,
    word: RowWord,
    here: Here,
) -> Result<(usize, Option<usize>), Stop> {
    match read.kind(front) {
        FormKind::Word | FormKind::Text => {
            want_name(read, front, here.view)?;
            return Ok((front, None));
        }
        FormKind::List => {}
    }
    let inside = inside_at(read.forms, front);
    let name = nth_of(read.forms, inside, 0);
    let index = nth_of(read.forms, inside, 1);
    match (word, name, index) {
        (RowWord::Starts, Some(name), Some(index)) => {
            if count_of(read.forms, inside) == 2 {
                want_name(read, name, here.view)?;
                want_name(read, index, here.view)?;
                return Ok((name, Some(index)));
            }
        }
        (_, _, _) => {}
    }
    Err(wrong_at(read, Wrong::NoIndex, front, here.view))
}

// The number of names of a row, 1 to 16, that the form with this number gives.
fn how_many(read: Reading, out: &mut Writing, at: usize, here: Here) -> Result<usize, Stop> {
    if let Some(number) = known_number(read, out, at, here.view)?
        && 1 <= number
        && number <= MOST_NAMES
        && let Ok(count) = usize::try_from(number)
    {
        return Ok(count);
    }
    Err(wrong_at(read, Wrong::HowMany, at, here.view))
}

// Makes the names of a row, and returns the first.
fn names(read: Reading, out: &mut Writing, name: usize, count: usize) -> Result<usize, Stop> {
    let spelled: &[u8] = if is_hidden(read, name) {
        b"u"
    } else {
        read.word(name)
    };
    let first = out.fresh(spelled)?;
    for _ in 1..count {
        out.fresh(spelled)?;
    }
    Ok(first)
}

// Plans a row; `body` is the form of the refs' value or of the term that each fiber runs.
fn plan_row(
    read: Reading,
    out: &mut Writing,
    work: RowWork,
    body: Option<usize>,
    follow: Follow,
) -> Result<(), Stop> {
    out.lets = 0;
    let mut initial = Operand::Number(0);
    if let Some(body) = body
        && matches!(work.word, RowWord::Refs)
    {
        initial = value(read, out, body, work.here)?;
    }
    for number in 0..work.count {
        match work.word {
            RowWord::Starts => plan_start(read, out, work, number, body.unwrap_or(work.at))?,
            RowWord::Deferreds => plan_named(read, out, work, number, Word::Deferred)?,
            RowWord::Refs => plan_ref(read, out, work, number, initial)?,
        }
    }
    let meaning = Meaning::Row(row_kind(work.word), work.first, work.count);
    let bound = bound_at(read, work.name, meaning);
    let scope = enter(read, out, work.here.view.scope, bound)?;
    match follow {
        Follow::Part(at) => out.then(Task::Term(at, under(work.here, scope)))?,
        Follow::Block(block) => {
            out.then(Task::Statements(block, false, under(work.here, scope)))?
        }
    }
    let open = out.lets.saturating_add(work.count);
    out.then(Task::Close(open))
}

// The name in the file of the name with this number in a row. Fibers of a row `_` are fibers of the file, too.
fn row_name(read: Reading, work: RowWork, number: usize) -> BinderName {
    let is_nameless = is_hidden(read, work.name) && !matches!(work.word, RowWord::Starts);
    if is_nameless {
        BinderName::Hidden
    } else {
        BinderName::Row(work.name, number)
    }
}

// Opens the form that makes the name with this number in a row, and binds the name.
fn plan_named(
    read: Reading,
    out: &mut Writing,
    work: RowWork,
    number: usize,
    word: Word,
) -> Result<(), Stop> {
    let name = work.first.saturating_add(number);
    let binder = row_name(read, work, number);
    out.then(Task::Open(word, work.at))?;
    out.then(Task::Bind(name, row_kind(work.word), binder))
}

// Plans the fiber with this number in a row.
fn plan_start(
    read: Reading,
    out: &mut Writing,
    work: RowWork,
    number: usize,
    body: usize,
) -> Result<(), Stop> {
    plan_named(read, out, work, number, Word::Start)?;
    let scope = index_scope(read, out, work, number)?;
    let under_index = under(work.here, scope);
    let here = Here {
        view: under_index.view,
        fiber: FiberName::Row(work.name, number),
    };
    if out.names {
        say_name(out, work.at, here.fiber)?;
        out.then(Task::Term(body, here))?;
        return out.then(Task::Close(1));
    }
    out.then(Task::Term(body, here))
}

// The scope of the fiber with this number in a row, where the row's index is this number.
fn index_scope(
    read: Reading,
    out: &mut Writing,
    work: RowWork,
    number: usize,
) -> Result<usize, Stop> {
    let scope = work.here.view.scope;
    let Some(index) = work.index else {
        return Ok(scope);
    };
    let meaning = Meaning::Number(i64::try_from(number).unwrap_or(0));
    let bound = bound_at(read, index, meaning);
    enter(read, out, scope, bound)
}

// Plans the ref with this number in a row.
fn plan_ref(
    read: Reading,
    out: &mut Writing,
    work: RowWork,
    number: usize,
    initial: Operand,
) -> Result<(), Stop> {
    plan_named(read, out, work, number, Word::Ref)?;
    out.then(Task::Operand(initial))?;
    let name = work.first.saturating_add(number);
    watch(out, work.at, name, row_name(read, work, number))
}
