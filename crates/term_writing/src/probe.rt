//! Additions to a term that make its reports show more.

use crate::binder::{BinderName, NameKind};
use crate::look::value;
use crate::name_says::{LATE, WATCHER, is_added_value, name_value};
use crate::reading::Reading;
use crate::scope::{FiberName, Here, Operand};
use crate::task::Task;
use crate::writing::{ComputedSay, SaidBy, Writing};
use crate::wrong::Stop;
use itoa::Buffer;
use term_parse::Word;

/// Plans a fiber that reads the ref with this name once, if the refs of `binder` are watched. The fiber says
/// [`WATCHER`] first, so that no report takes it for another fiber. Its `start` stays open around what follows.
pub(crate) fn watch(
    out: &mut Writing,
    at: usize,
    name: usize,
    binder: BinderName,
) -> Result<(), Stop> {
    if out.watched != Some(binder) {
        return Ok(());
    }
    let watcher = out.fresh(b"watch")?;
    out.then(Task::Open(Word::Start, at))?;
    out.then(Task::Bind(watcher, NameKind::Fiber, BinderName::Watcher))?;
    say_before(out, at, WATCHER)?;
    out.then(Task::Open(Word::Get, at))?;
    out.then(Task::Operand(Operand::Name(name)))?;
    out.then(Task::Close(2))?;
    out.lets = out.lets.saturating_add(1);
    Ok(())
}

/// Opens a `seq` in which a fiber says the value for its name first.
pub(crate) fn say_name(out: &mut Writing, at: usize, fiber: FiberName) -> Result<(), Stop> {
    say_before(out, at, name_value(fiber))
}

// Opens a `seq` whose first part says this value.
fn say_before(out: &mut Writing, at: usize, value: i64) -> Result<(), Stop> {
    out.then(Task::Open(Word::Seq, at))?;
    out.then(Task::AddedSay(at))?;
    out.then(Task::Operand(Operand::Number(value)))?;
    out.then(Task::Close(1))
}

// Whether a spelling is the name of a row, a dot and this number.
fn is_one_of(spelled: &[u8], row: &[u8], number: usize) -> bool {
    let mut buffer = Buffer::new();
    let behind = buffer.format(number).as_bytes();
    spelled.get(..row.len()) == Some(row)
        && spelled.get(row.len()).copied() == Some(b'.')
        && spelled.get(row.len().saturating_add(1)..) == Some(behind)
}

// Whether a claim that spells this is about a fiber: by its name, by the name of its row, or by `*`. `main` is the first
// fiber alone.
fn is_called(read: Reading, fiber: FiberName, spelled: &[u8]) -> bool {
    match spelled {
        b"*" => true,
        b"main" => matches!(fiber, FiberName::Main),
        _ => has_name(read, fiber, spelled),
    }
}

// Whether this is the name of a fiber that another one starts, or of its row.
fn has_name(read: Reading, fiber: FiberName, spelled: &[u8]) -> bool {
    match fiber {
        FiberName::Main => false,
        FiberName::Left => spelled == b"left".as_slice(),
        FiberName::Right => spelled == b"right".as_slice(),
        FiberName::Word(at) => spelled == read.word(at),
        FiberName::Row(at, number) => {
            let row = read.word(at);
            spelled == row || is_one_of(spelled, row, number)
        }
    }
}

// Whether `said` is the `say` of this value by this fiber.
fn is_said(read: Reading, said: SaidBy, fiber: FiberName, operand: Operand) -> bool {
    match operand {
        Operand::Number(number) => {
            number == said.value && is_called(read, fiber, read.word(said.fiber))
        }
        Operand::Name(_) => false,
    }
}

// One of the two compared `say`s, both, or neither.
#[derive(Clone, Copy)]
enum Turn {
    First,
    Second,
    Both,
    Neither,
}

// Which of the two compared `say`s is the `say` of this value by this fiber.
fn turn_of(
    read: Reading,
    said: Option<(SaidBy, SaidBy)>,
    fiber: FiberName,
    operand: Operand,
) -> Turn {
    match said {
        Some((first, second)) => {
            let is_first = is_said(read, first, fiber, operand);
            let is_second = is_said(read, second, fiber, operand);
            match (is_first, is_second) {
                (true, true) => Turn::Both,
                (true, false) => Turn::First,
                (false, true) => Turn::Second,
                (false, false) => Turn::Neither,
            }
        }
        None => Turn::Neither,
    }
}

/// Writes the `say` with the number `at`; its value is the form with the number `first`.
pub(crate) fn say(
    read: Reading,
    out: &mut Writing,
    at: usize,
    first: usize,
    here: Here,
) -> Result<(), Stop> {
    out.lets = 0;
    let operand = value(read, out, first, here)?;
    note_say(out, at, here.fiber, operand)?;
    let turn = turn_of(read, out.said, here.fiber, operand);
    match turn {
        Turn::First => say_first(out, at)?,
        Turn::Second => say_second(out, at)?,
        Turn::Both => {
            say_second(out, at)?;
            set_order(out, at)?;
        }
        Turn::Neither => {}
    }
    out.then(Task::Open(Word::Say, at))?;
    out.then(Task::Operand(operand))?;
    let open = out.lets.saturating_add(1);
    out.then(Task::Close(open))
}

// Notes a `say` of this value by this fiber, if its value is computed, or one that the translation can say.
fn note_say(out: &mut Writing, form: usize, fiber: FiberName, value: Operand) -> Result<(), Stop> {
    match value {
        Operand::Number(number) => out.says_names = out.says_names || is_added_value(number),
        Operand::Name(_) => {
            out.says_names = true;
            out.computed.push(ComputedSay { fiber, form })?;
        }
    }
    Ok(())
}

// Opens a mask around the first of the two `say`s, and sets the hidden ref there.
fn say_first(out: &mut Writing, at: usize) -> Result<(), Stop> {
    open_mask(out, at)?;
    out.then(Task::Open(Word::Seq, at))?;
    set_order(out, at)?;
    out.lets = out.lets.saturating_add(2);
    Ok(())
}

// Sets the hidden ref.
fn set_order(out: &mut Writing, at: usize) -> Result<(), Stop> {
    let order = out.order;
    out.then(Task::Open(Word::Set, at))?;
    out.then(Task::Operand(Operand::Name(order)))?;
    out.then(Task::Operand(Operand::Number(1)))?;
    out.then(Task::Close(1))
}

// Opens a mask.
fn open_mask(out: &mut Writing, at: usize) -> Result<(), Stop> {
    let poll = out.fresh(b"u")?;
    out.then(Task::Open(Word::Uncancelable, at))?;
    out.then(Task::Bind(poll, NameKind::Poll, BinderName::Hidden))
}

// Opens a mask around the second of the two `say`s, and says `LATE` there if the hidden ref isn't set.
fn say_second(out: &mut Writing, at: usize) -> Result<(), Stop> {
    let order = out.order;
    open_mask(out, at)?;
    let was = out.fresh(b"t")?;
    out.then(Task::Open(Word::Let, at))?;
    out.then(Task::Bind(was, NameKind::Value, BinderName::Hidden))?;
    out.then(Task::Open(Word::Get, at))?;
    out.then(Task::Operand(Operand::Name(order)))?;
    out.then(Task::Close(1))?;
    out.then(Task::Open(Word::Seq, at))?;
    say_late(out, at, was)?;
    out.lets = out.lets.saturating_add(3);
    Ok(())
}

// Says `LATE` if the value `was` is 0.
fn say_late(out: &mut Writing, at: usize, was: usize) -> Result<(), Stop> {
    out.then(Task::Open(Word::If0, at))?;
    out.then(Task::Operand(Operand::Name(was)))?;
    out.then(Task::AddedSay(at))?;
    out.then(Task::Operand(Operand::Number(LATE)))?;
    out.then(Task::Close(1))?;
    out.then(Task::Open(Word::Pure, at))?;
    out.then(Task::Operand(Operand::Number(0)))?;
    out.then(Task::Close(2))
}

/// Notes the form by which the bytes of the term from `start` on first read the ref with this name, if they do.
pub(crate) fn note_torn(out: &mut Writing, start: usize, name: usize) -> Result<(), Stop> {
    if let Some(at) = read_from(out, start, name)
        && let Some(form) = form_of(out, at)
        && !out.torn.as_slice().contains(&form)
    {
        out.torn.push(form)?;
    }
    Ok(())
}

// The first place of the term from `start` on that reads the ref with this name, if there is one.
fn read_from(out: &Writing, start: usize, name: usize) -> Option<usize> {
    let spelled = out.spellings.spelled(name);
    let text = out.text.as_slice();
    for at in start..text.len() {
        if is_get(text.get(at..).unwrap_or(&[]), spelled) {
            return Some(at);
        }
    }
    None
}

// The form of the file for which the form at this place of the term is written.
fn form_of(out: &Writing, at: usize) -> Option<usize> {
    for place in out.places.iter() {
        if place.term == at {
            return Some(place.form);
        }
    }
    None
}

// Whether these bytes begin with the `get` of a name.
fn is_get(bytes: &[u8], spelled: &[u8]) -> bool {
    let front: &[u8] = b"(get ";
    let behind = bytes.get(5..).unwrap_or(&[]);
    bytes.get(..5) == Some(front)
        && behind.get(..spelled.len()) == Some(spelled)
        && behind.get(spelled.len()).copied() == Some(b')')
}
