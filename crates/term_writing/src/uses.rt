//! Uses of definitions, and of the terms that are passed to them.

use crate::binder::NameKind;
use crate::condition::then_zero;
use crate::look::{
    bound_at, dot_at, enter, front_of, meaning_of, name_at, named, under, value, want_name,
    wrong_at,
};
use crate::reading::{Reading, bytes_of, count_of, first_of, inside_at, nth_of};
use crate::scope::{Bound, Handed, Here, Meaning, NONE, Operand, Use, View};
use crate::task::Task;
use crate::writing::Writing;
use crate::wrong::{Span, Stop, Wrong};
use model_forms::{Block, FormKind, behind_first};
use model_text::Definition;
use term_parse::Word;

/// The kind of a part of a definition.
#[derive(Clone, Copy)]
pub(crate) enum PartKind {
    Value,
    Name(NameKind),
    Term,
}

/// A part of a definition: its name, its kind, and, if it is a term, the forms of its names.
#[derive(Clone, Copy)]
pub(crate) struct DefinedPart {
    pub(crate) name: Span,
    pub(crate) kind: PartKind,
    pub(crate) names: Block,
}

// The kind with this spelling.
fn kind_spelled(spelled: &[u8]) -> PartKind {
    match spelled {
        b"ref" => PartKind::Name(NameKind::Ref),
        b"deferred" => PartKind::Name(NameKind::Deferred),
        b"fiber" => PartKind::Name(NameKind::Fiber),
        b"poll" => PartKind::Name(NameKind::Poll),
        _ => PartKind::Value,
    }
}

// An empty block.
fn no_forms() -> Block {
    Block { first: 0, end: 0 }
}

/// The part of a definition that the form with this number spells.
pub(crate) fn part_at(read: Reading, at: usize) -> DefinedPart {
    match read.kind(at) {
        FormKind::Word | FormKind::Text => word_part(read, at),
        FormKind::List => {
            let inside = inside_at(read.forms, at);
            let first = first_of(read.forms, inside).unwrap_or(at);
            let name = read.span(first);
            let names = behind_first(read.forms, inside);
            DefinedPart {
                name,
                kind: PartKind::Term,
                names,
            }
        }
    }
}

// The part of a definition that a word spells.
fn word_part(read: Reading, at: usize) -> DefinedPart {
    let span = read.span(at);
    let spelled = read.word(at);
    let names = no_forms();
    match spelled.iter().position(|byte| *byte == b':') {
        Some(colon) => {
            let name = Span {
                start: span.start,
                end: span.start.saturating_add(colon),
            };
            let kind = kind_spelled(spelled.get(colon.saturating_add(1)..).unwrap_or(&[]));
            DefinedPart { name, kind, names }
        }
        None => DefinedPart {
            name: span,
            kind: PartKind::Value,
            names,
        },
    }
}

// The parts of a use: the scope of the definition's body, and a row, if one is passed. The body is written once for
// each name of the row.
#[derive(Clone, Copy)]
struct Parts {
    scope: usize,
    row: Option<Bound>,
}

/// Writes the use of a definition by the form with this number.
pub(crate) fn use_definition(
    read: Reading,
    out: &mut Writing,
    at: usize,
    definition: Definition,
    here: Here,
) -> Result<(), Stop> {
    let given = count_of(read.forms, read.parts(at));
    let wanted = count_of(read.forms, definition.parts);
    let name = Span {
        start: definition.name.start,
        end: definition.name.end,
    };
    if given != wanted {
        return Err(wrong_at(read, Wrong::UseParts(name, wanted, given), at, here.view));
    }
    out.pay(given)?;
    out.lets = 0;
    let parts = use_parts(read, out, at, definition, here)?;
    let uses = out.uses.len();
    out.uses.push(Use {
        name,
        form: at,
        next: here.view.uses,
    })?;
    let view = View {
        scope: parts.scope,
        uses,
        limit: name.start,
    };
    let inner = Here {
        view,
        fiber: here.fiber,
    };
    plan_bodies(read, out, definition.body, parts.row, inner, at)?;
    let open = out.lets;
    out.then(Task::Close(open))
}

// Binds the parts of a use, one after another.
fn use_parts(
    read: Reading,
    out: &mut Writing,
    at: usize,
    definition: Definition,
    here: Here,
) -> Result<Parts, Stop> {
    let mut parts = Parts {
        scope: NONE,
        row: None,
    };
    let mut wanted = definition.parts;
    let mut given = read.parts(at);
    for _ in 0..read.forms.len() {
        let Some(part) = first_of(read.forms, wanted) else {
            break;
        };
        let Some(arg) = first_of(read.forms, given) else {
            break;
        };
        parts = use_part(read, out, definition, part_at(read, part), arg, here, parts)?;
        wanted = behind_first(read.forms, wanted);
        given = behind_first(read.forms, given);
    }
    Ok(parts)
}

// Binds one part of a use; `arg` is the form that is passed for it.
fn use_part(
    read: Reading,
    out: &mut Writing,
    definition: Definition,
    part: DefinedPart,
    arg: usize,
    here: Here,
    parts: Parts,
) -> Result<Parts, Stop> {
    match part.kind {
        PartKind::Term => {
            let handed = hand_in(read, out, definition, part, arg, here)?;
            bind_part(out, parts, part, handed)
        }
        PartKind::Value => {
            let operand = value(read, out, arg, here)?;
            bind_part(out, parts, part, meaning_from(operand))
        }
        PartKind::Name(kind) => use_name(read, out, part, kind, arg, here, parts),
    }
}

// Adds a part with this meaning to the scope of the body.
fn bind_part(
    out: &mut Writing,
    parts: Parts,
    part: DefinedPart,
    meaning: Meaning,
) -> Result<Parts, Stop> {
    let scope = out.bind(parts.scope, part.name, meaning)?;
    Ok(Parts {
        scope,
        row: parts.row,
    })
}

// The meaning of a value.
fn meaning_from(operand: Operand) -> Meaning {
    match operand {
        Operand::Number(number) => Meaning::Number(number),
        Operand::Name(name) => Meaning::Name(NameKind::Value, name),
    }
}

// Binds a part that is a name of this kind, or stores the row of such names that is passed for it.
fn use_name(
    read: Reading,
    out: &mut Writing,
    part: DefinedPart,
    kind: NameKind,
    arg: usize,
    here: Here,
    parts: Parts,
) -> Result<Parts, Stop> {
    match row_at(read, out, arg, kind, here)? {
        Some(meaning) => {
            if parts.row.is_some() {
                return Err(wrong_at(read, Wrong::SecondRow, arg, here.view));
            }
            Ok(Parts {
                scope: parts.scope,
                row: Some(Bound {
                    name: part.name,
                    meaning,
                    next: NONE,
                }),
            })
        }
        None => {
            let name = name_at(read, out, arg, here.view, kind)?;
            bind_part(out, parts, part, Meaning::Name(kind, name))
        }
    }
}

// The row of this kind that a form names, if it names one.
fn row_at(
    read: Reading,
    out: &mut Writing,
    arg: usize,
    kind: NameKind,
    here: Here,
) -> Result<Option<Meaning>, Stop> {
    match read.kind(arg) {
        FormKind::Word => {}
        FormKind::Text | FormKind::List => return Ok(None),
    }
    match meaning_of(read, out, read.word(arg), here.view)? {
        Some(Meaning::Row(found, first, count)) => {
            if found == kind {
                Ok(Some(Meaning::Row(found, first, count)))
            } else {
                Ok(None)
            }
        }
        Some(_) | None => Ok(None),
    }
}

// Stores the term that is passed for a part, and returns its meaning.
fn hand_in(
    read: Reading,
    out: &mut Writing,
    definition: Definition,
    part: DefinedPart,
    arg: usize,
    here: Here,
) -> Result<Meaning, Stop> {
    let count = count_of(read.forms, part.names);
    let mut form = arg;
    let mut names = no_forms();
    if count > 0 {
        let inside = read.parts(arg);
        let given = nth_of(read.forms, inside, 0).unwrap_or(arg);
        form = nth_of(read.forms, inside, 1).unwrap_or(arg);
        names = inside_at(read.forms, given);
        let is_fn = read.head(arg) == b"fn".as_slice() && count_of(read.forms, inside) == 2;
        if !is_fn || count_of(read.forms, names) != count {
            let whole = Span {
                start: definition.name.start,
                end: definition.name.end,
            };
            let wrong = Wrong::Names(part.name, whole, part.names.first, count);
            return Err(wrong_at(read, wrong, arg, here.view));
        }
        want_names(read, names, here)?;
    }
    let number = out.handed.len();
    out.handed.push(Handed {
        form,
        names,
        view: here.view,
        any: false,
    })?;
    Ok(Meaning::Term(number))
}

// Checks that the forms of a block are names.
fn want_names(read: Reading, names: Block, here: Here) -> Result<(), Stop> {
    let mut rest = names;
    for _ in 0..read.forms.len() {
        let Some(at) = first_of(read.forms, rest) else {
            return Ok(());
        };
        want_name(read, at, here.view)?;
        rest = behind_first(read.forms, rest);
    }
    Ok(())
}

// Plans the body of a definition, once for each name of a row if one was passed.
fn plan_bodies(
    read: Reading,
    out: &mut Writing,
    body: Block,
    row: Option<Bound>,
    here: Here,
    at: usize,
) -> Result<(), Stop> {
    let Some(bound) = row else {
        return plan_body(read, out, body, here);
    };
    let Meaning::Row(kind, first, count) = bound.meaning else {
        return plan_body(read, out, body, here);
    };
    if count > 1 {
        out.then(Task::Open(Word::Seq, at))?;
    }
    for number in 0..count {
        let name = first.saturating_add(number);
        let scope = out.bind(here.view.scope, bound.name, Meaning::Name(kind, name))?;
        plan_body(read, out, body, under(here, scope))?;
    }
    if count > 1 {
        out.then(Task::Close(1))?;
    }
    Ok(())
}

/// Plans the statements of a definition. A single statement is a term, without a `seq`.
pub(crate) fn plan_body(
    read: Reading,
    out: &mut Writing,
    body: Block,
    here: Here,
) -> Result<(), Stop> {
    if count_of(read.forms, body) == 1 {
        out.then(Task::Term(body.first, here))
    } else {
        out.then(Task::Statements(body, false, here))
    }
}

/// Writes the use of a term that was passed, by the form with this number.
pub(crate) fn use_handed(
    read: Reading,
    out: &mut Writing,
    at: usize,
    number: usize,
    here: Here,
) -> Result<(), Stop> {
    let Some(handed) = out.handed.get(number).copied() else {
        return then_zero(out, at);
    };
    let given = count_of(read.forms, read.parts(at));
    let wanted = count_of(read.forms, handed.names);
    if given != wanted {
        let head = read.span(at.saturating_add(1));
        return Err(wrong_at(read, Wrong::Parts(head, wanted, given), at, here.view));
    }
    out.pay(given)?;
    out.lets = 0;
    let scope = handed_scope(read, out, at, handed, here)?;
    if handed.any {
        then_zero(out, at)?;
    } else {
        let view = View {
            scope,
            uses: handed.view.uses,
            limit: handed.view.limit,
        };
        let inner = Here {
            view,
            fiber: here.fiber,
        };
        out.then(Task::Term(handed.form, inner))?;
    }
    let open = out.lets;
    out.then(Task::Close(open))
}

// The scope of a term that was passed, with its names bound to the parts of a use of it.
fn handed_scope(
    read: Reading,
    out: &mut Writing,
    at: usize,
    handed: Handed,
    here: Here,
) -> Result<usize, Stop> {
    let mut scope = handed.view.scope;
    let mut names = handed.names;
    let mut given = read.parts(at);
    for _ in 0..read.forms.len() {
        let Some(name) = first_of(read.forms, names) else {
            break;
        };
        let Some(arg) = first_of(read.forms, given) else {
            break;
        };
        let meaning = handed_meaning(read, out, arg, here)?;
        let bound = bound_at(read, name, meaning);
        scope = enter(read, out, scope, bound)?;
        names = behind_first(read.forms, names);
        given = behind_first(read.forms, given);
    }
    Ok(scope)
}

// The meaning of the form that is given for a name of a passed term. It can be a whole row, but not a passed term.
fn handed_meaning(
    read: Reading,
    out: &mut Writing,
    arg: usize,
    here: Here,
) -> Result<Meaning, Stop> {
    if names_thing(read, out, arg, here)? {
        let meaning = named(read, out, arg, here.view)?;
        if !matches!(meaning, Meaning::Term(_)) {
            return Ok(meaning);
        }
    }
    let operand = value(read, out, arg, here)?;
    Ok(meaning_from(operand))
}

// Whether a form is a word that names something here, or whose bytes before a dot do.
fn names_thing(read: Reading, out: &mut Writing, arg: usize, here: Here) -> Result<bool, Stop> {
    match read.kind(arg) {
        FormKind::Word => {}
        FormKind::Text | FormKind::List => return Ok(false),
    }
    if meaning_of(read, out, read.word(arg), here.view)?.is_some() {
        return Ok(true);
    }
    let Some(dot) = dot_at(read.word(arg)) else {
        return Ok(false);
    };
    let base = front_of(read.span(arg), dot);
    let found = meaning_of(read, out, bytes_of(read.text, base), here.view)?;
    Ok(found.is_some())
}
