//! Trials of definitions, so that their faults are reported at their own places.

use crate::named::{ItemName, NamedItem};
use crate::reading::{Reading, bytes_of, first_of};
use crate::refused::Refused;
use crate::scope::{FiberName, Handed, Here, Meaning, NONE, View};
use crate::term::write_all;
use crate::uses::{DefinedPart, PartKind, part_at, plan_body};
use crate::wording::term_refused;
use crate::writing::Writing;
use crate::wrong::Stop;
use model_forms::behind_first;
use model_text::Definition;
use std::alloc::Global;

// The greatest amount of work for the trials of all definitions of a file.
const MOST_WORK: usize = 1_000_000;

// The meaning of a part of a definition in its trial: 0, a new name, or any term.
fn tried_meaning(
    read: Reading,
    out: &mut Writing,
    part: DefinedPart,
    view: View,
) -> Result<Meaning, Stop> {
    match part.kind {
        PartKind::Value => Ok(Meaning::Number(0)),
        PartKind::Name(kind) => {
            let name = out.fresh(bytes_of(read.text, part.name))?;
            Ok(Meaning::Name(kind, name))
        }
        PartKind::Term => {
            let number = out.handed.len();
            out.handed.push(Handed {
                form: 0,
                names: part.names,
                view,
                any: true,
            })?;
            Ok(Meaning::Term(number))
        }
    }
}

// Writes the term of a definition, with a trial meaning for each of its parts.
fn write_definition(read: Reading, out: &mut Writing, definition: Definition) -> Result<(), Stop> {
    let limit = definition.name.start;
    let mut scope = NONE;
    let mut parts = definition.parts;
    for _ in 0..read.forms.len() {
        let Some(at) = first_of(read.forms, parts) else {
            break;
        };
        let part = part_at(read, at);
        let view = View {
            scope: NONE,
            uses: NONE,
            limit,
        };
        let meaning = tried_meaning(read, out, part, view)?;
        scope = out.bind(scope, part.name, meaning)?;
        parts = behind_first(read.forms, parts);
    }
    let view = View {
        scope,
        uses: NONE,
        limit,
    };
    let here = Here {
        view,
        fiber: FiberName::Main,
    };
    plan_body(read, out, definition.body, here)?;
    write_all(read, out)
}

// Tries one definition within the work limit `work`, and returns what is left of it.
fn try_definition(
    alloc: Global,
    read: Reading,
    prelude: usize,
    name: ItemName,
    definition: Definition,
    work: usize,
) -> Result<usize, Refused> {
    let mut out = Writing::new(alloc)?;
    out.limit_work(work);
    match write_definition(read, &mut out, definition) {
        Ok(()) | Err(Stop::Limit(_)) => Ok(out.work_left()),
        Err(stop) => Err(term_refused(alloc, read, &out, prelude, name.name, stop)),
    }
}

/// Tries the definitions of a file, one after another, until the work for all of them is used up.
pub fn try_definitions(alloc: Global, read: Reading, prelude: usize) -> Result<(), Refused> {
    let mut work = MOST_WORK;
    for name in read.named.names() {
        match name.item {
            NamedItem::Definition(definition) => {
                if prelude <= name.name.start {
                    work = try_definition(alloc, read, prelude, *name, definition, work)?;
                }
            }
            NamedItem::Number(_) | NamedItem::Model => {}
        }
    }
    Ok(())
}
