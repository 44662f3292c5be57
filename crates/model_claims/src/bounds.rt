//! The bounds of a model.

use crate::faults::plain_fault;
use crate::parts::{behind, first_at, form_at, head_at, only_at, parts_at, word_at};
use model_forms::Block;
use model_terms::{Refused, Source};
use model_text::{Model, read_number};
use std::alloc::Global;

/// The bounds that a model sets. A bound is none if the model leaves it to the command line.
#[derive(Clone, Copy)]
pub struct Settings {
    /// The greatest number of worlds that are kept, from 1 to 100,000,000.
    pub worlds: Option<u64>,
    /// The greatest number of entries of a schedule, from 1 to 1,000,000.
    pub entries: Option<u64>,
    /// The greatest number of fibers, from 1 to 1000.
    pub fibers: Option<u64>,
    /// The greatest number of refs, from 1 to 1000.
    pub refs: Option<u64>,
    /// The greatest number of deferreds, from 1 to 1000.
    pub deferreds: Option<u64>,
    /// The number of times a fiber can change its own state, from 1 to 1,099,511,627,775.
    pub count: Option<u64>,
    /// The number of schedules that are drawn, from 1 to 1,000,000.
    pub times: Option<u64>,
    /// The seed of the drawing, from 0 to 4,611,686,018,427,387,903.
    pub seed: Option<u64>,
}

// The word of a bound.
#[derive(Clone, Copy)]
enum Bound {
    Worlds,
    Entries,
    Fibers,
    Refs,
    Deferreds,
    Count,
    Times,
    Seed,
}

// The bound whose word these bytes spell, if any.
fn bound_of(bytes: &[u8]) -> Option<Bound> {
    match bytes {
        b"worlds" => Some(Bound::Worlds),
        b"entries" => Some(Bound::Entries),
        b"fibers" => Some(Bound::Fibers),
        b"refs" => Some(Bound::Refs),
        b"deferreds" => Some(Bound::Deferreds),
        b"count" => Some(Bound::Count),
        b"times" => Some(Bound::Times),
        b"seed" => Some(Bound::Seed),
        _ => None,
    }
}

// The least number of a bound.
fn least(bound: Bound) -> u64 {
    match bound {
        Bound::Seed => 0,
        Bound::Worlds => 1,
        Bound::Entries => 1,
        Bound::Fibers => 1,
        Bound::Refs => 1,
        Bound::Deferreds => 1,
        Bound::Count => 1,
        Bound::Times => 1,
    }
}

// The greatest number of a bound.
fn most(bound: Bound) -> u64 {
    match bound {
        Bound::Worlds => 100_000_000,
        Bound::Entries => 1_000_000,
        Bound::Fibers => 1000,
        Bound::Refs => 1000,
        Bound::Deferreds => 1000,
        Bound::Count => 1_099_511_627_775,
        Bound::Times => 1_000_000,
        Bound::Seed => 4_611_686_018_427_387_903,
    }
}

// The message of a fault that gives the range of a bound.
fn range_words(bound: Bound) -> &'static str {
    match bound {
        Bound::Worlds => "a number from 1 to 100000000 was wanted",
        Bound::Entries => "a number from 1 to 1000000 was wanted",
        Bound::Fibers => "a number from 1 to 1000 was wanted",
        Bound::Refs => "a number from 1 to 1000 was wanted",
        Bound::Deferreds => "a number from 1 to 1000 was wanted",
        Bound::Count => "a number from 1 to 1099511627775 was wanted",
        Bound::Times => "a number from 1 to 1000000 was wanted",
        Bound::Seed => "a number from 0 to 4611686018427387903 was wanted",
    }
}

// Sets a bound.
fn set(settings: &mut Settings, bound: Bound, number: u64) {
    match bound {
        Bound::Worlds => settings.worlds = Some(number),
        Bound::Entries => settings.entries = Some(number),
        Bound::Fibers => settings.fibers = Some(number),
        Bound::Refs => settings.refs = Some(number),
        Bound::Deferreds => settings.deferreds = Some(number),
        Bound::Count => settings.count = Some(number),
        Bound::Times => settings.times = Some(number),
        Bound::Seed => settings.seed = Some(number),
    }
}

// No bounds.
fn no_settings() -> Settings {
    Settings {
        worlds: None,
        entries: None,
        fibers: None,
        refs: None,
        deferreds: None,
        count: None,
        times: None,
        seed: None,
    }
}

/// Returns the first fault of the defaults of a file: a number out of range, at its place.
pub fn check_defaults(alloc: Global, source: &Source) -> Result<(), Refused> {
    let mut settings = no_settings();
    for block in source.defaults.as_slice() {
        set_all(alloc, source, *block, &mut settings)?;
    }
    Ok(())
}

/// Returns the bounds of a model. Its own bounds override those of the file's defaults above it, and a later bound
/// overrides an earlier one. A number out of range is a fault at the place of the number.
pub fn read_settings(alloc: Global, source: &Source, model: &Model) -> Result<Settings, Refused> {
    let mut settings = no_settings();
    for block in source.defaults.as_slice() {
        if block.first < model.claims.first {
            set_all(alloc, source, *block, &mut settings)?;
        }
    }
    set_all(alloc, source, model.claims, &mut settings)?;
    Ok(settings)
}

// Sets each bound of a block.
fn set_all(
    alloc: Global,
    source: &Source,
    block: Block,
    settings: &mut Settings,
) -> Result<(), Refused> {
    let mut rest = block;
    for _ in 0..source.file.forms.len() {
        let Some(at) = first_at(source, rest) else {
            return Ok(());
        };
        set_one(alloc, source, at, settings)?;
        rest = behind(source, rest);
    }
    Ok(())
}

// Sets the bound with this number; nothing if the form is no bound with one part.
fn set_one(
    alloc: Global,
    source: &Source,
    at: usize,
    settings: &mut Settings,
) -> Result<(), Refused> {
    let Some(bound) = bound_of(head_at(source, at)) else {
        return Ok(());
    };
    let Some(part) = only_at(source, parts_at(source, at)) else {
        return Ok(());
    };
    match amount_at(source, part) {
        Some(number) if least(bound) <= number && number <= most(bound) => {
            set(settings, bound, number);
            Ok(())
        }
        _ => Err(out_of_range(alloc, source, part, bound)),
    }
}

// The number that a word spells, if it isn't negative.
fn amount_at(source: &Source, at: usize) -> Option<u64> {
    let number = read_number(word_at(source, at))?;
    u64::try_from(number.get()).ok()
}

// The fault of a number out of range.
fn out_of_range(alloc: Global, source: &Source, at: usize, bound: Bound) -> Refused {
    plain_fault(alloc, source, "E14", at, range_words(bound))
}
