//! Reads the claims of a model from their forms.

use crate::answer::FiberName;
use crate::claim::{Claim, Want};
use crate::claim_faults::{fails_fault, order_fault, outcome_fault, parts_fault};
use crate::compile::{compile, spell};
use crate::condition::{Condition, Spoken, Wanted, Who, Word, empty_condition};
use crate::endless::has_forever;
use crate::faults::{plain_fault, quoting_fault};
use crate::leaf::speaks_of;
use crate::moment::{MomentWord, final_words, moment_words};
use crate::names::{needs_names, sayer_name, who_at};
use crate::numbering::numbers_tell_names;
use crate::parts::{
    Place, behind, both_at, first_at, head_at, inside_at, number_at, only_at, outcome_at, parts_at,
    word_at,
};
use crate::refs::{Subjects, no_subjects, ref_fault};
use crate::straight::straight_part;
use crate::words::{Head, head_of};
use claim_verdicts::Rule;
use model_forms::{Block, form_bytes};
use model_terms::{BinderName, ModelTerm, Probe, Refused, Said, Source};
use model_text::Model;
use std::alloc::Global;

const COMPUTED_SAY: &str =
    "a fiber that `before` names says a computed value here: say a number or a constant";

const SEVERAL_REFS: &str =
    "a claim on several refs at one moment speaks of refs that main makes first, each under a name of its own";

const REF_AND_FIBERS: &str =
    "a claim on a ref and fibers at one moment isn't supported: state it of the ref alone";

const REFS_AT_THE_END: &str =
    "a claim on a ref at the end speaks of refs that main makes first, each under a name of its own";

const NO_END: &str =
    "a ref at the end isn't supported in a model with a loop without end: let main read it and end with it";

// Where a claim is checked.
#[derive(Drop)]
enum Look {
    // In the answers of the term with this probe.
    Ends(Probe),
    // In each world of the term, by these words.
    Worlds(Vec<MomentWord>),
}

/// Returns the claims of a model in the order of the file, or the first fault. `term` is the model's term without a
/// probe.
pub fn read_claims(
    alloc: Global,
    source: &Source,
    model: &Model,
    term: &ModelTerm,
) -> Result<Vec<Claim>, Refused> {
    let place = Place {
        source,
        model,
        term,
        straight: straight_part(term.text.as_slice()),
        numbered: numbers_tell_names(alloc, term.text.as_slice())?,
    };
    let mut claims = Vec::new(alloc);
    let mut rest = model.claims;
    for _ in 0..source.file.forms.len() {
        let Some(at) = first_at(source, rest) else {
            break;
        };
        push_claim(alloc, &place, at, &mut claims)?;
        rest = behind(source, rest);
    }
    if claims.is_empty() {
        return Err(no_claims(alloc, &place));
    }
    Ok(claims)
}

// The fault of a model without claims.
fn no_claims(alloc: Global, place: &Place) -> Refused {
    let name = form_bytes(place.source.text.as_slice(), place.model.name);
    let refused = quoting_fault(
        alloc,
        place.source,
        "E19",
        0,
        "model ",
        name,
        " claims nothing: no answer could fail it",
    );
    match refused {
        Refused::NoMemory => Refused::NoMemory,
        Refused::Fault(mut fault) => {
            fault.start = place.model.name.start;
            fault.end = place.model.name.end;
            Refused::Fault(fault)
        }
    }
}

// Adds the claim with this number; nothing if the form is a bound or has the statements of the model.
fn push_claim(
    alloc: Global,
    place: &Place,
    at: usize,
    claims: &mut Vec<Claim>,
) -> Result<(), Refused> {
    if head_of(head_at(place.source, at)).is_none() {
        return Ok(());
    }
    let claim = claim_at(alloc, place, at)?;
    claims.push(claim)?;
    Ok(())
}

// Reads the claim with this number.
fn claim_at(alloc: Global, place: &Place, at: usize) -> Result<Claim, Refused> {
    let mut inner = at;
    let mut fails = false;
    for _ in 0..place.source.file.forms.len() {
        let Some(head) = head_of(head_at(place.source, inner)) else {
            return Err(fails_fault(alloc, place, at));
        };
        match head {
            Head::Fails => {}
            _ => return plain_claim(alloc, place, at, inner, head, fails),
        }
        let Some(part) = only_at(place.source, parts_at(place.source, inner)) else {
            return Err(fails_fault(alloc, place, at));
        };
        inner = part;
        fails = !fails;
    }
    Err(fails_fault(alloc, place, at))
}

// Reads the claim of number `form`. `at` is the number of the form inside each `fails`, and `head` is its head.
fn plain_claim(
    alloc: Global,
    place: &Place,
    form: usize,
    at: usize,
    head: Head,
    fails: bool,
) -> Result<Claim, Refused> {
    let mut condition = empty_condition(alloc);
    let mut wants = Vec::new(alloc);
    let (rule, look) = read_claim(alloc, place, at, head, &mut condition, &mut wants)?;
    let (probe, moment) = match look {
        Look::Ends(probe) => (probe, None),
        Look::Worlds(words) => (Probe::Nothing, Some(words)),
    };
    Ok(Claim {
        form,
        fails,
        rule,
        probe,
        condition,
        moment,
        wants,
    })
}

// Adds the condition of a claim and the ways to end that it wants. Returns its rule and where it is checked.
fn read_claim(
    alloc: Global,
    place: &Place,
    at: usize,
    head: Head,
    condition: &mut Condition,
    wants: &mut Vec<Want>,
) -> Result<(Rule, Look), Refused> {
    match head {
        Head::Want => want(alloc, place, at, condition, wants),
        Head::Must => at_the_end(alloc, place, at, Rule::Every, condition),
        Head::Can => at_the_end(alloc, place, at, Rule::Some, condition),
        Head::Always => at_any_moment(alloc, place, at, Rule::Every, condition),
        Head::Ever => at_any_moment(alloc, place, at, Rule::Some, condition),
        Head::Never => never(alloc, place, at, condition),
        Head::Before => before(alloc, place, at, condition),
        Head::AllEnd => ended(alloc, place, at, Who::Everyone, condition),
        Head::NoDeadlock => ended(alloc, place, at, Who::Main, condition),
        Head::Fails => Err(fails_fault(alloc, place, at)),
    }
}

// `(want o ..)`.
fn want(
    alloc: Global,
    place: &Place,
    at: usize,
    condition: &mut Condition,
    wants: &mut Vec<Want>,
) -> Result<(Rule, Look), Refused> {
    let block = parts_at(place.source, at);
    if first_at(place.source, block).is_none() {
        return Err(parts_fault(alloc, place, at));
    }
    push_wants(alloc, place, block, condition, wants)?;
    let to = condition.outcomes.len();
    condition.words.push(Word::Ends(Who::Main, 0, to))?;
    Ok((Rule::Every, Look::Ends(Probe::Nothing)))
}

// Adds the ways to end that a `want` names.
fn push_wants(
    alloc: Global,
    place: &Place,
    block: Block,
    condition: &mut Condition,
    wants: &mut Vec<Want>,
) -> Result<(), Refused> {
    let mut rest = block;
    for _ in 0..place.source.file.forms.len() {
        let Some(form) = first_at(place.source, rest) else {
            return Ok(());
        };
        let Some(outcome) = outcome_at(place.source, place.model, form) else {
            return Err(outcome_fault(alloc, place, form));
        };
        push_want(form, &outcome, condition, wants)?;
        rest = behind(place.source, rest);
    }
    Ok(())
}

fn push_want(
    form: usize,
    outcome: &Wanted,
    condition: &mut Condition,
    wants: &mut Vec<Want>,
) -> Result<(), Refused> {
    condition.outcomes.push(*outcome)?;
    let want = Want {
        form,
        outcome: *outcome,
    };
    wants.push(want)?;
    Ok(())
}

// `(all-end)` and `(no-deadlock)`.
fn ended(
    alloc: Global,
    place: &Place,
    at: usize,
    who: Who,
    condition: &mut Condition,
) -> Result<(Rule, Look), Refused> {
    if first_at(place.source, parts_at(place.source, at)).is_some() {
        return Err(parts_fault(alloc, place, at));
    }
    condition.words.push(Word::Ended(who))?;
    let probe = names_probe(place, needs_names(who));
    Ok((Rule::Every, Look::Ends(probe)))
}

// Compiles the one condition of a claim, and returns what the condition is about. `strict` is as for `compile`.
fn only_condition(
    alloc: Global,
    place: &Place,
    at: usize,
    strict: bool,
    condition: &mut Condition,
) -> Result<Subjects, Refused> {
    let Some(part) = only_at(place.source, parts_at(place.source, at)) else {
        return Err(parts_fault(alloc, place, at));
    };
    let mut subjects = no_subjects();
    compile(alloc, place, part, strict, condition, &mut subjects)?;
    Ok(subjects)
}

// `must` and `can`.
fn at_the_end(
    alloc: Global,
    place: &Place,
    at: usize,
    rule: Rule,
    condition: &mut Condition,
) -> Result<(Rule, Look), Refused> {
    let strict = rule == Rule::Some;
    let subjects = only_condition(alloc, place, at, strict, condition)?;
    match subjects.cell {
        Some(_) => {
            let look = look_at_the_end(alloc, place, at, rule, subjects, condition)?;
            Ok((rule, look))
        }
        None => Ok((rule, Look::Ends(names_probe(place, subjects.names)))),
    }
}

// Where a condition on refs at the end is checked: in each world in which no fiber can go on. Without a `forever` every
// schedule leads to such a world.
fn look_at_the_end(
    alloc: Global,
    place: &Place,
    at: usize,
    rule: Rule,
    subjects: Subjects,
    condition: &Condition,
) -> Result<Look, Refused> {
    if subjects.fibers {
        return Err(ref_fault(alloc, place, at, REF_AND_FIBERS));
    }
    if has_forever(place.term) {
        return Err(ref_fault(alloc, place, at, NO_END));
    }
    match final_words(alloc, rule, condition.words.as_slice())? {
        Some(words) => Ok(Look::Worlds(words)),
        None => Err(ref_fault(alloc, place, at, REFS_AT_THE_END)),
    }
}

// The probe for a claim on answers. `names` says whether the claim depends on the names of fibers.
fn names_probe(place: &Place, names: bool) -> Probe {
    if names && !place.numbered {
        Probe::Names
    } else {
        Probe::Nothing
    }
}

// `always` and `ever`.
fn at_any_moment(
    alloc: Global,
    place: &Place,
    at: usize,
    rule: Rule,
    condition: &mut Condition,
) -> Result<(Rule, Look), Refused> {
    let subjects = only_condition(alloc, place, at, false, condition)?;
    match subjects.cell {
        Some(cell) => {
            let look = look_at_moments(alloc, place, at, subjects, cell, condition)?;
            Ok((rule, look))
        }
        None => Err(no_ref_spoken_of(alloc, place, at, rule)),
    }
}

// The fault of an `always` or `ever` that names no ref.
fn no_ref_spoken_of(alloc: Global, place: &Place, at: usize, rule: Rule) -> Refused {
    match rule {
        Rule::Every => moment_fault(alloc, place, at, " speaks of a ref: of fibers say `must`"),
        Rule::Some => moment_fault(alloc, place, at, " speaks of a ref: of fibers say `can`"),
    }
}

fn moment_fault(alloc: Global, place: &Place, at: usize, words: &str) -> Refused {
    quoting_fault(
        alloc,
        place.source,
        "E22",
        at,
        "",
        head_at(place.source, at),
        words,
    )
}

// Where a condition on refs at any moment is checked: in each world if the number of each ref is known, else in the
// answers of the term with a watcher of the only ref.
fn look_at_moments(
    alloc: Global,
    place: &Place,
    at: usize,
    subjects: Subjects,
    cell: BinderName,
    condition: &Condition,
) -> Result<Look, Refused> {
    if subjects.fibers {
        return Err(ref_fault(alloc, place, at, REF_AND_FIBERS));
    }
    match moment_words(alloc, condition.words.as_slice())? {
        Some(words) => Ok(Look::Worlds(words)),
        None if subjects.several => Err(ref_fault(alloc, place, at, SEVERAL_REFS)),
        None => Ok(Look::Ends(Probe::Watch(cell, place.term.says_names))),
    }
}

// `never`: a condition on a ref holds at no moment, a condition on fibers holds of no answer.
fn never(
    alloc: Global,
    place: &Place,
    at: usize,
    condition: &mut Condition,
) -> Result<(Rule, Look), Refused> {
    let subjects = only_condition(alloc, place, at, true, condition)?;
    condition.words.push(Word::Not)?;
    match subjects.cell {
        Some(cell) => {
            let look = look_at_moments(alloc, place, at, subjects, cell, condition)?;
            Ok((Rule::Every, look))
        }
        None => Ok((Rule::Every, Look::Ends(names_probe(place, subjects.names)))),
    }
}

// `(before (f v) (g w))`. The search sees the order of `say`s of numbers alone.
fn before(
    alloc: Global,
    place: &Place,
    at: usize,
    condition: &mut Condition,
) -> Result<(Rule, Look), Refused> {
    let Some((one, other)) = both_at(place.source, parts_at(place.source, at)) else {
        return Err(order_fault(alloc, place, at));
    };
    let first = saying(alloc, place, at, one, condition)?;
    let second = saying(alloc, place, at, other, condition)?;
    check_says(alloc, place, condition)?;
    condition.words.push(Word::Late)?;
    condition.words.push(Word::Not)?;
    let probe = Probe::Order(first, second, !place.numbered);
    Ok((Rule::Every, Look::Ends(probe)))
}

// Checks that each fiber that a condition names says numbers alone.
fn check_says(alloc: Global, place: &Place, condition: &Condition) -> Result<(), Refused> {
    for say in place.term.computed.as_slice() {
        let sayer = sayer_name(say.fiber);
        if names_fiber(place.source, condition, sayer) {
            return Err(plain_fault(alloc, place.source, "E22", say.form, COMPUTED_SAY));
        }
    }
    Ok(())
}

// Whether a condition names the fibers of this name.
fn names_fiber(source: &Source, condition: &Condition, fiber: FiberName) -> bool {
    for name in condition.names.as_slice() {
        if let Spoken::Fibers(who) = name.what
            && speaks_of(source, who, fiber)
        {
            return true;
        }
    }
    false
}

// Reads `(f v)`, a part of the `before` with this number. Adds the name to those of the condition.
fn saying(
    alloc: Global,
    place: &Place,
    at: usize,
    part: usize,
    condition: &mut Condition,
) -> Result<Said, Refused> {
    let Some((fiber, number)) = both_at(place.source, inside_at(place.source, part)) else {
        return Err(order_fault(alloc, place, at));
    };
    let Some(value) = number_at(place.source, place.model, number) else {
        return Err(order_fault(alloc, place, at));
    };
    if word_at(place.source, fiber).is_empty() {
        return Err(order_fault(alloc, place, at));
    }
    let who = who_at(alloc, place, fiber)?;
    spell(condition, fiber, Spoken::Fibers(who))?;
    Ok(Said { fiber, value })
}
