//! The term of a model.

ghost use Rattle.std.specs.Prelude.{◌≡◌, ◌<◌, ◌≤◌, ◌↔◌, All, IfOk, IsTrue, true, vec_len};
ghost use Rattle.model_terms.specs.Texts.{IsTermText};

use crate::source::{Source, reading_of};
use effect_term::Value;
use model_text::Model;
use std::alloc::{AllocError, Global};
use term_parse::{ParseError, Word, parse};
use term_writing::{
    Binder, BinderName, ComputedSay, FiberName, Here, Limit, MOST_BYTES, NONE, NameKind, Operand,
    Reading, Refused, SaidBy, Stop, Task, View, WordPlace, Writing, first_of, span_of,
    term_refused, write_all,
};

/// A fiber's name in a file, and a value that it says.
#[derive(Clone, Copy)]
pub struct Said {
    /// The number of the form that spells the fiber's name, as in the claim: `w`, `w.1`, `main`.
    pub fiber: usize,
    /// The value.
    pub value: Value,
}

/// An addition to a term that makes its reports show more.
#[derive(Clone, Copy)]
pub enum Probe {
    /// Nothing.
    Nothing,
    /// For each ref of this binder, a fiber that reads the ref once, at any moment, and ends with its value. If the
    /// flag is set, also what `Names` adds.
    Watch(BinderName, bool),
    /// A hidden ref that records whether the first `say` came before the second. If it didn't, a fiber says a number
    /// before the second. If the flag is set, also what `Names` adds.
    Order(Said, Said, bool),
    /// In each fiber but fiber 0, a `say` before anything else. Fibers of different names say different values. Their
    /// reports then differ, unless the fibers are canceled before they begin.
    Names,
}

/// The term of a model, as text.
#[derive(Drop)]
pub struct ModelTerm {
    /// The text of the term.
    pub text: Vec<u8>,
    /// Its binders, in the order of the text.
    pub binders: Vec<Binder>,
    /// The places in the file that its forms come from, in the order of the text.
    pub places: Vec<WordPlace>,
    /// The forms of the file that read a ref whose value then changes the ref. Another fiber can move in between.
    pub torn: Vec<usize>,
    /// The `say`s of values that aren't numbers of the file, in the order of the text.
    pub computed: Vec<ComputedSay>,
    /// Whether the term can say a number that a probe says: computed, or written in the file.
    pub says_names: bool,
}

// The surroundings of the statements of a definition or a model whose name begins at `limit`.
fn top(limit: usize) -> Here {
    let view = View {
        scope: NONE,
        uses: NONE,
        limit,
    };
    Here {
        view,
        fiber: FiberName::Main,
    }
}

// Plans the statements of a model.
fn plan_model(read: Reading, out: &mut Writing, model: &Model) -> Result<(), Stop> {
    let here = top(model.name.start);
    match out.said {
        Some(_) => {
            let at = first_of(read.forms, model.body).unwrap_or(0);
            let order = out.fresh(b"order")?;
            out.order = order;
            out.then(Task::Open(Word::Ref, at))?;
            out.then(Task::Bind(order, NameKind::Ref, BinderName::Hidden))?;
            out.then(Task::Operand(Operand::Number(0)))?;
            out.then(Task::Statements(model.body, false, here))?;
            out.then(Task::Close(1))
        }
        None => { out.then(Task::Statements(model.body, false, here)) }
    }
}

// The `say` of a fiber and a value.
fn said_by(said: &Said) -> SaidBy {
    SaidBy {
        fiber: said.fiber,
        value: said.value.get(),
    }
}

// Stores what a probe adds to a term.
fn keep_probe(out: &mut Writing, probe: &Probe) {
    match probe {
        Probe::Nothing => {}
        Probe::Watch(binder, names) => {
            out.watched = Some(*binder);
            out.names = *names;
        }
        Probe::Order(first, second, names) => {
            let first = said_by(first);
            let second = said_by(second);
            out.said = Some((first, second));
            out.names = *names;
        }
        Probe::Names => out.names = true,
    }
}

// Writes the term of a model, and checks it.
fn write_model(alloc: Global, read: Reading, out: &mut Writing, model: &Model) -> Result<(), Stop>
    ensures short { IfOk result (λ _. vec_len out.new.text ≤ 65536) }
    ensures term { IfOk result (λ _. IsTermText out.new.text.items) }
    ensures binders { IfOk result (λ _. All (λ b. (b.start ≤ b.end) × (b.end ≤ vec_len out.new.text)) out.new.binders.items) }
    ensures places { IfOk result (λ _. All (λ p. p.term < vec_len out.new.text) out.new.places.items) }
{
    plan_model(read, out, model)?;
    write_all(read, out)?;
    check(alloc, out)
}

/// Returns the term of a model of a source, with the additions of a probe.
///
/// # Errors
/// Returns [`Refused::Fault`] if the model has a fault: the first one of its forms, in the order in which the term is
/// written. Returns [`Refused::NoMemory`] if memory ran out.
pub fn translate(
    alloc: Global,
    source: &Source,
    model: &Model,
    probe: Probe,
) -> Result<ModelTerm, Refused>
    ensures short { IfOk result (λ t. vec_len t.text ≤ 65536) }
    ensures term { IfOk result (λ t. IsTermText t.text.items) }
    ensures binders { IfOk result (λ t. All (λ b. (b.start ≤ b.end) × (b.end ≤ vec_len t.text)) t.binders.items) }
    ensures places { IfOk result (λ t. All (λ p. p.term < vec_len t.text) t.places.items) }
{
    let read = reading_of(source);
    let mut out = Writing::new(alloc)?;
    keep_probe(&mut out, &probe);
    match write_model(alloc, read, &mut out, model) {
        Ok(()) => Ok(term_of(out)),
        Err(stop) => {
            let name = span_of(model.name);
            Err(term_refused(alloc, read, &out, source.prelude, name, stop))
        }
    }
}

// Whether all binders are within the first `count` bytes.
fn are_within(binders: &[Binder], count: usize) -> bool
    ensures { IsTrue result ↔ All (λ b. (b.start ≤ b.end) × (b.end ≤ count)) binders.now }
{
    binders
        .iter()
        .all(|binder| binder.start <= binder.end && binder.end <= count)
}

// Whether all places are within the first `count` bytes.
fn are_places_within(places: &[WordPlace], count: usize) -> bool
    ensures { IsTrue result ↔ All (λ p. p.term < count) places.now }
{
    places.iter().all(|place| place.term < count)
}

// Whether the grammar of terms spells this text, as a term that is closed and well kinded.
fn is_term(alloc: Global, text: &[u8]) -> Result<bool, AllocError>
    ensures { IfOk result (λ b. b ≡ true → IsTermText text.now) }
{
    match parse(alloc, text) {
        Ok(term) => {
            drop(term);
            Ok(true)
        }
        Err(ParseError::NoMemory) => Err(AllocError),
        Err(_) => Ok(false),
    }
}

// Checks that the written term has at most 65,536 bytes, that its text is that of a term, and that its binders and
// places are within it.
fn check(alloc: Global, out: &Writing) -> Result<(), Stop>
    ensures short { IfOk result (λ _. vec_len out.now.text ≤ 65536) }
    ensures term { IfOk result (λ _. IsTermText out.now.text.items) }
    ensures binders { IfOk result (λ _. All (λ b. (b.start ≤ b.end) × (b.end ≤ vec_len out.now.text)) out.now.binders.items) }
    ensures places { IfOk result (λ _. All (λ p. p.term < vec_len out.now.text) out.now.places.items) }
{
    let length = out.text.len();
    if MOST_BYTES < length
        || !is_term(alloc, out.text.as_slice())?
        || !are_within(out.binders.as_slice(), length)
        || !are_places_within(out.places.as_slice(), length)
    {
        return Err(Stop::Limit(Limit::TooLong));
    }
    Ok(())
}

// The written term.
fn term_of(out: Writing) -> ModelTerm
    ensures text { result.text ≡ out.text }
    ensures binders { result.binders ≡ out.binders }
    ensures places { result.places ≡ out.places }
{
    ModelTerm {
        text: out.text,
        binders: out.binders,
        places: out.places,
        torn: out.torn,
        computed: out.computed,
        says_names: out.says_names,
    }
}
