//! A model file, preceded by the definitions that every file has.

ghost use Rattle.std.specs.Prelude.{◌≡◌, IfOk, drop};
ghost use Rattle.model_text.specs.Files.{IsFile};

use model_forms::Block;
use model_text::{Item, ModelFile, read_file};
use std::alloc::{AllocError, Global};
use term_writing::{
    ItemNames, NameFault, NamedItem, Reading, Refused, Span, bytes_of, file_refused, name_of,
    shape_of, try_definitions, twice_refused,
};

// The definitions that every file has.
const PRELUDE: &str = "(define (wait f:fiber) (join f _ 0 _ 0 0))
(define (value-of f:fiber) (join f x x e (raise e) (canceled)))
(define (spin-until-zero r:ref) (handle (forever (if0 (get r) (raise 1) (cede))) _ 0))
(define (ignore-errors (e)) (handle (e) _ 0))
(define (guarantee-case (e) (done) (failed) (cut)) (bracketcase _ 0 (e) _ (done) _ (failed) (cut)))
";

/// The text of the definitions that every file has.
pub fn prelude() -> &'static str {
    PRELUDE
}

/// A model file behind the definitions that every file has. Places and form numbers count from the first definition.
#[derive(Drop)]
pub struct Source {
    /// The definitions that every file has, and then the file.
    pub text: Vec<u8>,
    /// The number of bytes of the definitions that every file has.
    pub prelude: usize,
    /// The forms and items of the text.
    pub file: ModelFile,
    /// The bounds of its `defaults` items, in their order.
    pub defaults: Vec<Block>,
    // The names of the items.
    names: ItemNames,
}

/// The parts of a source that a translation reads.
pub(crate) fn reading_of(source: &Source) -> Reading<'_> {
    Reading {
        text: source.text.as_slice(),
        forms: source.file.forms.as_slice(),
        named: &source.names,
    }
}

// Whether a spelling is a word of the language of models.
fn is_word(spelled: &[u8]) -> bool {
    shape_of(spelled).is_some()
}

// Whether a name is that of a model.
fn is_model(item: NamedItem) -> bool {
    matches!(item, NamedItem::Model)
}

// Returns the fault of a name among the names above it, if it has one.
fn name_fault(names: &ItemNames, text: &[u8], name: Span, item: NamedItem) -> Option<NameFault> {
    let spelled = bytes_of(text, name);
    let model = is_model(item);
    if !model && is_word(spelled) {
        return Some(NameFault::Word);
    }
    let other = names.find(text, spelled, model)?;
    if model {
        Some(NameFault::TwoModels(other.name.start))
    } else {
        Some(NameFault::Twice(other.name.start))
    }
}

// Adds the names of the items up to the first refused one, and returns that name with its fault.
fn names_of(
    names: &mut ItemNames,
    text: &[u8],
    items: &[Item],
) -> Result<Option<(Span, NameFault)>, AllocError> {
    for item in items {
        if let Some((name, stands_for)) = name_of(item) {
            match name_fault(names, text, name, stands_for) {
                Some(fault) => return Ok(Some((name, fault))),
                None => names.add(text, name, stands_for)?,
            }
        }
    }
    Ok(None)
}

/// Reads a file, preceded by the definitions that every file has, and tries each of its definitions.
///
/// # Errors
/// Returns [`Refused::Fault`] with the first fault: of the brackets and strings of the file, or else of its items, or
/// else of their names, or else of a definition. Returns [`Refused::NoMemory`] if memory ran out.
pub fn read_source(alloc: Global, bytes: &[u8]) -> Result<Source, Refused>
    ensures behind { IfOk result (λ s. drop s.prelude s.text.items ≡ bytes.now) }
    ensures file { IfOk result (λ s. IsFile s.text.items s.file) }
{
    let mut text = Vec::from_slice(alloc, PRELUDE.as_bytes())?;
    let prelude = text.len();
    text.extend_from_slice(bytes)?;
    match read_file(alloc, text.as_slice()) {
        Ok(file) => with_names(alloc, text, prelude, file),
        Err(fault) => Err(file_refused(alloc, text.as_slice(), fault)),
    }
}

// The bounds of each `defaults` item.
fn defaults_of(alloc: Global, items: &[Item]) -> Result<Vec<Block>, AllocError> {
    let mut defaults = Vec::new(alloc);
    for item in items {
        match *item {
            Item::Defaults(block) => defaults.push(block)?,
            Item::Constant(_) | Item::Definition(_) | Item::Model(_) => {}
        }
    }
    Ok(defaults)
}

// Makes a source of this text and file, or returns the first fault of a name or of a definition.
fn with_names(
    alloc: Global,
    text: Vec<u8>,
    prelude: usize,
    file: ModelFile,
) -> Result<Source, Refused>
    ensures text { IfOk result (λ s. s.text ≡ text) }
    ensures prelude { IfOk result (λ s. s.prelude ≡ prelude) }
    ensures file { IfOk result (λ s. s.file ≡ file) }
{
    let mut names = ItemNames::new(alloc)?;
    match names_of(&mut names, text.as_slice(), file.items.as_slice()) {
        Ok(None) => {}
        Ok(Some((name, fault))) => {
            return Err(twice_refused(alloc, text.as_slice(), prelude, name, fault));
        }
        Err(_) => return Err(Refused::NoMemory),
    }
    let defaults = defaults_of(alloc, file.items.as_slice())?;
    let source = Source {
        text,
        prelude,
        file,
        defaults,
        names,
    };
    match try_definitions(alloc, reading_of(&source), prelude) {
        Ok(()) => Ok(source),
        Err(refused) => Err(refused),
    }
}
