//! A whole model file, from its bytes.

ghost use Rattle.std.specs.Prelude.{◌≡◌, IfErr, IfOk};
ghost use Rattle.model_text.specs.Files.{IsFile, IsFileFault, code_of, form_code, form_place, place_of};

use crate::fault::ItemFault;
use crate::item::Item;
use crate::reader::read_items;
use model_forms::{Form, FormFault, read_forms};
use std::alloc::Global;
use thiserror::Error;

/// The forms and the items of a model file. The blocks of the items are blocks of these forms.
#[derive(Drop)]
pub struct ModelFile {
    /// All forms of the file.
    pub forms: Vec<Form>,
    /// Its items, in the order of the file.
    pub items: Vec<Item>,
}

/// Why the bytes of a file aren't a model file.
#[derive(Clone, Copy, PartialEq, Eq, Debug, Error)]
pub enum FileFault {
    /// The bytes can't be read into forms.
    #[error("{0}")]
    Form(FormFault),
    /// Its forms aren't items.
    #[error("{0}")]
    Item(ItemFault),
}

impl FileFault {
    /// The number of bytes before the fault; `None` if memory ran out.
    pub fn place(self) -> Option<usize>
        ensures { result ≡ place_of self }
    {
        match self {
            FileFault::Form(fault) => form_place(fault),
            FileFault::Item(fault) => fault.place(),
        }
    }

    /// A short name of the kind of fault, such as `E01`.
    pub fn code(self) -> &'static str
        ensures { result.now ≡ code_of self }
    {
        match self {
            FileFault::Form(fault) => form_code(fault),
            FileFault::Item(fault) => fault.code(),
        }
    }
}

fn form_place(fault: FormFault) -> Option<usize>
    ensures { result ≡ form_place fault }
{
    match fault {
        FormFault::NoMemory => None,
        FormFault::Unclosed(_, place) => Some(place),
        FormFault::Unopened(place) => Some(place),
        FormFault::UnclosedText(place) => Some(place),
    }
}

fn form_code(fault: FormFault) -> &'static str
    ensures { result.now ≡ form_code fault }
{
    match fault {
        FormFault::NoMemory => "E24",
        FormFault::Unclosed(_, _) => "E01",
        FormFault::Unopened(_) => "E02",
        FormFault::UnclosedText(_) => "E03",
    }
}

/// Reads a model file from its bytes, or returns its first fault: of its brackets and strings, or else of its items.
pub fn read_file(alloc: Global, text: &[u8]) -> Result<ModelFile, FileFault>
    ensures file { IfOk result (IsFile text.now) }
    ensures fault { IfErr result (IsFileFault text.now) }
{
    match read_forms(alloc, text) {
        Ok(forms) => match read_items(alloc, text, forms.as_slice()) {
            Ok(items) => Ok(ModelFile { forms, items }),
            Err(fault) => Err(FileFault::Item(fault)),
        },
        Err(fault) => Err(FileFault::Form(fault)),
    }
}
