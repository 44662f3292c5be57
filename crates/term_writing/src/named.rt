//! The definitions, constants and models of a source, by their names.

use crate::reading::{bytes_of, span_of};
use crate::scope::NONE;
use crate::wrong::Span;
use model_text::{Definition, Item};
use std::alloc::{AllocError, Global};

// The number of lists of names.
const LISTS: usize = 1024;

/// The item that a name of a source names.
#[derive(Clone, Copy)]
pub enum NamedItem {
    /// A constant.
    Number(i64),
    /// A definition.
    Definition(Definition),
    /// A model.
    Model,
}

/// A name of a source.
#[derive(Clone, Copy)]
pub struct ItemName {
    /// Its bytes.
    pub name: Span,
    pub(crate) item: NamedItem,
    next: usize,
}

/// The names of a source, in lists by a hash of their bytes.
#[derive(Drop)]
pub struct ItemNames {
    names: Vec<ItemName>,
    lists: Vec<usize>,
}

/// The number of the list for a spelling, below `lists`.
pub(crate) fn list_of(spelled: &[u8], lists: usize) -> usize {
    let mut sum: usize = 5381;
    for byte in spelled {
        sum = sum.wrapping_mul(33).wrapping_add(usize::from(*byte));
    }
    sum.checked_rem(lists).unwrap_or(0)
}

impl ItemName {
    /// Whether the name is that of a definition.
    pub(crate) fn is_definition(&self) -> bool {
        matches!(self.item, NamedItem::Definition(_))
    }

    /// Whether the name is that of a model.
    pub(crate) fn is_model(&self) -> bool {
        is_model(self.item)
    }
}

// Whether a name is that of a model.
fn is_model(item: NamedItem) -> bool {
    match item {
        NamedItem::Model => true,
        NamedItem::Number(_) | NamedItem::Definition(_) => false,
    }
}

impl ItemNames {
    /// Makes an empty table of names.
    pub fn new(alloc: Global) -> Result<ItemNames, AllocError> {
        let mut lists = Vec::with_capacity(alloc, LISTS)?;
        for _ in 0..LISTS {
            lists.push(NONE)?;
        }
        let names = Vec::new(alloc);
        Ok(ItemNames { names, lists })
    }

    /// The item with this spelling, among the models if `model` is set, else among the others.
    pub fn find(&self, text: &[u8], spelled: &[u8], model: bool) -> Option<ItemName> {
        let mut at = self.list(spelled);
        for _ in 0..self.names.len() {
            let name = self.names.get(at).copied()?;
            if is_model(name.item) == model && bytes_of(text, name.name) == spelled {
                return Some(name);
            }
            at = name.next;
        }
        None
    }

    /// All names.
    pub(crate) fn names(&self) -> &[ItemName] {
        self.names.as_slice()
    }

    // The number of the first name of the list for a spelling.
    fn list(&self, spelled: &[u8]) -> usize {
        self.lists
            .get(list_of(spelled, LISTS))
            .copied()
            .unwrap_or(NONE)
    }

    /// Adds a name.
    pub fn add(&mut self, text: &[u8], name: Span, item: NamedItem) -> Result<(), AllocError> {
        let spelled = bytes_of(text, name);
        let next = self.list(spelled);
        let number = self.names.len();
        self.names.push(ItemName { name, item, next })?;
        if let Some(list) = self.lists.get_mut(list_of(spelled, LISTS)) {
            *list = number;
        }
        Ok(())
    }
}

/// The name of an item and the item that it names, if the item has a name.
pub fn name_of(item: &Item) -> Option<(Span, NamedItem)> {
    match item {
        Item::Constant(constant) => {
            Some((
                span_of(constant.name),
                NamedItem::Number(constant.number.get()),
            ))
        }
        Item::Definition(definition) => {
            Some((span_of(definition.name), NamedItem::Definition(*definition)))
        }
        Item::Defaults(_) => None,
        Item::Model(model) => Some((span_of(model.name), NamedItem::Model)),
    }
}
