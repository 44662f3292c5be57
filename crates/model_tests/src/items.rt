//! The items of a file.

use model_forms::{Block, Form, form_bytes, read_forms};
use model_text::{Item, ItemFault, read_items};
use std::alloc::Global;
use std::test::Fail;

const FILE: &[u8] = b"(define N -2)
(define (f x r:ref (b y)) (say x) (b x))
(defaults (worlds 1) (seed 0))
(model m \"t\" (want N) (count 3) (run (f N) 0))";

// An item: the bytes of its name, its number, and the number of forms in each of its two blocks.
struct Wanted {
    name: &'static [u8],
    number: i64,
    first: usize,
    second: usize,
}

// The parts `x`, `r:ref` and `(b y)` are 5 forms, `(say x)` and `(b x)` are 6, and the bounds are 6. The model has 3
// forms in `(want N)`, 3 in `(count 3)` and 6 in its `run`, 4 of them in its statements.
const WANTED: &[Wanted] = &[
    Wanted {
        name: b"N",
        number: -2,
        first: 0,
        second: 0,
    },
    Wanted {
        name: b"f",
        number: 0,
        first: 5,
        second: 6,
    },
    Wanted {
        name: b"",
        number: 0,
        first: 6,
        second: 0,
    },
    Wanted {
        name: b"m",
        number: 0,
        first: 12,
        second: 4,
    },
];

// The number of forms in a block, at any depth.
fn length(block: Block) -> usize {
    block.end.saturating_sub(block.first)
}

fn is_named(name: Form, wanted: &Wanted) -> bool {
    form_bytes(FILE, name) == wanted.name
}

fn is_so(item: &Item, wanted: &Wanted) -> bool {
    match item {
        Item::Constant(constant) => {
            is_named(constant.name, wanted) && constant.number.get() == wanted.number
        }
        Item::Definition(definition) => {
            is_named(definition.name, wanted)
                && length(definition.parts) == wanted.first
                && length(definition.body) == wanted.second
        }
        Item::Defaults(bounds) => length(*bounds) == wanted.first,
        Item::Model(model) => {
            is_named(model.name, wanted)
                && length(model.claims) == wanted.first
                && length(model.body) == wanted.second
        }
    }
}

// The number of items before the first that isn't as expected.
fn right(items: &[Item]) -> usize {
    let mut right: usize = 0;
    for (item, wanted) in items.iter().zip(WANTED) {
        if !is_so(item, wanted) {
            return right;
        }
        right = right.saturating_add(1);
    }
    right
}

fn right_of_file(alloc: Global) -> Result<usize, bool> {
    let Ok(forms) = read_forms(alloc, FILE) else {
        return Err(true);
    };
    match read_items(alloc, FILE, forms.as_slice()) {
        Ok(items) => Ok(right(items.as_slice())),
        Err(error) => Err(error == ItemFault::NoMemory),
    }
}

#[test]
fn a_file_has_these_items(rt: HostRuntime) {
    assert_eq!(rt; right_of_file(rt.alloc()), Ok(4));
}

fn count(alloc: Global, text: &[u8]) -> Result<usize, bool> {
    let Ok(forms) = read_forms(alloc, text) else {
        return Err(true);
    };
    match read_items(alloc, text, forms.as_slice()) {
        Ok(items) => Ok(items.len()),
        Err(error) => Err(error == ItemFault::NoMemory),
    }
}

// Holds whichever request for memory is refused.
#[test]
fn items_are_read_or_memory_ran_out(rt: HostRuntime) {
    match count(rt.alloc(), FILE) {
        Ok(count) => assert_eq!(rt; count, 4),
        Err(of_memory) => assert_eq!(rt; of_memory, true),
    }
}
