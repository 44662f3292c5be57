//! Long and deep texts, and texts for which memory runs out.

use model_forms::{FormFault, read_forms};
use std::alloc::{AllocError, Global};
use std::test::Fail;

// The number of brackets of a text of 1 MB.
const MOST: usize = 1_000_000;

fn fault_of_brackets(alloc: Global) -> Result<Option<FormFault>, AllocError> {
    let text = vec![in alloc; b'('; MOST]?;
    Ok(read_forms(alloc, text.as_slice()).err())
}

#[test]
fn a_million_open_brackets_are_one_fault(rt: HostRuntime) {
    let fault = fault_of_brackets(rt.alloc());
    assert_eq!(rt; fault, Ok(Some(FormFault::Unclosed(MOST, MOST - 1))));
}

fn count_of_nested(alloc: Global) -> Result<usize, FormFault> {
    let mut text = vec![in alloc; b'('; MOST / 2]?;
    let behind = vec![in alloc; b')'; MOST / 2]?;
    text.extend_from_slice(behind.as_slice())?;
    let forms = read_forms(alloc, text.as_slice())?;
    Ok(forms.len())
}

#[test]
fn half_a_million_lists_nest(rt: HostRuntime) {
    assert_eq!(rt; count_of_nested(rt.alloc()), Ok(MOST / 2));
}

fn count(alloc: Global, text: &[u8]) -> Result<usize, FormFault> {
    let forms = read_forms(alloc, text)?;
    Ok(forms.len())
}

// Holds whichever request for memory is refused.
#[test]
fn forms_are_read_or_memory_ran_out(rt: HostRuntime) {
    match count(rt.alloc(), b"(model m (want 1) (run (pure 1)))") {
        Ok(count) => assert_eq!(rt; count, 11),
        Err(error) => assert_eq!(rt; error, FormFault::NoMemory),
    }
}
