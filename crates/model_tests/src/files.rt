//! Whole files.

use model_forms::FormFault;
use model_text::{FileFault, ItemFault, read_file};
use reasons::position_at;
use std::alloc::Global;
use std::test::Fail;

// A file, its first fault, the code of the fault, and its line and column.
struct Row {
    text: &'static [u8],
    fault: FileFault,
    code: &'static str,
    line: usize,
    column: usize,
}

const ROWS: &[Row] = &[
    Row {
        text: b"(define N 1)\n(model m\n  (foo))",
        fault: FileFault::Item(ItemFault::NotAClaim(24)),
        code: "E18",
        line: 3,
        column: 3,
    },
    // A bracket that is missing at the end is reported rather than a bad item at the beginning.
    Row {
        text: b"(foo)\n(define N 1",
        fault: FileFault::Form(FormFault::Unclosed(1, 6)),
        code: "E01",
        line: 2,
        column: 1,
    },
    Row {
        text: b"(define N 1)\n)",
        fault: FileFault::Form(FormFault::Unopened(13)),
        code: "E02",
        line: 2,
        column: 1,
    },
    Row {
        text: b"(model m \"two\nlines\" (run 1))",
        fault: FileFault::Form(FormFault::UnclosedText(9)),
        code: "E03",
        line: 1,
        column: 10,
    },
    Row {
        text: b"(model m\n (want 1)\n (run (say x) ()))",
        fault: FileFault::Item(ItemFault::EmptyList(33)),
        code: "E05",
        line: 3,
        column: 15,
    },
    Row {
        text: b"(define N \"1\")",
        fault: FileFault::Item(ItemFault::NotANumber(10)),
        code: "E14",
        line: 1,
        column: 11,
    },
];

fn fault(alloc: Global, text: &[u8]) -> Option<FileFault> {
    read_file(alloc, text).err()
}

#[test]
fn a_file_is_refused_so(rt: HostRuntime) {
    for row in ROWS {
        assert_eq!(rt; fault(rt.alloc(), row.text), Some(row.fault));
        assert_eq!(rt; row.fault.code(), row.code);
        let place = row.fault.place();
        assert_eq!(rt; place.is_some(), true);
        if let Some(place) = place {
            let position = position_at(row.text, place);
            assert_eq!(rt; position.line, row.line);
            assert_eq!(rt; position.column, row.column);
        }
    }
}

fn counts(alloc: Global, text: &[u8]) -> Result<(usize, usize), FileFault> {
    let file = read_file(alloc, text)?;
    Ok((file.forms.len(), file.items.len()))
}

// Holds whichever request for memory is refused.
#[test]
fn a_file_is_read_or_memory_ran_out(rt: HostRuntime) {
    match counts(
        rt.alloc(),
        b"(define N 2) (model m (want N) (run (pure N)))",
    ) {
        Ok(counts) => assert_eq!(rt; counts, (15, 2)),
        Err(fault) => assert_eq!(rt; fault.place(), None),
    }
}
