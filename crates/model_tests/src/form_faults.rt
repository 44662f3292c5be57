//! The first faults of brackets and strings, each with its place and its message.

use model_forms::{FormFault, read_forms};
use reasons::position_at;
use std::alloc::Global;
use std::test::Fail;

// A text, its first fault, and the line and column of the fault.
struct Row {
    text: &'static [u8],
    fault: FormFault,
    line: usize,
    column: usize,
}

const ROWS: &[Row] = &[
    Row {
        text: b"(a",
        fault: FormFault::Unclosed(1, 0),
        line: 1,
        column: 1,
    },
    Row {
        text: b"(a\n (b (c)",
        fault: FormFault::Unclosed(2, 4),
        line: 2,
        column: 2,
    },
    Row {
        text: b"(a ; )\n",
        fault: FormFault::Unclosed(1, 0),
        line: 1,
        column: 1,
    },
    Row {
        text: b"a)",
        fault: FormFault::Unopened(1),
        line: 1,
        column: 2,
    },
    Row {
        text: b"(a))\n)",
        fault: FormFault::Unopened(3),
        line: 1,
        column: 4,
    },
    Row {
        text: b"; (\n)",
        fault: FormFault::Unopened(4),
        line: 2,
        column: 1,
    },
    Row {
        text: b") \"",
        fault: FormFault::Unopened(0),
        line: 1,
        column: 1,
    },
    Row {
        text: b"\"",
        fault: FormFault::UnclosedText(0),
        line: 1,
        column: 1,
    },
    Row {
        text: b"(\n\"abc\n\")",
        fault: FormFault::UnclosedText(2),
        line: 2,
        column: 1,
    },
    Row {
        text: b"( \"a\"\"",
        fault: FormFault::UnclosedText(5),
        line: 1,
        column: 6,
    },
];

fn fault(alloc: Global, text: &[u8]) -> Option<FormFault> {
    read_forms(alloc, text).err()
}

fn place(fault: FormFault) -> usize {
    match fault {
        FormFault::NoMemory => 0,
        FormFault::Unclosed(_, place) => place,
        FormFault::Unopened(place) => place,
        FormFault::UnclosedText(place) => place,
    }
}

#[test]
fn a_text_has_this_first_fault(rt: HostRuntime) {
    for row in ROWS {
        assert_eq!(rt; fault(rt.alloc(), row.text), Some(row.fault));
        let position = position_at(row.text, place(row.fault));
        assert_eq!(rt; position.line, row.line);
        assert_eq!(rt; position.column, row.column);
    }
}

// A fault, and its message.
const WORDINGS: &[(FormFault, &str)] = &[
    (FormFault::NoMemory, "no memory"),
    (
        FormFault::Unclosed(2, 4),
        "brackets not closed: 2; the innermost opens here",
    ),
    (
        FormFault::Unopened(1),
        "a closing bracket without an opening one",
    ),
    (
        FormFault::UnclosedText(0),
        "a string that isn't closed on its line",
    ),
];

#[test]
fn a_fault_is_worded_so(rt: HostRuntime) {
    for (fault, wording) in WORDINGS {
        let text = format!(in rt.alloc(); "{fault}");
        assert_eq!(rt; text.is_ok(), true);
        if let Ok(text) = text {
            assert_eq!(rt; text.as_str(), *wording);
        }
    }
}
