//! The forms of texts.

use model_forms::FormKind::{List, Text, Word};
use model_forms::{Form, FormFault, read_forms};
use std::alloc::Global;
use std::test::Fail;

// A text, and its forms.
struct Row {
    text: &'static [u8],
    forms: &'static [Form],
}

const ROWS: &[Row] = &[
    Row {
        text: b"",
        forms: &[],
    },
    Row {
        text: b" \t\r\n; only a comment (",
        forms: &[],
    },
    Row {
        text: b"()",
        forms: &[Form {
            kind: List,
            start: 0,
            end: 2,
            inside: 0,
        }],
    },
    Row {
        text: b"(want 42) ; the answer",
        forms: &[
            Form {
                kind: List,
                start: 0,
                end: 9,
                inside: 2,
            },
            Form {
                kind: Word,
                start: 1,
                end: 5,
                inside: 0,
            },
            Form {
                kind: Word,
                start: 6,
                end: 8,
                inside: 0,
            },
        ],
    },
    Row {
        text: b"((a) b) c",
        forms: &[
            Form {
                kind: List,
                start: 0,
                end: 7,
                inside: 3,
            },
            Form {
                kind: List,
                start: 1,
                end: 4,
                inside: 1,
            },
            Form {
                kind: Word,
                start: 2,
                end: 3,
                inside: 0,
            },
            Form {
                kind: Word,
                start: 5,
                end: 6,
                inside: 0,
            },
            Form {
                kind: Word,
                start: 8,
                end: 9,
                inside: 0,
            },
        ],
    },
    Row {
        text: b"\"a (b) ; c\"x",
        forms: &[
            Form {
                kind: Text,
                start: 0,
                end: 11,
                inside: 0,
            },
            Form {
                kind: Word,
                start: 11,
                end: 12,
                inside: 0,
            },
        ],
    },
    Row {
        text: b"a;b\nc",
        forms: &[
            Form {
                kind: Word,
                start: 0,
                end: 1,
                inside: 0,
            },
            Form {
                kind: Word,
                start: 4,
                end: 5,
                inside: 0,
            },
        ],
    },
    Row {
        text: b"w.1(<=)",
        forms: &[
            Form {
                kind: Word,
                start: 0,
                end: 3,
                inside: 0,
            },
            Form {
                kind: List,
                start: 3,
                end: 7,
                inside: 1,
            },
            Form {
                kind: Word,
                start: 4,
                end: 6,
                inside: 0,
            },
        ],
    },
    Row {
        text: b"\"\"\"\"",
        forms: &[
            Form {
                kind: Text,
                start: 0,
                end: 2,
                inside: 0,
            },
            Form {
                kind: Text,
                start: 2,
                end: 4,
                inside: 0,
            },
        ],
    },
    Row {
        text: b"\xff\x00'",
        forms: &[Form {
            kind: Word,
            start: 0,
            end: 3,
            inside: 0,
        }],
    },
];

fn has(alloc: Global, row: &Row) -> Result<bool, FormFault> {
    let forms = read_forms(alloc, row.text)?;
    Ok(forms.as_slice() == row.forms)
}

#[test]
fn a_text_has_these_forms(rt: HostRuntime) {
    for row in ROWS {
        assert_eq!(rt; has(rt.alloc(), row), Ok(true));
    }
}
