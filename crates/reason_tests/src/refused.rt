//! The reasons of refused texts with bytes that a line of a golden file can't have.

use reasons::{Reasons, TextReasons};
use std::alloc::{AllocError, Global};
use std::str;
use std::test::Fail;

// A text, and its reasons.
struct Refused<'a> {
    text: &'a [u8],
    told: &'a str,
}

const REFUSED: &[Refused<'static>] = &[
    Refused {
        text: b"(let result (pure 1)\r\n\t(say Result))",
        told: "line 2, column 7: `Result` begins no word, name, number or bracket\n\
            \x20  (say Result))\n\
            \x20       ^\n\
            a number or the name of a value was wanted: `v` of `(say v)`\n\
            words and names are letters a to z and digits, and begin with a letter\n\
            did you mean `result`?\n",
    },
    Refused {
        text: b"(say \xc3\xa9\x1b[2J)",
        told: "line 1, column 6: `\\xc3` begins no word, name, number or bracket\n\
            \x20 (say \\xc3\\xa9\\x1b[2J)\n\
            \x20      ^\n\
            a number or the name of a value was wanted: `v` of `(say v)`\n\
            words and names are letters a to z and digits, and begin with a letter\n",
    },
];

// The reasons of a text.
fn told(alloc: Global, text: &[u8]) -> Result<Vec<u8>, AllocError> {
    TextReasons.reasons(alloc, text)
}

#[test]
fn refused_texts_have_the_expected_reasons(rt: HostRuntime) -> Result<(), Fail> {
    for it in REFUSED {
        let told = told(rt.alloc(), it.text)?;
        assert_eq!(rt; str::from_utf8(told.as_slice()), Ok(it.told));
    }
    Ok(())
}

// Holds with every request for memory refused in turn: the reasons are whole if there are any.
#[test]
fn reasons_are_whole_or_memory_ran_out(rt: HostRuntime) {
    let text = b"(let total (pure 5) (start f (cede) (say totl)))";
    if let Ok(told) = told(rt.alloc(), text) {
        assert!(rt;
            told.as_slice().ends_with(
                b"around it are bound: `f` (a fiber), `total` (a value)\ndid you mean `total`?\n"
            )
        );
    }
}
