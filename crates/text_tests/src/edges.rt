//! Texts and terms of the greatest size and depth. Each text is made of pieces here, and compared as a whole.

use crate::pieces::{Piece, text_of};
use crate::printed_terms::is_spelled;
use effect_term::{Kind, Name, Operand, Term, Value};
use std::alloc::{AllocError, Global};
use std::test::Fail;
use term_parse::parse;

// Whether the text is read as a term of this size and nest, which is printed as the other text.
fn is_read(alloc: Global, text: &[u8], counts: (u64, u64), printed: &[u8]) -> Result<bool, Fail> {
    let read = parse(alloc, text)?;
    let is_counted = read.size() == counts.0 && read.nest() == counts.1;
    Ok(is_spelled(alloc, read, printed)? && is_counted)
}

fn bound(alloc: Global, first: Term, then: Term) -> Result<Term, AllocError> {
    let first = Box::new(alloc, first)?;
    Ok(Term::Let(first, Box::new(alloc, then)?))
}

// `binders` bindings of a value, each inside the one before, with the last value inside.
fn nested_lets(alloc: Global, binders: u32) -> Result<Term, AllocError> {
    let slot = binders.saturating_sub(1);
    let mut term = Term::Pure(Operand::Named(Name {
        slot,
        kind: Kind::Value,
    }));
    for _ in 0..binders {
        term = bound(alloc, Term::Cede, term)?;
    }
    Ok(term)
}

// Their text: the number in a binder's name is that of the binders around it.
fn push_nested_lets(text: &mut String, binders: u32) -> Result<(), AllocError> {
    for slot in 0..binders {
        write!(text, "(let v{slot} (cede) ")?;
    }
    write!(text, "(pure v{})", binders.saturating_sub(1))?;
    for _ in 0..binders {
        text.push(')')?;
    }
    Ok(())
}

#[test]
fn a_hundred_words_deep(rt: HostRuntime) -> Result<(), Fail> {
    let mut text = String::new(rt.alloc());
    push_nested_lets(&mut text, 99)?;
    assert!(rt; is_spelled(rt.alloc(), nested_lets(rt.alloc(), 99)?, text.as_bytes())?);
    assert!(rt; is_read(rt.alloc(), text.as_bytes(), (199, 100), text.as_bytes())?);
    Ok(())
}

const fn say_one() -> Term {
    Term::Say(Operand::Number(Value::from_i32(1)))
}

fn push_says(parts: &mut Vec<Term>, says: usize) -> Result<(), AllocError> {
    for _ in 0..says {
        parts.push(say_one())?;
    }
    Ok(())
}

fn push_cedes(parts: &mut Vec<Term>, cedes: usize) -> Result<(), AllocError> {
    for _ in 0..cedes {
        parts.push(Term::Cede)?;
    }
    Ok(())
}

// Two `say` as the first two parts, `says` more of them, and then `cedes` times `cede`.
fn seq(alloc: Global, says: usize, cedes: usize) -> Result<Term, AllocError> {
    let mut more = Vec::new(alloc);
    push_says(&mut more, says)?;
    push_cedes(&mut more, cedes)?;
    let first = Box::new(alloc, say_one())?;
    Ok(Term::Seq(first, Box::new(alloc, say_one())?, more))
}

// A canonical text of 65,536 bytes.
const LONG: &[Piece] = &[
    (b"(seq", 1),
    (b" (say 1)", 4),
    (b" (cede)", 9357),
    (b")", 1),
];

#[test]
fn a_canonical_text_of_65536_bytes(rt: HostRuntime) -> Result<(), Fail> {
    let text = text_of(rt.alloc(), LONG)?;
    assert_eq!(rt; text.len(), 65536);
    assert!(rt; is_spelled(rt.alloc(), seq(rt.alloc(), 2, 9357)?, text.as_slice())?);
    assert!(rt; is_read(rt.alloc(), text.as_slice(), (9362, 2), text.as_slice())?);
    Ok(())
}

// A text with as many parts as fit, and its printed text.
const PARTS: &[Piece] = &[(b"(seq", 1), (b"(cede)", 10921), (b")", 1)];

const PRINTED_PARTS: &[Piece] = &[(b"(seq", 1), (b" (cede)", 10921), (b")", 1)];

#[test]
fn a_seq_of_as_many_parts_as_fit(rt: HostRuntime) -> Result<(), Fail> {
    let text = text_of(rt.alloc(), PARTS)?;
    assert_eq!(rt; text.len(), 65531);
    let printed = text_of(rt.alloc(), PRINTED_PARTS)?;
    assert!(rt; is_read(rt.alloc(), text.as_slice(), (10922, 2), printed.as_slice())?);
    Ok(())
}
