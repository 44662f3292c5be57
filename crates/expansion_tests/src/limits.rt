//! Whole expansions of programs at the limits, each made in a second way: as a pattern by its level.

use crate::expansions::is_expanded;
use crate::pieces::{Piece, push_at, push_pieces, text_of};
use std::alloc::AllocError;
use std::test::Fail;

// A `bracketcase` before its last part, its expansion before that part, and its expansion behind it.
const BRACKET_CASE: &str = "(bracketcase x (pure 1) (pure 2) y (pure 3) z (pure 4) ";

const BEFORE_ITS_LAST_RELEASE: &str = "(uncancelable pA (let vB (pure 1) (seq (acquired pA) \
    (uncancelable pC (let vD (handle (oncancel (poll pC (poll pA (pure 2))) (seq (releasing pA) \
    (handle ";

const BEHIND_ITS_LAST_RELEASE: &str = " vD (seq (released pA) (raise vD))) (released pA))) vD \
    (seq (releasing pA) (handle (pure 4) vE (pure 0)) (released pA) (raise vD))) (seq (releasing \
    pA) (handle (pure 3) vE (seq (released pA) (raise vE))) (released pA) (pure vD)))))))";

// A program with the greatest number of masks, and its expansion.
const MASKS: &[Piece] = &[(BRACKET_CASE, 83), ("(pure 5)", 1), (")", 83)];

fn push_masks(text: &mut String) -> Result<(), AllocError> {
    for level in 0..83 {
        push_at(text, 3 * level, BEFORE_ITS_LAST_RELEASE)?;
    }
    text.push_str("(pure 5)")?;
    for level in (0..83).rev() {
        push_at(text, 3 * level, BEHIND_ITS_LAST_RELEASE)?;
    }
    Ok(())
}

#[test]
fn as_many_masks_as_may_be(rt: HostRuntime) -> Result<(), Fail> {
    let mut wanted = String::new(rt.alloc());
    push_masks(&mut wanted)?;
    let program = text_of(rt.alloc(), MASKS)?;
    assert!(rt; is_expanded(rt.alloc(), program.as_bytes(), wanted.as_bytes())?);
    Ok(())
}

const GUARANTEE: &str = "(guarantee (pure 1) ";

// Writes the expansion of `forms` nested forms `guarantee`, inside `depth` binders.
fn push_guarantees(text: &mut String, forms: u8, depth: u32) -> Result<(), AllocError> {
    if forms == 0 {
        return text.push_str("(pure 2)");
    }
    let below = depth.wrapping_add(1);
    push_at(
        text,
        depth,
        "(uncancelable pA (let vB (handle (oncancel (poll pA (pure 1)) ",
    )?;
    push_guarantees(text, forms - 1, below)?;
    push_at(text, depth, ") vB (seq (handle ")?;
    push_guarantees(text, forms - 1, below.wrapping_add(1))?;
    push_at(text, depth, " vC (pure 0)) (raise vB))) (seq ")?;
    push_guarantees(text, forms - 1, below.wrapping_add(1))?;
    push_at(text, depth, " (pure vB))))")
}

// Finalizers in finalizers, as deep as is allowed.
const FINALIZERS: &[Piece] = &[(GUARANTEE, 10), ("(pure 2)", 1), (")", 10)];

#[test]
fn a_finalizer_in_a_finalizer(rt: HostRuntime) -> Result<(), Fail> {
    let mut wanted = String::new(rt.alloc());
    push_guarantees(&mut wanted, 10, 0)?;
    let program = text_of(rt.alloc(), FINALIZERS)?;
    assert!(rt; is_expanded(rt.alloc(), program.as_bytes(), wanted.as_bytes())?);
    Ok(())
}

// The depths of the parts of a sequence whose expansion has 1,000,000 words.
const DEPTHS: &[u8] = &[
    10, 10, 9, 7, 7, 5, 5, 4, 4, 3, 3, 2, 0, 0, 0, 0, 0, 0, 0, 0, 0,
];

// Writes that sequence.
fn push_words(text: &mut String) -> Result<(), AllocError> {
    text.push_str("(seq")?;
    for forms in DEPTHS {
        let times = usize::from(*forms);
        let part: &[Piece] = &[(" ", 1), (GUARANTEE, times), ("(pure 2)", 1), (")", times)];
        push_pieces(text, part)?;
    }
    text.push_str(")")
}

// Writes the expansion of that sequence.
fn push_expanded_words(text: &mut String) -> Result<(), AllocError> {
    text.push_str("(seq")?;
    for forms in DEPTHS {
        text.push_str(" ")?;
        push_guarantees(text, *forms, 0)?;
    }
    text.push_str(")")
}

#[test]
fn as_many_words_as_may_be(rt: HostRuntime) -> Result<(), Fail> {
    let mut wanted = String::new(rt.alloc());
    push_expanded_words(&mut wanted)?;
    let mut program = String::new(rt.alloc());
    push_words(&mut program)?;
    assert!(rt; is_expanded(rt.alloc(), program.as_bytes(), wanted.as_bytes())?);
    Ok(())
}

// A sequence of as many parts as a text has room for, and its expansion.
const PARTS: &[Piece] = &[("(seq", 1), ("(cede)", 10_921), (")", 1)];

const EXPANDED_PARTS: &[Piece] = &[("(seq", 1), (" (cede)", 10_921), (")", 1)];

#[test]
fn as_many_parts_as_a_text_has_room_for(rt: HostRuntime) -> Result<(), Fail> {
    let wanted = text_of(rt.alloc(), EXPANDED_PARTS)?;
    let program = text_of(rt.alloc(), PARTS)?;
    assert!(rt; is_expanded(rt.alloc(), program.as_bytes(), wanted.as_bytes())?);
    Ok(())
}
