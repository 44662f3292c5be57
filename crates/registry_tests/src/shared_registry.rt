//! Calls of the lock-free registry on one thread.

use crate::rows::{Row, are_answered, two_fibers, word_after};
use cell_registry::{
    Band, Call, CancelReply, CellError, JoinReply, Outcome, Pass, Registry, Reply, Stage,
};
use effect_term::Value;
use std::alloc::{AllocError, Global};

// Whether the pass is that of a new fiber with this number.
fn is_new(pass: &Pass, number: u16) -> bool {
    pass.number() == number
        && matches!(pass.phase(), Stage::Running)
        && pass.depth() == 0
        && pass.count() == 0
        && !pass.saw()
}

fn is_fresh(alloc: Global) -> Result<bool, AllocError> {
    let (registry, pass) = Registry::new(alloc, 2, 1, 1, 10)?;
    Ok(is_new(&pass, 0) && registry.last_word(pass, 0) == 0)
}

// Holds with every allocation refused in turn.
#[test]
fn want_of_memory_or_a_fresh_registry(rt: HostRuntime) {
    match is_fresh(rt.alloc()) {
        Err(AllocError) => {}
        Ok(fresh) => assert!(rt; fresh),
    }
}

fn bands() -> [Row; 9] {
    [
        (0, Call::Start, Err(CellError::Full(Band::Fibers, 2))),
        (0, Call::NewRef, Ok(Reply::Number(0))),
        (0, Call::NewRef, Err(CellError::Full(Band::Refs, 1))),
        (0, Call::NewDeferred, Ok(Reply::Number(0))),
        (
            0,
            Call::NewDeferred,
            Err(CellError::Full(Band::Deferreds, 1)),
        ),
        (0, Call::Cancel(1), Ok(Reply::Cancel(CancelReply::Asked))),
        (0, Call::Cancel(1), Ok(Reply::Cancel(CancelReply::Already))),
        (0, Call::Join(1), Ok(Reply::Join(JoinReply::Waits))),
        (1, Call::Look, Ok(Reply::Seen(true))),
    ]
}

// The child's number is 1, and its look is its own.
fn bands_are_given(alloc: Global) -> Result<bool, AllocError> {
    let Some((registry, mut pass, mut child)) = two_fibers(alloc, 10)? else {
        return Ok(false);
    };
    Ok(
        is_new(&child, 1)
            && are_answered(&registry, &mut pass, &mut child, &bands())
            && child.saw()
            && !pass.saw(),
    )
}

#[test]
fn each_band_gives_its_numbers_once(rt: HostRuntime) -> Result<(), AllocError> {
    assert!(rt; bands_are_given(rt.alloc())?);
    Ok(())
}

fn born_are_counted(alloc: Global) -> Result<bool, AllocError> {
    let (registry, mut pass) = Registry::new(alloc, 2, 1, 1, 10)?;
    let before = registry.born(&mut pass);
    let Ok(mut child) = registry.start(&mut pass) else {
        return Ok(false);
    };
    Ok(before == 1 && registry.born(&mut pass) == 2 && registry.born(&mut child) == 2)
}

#[test]
fn the_born_fibers_are_counted(rt: HostRuntime) -> Result<(), AllocError> {
    assert!(rt; born_are_counted(rt.alloc())?);
    Ok(())
}

fn cut() -> [Row; 3] {
    [
        (0, Call::Cancel(1), Ok(Reply::Cancel(CancelReply::Asked))),
        (1, Call::Look, Ok(Reply::Seen(true))),
        (1, Call::Cut, Ok(Reply::Done)),
    ]
}

#[test]
fn a_cut_leaves_one_word(rt: HostRuntime) -> Result<(), AllocError> {
    let word = word_after(rt.alloc(), 10, &cut(), 1)?;
    assert_eq!(rt; word, Some(4_786_174_115_708_929));
    Ok(())
}

fn canceled() -> [Row; 4] {
    [
        (0, Call::Cancel(1), Ok(Reply::Cancel(CancelReply::Asked))),
        (1, Call::Look, Ok(Reply::Seen(true))),
        (1, Call::Cut, Ok(Reply::Done)),
        (1, Call::Finish(Outcome::Canceled), Ok(Reply::Done)),
    ]
}

// The pass of a canceled fiber has its end, the mask of its cut, and two changes.
fn pass_tells_the_end(alloc: Global) -> Result<bool, AllocError> {
    let Some((registry, mut pass, mut child)) = two_fibers(alloc, 10)? else {
        return Ok(false);
    };
    Ok(
        are_answered(&registry, &mut pass, &mut child, &canceled())
            && matches!(child.phase(), Stage::Ended(Outcome::Canceled))
            && child.depth() == 1
            && child.count() == 2,
    )
}

#[test]
fn a_canceled_fiber_ends_in_one_word(rt: HostRuntime) -> Result<(), AllocError> {
    assert!(rt; pass_tells_the_end(rt.alloc())?);
    let word = word_after(rt.alloc(), 10, &canceled(), 1)?;
    assert_eq!(rt; word, Some(8_445_348_812_947_458));
    Ok(())
}

fn told() -> [Row; 7] {
    [
        (0, Call::Cancel(1), Ok(Reply::Cancel(CancelReply::Asked))),
        (1, Call::Look, Ok(Reply::Seen(true))),
        (1, Call::Cut, Ok(Reply::Done)),
        (1, Call::Finish(Outcome::Canceled), Ok(Reply::Done)),
        (0, Call::Cancel(1), Ok(Reply::Cancel(CancelReply::Ended))),
        (
            0,
            Call::Join(1),
            Ok(Reply::Join(JoinReply::Ended(Outcome::Canceled))),
        ),
        (
            1,
            Call::Join(1),
            Ok(Reply::Join(JoinReply::Ended(Outcome::Canceled))),
        ),
    ]
}

// A pass that has met the canceled fiber's pass is that of fiber 0, and its join finds the end.
fn met_is_told_the_end(alloc: Global) -> Result<bool, AllocError> {
    let Some((registry, mut pass, mut child)) = two_fibers(alloc, 10)? else {
        return Ok(false);
    };
    let told = are_answered(&registry, &mut pass, &mut child, &told());
    let mut met = registry.meet(pass, child);
    let ended = JoinReply::Ended(Outcome::Canceled);
    Ok(told && met.number() == 0 && registry.join(&mut met, 1) == ended)
}

#[test]
fn the_end_of_a_canceled_fiber_is_told_to_all(rt: HostRuntime) -> Result<(), AllocError> {
    assert!(rt; met_is_told_the_end(rt.alloc())?);
    // The joins have noted that a fiber waits.
    let word = word_after(rt.alloc(), 10, &told(), 1)?;
    assert_eq!(rt; word, Some(8_445_348_812_947_458 + (1 << 53)));
    Ok(())
}

fn spent() -> [Row; 4] {
    [
        (0, Call::Mask, Ok(Reply::Done)),
        (0, Call::Unmask, Ok(Reply::Done)),
        (0, Call::Mask, Err(CellError::Spent(2))),
        (0, Call::Cancel(0), Ok(Reply::Cancel(CancelReply::Asked))),
    ]
}

#[test]
fn a_count_runs_out_at_the_limit(rt: HostRuntime) -> Result<(), AllocError> {
    let word = word_after(rt.alloc(), 2, &spent(), 0)?;
    assert_eq!(rt; word, Some(0x10_0000_0000_0002));
    Ok(())
}

fn values() -> [Row; 8] {
    let one = Value::from_i32(1);
    [
        (0, Call::Get(0), Ok(Reply::Value(Value::ZERO))),
        (0, Call::Set(0, Value::MAX), Ok(Reply::Done)),
        (0, Call::Modify(0, one), Ok(Reply::Value(Value::MAX))),
        (0, Call::Get(0), Ok(Reply::Value(Value::MIN))),
        (0, Call::Read(0), Ok(Reply::Read(None))),
        (0, Call::Complete(0, Value::MIN), Ok(Reply::Completed(true))),
        (
            0,
            Call::Complete(0, Value::MAX),
            Ok(Reply::Completed(false)),
        ),
        (0, Call::Read(0), Ok(Reply::Read(Some(Value::MIN)))),
    ]
}

#[test]
fn refs_wrap_and_deferreds_fill_once(rt: HostRuntime) -> Result<(), AllocError> {
    assert_eq!(rt; word_after(rt.alloc(), 1, &values(), 0)?, Some(0));
    Ok(())
}

// The sum of -1 and 1 carries into the highest bit of a ref's word, and the word of a completed deferred has that bit.
fn highest_bits() -> [Row; 6] {
    let minus_one = Value::from_i32(-1);
    let five = Value::from_i32(5);
    [
        (0, Call::Set(0, minus_one), Ok(Reply::Done)),
        (
            0,
            Call::Modify(0, Value::from_i32(1)),
            Ok(Reply::Value(minus_one)),
        ),
        (0, Call::Get(0), Ok(Reply::Value(Value::ZERO))),
        (0, Call::Read(0), Ok(Reply::Read(None))),
        (1, Call::Complete(0, five), Ok(Reply::Completed(true))),
        (1, Call::Read(0), Ok(Reply::Read(Some(five)))),
    ]
}

#[test]
fn the_highest_bit_of_a_word_is_no_values(rt: HostRuntime) -> Result<(), AllocError> {
    assert_eq!(rt; word_after(rt.alloc(), 1, &highest_bits(), 1)?, Some(0));
    Ok(())
}

fn extremes() -> [Row; 5] {
    [
        (0, Call::Join(1), Ok(Reply::Join(JoinReply::Waits))),
        (
            1,
            Call::Finish(Outcome::Errored(Value::MIN)),
            Ok(Reply::Done),
        ),
        (
            0,
            Call::Join(1),
            Ok(Reply::Join(JoinReply::Ended(Outcome::Errored(Value::MIN)))),
        ),
        (
            0,
            Call::Finish(Outcome::Succeeded(Value::MAX)),
            Ok(Reply::Done),
        ),
        (
            1,
            Call::Join(0),
            Ok(Reply::Join(JoinReply::Ended(Outcome::Succeeded(Value::MAX)))),
        ),
    ]
}

#[test]
fn an_end_with_either_extreme_is_told_to_joins(rt: HostRuntime) -> Result<(), AllocError> {
    let word = word_after(rt.alloc(), 1_099_511_627_775, &extremes(), 1)?;
    assert_eq!(rt; word, Some(0x2a_0000_0000_0001));
    Ok(())
}

// The end of fiber 0 with -1, and what fiber 1 then finds.
fn own_value() -> [Row; 3] {
    let minus_one = Value::from_i32(-1);
    [
        (
            0,
            Call::Finish(Outcome::Succeeded(minus_one)),
            Ok(Reply::Done),
        ),
        (
            1,
            Call::Join(0),
            Ok(Reply::Join(JoinReply::Ended(Outcome::Succeeded(minus_one)))),
        ),
        (1, Call::Join(1), Ok(Reply::Join(JoinReply::Waits))),
    ]
}

// No fiber's word contains the value, and a join finds it.
#[test]
fn the_value_of_an_end_has_a_word_of_its_own(rt: HostRuntime) -> Result<(), AllocError> {
    let ended = word_after(rt.alloc(), 1, &own_value()[..1], 0)?;
    assert_eq!(rt; ended, Some(0x6_0000_0000_0001));
    let other = word_after(rt.alloc(), 1, &own_value(), 1)?;
    assert_eq!(rt; other, Some(1 << 53));
    Ok(())
}
