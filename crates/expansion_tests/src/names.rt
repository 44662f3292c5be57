//! The names of terms that no text spells, and the first faulty one.

use effect_term::{Kind, Name, Operand, Program, Term, TermError};
use std::alloc::{AllocError, Global};

fn boxed(alloc: Global, term: Term) -> Result<Box<Term>, AllocError> {
    Ok(Box::new(alloc, term)?)
}

const fn named(slot: u32, kind: Kind) -> Operand {
    Operand::Named(Name { slot, kind })
}

fn refusal(alloc: Global, term: Term) -> Option<TermError> {
    match Program::check(alloc, term) {
        Ok(_) => None,
        Err(error) => Some(error),
    }
}

fn masked(alloc: Global, term: Term) -> Result<Term, AllocError> {
    Ok(Term::Uncancelable(boxed(alloc, term)?))
}

#[test]
fn a_name_wants_its_binder(rt: HostRuntime) -> Result<(), AllocError> {
    let alloc = rt.alloc();
    let term = Term::Pure(named(0, Kind::Value));
    assert_eq!(rt; refusal(alloc, term), Some(TermError::Unbound(0)));
    let term = masked(alloc, Term::Pure(named(0, Kind::Value)))?;
    assert_eq!(rt; refusal(alloc, term), Some(TermError::WrongKind(0)));
    let term = masked(alloc, Term::Pure(named(0, Kind::Poll)))?;
    assert_eq!(rt; refusal(alloc, term), Some(TermError::WrongKind(0)));
    Ok(())
}

#[test]
fn a_name_has_the_kind_of_its_binder(rt: HostRuntime) -> Result<(), AllocError> {
    let alloc = rt.alloc();
    let body = boxed(alloc, Term::Pure(named(0, Kind::Poll)))?;
    let term = Term::Let(boxed(alloc, Term::Cede)?, body);
    assert_eq!(rt; refusal(alloc, term), Some(TermError::WrongKind(0)));
    Ok(())
}

#[test]
fn a_binder_ends_with_its_part(rt: HostRuntime) -> Result<(), AllocError> {
    let alloc = rt.alloc();
    let poll = Name {
        slot: 0,
        kind: Kind::Poll,
    };
    let polled = boxed(alloc, Term::Poll(poll, boxed(alloc, Term::Cede)?))?;
    let term = Term::Seq(
        boxed(alloc, masked(alloc, Term::Cede)?)?,
        polled,
        Vec::new(alloc),
    );
    assert_eq!(rt; refusal(alloc, term), Some(TermError::Unbound(0)));
    Ok(())
}

#[test]
fn a_poll_of_an_acquisition_ends_with_it(rt: HostRuntime) -> Result<(), AllocError> {
    let alloc = rt.alloc();
    let poll = Name {
        slot: 0,
        kind: Kind::Poll,
    };
    let polled = boxed(alloc, Term::Poll(poll, boxed(alloc, Term::Cede)?))?;
    let term = Term::BracketFull(
        boxed(alloc, Term::Cede)?,
        polled,
        boxed(alloc, Term::Cede)?,
        boxed(alloc, Term::Cede)?,
        boxed(alloc, Term::Cede)?,
    );
    assert_eq!(rt; refusal(alloc, term), Some(TermError::WrongKind(0)));
    Ok(())
}

#[test]
fn a_child_has_no_name_of_itself(rt: HostRuntime) -> Result<(), AllocError> {
    let alloc = rt.alloc();
    let fiber = Name {
        slot: 0,
        kind: Kind::Fiber,
    };
    let child = boxed(alloc, Term::Cancel(fiber))?;
    let term = Term::Start(child, boxed(alloc, Term::Cede)?);
    assert_eq!(rt; refusal(alloc, term), Some(TermError::Unbound(0)));
    Ok(())
}

#[test]
fn the_first_fault_in_reading_order(rt: HostRuntime) -> Result<(), AllocError> {
    let alloc = rt.alloc();
    let unbound_first = Term::Add(named(5, Kind::Value), named(0, Kind::Value));
    let term = masked(alloc, unbound_first)?;
    assert_eq!(rt; refusal(alloc, term), Some(TermError::Unbound(5)));
    let other_kind_first = Term::Add(named(0, Kind::Value), named(5, Kind::Value));
    let term = masked(alloc, other_kind_first)?;
    assert_eq!(rt; refusal(alloc, term), Some(TermError::WrongKind(0)));
    Ok(())
}

// The term inside 251 masks.
fn deep(alloc: Global, mut term: Term) -> Result<Term, AllocError> {
    for _ in 0..251 {
        term = masked(alloc, term)?;
    }
    Ok(term)
}

#[test]
fn names_come_before_masks(rt: HostRuntime) -> Result<(), AllocError> {
    let alloc = rt.alloc();
    let term = deep(alloc, Term::Pure(named(900, Kind::Value)))?;
    assert_eq!(rt; refusal(alloc, term), Some(TermError::Unbound(900)));
    let term = deep(alloc, Term::Cede)?;
    assert_eq!(rt; refusal(alloc, term), Some(TermError::DeepMasks(251)));
    Ok(())
}
