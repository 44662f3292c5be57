//! How outcomes are spelled.

use effect_term::{Outcome, Value};
use exploration_text::{Want, read_want};
use std::test::Fail;

/// Adds the wanted outcome that each word spells.
pub fn push_wants(wants: &mut Vec<Want>, words: &[&str]) -> Result<(), Fail> {
    for word in words {
        match read_want(word) {
            Some(Want::Ended(outcome)) => wants.push(Want::Ended(outcome))?,
            Some(Want::Unended) => wants.push(Want::Unended)?,
            None => return Err(Fail::new("no outcome is spelled so")),
        }
    }
    Ok(())
}

// Texts that spell no outcome.
const UNSPELLED: &[&str] = &[
    "",
    "succeeded",
    "succeeded ",
    "succeeded 01",
    "succeeded +1",
    "succeeded -0",
    "succeeded  1",
    "succeeded 1 ",
    "succeeded 4611686018427387904",
    "errored -4611686018427387905",
    "errored 99999999999999999999",
    "errored x",
    "Canceled",
    "canceled 0",
    "unended ",
];

// Whether the text spells this outcome of fiber 0.
fn is_ended(text: &str, outcome: Outcome) -> bool {
    read_want(text) == Some(Want::Ended(outcome))
}

#[test]
fn outcomes_are_read(rt: HostRuntime) {
    assert!(rt; is_ended("succeeded 0", Outcome::Succeeded(Value::ZERO)));
    assert!(rt;
        is_ended(
            "succeeded -4611686018427387904",
            Outcome::Succeeded(Value::MIN)
        )
    );
    assert!(rt; is_ended("errored 4611686018427387903", Outcome::Errored(Value::MAX)));
    assert!(rt; is_ended("errored -7", Outcome::Errored(Value::from_i32(-7))));
    assert!(rt; is_ended("canceled", Outcome::Canceled));
    assert_eq!(rt; read_want("unended"), Some(Want::Unended));
}

#[test]
fn texts_that_spell_no_outcome_are_refused(rt: HostRuntime) {
    for text in UNSPELLED {
        assert!(rt; read_want(text).is_none(), "{text}");
    }
}
