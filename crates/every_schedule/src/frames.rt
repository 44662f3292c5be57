//! The memory that the frames of a program's fibers take.

use cell_registry::Limits;
use effect_term::{Program, Term};

// The approximate number of bytes of a frame in a kept state of a fiber. A list of frames has room for up to twice as
// many frames as it has.
const FRAME: u64 = 36;

// The number of frames that are counted in the fixed size of a state.
const COUNTED: u64 = 3;

// The approximate number of bytes that the uses of one number take. A number is that of a fiber, a ref or a deferred.
const USES: u64 = 18;

// The uses of numbers below this one are counted in the fixed size of a state.
const NUMBERS: u64 = 16;

// Uses are kept only for numbers below this one.
const MOST: u64 = 64;

/// The approximate number of bytes that a kept state of a fiber takes beyond its fixed size. Counted are the frames that
/// the program can nest beyond 3, and the uses of the numbers from 16 to 63.
pub fn frame_bytes(program: &Program, limits: Limits) -> usize {
    let frames = frames_in(program.term()).saturating_sub(COUNTED);
    let most = u64::from(limits.fibers.max(limits.refs).max(limits.deferreds));
    let numbers = most.min(MOST).saturating_sub(NUMBERS);
    let uses = numbers.saturating_mul(USES);
    frames.saturating_mul(FRAME).saturating_add(uses) as usize
}

// The greatest number of frames that are nested while a term runs; at most `u64::MAX`.
fn frames_in(term: &Term) -> u64 {
    match term {
        Term::Pure(_) | Term::Raise(_) | Term::Add(_, _) | Term::Say(_) => 0,
        Term::Cede | Term::Never | Term::Canceled | Term::Cancel(_) => 0,
        Term::Get(_) | Term::Set(_, _) | Term::Modify(_, _) => 0,
        Term::Complete(_, _) | Term::Await(_) => 0,
        Term::Ref(_, e) | Term::Deferred(e) => frames_in(e),
        Term::Uncancelable(e) | Term::Poll(_, e) => around(1, frames_in(e), 0),
        Term::Repeat(_, e) | Term::Forever(e) => around(1, frames_in(e), 0),
        Term::Let(a, b) | Term::Handle(a, b) => around(1, frames_in(a), 0).max(frames_in(b)),
        Term::OnCancel(a, b) => around(1, frames_in(a), frames_in(b)),
        Term::If0(_, a, b) | Term::Start(a, b) => frames_in(a).max(frames_in(b)),
        Term::Guarantee(a, b) => around(5, frames_in(a), frames_in(b)),
        Term::Race(a, b) => around(6, frames_in(a), frames_in(b)),
        Term::Join(_, a, b, c) => around(0, frames_in(a), frames_in(b)).max(frames_in(c)),
        Term::Bracket(a, b, c) => around(8, frames_in(a), frames_in(b).max(frames_in(c))),
        Term::Both(a, b, c) => around(6, frames_in(a), frames_in(b).max(frames_in(c))),
        Term::BracketCase(a, b, c, d, e) | Term::BracketFull(a, b, c, d, e) => {
            let first = around(8, frames_in(a), frames_in(b));
            let last = frames_in(c).max(frames_in(d).max(frames_in(e)));
            first.max(around(8, last, 0))
        }
        Term::Seq(a, b, more) => {
            let mut most = around(1, frames_in(a), frames_in(b));
            for t in more {
                most = most.max(around(1, frames_in(t), 0));
            }
            most
        }
    }
}

// The greatest number of nested frames of a word that puts `own` frames around each of two parts. `one` and `other` are
// the numbers of the parts.
fn around(own: u64, one: u64, other: u64) -> u64 {
    one.max(other).saturating_add(own)
}
