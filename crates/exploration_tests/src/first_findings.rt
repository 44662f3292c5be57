//! The first finding of small programs, compared with replays.

use crate::sample_answers::{explore_order, replayed};
use crate::wants::push_wants;
use every_schedule::Unwatched;
use exploration_text::{ExploreOrder, FirstOrder, NotedAnswer, WatchedOrder};
use outcome_trace::{Status, TextOrder, read_program};
use std::alloc::Global;
use std::str;
use std::test::Fail;

// A program, the wanted outcome, the text before the schedule of the first finding, and how the text behind the
// schedule begins.
struct Found {
    rule: &'static str,
    program: &'static str,
    want: &'static str,
    heading: &'static str,
    end: &'static str,
}

const FOUND: &[Found] = &[
    Found {
        rule: "two permits, of which a canceled worker loses one: nobody wakes the last worker",
        program: "(ref s 2 (deferred g \
            (start w1 (let n (modify s -1) (seq (if0 n (await g) (pure 0)) (cede) (let o (modify s 1) (let t (add o 1) \
                (if0 t (complete g 1) (pure 0)))))) \
            (start w2 (let n (modify s -1) (seq (if0 n (await g) (pure 0)) (cede) (let o (modify s 1) (let t (add o 1) \
                (if0 t (complete g 1) (pure 0)))))) \
            (start w3 (let n (modify s -1) (seq (if0 n (await g) (pure 0)) (cede) (let o (modify s 1) (let t (add o 1) \
                (if0 t (complete g 1) (pure 0)))))) \
            (start k (cancel w1) (seq (join w1 x (pure 0) e (pure 0) (pure 0)) (join w2 x (pure 0) e (pure 0) (pure 0)) \
                (join w3 x (pure 0) e (pure 0) (pure 0)) (pure 0))))))))",
        want: "succeeded 0",
        heading: "found at random: not wanted, final, under \"",
        end: "fiber 0 unended\n",
    },
    Found {
        rule: "fiber 0 ends, and another fiber goes round without end",
        program: "(start f (forever (cede)) (pure 3))",
        want: "succeeded 1",
        heading: "found at random: not wanted, others may go on, under \"",
        end: "fiber 0 succeeded 3\n",
    },
    Found {
        rule: "a look between each two of seven changes, which no drawn schedule has",
        program: "(ref r 0 (start f (seq (set r 1) (set r 2) (set r 3) (set r 4) (set r 5) (set r 6) (set r 7)) \
            (let a (get r) (let a (add a -1) (if0 a \
            (let b (get r) (let b (add b -2) (if0 b \
            (let c (get r) (let c (add c -3) (if0 c \
            (let d (get r) (let d (add d -4) (if0 d \
            (let e (get r) (let e (add e -5) (if0 e \
            (let g (get r) (let g (add g -6) (if0 g \
            (let h (get r) (let h (add h -7) (if0 h (raise 9) (pure 0)))) \
            (pure 0)))) (pure 0)))) (pure 0)))) (pure 0)))) (pure 0)))) (pure 0))))))",
        want: "succeeded 0",
        heading: "found by search: not wanted, final, under \"",
        end: "fiber 0 errored 9\n",
    },
];

// The answer to a program whose first finding is asked for. `None` if the text is refused.
fn first_of(alloc: Global, order: ExploreOrder, text: &[u8]) -> Result<Option<NotedAnswer>, Fail> {
    match read_program(alloc, text) {
        Ok(program) => {
            let first = FirstOrder { order };
            Ok(Some(first.answer_watched(alloc, &program, &mut Unwatched)?))
        }
        Err(_) => Ok(None),
    }
}

// Whether the first finding is the expected one, and a replay under its schedule gives its end.
fn is_found(alloc: Global, found: &Found) -> Result<bool, Fail> {
    let mut order = explore_order(alloc);
    push_wants(&mut order.wants, &[found.want])?;
    let Some(noted) = first_of(alloc, order, found.program.as_bytes())? else {
        return Ok(false);
    };
    let answer = noted.answer;
    let Ok(text) = str::from_utf8(answer.text.as_slice()) else {
        return Ok(false);
    };
    let Some(rest) = text.strip_prefix(found.heading) else {
        return Ok(false);
    };
    let Some((schedule, end)) = rest.split_once("\"\n") else {
        return Ok(false);
    };
    let replay = replayed(alloc, found.program, schedule)?;
    let same = replay.text.as_slice() == end.as_bytes();
    Ok(same && end.starts_with(found.end) && answer.status == Status::Errored)
}

#[test]
fn the_first_finding_is_reported_with_its_schedule(rt: HostRuntime) -> Result<(), Fail> {
    for found in FOUND {
        if !is_found(rt.alloc(), found)? {
            return Err(Fail::new(found.rule));
        }
    }
    Ok(())
}

#[test]
fn without_a_finding_all_answers_are_listed(rt: HostRuntime) -> Result<(), Fail> {
    let alloc = rt.alloc();
    let program = b"(race (pure 1) (pure 2))";
    let mut order = explore_order(alloc);
    push_wants(
        &mut order.wants,
        &["succeeded 1", "canceled", "succeeded 2"],
    )?;
    let all = order.answer(alloc, program)?;
    let Some(first) = first_of(alloc, order, program)? else {
        return Err(Fail::new("it is refused"));
    };
    assert_eq!(rt; first.answer.text.as_slice(), all.text.as_slice());
    assert_eq!(rt;
        first.note.as_slice(),
        b"no schedule comes to `canceled`\n".as_slice()
    );
    assert!(rt; first.answer.status == Status::Succeeded);
    Ok(())
}
