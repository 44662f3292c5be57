//! Answers in JSON that no command asks for, and JSON where memory runs out.

use crate::limits::limits;
use exploration_text::SampleOrder;
use json_answers::{ReplayJson, SampleJson};
use outcome_trace::{Answer, Status, TextOrder};
use std::alloc::{AllocError, Global};
use std::str;
use std::test::Fail;

// A program, a seed, the number of schedules that are drawn, the answer of a sample in JSON, and its status.
const SAMPLED: &[(&str, u64, u32, &str, Status)] = &[
    (
        "(ref r 1 (ref s 2 (never)))",
        18446744073709551615,
        3,
        "{\"answer\":\"sample\",\"answers\":[{\"came\":3,\"cut\":false,\
            \"fault\":{\"answer\":\"fault\",\"band\":\"refs\",\"limit\":1,\
            \"name\":\"Full\",\"number\":18},\"schedule\":\"0*8\",\"wanted\":true}],\"seed\":18446744073709551615,\"times\":3}\n",
        Status::Errored,
    ),
    (
        "(pure 1)",
        1,
        0,
        "{\"answer\":\"sample\",\"answers\":[],\"seed\":1,\"times\":0}\n",
        Status::Succeeded,
    ),
];

// The answer of a sample.
fn sampled(alloc: Global, program: &str, seed: u64, times: u32) -> Result<Answer, AllocError> {
    let order = SampleJson {
        order: SampleOrder {
            limits: limits(1),
            seed,
            times,
            entries: 1000,
            wants: Vec::new(alloc),
        },
    };
    order.answer(alloc, program.as_bytes())
}

#[test]
fn samples_have_the_expected_json(rt: HostRuntime) -> Result<(), Fail> {
    for (program, seed, times, want, status) in SAMPLED {
        let answer = sampled(rt.alloc(), *program, *seed, *times)?;
        assert_eq!(rt; str::from_utf8(answer.text.as_slice()), Ok(*want));
        assert_eq!(rt; answer.status, *status);
    }
    Ok(())
}

// The answer of a replay in which only fiber 0 moves.
fn replayed(alloc: Global, program: &str) -> Result<Answer, AllocError> {
    let schedule = [0; 99];
    let order = ReplayJson {
        schedule: &schedule,
        limits: limits(1),
    };
    order.answer(alloc, program.as_bytes())
}

// Holds with every request for memory refused in turn: the answer is whole if there is one.
#[test]
fn json_is_whole_or_memory_ran_out(rt: HostRuntime) {
    if let Ok(answer) = replayed(rt.alloc(), "(seq (say 1) (pure 2))") {
        assert_eq!(rt;
            answer.text.as_slice(),
            b"{\"answer\":\"report\",\"fibers\":[{\"fiber\":0,\"marks\":[{\"say\":1}],\
              \"outcome\":{\"succeeded\":2}}]}\n"
                .as_slice()
        );
    }
}
