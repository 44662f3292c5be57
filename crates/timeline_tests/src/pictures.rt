//! The shapes of pictures.

use crate::answers::pictured;
use outcome_trace::Status;
use std::alloc::Global;
use std::str;
use std::test::Fail;

// A program under a schedule, and how often each shape is in its picture, the legend included.
struct Shown<'a> {
    // The rule that it shows.
    rule: &'a str,
    program: &'a str,
    schedule: &'a str,
    status: Status,
    shapes: &'a [(&'a str, usize)],
}

const SHOWN: &[Shown<'static>] = &[
    Shown {
        rule: "one document without scripts",
        program: "(raise 1)",
        schedule: "0*2",
        status: Status::Errored,
        shapes: &[
            ("<svg ", 1),
            ("</svg>\n", 1),
            ("<script", 0),
            ("class=\"bad\"", 2),
            (">errored 1</text>", 1),
            ("prefers-color-scheme: dark", 1),
        ],
    },
    Shown {
        rule: "a mask and its poll have shades of their own",
        program: "(uncancelable p (poll p (say 3)))",
        schedule: "0*10",
        status: Status::Succeeded,
        shapes: &[
            ("<rect class=\"runs\"", 4),
            ("<rect class=\"masked\"", 3),
            ("<rect class=\"polled\"", 2),
            ("class=\"says\"", 2),
            ("<text class=\"small\" x=\"154\" y=\"36\">3</text>", 1),
        ],
    },
    Shown {
        rule: "a start, a request, a wait that is cut, and a finalizing end",
        program: "(start f (never) (cancel f))",
        schedule: "0*4 1*2 0 1*3 0*4",
        status: Status::Succeeded,
        shapes: &[
            ("class=\"starts\"", 2),
            ("class=\"cancels\"", 2),
            ("class=\"wakes\"", 1),
            ("<rect class=\"waits\"", 2),
            ("class=\"cut\"", 2),
            ("<rect class=\"final\"", 2),
            ("class=\"gone\"", 2),
        ],
    },
    Shown {
        rule: "who completes a deferred wakes who waits for it",
        program: "(deferred d (start f (complete d 4) (await d)))",
        schedule: "0*6 1*2 0*4",
        status: Status::Succeeded,
        shapes: &[("class=\"wakes\"", 2), ("<rect class=\"waits\"", 2)],
    },
    Shown {
        rule: "a bracket that has released",
        program: "(bracket x (pure 1) (pure x) (say 2))",
        schedule: "0*26",
        status: Status::Succeeded,
        shapes: &[("class=\"span\"", 2), ("class=\"open\"", 0)],
    },
    Shown {
        rule: "a bracket that hasn't",
        program: "(bracket x (pure 1) (never) (say 2))",
        schedule: "0*12",
        status: Status::Unended,
        shapes: &[("class=\"span\"", 1), ("class=\"open\"", 1)],
    },
    Shown {
        rule: "of eleven entries each second one has its number",
        program: "(forever (cede))",
        schedule: "0*11",
        status: Status::Unended,
        shapes: &[
            (">8</text>", 1),
            (">9</text>", 0),
            (">10</text>", 1),
            (">11</text>", 0),
        ],
    },
    Shown {
        rule: "of nine entries each one has its number",
        program: "(forever (cede))",
        schedule: "0*9",
        status: Status::Unended,
        shapes: &[(">7</text>", 1), (">8</text>", 1), (">9</text>", 1)],
    },
    Shown {
        rule: "a text that is refused has no picture",
        program: "(pure 01)",
        schedule: "0*2",
        status: Status::Refused,
        shapes: &[("refused 8 BadNumber at 6\n", 1), ("<svg", 0)],
    },
];

// The whole text of a small picture behind its style.
const SMALL: &str = " width=\"100%\" height=\"100%\"/>\n\
    <text class=\"faint\" x=\"16\" y=\"20\">entry</text>\n\
    <text class=\"faint small\" x=\"84\" y=\"20\">0</text>\n\
    <path class=\"grid\" d=\"M84 26L84 92\"/>\n\
    <text class=\"faint small\" x=\"98\" y=\"20\">1</text>\n\
    <path class=\"grid\" d=\"M98 26L98 92\"/>\n\
    <text class=\"faint small\" x=\"112\" y=\"20\">2</text>\n\
    <path class=\"grid\" d=\"M112 26L112 92\"/>\n\
    <text class=\"name\" x=\"16\" y=\"53\">fiber 0</text>\n\
    <rect class=\"runs\" x=\"84\" y=\"40\" width=\"28\" height=\"18\"/>\n\
    <path class=\"ok\" d=\"M112 40m-7 9a7 7 0 1 0 14 0a7 7 0 1 0 -14 0z\"><title>2: ends: succeeded 1</title></path>\n\
    <text class=\"faint\" x=\"378\" y=\"53\">succeeded 1</text>\n\
    <rect class=\"runs\" x=\"16\" y=\"112\" width=\"24\" height=\"18\"/>\n\
    <text class=\"faint\" x=\"46\" y=\"125\">unmasked</text>\n\
    <rect class=\"masked\" x=\"120\" y=\"112\" width=\"24\" height=\"18\"/>\n\
    <text class=\"faint\" x=\"150\" y=\"125\">masked</text>\n\
    <rect class=\"polled\" x=\"224\" y=\"112\" width=\"24\" height=\"18\"/>\n\
    <text class=\"faint\" x=\"254\" y=\"125\">in a poll</text>\n\
    <rect class=\"final\" x=\"328\" y=\"112\" width=\"24\" height=\"18\"/>\n\
    <text class=\"faint\" x=\"358\" y=\"125\">finalizers</text>\n\
    <rect class=\"runs\" x=\"432\" y=\"112\" width=\"24\" height=\"18\"/>\n\
    <rect class=\"waits\" x=\"432\" y=\"112\" width=\"24\" height=\"18\"/>\n\
    <text class=\"faint\" x=\"462\" y=\"125\">waits</text>\n\
    <rect class=\"span\" x=\"536\" y=\"120\" width=\"24\" height=\"3\"/>\n\
    <text class=\"faint\" x=\"566\" y=\"125\">acquired to released</text>\n\
    <path class=\"tick\" d=\"M16 146m7 4v10\"/>\n\
    <text class=\"faint\" x=\"46\" y=\"159\">a move</text>\n\
    <path class=\"says\" d=\"M120 146m7 4l5 5l-5 5l-5 -5z\"/>\n\
    <text class=\"faint\" x=\"150\" y=\"159\">say</text>\n\
    <path class=\"cut\" d=\"M224 146m2 0l10 18m0 -18l-10 18\"/>\n\
    <text class=\"faint\" x=\"254\" y=\"159\">cut</text>\n\
    <path class=\"ok\" d=\"M328 146m0 9a7 7 0 1 0 14 0a7 7 0 1 0 -14 0z\"/>\n\
    <text class=\"faint\" x=\"358\" y=\"159\">succeeded</text>\n\
    <path class=\"bad\" d=\"M432 146m7 1l8 15h-16z\"/>\n\
    <text class=\"faint\" x=\"462\" y=\"159\">errored</text>\n\
    <path class=\"gone\" d=\"M536 146m1 3h12v12h-12z\"/>\n\
    <text class=\"faint\" x=\"566\" y=\"159\">canceled</text>\n\
    <path class=\"starts\" d=\"M16 189L42 189\"/>\n\
    <text class=\"faint\" x=\"46\" y=\"193\">starts</text>\n\
    <path class=\"cancels\" d=\"M224 189L250 189\"/>\n\
    <text class=\"faint\" x=\"254\" y=\"193\">requests cancel</text>\n\
    <path class=\"wakes\" d=\"M432 189L458 189\"/>\n\
    <text class=\"faint\" x=\"462\" y=\"193\">wakes</text>\n\
    </svg>\n";

// Whether a picture has these shapes, each as often as expected.
fn is_shown(alloc: Global, it: &Shown<'_>) -> Result<bool, Fail> {
    let answer = pictured(alloc, it.program, it.schedule, 16)?;
    let Ok(text) = str::from_utf8(answer.text.as_slice()) else {
        return Ok(false);
    };
    for (shape, times) in it.shapes {
        if text.matches(*shape).count() != *times {
            return Ok(false);
        }
    }
    Ok(answer.status == it.status)
}

#[test]
fn pictures_have_the_expected_shapes(rt: HostRuntime) -> Result<(), Fail> {
    for it in SHOWN {
        assert!(rt; is_shown(rt.alloc(), it)?, "{}", it.rule);
    }
    Ok(())
}

// The text behind the style.
fn behind_style(text: &[u8]) -> &str {
    match str::from_utf8(text) {
        Ok(text) => match text.split_once("<rect class=\"paper\"") {
            Some((_, behind)) => behind,
            None => "",
        },
        Err(_) => "",
    }
}

#[test]
fn a_small_picture_is_drawn_whole(rt: HostRuntime) -> Result<(), Fail> {
    let answer = pictured(rt.alloc(), "(pure 1)", "0*2", 16)?;
    assert!(rt; behind_style(answer.text.as_slice()) == SMALL);
    assert!(rt; answer.status == Status::Succeeded);
    Ok(())
}

// In the text, the sign of a finalizer's mark follows the bar of the finalizers, so the sign is drawn over the bar.
#[test]
fn signs_are_drawn_over_their_bars(rt: HostRuntime) -> Result<(), Fail> {
    let program = "(oncancel (seq (canceled) (say 1)) (say 2))";
    let answer = pictured(rt.alloc(), program, "0*9", 16)?;
    let lane = behind_style(answer.text.as_slice());
    let Some((before, _)) = lane.split_once("<path class=\"says\"") else {
        return Err(Fail::new("nothing is said"));
    };
    assert!(rt;
        before.contains("<rect class=\"final\" x=\"168\" y=\"40\" width=\"42\" height=\"18\"/>")
    );
    Ok(())
}

#[test]
fn a_fault_has_no_picture(rt: HostRuntime) -> Result<(), Fail> {
    let answer = pictured(rt.alloc(), "(start f (pure 1) (pure 2))", "0*5", 1)?;
    assert!(rt; answer.text.as_slice() == "fault 18 Full fibers 1\n".as_bytes());
    assert!(rt; answer.status == Status::Fault);
    Ok(())
}
