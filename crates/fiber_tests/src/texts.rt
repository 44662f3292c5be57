//! Devices that fail, schedules' texts, reports and lines.

use cell_registry::{Band, RunError};
use effect_term::{Outcome, TermError, Value};
use fiber_frames::Mark;
use outcome_trace::{
    FiberReport, FiberReports, FromRead, MOST_ENTRIES, Marks, Refused, Report, ScheduleError,
    ShowOrder, Status, TEXT_BOUND, TextFault, ToWrite, answer_text, line, print_report,
    read_schedule, read_text, schedule_text, write_text,
};
use std::alloc::{AllocError, Global};
use std::io;
use std::io::{ErrorKind, Read, Write};
use std::test::Fail;
use term_parse::ParseError;

// A reader that gives one byte for each read, and fails or is interrupted at one read.
#[derive(Drop)]
struct Drops<'a> {
    left: &'a [u8],
    reads: u64,
    stops_at: u64,
    kind: ErrorKind,
}

impl Read for Drops<'_> {
    fn read(&mut self, buffer: &mut [u8]) -> io::Result<usize> {
        self.reads = self.reads.wrapping_add(1);
        if self.reads == self.stops_at {
            return Err(io::Error::from(self.kind));
        }
        if buffer.is_empty() {
            return Ok(0);
        }
        let Some((first, rest)) = self.left.split_first() else {
            return Ok(0);
        };
        buffer[0] = *first;
        self.left = rest;
        Ok(1)
    }
}

// A reader that is interrupted at each read.
#[derive(Drop)]
struct Restless;

impl Read for Restless {
    fn read(&mut self, _buffer: &mut [u8]) -> io::Result<usize> {
        Err(io::Error::from(ErrorKind::Interrupted))
    }
}

// A writer that takes one byte for each write, and then fails, or takes nothing.
#[derive(Drop)]
struct Narrow {
    taken: Vec<u8>,
    room: usize,
    fails: bool,
}

impl Write for Narrow {
    fn write(&mut self, bytes: &[u8]) -> io::Result<usize> {
        if self.taken.len() >= self.room {
            if self.fails {
                return Err(io::Error::from(ErrorKind::BrokenPipe));
            }
            return Ok(0);
        }
        let Some(first) = bytes.first() else {
            return Ok(0);
        };
        if self.taken.push(*first).is_err() {
            return Err(io::Error::from(ErrorKind::OutOfMemory));
        }
        Ok(1)
    }

    fn flush(&mut self) -> io::Result<()> {
        Ok(())
    }
}

// What is read of a text byte by byte, if one read stops in this way.
fn read_in_drops(
    alloc: Global,
    text: &[u8],
    stops_at: u64,
    kind: ErrorKind,
) -> Result<Vec<u8>, TextFault> {
    read_text(
        alloc,
        &mut FromRead::new(Drops {
            left: text,
            reads: 0,
            stops_at,
            kind,
        }),
    )
}

fn is_read_whole(alloc: Global, text: &[u8], stops_at: u64) -> Result<bool, TextFault> {
    let read = read_in_drops(alloc, text, stops_at, ErrorKind::Interrupted)?;
    Ok(read.as_slice() == text)
}

#[test]
fn reads_byte_by_byte(rt: HostRuntime) {
    for stops_at in 0..8u64 {
        assert_eq!(rt;
            is_read_whole(rt.alloc(), b"(pure 7)", stops_at),
            Ok(true),
            "at {stops_at}"
        );
    }
}

#[test]
fn tells_failed_reads(rt: HostRuntime) {
    for stops_at in 1..10u64 {
        let fault = read_in_drops(rt.alloc(), b"(pure 7)", stops_at, ErrorKind::BrokenPipe).err();
        assert_eq!(rt; fault, Some(TextFault::ReadFault), "at {stops_at}");
    }
}

fn length_read(alloc: Global, text: &[u8], stops_at: u64) -> Result<usize, TextFault> {
    Ok(read_in_drops(alloc, text, stops_at, ErrorKind::Interrupted)?.len())
}

// The length of a text, the read that is interrupted, and how much of the text is read.
const LENGTHS: &[(usize, u64, Result<usize, TextFault>)] = &[
    (TEXT_BOUND - 1, 0, Ok(TEXT_BOUND - 1)),
    (TEXT_BOUND, 0, Ok(TEXT_BOUND)),
    (TEXT_BOUND + 1, 0, Ok(TEXT_BOUND)),
    (TEXT_BOUND - 1, 9, Err(TextFault::TurnBound)),
];

#[test]
fn bounds_its_turns(rt: HostRuntime) -> Result<(), Fail> {
    let fault = read_text(rt.alloc(), &mut FromRead::new(Restless)).err();
    assert_eq!(rt; fault, Some(TextFault::TurnBound));
    let long = vec![in rt.alloc(); b' '; TEXT_BOUND + 1]?;
    for (len, stops_at, want) in LENGTHS {
        assert!(rt; *len <= long.len());
        assert_eq!(rt;
            length_read(rt.alloc(), &long[..*len], *stops_at),
            *want,
            "of {len}"
        );
    }
    Ok(())
}

// Whether the writer has as much of the text as it has room for.
fn has_its_part(narrow: &Narrow, text: &[u8], written: Result<(), TextFault>) -> bool {
    let taken = narrow.taken.as_slice();
    if narrow.room < text.len() {
        written == Err(TextFault::WriteFault(narrow.room))
            && taken.len() == narrow.room
            && text.starts_with(taken)
    } else {
        written == Ok(()) && taken == text
    }
}

fn is_written(alloc: Global, text: &[u8], room: usize, fails: bool) -> bool {
    let mut narrow = Narrow {
        taken: Vec::new(alloc),
        room,
        fails,
    };
    let written = write_text(text, &mut ToWrite::new(&mut narrow));
    has_its_part(&narrow, text, written)
}

#[test]
fn tells_how_much_was_written(rt: HostRuntime) {
    let text = b"fiber 0 canceled: enter 0, leave 0, cut\n";
    for room in 0..text.len() {
        assert!(rt; is_written(rt.alloc(), text, room, true), "room for {room}");
        assert!(rt;
            is_written(rt.alloc(), text, room, false),
            "room for {room}"
        );
    }
    assert!(rt; is_written(rt.alloc(), text, text.len(), true));
}

fn count_of_entries(alloc: Global, text: &str) -> Result<usize, ScheduleError> {
    Ok(read_schedule(alloc, text)?.len())
}

// Schedules, and the number of entries of each.
const SCHEDULES: &[(&str, usize)] = &[
    ("", 0),
    ("0*7", 7),
    ("999", 1),
    ("999*100000", 100_000),
    (
        "0*100000 1*100000 2*100000 3*100000 4*100000 5*100000 6*100000 7*100000 8*100000 9*100000",
        1_000_000,
    ),
];

// Texts that aren't schedules, and the place of the first bad item of each.
const BAD_SCHEDULES: &[(&str, usize)] = &[
    (" ", 0),
    ("0 x", 2),
    ("0 ", 2),
    (" 0", 0),
    ("0  1", 2),
    ("1000", 0),
    ("01", 0),
    ("+1", 0),
    ("1 2*0", 2),
    ("1 2*01", 2),
    ("1*100001", 0),
    ("1*", 0),
    ("*1", 0),
    ("1*1*1", 0),
    ("4294967296", 0),
    ("0 \u{e9}", 2),
    (
        "0*100000 1*100000 2*100000 3*100000 4*100000 5*100000 6*100000 7*100000 8*100000 9*100000 1",
        90,
    ),
];

#[test]
fn reads_schedules(rt: HostRuntime) -> Result<(), Fail> {
    let entries = read_schedule(rt.alloc(), "0 1*2")?;
    assert_eq!(rt; entries.as_slice(), [0u16, 1, 1].as_slice());
    for (text, count) in SCHEDULES {
        assert_eq!(rt; count_of_entries(rt.alloc(), text), Ok(*count), "{text}");
    }
    for (text, place) in BAD_SCHEDULES {
        let want = Err(ScheduleError::BadSchedule(*place));
        assert_eq!(rt; count_of_entries(rt.alloc(), text), want, "{text}");
    }
    Ok(())
}

// Whether the text of these entries is this one, and spells them.
fn is_spelled(alloc: Global, entries: &[u16], text: &str) -> Result<bool, Fail> {
    if entries.len() > MOST_ENTRIES || !entries.iter().all(|fiber| *fiber < 1000) {
        return Ok(false);
    }
    let spelled = schedule_text(alloc, entries)?;
    let read = read_schedule(alloc, spelled.as_str())?;
    Ok(spelled.as_str() == text && read.as_slice() == entries)
}

// Schedules, and the text of each.
const ENTRIES: &[(&[u16], &str)] = &[
    (&[], ""),
    (&[7], "7"),
    (&[0, 0], "0*2"),
    (&[0, 1, 0], "0 1 0"),
    (&[1, 1, 1, 0, 999, 999, 0], "1*3 0 999*2 0"),
];

#[test]
fn spells_schedules_by_their_runs(rt: HostRuntime) -> Result<(), Fail> {
    for (entries, text) in ENTRIES {
        assert!(rt; is_spelled(rt.alloc(), entries, text)?, "{text}");
    }
    let long = vec![in rt.alloc(); 3; 200_001]?;
    assert!(rt; is_spelled(rt.alloc(), long.as_slice(), "3*100000 3*100000 3")?);
    Ok(())
}

fn fiber(
    alloc: Global,
    outcome: Option<Outcome>,
    marks: &[Mark],
) -> Result<FiberReport, AllocError> {
    Ok(FiberReport {
        outcome,
        marks: Marks::new(Vec::from_slice(alloc, marks)?),
    })
}

fn push_fibers(fibers: &mut Vec<FiberReport>, alloc: Global) -> Result<(), AllocError> {
    let marks = [
        Mark::Enter(0),
        Mark::Acquired(0),
        Mark::Enter(1),
        Mark::PollIn(1),
        Mark::Say(Value::MIN),
        Mark::PollOut(1),
        Mark::Leave(18446744073709551615),
        Mark::Cut,
        Mark::Releasing(0),
        Mark::Dropped(Value::from_i32(8)),
        Mark::Released(0),
    ];
    fibers.push(fiber(alloc, Some(Outcome::Canceled), marks.as_slice())?)?;
    for outcome in [
        Some(Outcome::Succeeded(Value::from_i32(7))),
        Some(Outcome::Errored(Value::from_i32(-1))),
        None,
    ] {
        fibers.push(fiber(alloc, outcome, &[])?)?;
    }
    Ok(())
}

// A fiber that made each kind of mark, and fibers without marks, one with each outcome.
fn some_report(alloc: Global) -> Result<Report, AllocError> {
    let mut fibers = Vec::new(alloc);
    push_fibers(&mut fibers, alloc)?;
    Ok(Report {
        fibers: FiberReports::new(fibers),
    })
}

// Its text.
const REPORT: &str =
    "fiber 0 canceled: enter 0, acquired 0, enter 1, in 1, say -4611686018427387904, out 1, leave \
    18446744073709551615, cut, releasing 0, dropped 8, released 0\n\
    fiber 1 succeeded 7\n\
    fiber 2 errored -1\n\
    fiber 3 unended\n";

fn is_printed(alloc: Global, report: &Report) -> Result<bool, TextFault> {
    let mut out = Vec::new(alloc);
    print_report(alloc, report, &mut ToWrite::new(&mut out))?;
    Ok(out.as_slice() == REPORT.as_bytes())
}

// Whether as much of the report's text is written as there is room for.
fn is_printed_in(alloc: Global, report: &Report, room: usize) -> bool {
    let mut narrow = Narrow {
        taken: Vec::new(alloc),
        room,
        fails: true,
    };
    let printed = print_report(alloc, report, &mut ToWrite::new(&mut narrow));
    has_its_part(&narrow, REPORT.as_bytes(), printed)
}

#[test]
fn prints_reports(rt: HostRuntime) -> Result<(), Fail> {
    let report = some_report(rt.alloc())?;
    assert_eq!(rt; is_printed(rt.alloc(), &report), Ok(true));
    for room in 0..REPORT.len() {
        assert!(rt; is_printed_in(rt.alloc(), &report, room), "room for {room}");
    }
    Ok(())
}

// A writer that counts bytes, and needs no memory.
#[derive(Drop)]
struct Counts {
    taken: usize,
}

impl Write for Counts {
    fn write(&mut self, bytes: &[u8]) -> io::Result<usize> {
        self.taken = self.taken.wrapping_add(bytes.len());
        Ok(bytes.len())
    }

    fn flush(&mut self) -> io::Result<()> {
        Ok(())
    }
}

// The result of printing the report, and the number of bytes written.
fn print_and_count(alloc: Global) -> Result<(Result<(), TextFault>, usize), AllocError> {
    let report = some_report(alloc)?;
    let mut counts = Counts { taken: 0 };
    let printed = print_report(alloc, &report, &mut ToWrite::new(&mut counts));
    Ok((printed, counts.taken))
}

// Holds with every request for memory refused in turn: then nothing is written.
#[test]
fn a_report_is_printed_or_memory_ran_out(rt: HostRuntime) {
    match print_and_count(rt.alloc()) {
        Ok((Ok(()), taken)) => assert_eq!(rt; taken, 210),
        Ok((Err(fault), taken)) => assert_eq!(rt; (fault, taken), (TextFault::NoMemory, 0)),
        Err(_) => {}
    }
}

// Holds with every request for memory refused in turn.
#[test]
fn a_line_is_told_or_memory_ran_out(rt: HostRuntime) {
    let refused = Refused::Run(RunError::Full(Band::Deferreds, 1000));
    if let Ok(line) = line(rt.alloc(), &refused) {
        assert_eq!(rt;
            line.as_slice(),
            b"fault 18 Full deferreds 1000\n".as_slice()
        );
    }
}

// A text, the answer of `show` to it, and the status.
const SHOWN: [(&str, &str, Status); 2] = [
    (
        "(guarantee (say 1) (say 2))",
        "(uncancelable p0 (let v1 (handle (oncancel (poll p0 (say 1)) (say 2)) v1 (seq (handle (say 2) v2 (pure 0)) \
        (raise v1))) (seq (say 2) (pure v1))))\n",
        Status::Succeeded,
    ),
    (
        "(guarantee (say 1) (say x))",
        "refused 9 UnknownName at 24\n",
        Status::Refused,
    ),
];

fn is_shown(alloc: Global, text: &str, want: &str, status: Status) -> bool {
    let mut out = Vec::new(alloc);
    let answered = answer_text(
        alloc,
        &ShowOrder,
        &mut FromRead::new(text.as_bytes()),
        &mut ToWrite::new(&mut out),
    );
    answered == Ok(status) && out.as_slice() == want.as_bytes()
}

#[test]
fn shows_the_code_of_a_program(rt: HostRuntime) {
    for (text, want, status) in SHOWN {
        assert!(rt; is_shown(rt.alloc(), text, want, status), "{text}");
    }
}

// Holds with every request for memory refused in turn: then nothing is written.
#[test]
fn a_code_is_shown_or_memory_ran_out(rt: HostRuntime) {
    for (text, want, status) in SHOWN {
        let mut counts = Counts { taken: 0 };
        let answered = answer_text(
            rt.alloc(),
            &ShowOrder,
            &mut FromRead::new(text.as_bytes()),
            &mut ToWrite::new(&mut counts),
        );
        match answered {
            Ok(ended) => assert_eq!(rt; (ended, counts.taken), (status, want.len())),
            Err(fault) => assert_eq!(rt; (fault, counts.taken), (TextFault::NoMemory, 0)),
        }
    }
}

#[test]
fn tells_refusals_and_faults(rt: HostRuntime) -> Result<(), Fail> {
    for (refused, want) in [
        (
            Refused::Parse(ParseError::BadByte(6)),
            "refused 4 BadByte at 6\n",
        ),
        (Refused::Parse(ParseError::End(0)), "refused 5 End at 0\n"),
        (
            Refused::Parse(ParseError::UnknownWord(1)),
            "refused 6 UnknownWord at 1\n",
        ),
        (
            Refused::Parse(ParseError::Arity(13)),
            "refused 7 Arity at 13\n",
        ),
        (
            Refused::Parse(ParseError::BadNumber(6)),
            "refused 8 BadNumber at 6\n",
        ),
        (
            Refused::Parse(ParseError::UnknownName(6)),
            "refused 9 UnknownName at 6\n",
        ),
        (
            Refused::Parse(ParseError::NameKind(22)),
            "refused 10 NameKind at 22\n",
        ),
        (
            Refused::Parse(ParseError::TooDeep(900)),
            "refused 11 TooDeep at 900\n",
        ),
        (
            Refused::Parse(ParseError::TooLong(65536)),
            "refused 12 TooLong at 65536\n",
        ),
        (
            Refused::Parse(ParseError::Trailing(9)),
            "refused 13 Trailing at 9\n",
        ),
        (
            Refused::Term(TermError::DeepMasks(252)),
            "refused 3 DeepMasks 252\n",
        ),
        (Refused::Term(TermError::Large), "refused 26 Large\n"),
        (
            Refused::Run(RunError::Full(Band::Fibers, 2)),
            "fault 18 Full fibers 2\n",
        ),
        (
            Refused::Run(RunError::Full(Band::Refs, 1)),
            "fault 18 Full refs 1\n",
        ),
        (
            Refused::Run(RunError::Full(Band::Deferreds, 1000)),
            "fault 18 Full deferreds 1000\n",
        ),
        (Refused::Run(RunError::Spent(0)), "fault 19 Spent 0\n"),
        (Refused::Run(RunError::NoMemory), "fault 20 NoMemory\n"),
        (Refused::Run(RunError::Lost(3)), "fault 21 Lost 3\n"),
        (Refused::Run(RunError::NoWorker), "fault 22 NoWorker\n"),
    ] {
        let line = line(rt.alloc(), &refused)?;
        assert!(rt; line.as_slice() == want.as_bytes(), "{want}");
    }
    Ok(())
}
