//! The help of the program, of each subcommand and of each option. No line is longer than 100 columns.

/// The help of a command.
#[derive(Clone, Copy)]
pub struct CommandHelp<'a> {
    /// What the command does, in one line.
    pub about: &'a str,
    /// The usage line of a command that reads a text from standard input. With `None`, `clap` makes the line.
    pub usage: Option<&'a str>,
    /// The text after the options.
    pub after: &'a str,
}

/// The help of the program itself, with the legend of the marks.
pub const PROGRAM: CommandHelp<'static> = CommandHelp {
    about: "Runs effect programs on fibers",
    usage: None,
    after: "The program's text is read from standard input; compare, test and terms read files.

Examples; the first lists every outcome of a race:
  echo '(race (pure 1) (pure 2))' | fiber_cli explore
  fiber_cli run < FILE

A report has a line for each fiber: its number, its outcome, and its marks in their order. M is the
number of one of the fiber's masks, V a value, C the code of an error:
  enter M      the fiber enters the mask M: until it leaves it, it is cut in its poll alone
  leave M      it leaves the mask M
  in M         it enters a poll of the mask M
  out M        it leaves that poll
  acquired M   a bracket has acquired, under the mask M
  releasing M  this bracket begins to release
  released M   it has released
  cut          the fiber is canceled here: from here on its finalizers run, and nothing else
  say V        the word (say V)
  dropped C    a finalizer raised C, which changes nothing

Exit status:
   0  fiber 0 succeeded, the text was checked or shown, or help was asked for
   1  fiber 0 errored
   2  fiber 0 was canceled
   3  fiber 0 has not ended
  64  the arguments or the schedule are wrong
  65  the text is refused
  70  a run or a device failed, or memory ran out

Exit status of explore, where it is not 64, 65 or 70:
   0  every schedule was explored, and nothing unwanted was found
   1  something unwanted was found; without --want, a fault
   3  a bound was reached, and nothing unwanted was found

Exit status of compare, where it is not 64, 65 or 70:
   0  both programs have the same ends
   1  one of them has an end that the other hasn't
   3  a bound was reached, and what was found doesn't decide

Exit status of test, where it is not 64, 65 or 70:
   0  every model passed
   1  a model failed, or there was none to test
   3  none failed, and one is undecided

Exit status of sample, where it is not 64, 65 or 70:
   0  nothing unwanted was found
   1  something unwanted was found; without --want, a fault",
};

pub const CHECK: CommandHelp<'static> = CommandHelp {
    about: "Checks whether the text is a program",
    usage: Some("fiber_cli check [OPTIONS] < FILE"),
    after: "The text is read from standard input.

Example:
  echo '(seq (say 1) (pure 2))' | fiber_cli check

Exit status:
   0  the text is a program
  64  the arguments are wrong
  65  the text is refused
  70  a device failed, or memory ran out",
};

pub const SHOW: CommandHelp<'static> = CommandHelp {
    about: "Prints the expansion of the program",
    usage: Some("fiber_cli show [OPTIONS] < FILE"),
    after: "The program's text is read from standard input.

Example:
  echo '(guarantee (say 1) (say 2))' | fiber_cli show

Exit status:
   0  the expansion was printed
  64  the arguments are wrong
  65  the text is refused
  70  a device failed, or memory ran out",
};

pub const REPLAY: CommandHelp<'static> = CommandHelp {
    about: "Runs the program under a schedule, and prints its report",
    usage: Some("fiber_cli replay [OPTIONS] --schedule <TEXT> < FILE"),
    after: "The program's text is read from standard input. With --schedule - the schedule is its first line,
and the text is all behind it.

Example, of a fiber that is canceled where it polls:
  echo '(uncancelable p (seq (canceled) (poll p (say 2))))' | fiber_cli replay --schedule \"0*99\"

'fiber_cli --help' explains the report.

Exit status:
   0  fiber 0 succeeded
   1  fiber 0 errored
   2  fiber 0 was canceled
   3  fiber 0 has not ended
  64  the arguments or the schedule are wrong
  65  the text is refused
  70  the replay ended with a fault, a device failed, or memory ran out",
};

pub const EXPLORE: CommandHelp<'static> = CommandHelp {
    about: "Explores every schedule, and prints every final report and fault",
    usage: Some("fiber_cli explore [OPTIONS] < FILE"),
    after: "The program's text is read from standard input.

Example, which finds a release that is lost:
  echo '(ref r 0 (start f (let c (modify r 1) (guarantee (never) (modify r -1)))
    (seq (cancel f) (get r))))' | fiber_cli explore --want \"succeeded 0\"

Example of every outcome of a race, with timelines:
  echo '(race (pure 1) (pure 2))' | fiber_cli explore --timeline

Example of a long search, which prints its progress, and ends within ten minutes:
  fiber_cli explore --memory 8G --seconds 600 --progress < FILE

Example of a claim that no schedule may break:
  echo '(ref r 0 (start f (modify r 1) (modify r 1)))' | fiber_cli explore --never '(= r 2)'

Example of a search that stops at the first unwanted outcome:
  fiber_cli explore --first --want \"succeeded 0\" < FILE

Example that finds a lock for which a fiber waits for ever:
  echo '(ref lock 1 (forever (get lock)))' | fiber_cli explore --ends

Example of a loop without end, which has one outcome:
  echo '(forever (bracket x (pure 1) (cede) (pure 2)))' | fiber_cli explore --marks none

Example of the values that fibers say, without their other marks:
  echo '(ref r 0 (start f (set r 1) (let x (get r) (say x))))' | fiber_cli explore --marks say

'fiber_cli --help' explains the reports. Each is below a schedule, under which replay gives it.

Exit status:
   0  every schedule was explored, and nothing unwanted was found
   1  something unwanted was found: a fault, with --want another outcome, a claim
      that is refuted, or with --ends a fair schedule that goes on for ever
   3  a bound was reached, and nothing unwanted was found
  64  the arguments or a claim are wrong
  65  the text is refused
  70  a device failed, or memory ran out",
};

pub const RUN: CommandHelp<'static> = CommandHelp {
    about: "Runs the program on work-stealing threads, and prints its report",
    usage: Some("fiber_cli run [OPTIONS] < FILE"),
    after: "The program's text is read from standard input.

Examples, of a race whose loser has a finalizer, of one that can be replayed, with its timeline, and
of a fiber that waits for nothing:
  echo '(race (pure 4) (oncancel (never) (say 9)))' | fiber_cli run --workers 4
  echo '(race (pure 4) (oncancel (never) (say 9)))' | fiber_cli run --record --timeline
  echo '(deferred d (await d))' | fiber_cli run --explain

'fiber_cli --help' explains the report, which is one that some schedule gives.

Exit status:
   0  fiber 0 succeeded
   1  fiber 0 errored
   2  fiber 0 was canceled
   3  fiber 0 has not ended
  64  the arguments are wrong
  65  the text is refused
  70  the run or a device failed, or memory ran out",
};

pub const SAMPLE: CommandHelp<'static> = CommandHelp {
    about: "Draws schedules at random, and counts the reports and faults",
    usage: Some("fiber_cli sample [OPTIONS] < FILE"),
    after: "The program's text is read from standard input.

Examples, of which the first two draw the same hundred schedules of a race each time:
  echo '(race (say 1) (say 2))' | fiber_cli sample --times 100 --seed 7
  echo '(race (say 1) (say 2))' | fiber_cli sample --times 100 --seed 7 --json
  echo '(race (pure 1) (pure 2))' | fiber_cli sample --want 'succeeded 1'
  echo '(ref r 0 (start f (modify r 1) (modify r 1)))' | fiber_cli sample --never '(= r 2)'

'fiber_cli --help' explains the reports. Each is below the first schedule that led to it, under
which replay gives it. 'cut short' says that each schedule that led to it has as many entries as
--entries allows, and that a fiber could still go on: the report need not be a final one. The
same seed draws the same schedules.

Exit status:
   0  the sample was printed, and nothing unwanted was found
   1  something unwanted was found: a fault, with --want another outcome, or a claim
      that is refuted
  64  the arguments or a claim are wrong
  65  the text is refused
  70  a device failed, or memory ran out",
};

pub const COMPARE: CommandHelp<'static> = CommandHelp {
    about: "Compares how two programs can end under every schedule",
    usage: None,
    after: "The programs' texts are read from two files; either can be /dev/stdin.

Example of a guarantee and its expansion, which have the same ends:
  echo '(guarantee (pure 1) (say 2))' > one
  fiber_cli show < one > two
  fiber_cli compare one two

An end is how fiber 0 ended and what it said, in a report that no further move changes, or a fault.
An end that only one program has is printed below a schedule, under which replay gives it.

Exit status:
   0  both programs have the same ends
   1  one of them has an end that the other hasn't
   3  a bound was reached, and what was found doesn't decide
  64  the arguments are wrong
  65  a text is refused
  70  a file or a device failed, or memory ran out",
};

pub const TEST: CommandHelp<'static> = CommandHelp {
    about: "Explores the models of files, and checks what they claim",
    usage: None,
    after: "A model file has comments, definitions and models; each model has claims, and a program that is
explored under every schedule. All faults in all files are reported before any model is explored.

Examples:
  fiber_cli test models/*.fm
  fiber_cli test --filter mutex --junit report.xml models/*.fm
  fiber_cli test --html report.html models/*.fm

A model that fails is printed with its claim, what was found, its schedule and its timeline.

Exit status:
   0  every model passed
   1  a model failed, or there was none to test
   3  none failed, and one is undecided since a bound was reached
  64  the arguments are wrong
  65  a file has a fault
  70  a file or a device failed, or memory ran out",
};

pub const TERMS: CommandHelp<'static> = CommandHelp {
    about: "Prints the terms of the models of a file",
    usage: None,
    after: "Each term is on one line behind a comment with the name of its model. Every other subcommand
takes such a term.

Example:
  fiber_cli terms models/mutex.fm

Exit status:
   0  the terms were printed
  64  the arguments are wrong
  65  the file has a fault
  70  the file or a device failed, or memory ran out",
};

/// The help of the options for the limits of a run.
#[derive(Clone, Copy)]
pub struct LimitsHelp<'a> {
    pub fibers: &'a str,
    pub refs: &'a str,
    pub deferreds: &'a str,
}

/// The help of the limits of `replay` and of `run`.
pub const MANY: LimitsHelp<'static> = LimitsHelp {
    fibers: "The greatest number of fibers, 1 to 1000 [default: 1000]",
    refs: "The greatest number of refs, 1 to 1000 [default: 1000]",
    deferreds: "The greatest number of deferreds, 1 to 1000 [default: 1000]",
};

/// The help of the limits of `explore`, of `sample` and of `compare`.
pub const FEW: LimitsHelp<'static> = LimitsHelp {
    fibers: "The greatest number of fibers, 1 to 1000 [default: 16]",
    refs: "The greatest number of refs, 1 to 1000 [default: 16]",
    deferreds: "The greatest number of deferreds, 1 to 1000 [default: 16]",
};

pub const COUNT: &str = "How often a fiber can change its own state, 1 to 1099511627775
[default: 1099511627775]";

pub const SCHEDULE: &str = "Whose move is next: items F or F*K (K moves of fiber F) with one space
between, as in \"0*2 1*9\". F is 0 to 999, K is 1 to 100000. Where it is
-, it is the first line of the input";

pub const WORLDS: &str = "How many worlds are kept, each a state of all fibers and cells,
1 to 100000000 [default: 10000000]";

pub const MEMORY: &str = "At how many bytes of memory the search stops, by an estimate: 1 to
10000000000, and behind it k, M or G for 1024, 1024^2 or 1024^3
[default: 4G]";

pub const ENTRIES: &str = "How many entries a schedule has at most, 1 to 1000000 [default: 10000]";

pub const SECONDS: &str =
    "After how many seconds the search stops, 1 to 1000000000 [default: no such
bound]";

pub const WANT: &str = "An outcome of fiber 0 that is wanted, as a report spells it:
\"succeeded V\", \"errored C\", canceled or unended. It can be given more
than once. A report with another outcome, and a fault, is then not wanted";

pub const EXPLORE_WANT: &str = "An outcome of fiber 0 that is wanted, as a report spells it:
\"succeeded V\", \"errored C\", canceled or unended. It can be given more
than once. A report with another outcome, and a fault, is then not
wanted. Where a bound stops the search before one is listed, 3000
schedules are drawn at random, as with --first";

pub const WORKERS: &str = "How many workers there are, threads that move fibers and steal them from
one another, 1 to 16 [default: 4]";

pub const BUDGET: &str = "How many moves a worker makes of a fiber in one turn at most, after which
another that is ready has its turn, 2 to 10000 [default: 64]";

pub const MOVES: &str = "How many moves fiber 0 can make, and each other fiber with those of its
parent before it, 1 to 1000000 [default: 100000]. A fiber that has made
them is reported as unended";

pub const SEED: &str = "The seed of the schedules, 0 to 9223372036854775807 [default: 0]";

pub const TIMES: &str = "How many schedules are drawn, 1 to 1000000 [default: 1000]";

pub const EXPLAIN: &str =
    "Write reasons to standard error: where a text or a schedule is refused, and
why a fiber of a replay or a run hasn't ended";

pub const RECORD: &str = "Print a schedule behind the report, under which replay gives it, or why
there is none";

pub const TIMELINE: &str =
    "Print a timeline behind the report: a row for each entry that did something";

pub const RUN_TIMELINE: &str =
    "With --record: print a timeline behind the schedule, of the replay under it";

pub const EXPLORE_TIMELINE: &str = "Print a timeline behind each report and each fault";

pub const PROGRESS: &str = "Write to standard error how far the search has come, once a second";

pub const MODEL_PROGRESS: &str =
    "Write to standard error how far the models are that are being explored,
once a second";

pub const FIRST_FINDING: &str =
    "Print the first finding alone: a fault, or an outcome of fiber 0 that is not
wanted. Before the search 3000 schedules are drawn at random";

pub const ENDS: &str = "Print behind the answer whether every fair schedule ends, in which each
fiber that can go on does so again and again, or else a cycle that goes on";

pub const MARKS: &str = "Which marks reports have: all, say (say V and dropped C alone) or none
(the outcomes alone). With say and none, a loop with masks and brackets
that says nothing closes [default: all]";

pub const ONLY: &str = "With --marks none: 0, for one answer for each outcome of fiber 0, and
nothing of the other fibers";

pub const ALWAYS: &str = "A claim that is to hold at every moment, as '(<= inside 1)'; repeatable";

pub const NEVER: &str = "A claim that is to hold at no moment, as '(= inside 2)'; repeatable";

pub const REACH: &str = "A claim that is to hold at some moment; repeatable";

pub const SVG: &str = "Print a picture of the run in place of the report, as SVG";

pub const JSON: &str = "Print the answer as JSON, on one line";

pub const FILES: &str = "The model files";

pub const MODEL_FILE: &str = "The model file";

pub const FILTER: &str = "Test only the models whose names contain this text";

pub const JUNIT: &str = "Write a report for CI to this file, in the format of JUnit";

pub const HTML: &str = "Write a page of HTML to this file, with timelines and pictures";

pub const JOBS: &str = "How many models are explored side by side, 0 to 64; 0: one for each
processor. They share --memory in equal parts [default: 0]";

pub const COLOR: &str = "When the verdicts have colours: auto (where the output is a terminal,
and NO_COLOR is not set), always or never [default: auto]";

pub const LIST: &str = "Print the models with their places, and explore none";

pub const TAP: &str = "Print the answer in the Test Anything Protocol";

pub const MODEL_SECONDS: &str =
    "After how many seconds the search of each model stops, 1 to 1000000000
[default: no such bound]";

pub const TOTAL_SECONDS: &str =
    "After how many seconds all searches stop, and each model that was not
begun is undecided, 1 to 1000000000 [default: no such bound]";

pub const MODEL_WORLDS: &str = "How many worlds are kept of a model that sets no bound of its own,
1 to 100000000 [default: 1000000]";

pub const FIRST: &str = "The file with the first program's text";

pub const SECOND: &str = "The file with the second program's text";

pub const ALL: &str = "Compare how all fibers end, by their numbers, and not what they say";
