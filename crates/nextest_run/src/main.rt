//! The program: runs a plan with real children, or carries out the run that its standard input tells, and writes the
//! lines of it, by the top calls of the libraries below. It answers `--help` and `--version` itself, and says on
//! standard error what a fault means; a run reports there as it goes.
#![tactic(auto)]

ghost use Rattle.std.specs.Prelude.{[]};

mod delivering;
mod junit_file;
mod recording;
mod showing;
mod words;

use delivering::{Delivered, Listened, run_and_deliver};
use junit_file::{end_junit, junit_of};
use recording::end_with;
use run_cli::{Ran, StdSink, StdSource, run};
use run_hints::{KeptSource, LastLine, Seen, explain};
use run_host::StdHost;
use run_output::Fault;
use run_program::{Request, print, print_memory, request_of};
use run_report::{BarSink, Listener, RunReport};
use showing::show_run;
use std::env;
use std::io::{IsTerminal, Stderr, Stdin, Stdout};
use std::process::ExitCode;
use std::sync::Wait;
use std::thread::Threads;
use words::{Color, Progress, RunWords, run_words_of, show_words_of};

const VERSION: &str = "nextest_run 0.0.0";

const COMMANDS: [&str; 6] = ["run", "live", "replay", "show", "progress", "generate"];

const HELP: &str = "The execution engine of a test runner

Usage: nextest_run run [OPTIONS] < PLAN
       nextest_run live < PLAN
       nextest_run replay < INPUT
       nextest_run show [OPTIONS] < LINES
       nextest_run progress WIDTH < INPUT
       nextest_run generate TESTS

  run              runs the tests of PLAN, each as a process of its own, and ends those that take too long; each line
                   after PLAN is a signal or a key that it hears, as {\"turn\":\"signal\",\"name\":\"int\"};
                   standard error tells a person of the run as it goes
  live             the same, but it sends no signal, hears none, and waits for each test
  replay           carries out the run that INPUT tells
  show             tells a person, on standard output, of the run that wrote LINES, and ends with its status
  progress WIDTH   carries out INPUT too, and shows its progress on a terminal of WIDTH columns, from 1 to 1000
  generate TESTS   carries out the run of a plan of TESTS tests, from 1 to 20000, that it makes up, and sums it up
  -h, --help       prints this, also after a command
  -V, --version    prints the version

OPTIONS of run, and but for --record, --junit and --show-progress of show, each at most once, with its value behind a
blank or =, and what stands where it isn't given:

  --record FILE                  records the run in a new file, a store that nextest_store plays
  --junit FILE                   writes the finished tests and setup scripts to a file of JUnit's form, once the run
                                 is over
  --status-level LEVEL           none, fail, retry, slow, leak, pass, skip or all: down to what a line is shown as
                                 the run goes on (pass)
  --final-status-level LEVEL     none, fail, flaky, slow, skip, leak, pass or all: down to what a finished test is
                                 shown again at the end (fail)
  --failure-output WHEN          immediate, immediate-final, final or never: when the output of a test that failed
                                 is shown (immediate)
  --success-output WHEN          the same of a test that passed (never)
  --color WHEN                   auto, always or never; auto: where standard error, of show standard output, is a
                                 terminal, and the environment has no NO_COLOR (auto)
  --show-progress WHAT           bar, none or auto: a bar of what runs, drawn ten times a second; auto: where standard
                                 error is a terminal, and standard output is none (auto); COLUMNS is its width (80)

PLAN is one line, a JSON object: each of its tests has a command. So many run side by side as its \"threads\" say.
Two tests, of which the second fails:

  {\"run_id\":\"00000000-0000-4000-8000-000000000001\",\"threads\":2,\"tests\":[\
    {\"binary\":\"b\",\"name\":\"says\",\"command\":[\"echo\",\"hi\"]},\
    {\"binary\":\"b\",\"name\":\"fails\",\"command\":[\"sh\",\"-c\",\"exit 3\"]}]}

INPUT says what happened in a run: replay starts no child. That a child is to be started is a line of its
output, and that one started or ended is a line of INPUT. The first line is the plan, each later one a turn.
A run of one test that passes:

  {\"capture\":\"none\",\"run_id\":\"00000000-0000-4000-8000-000000000001\",\
    \"tests\":[{\"binary\":\"b\",\"command\":[\"true\"],\"name\":\"t\"}]}
  {\"turn\":\"begin\"}
  {\"turn\":\"admit\"}
  {\"turn\":\"deliver\"}
  {\"turn\":\"started\",\"unit\":0,\"pid\":100}
  {\"turn\":\"exit\",\"unit\":0,\"code\":0}
  {\"turn\":\"decide\",\"unit\":0,\"word\":0}
  {\"turn\":\"deliver\"}
  {\"turn\":\"end\"}

Either has at most 16,777,216 bytes. Standard output gets the lines of the events as they are told, then those of
the asks, then the outcome or the fault. Of progress it gets the text of the display at each tick in place of the
lines of events and asks. Standard error says in a line what was wrong, and where.

Exit status:
    0   every test passed
    2   the words are wrong
    3   a line is no plan or no turn
    4   there was no test to run
    5   the plan breaks a rule
    6   a turn is not enabled
    7   a third shutdown signal came
    8   the run is not over after the last line
    9   a write failed
   10   a read failed
   11   memory was wanting
   12   the input is too long
   13   what the workers say is not what the run says
  100   a test failed, or the run was cancelled
  105   a setup script failed, or ended the run

docs/FORMATS.md of the repository has the formats of all lines.";

const NO_MEMORY: &str = "nextest_run: error: memory was wanting";

// Says on standard error how the program ended, but of success: nothing where memory is wanting for that.
fn say(rt: &HostRuntime, words: Option<&[String]>, status: u8, seen: Seen) {
    let _ = match explain(rt.alloc(), words, status, seen) {
        Ok(text) => eprint!(rt; "{text}"),
        Err(_) if status == 11 => eprintln!(rt; "{NO_MEMORY}"),
        Err(_) => Ok(()),
    };
}

// Says that memory was wanting before the words were known, and answers the status of that.
fn no_memory(rt: &HostRuntime) -> u8 {
    let _ = eprintln!(rt; "{NO_MEMORY}");
    print_memory(rt)
}

// Says how a run of these words ended, and answers the status.
fn end_ran(
    rt: &HostRuntime,
    words: Option<&[String]>,
    source: &KeptSource<StdSource<Stdin>>,
    ran: Ran<LastLine<StdSink<Stdout>>>,
) -> u8 {
    let Ran { status, sink } = ran;
    let (input, last) = (source.bytes(), sink.line());
    say(rt, words, status, Seen { input, last });
    status
}

// Does what the words say, and answers the status. Words of which one is not UTF-8 are run as no words are.
fn run_words<X: Threads + Wait + Sync>(
    threads: &X,
    rt: HostRuntime,
    words: Option<&[String]>,
) -> u8 {
    let alloc = rt.alloc();
    let mut source = KeptSource::new(alloc, StdSource::new(rt.stdin()));
    let sink = LastLine::new(alloc, StdSink::new(rt.stdout()));
    let mut host = StdHost::new(rt);
    let run_words = words.unwrap_or(&[]);
    let (ran, live) = run(threads, alloc, run_words, &mut source, sink, &mut host);
    drop(live);
    end_ran(&rt, words, &source, ran)
}

// Whether the environment asks for no colours.
fn asks_no_color(rt: &HostRuntime) -> bool {
    match env::var(rt, "NO_COLOR") {
        Ok(value) => !value.is_empty(),
        Err(_) => false,
    }
}

// Whether the report has colours, which goes to a terminal or not.
fn has_color(rt: &HostRuntime, color: Color, is_terminal: bool) -> bool {
    match color {
        Color::Auto => is_terminal && !asks_no_color(rt),
        Color::Always => true,
        Color::Never => false,
    }
}

// How wide the terminal is, as the environment says; 80 columns where it doesn't.
fn columns(rt: &HostRuntime) -> u32 {
    match env::var(rt, "COLUMNS") {
        Ok(value) => match value.parse::<u32>() {
            Ok(columns) if columns > 0 => columns.min(1000),
            _ => 80,
        },
        Err(_) => 80,
    }
}

// The width of the bar, if there is one: not where the lines would stand in it.
fn bar_of(rt: &HostRuntime, progress: Progress) -> Option<u32> {
    let is_shown = match progress {
        Progress::Auto => rt.stderr().is_terminal() && !rt.stdout().is_terminal(),
        Progress::Bar => true,
        Progress::None => false,
    };
    if is_shown { Some(columns(rt)) } else { None }
}

// The sink of the lines for programs.
fn lines_of(rt: HostRuntime) -> LastLine<StdSink<Stdout>> {
    LastLine::new(rt.alloc(), StdSink::new(rt.stdout()))
}

// The report to a person, as the words of `run` ask.
fn report_of(rt: HostRuntime, asked: &RunWords<'_>) -> RunReport<BarSink<StdSink<Stderr>>>
    ensures { ⟦<RunReport<BarSink<StdSink<Stderr>>> as Listener>⟧.heard result [] }
{
    let is_terminal = rt.stderr().is_terminal();
    let settings = asked.settings(has_color(&rt, asked.color.unwrap_or(Color::Auto), is_terminal));
    RunReport::new(BarSink::new(StdSink::new(rt.stderr())), settings)
}

// Says how a run of these words ended whose signals were delivered, and answers the status.
fn end_delivered(
    rt: &HostRuntime,
    words: &[String],
    delivered: Delivered<LastLine<StdSink<Stdout>>>,
) -> u8 {
    let Delivered { line, ran, said } = delivered;
    let Ran { status, sink } = ran;
    let (input, last) = (Some(line.as_slice()), sink.line());
    if !said {
        let command = &words[..words.len().min(1)];
        say(rt, Some(command), status, Seen { input, last });
    }
    status
}

// Writes the JUnit file of a run, if one is asked for, says how the run ended, and answers the status.
fn end_listened(
    rt: &HostRuntime,
    words: &[String],
    name: Option<&str>,
    listened: Listened<LastLine<StdSink<Stdout>>, RunReport<BarSink<StdSink<Stderr>>>>,
) -> u8 {
    let Listened {
        mut delivered,
        report,
        junit,
    } = listened;
    drop(report.into_sink().into_sink());
    delivered.ran.status = end_junit(rt, name, junit, delivered.ran.status);
    end_delivered(rt, words, delivered)
}

// Says which word of a command is wrong.
fn say_wrong(rt: &HostRuntime, command: &str, word: &str) {
    let _ = eprintln!(rt;
        "nextest_run: error: unexpected word {word:?} after {command:?}\nnextest_run --help has the words of {command}"
    );
}

// Refuses a word of `run`, and answers the status of that.
fn refuse_run(rt: &HostRuntime, word: &str) -> u8 {
    say_wrong(rt, "run", word);
    let Ran { status, sink } = end_with(rt.alloc(), StdSink::new(rt.stdout()), Fault::Words);
    drop(sink);
    status
}

// Refuses a word of `show`, and answers the status of that.
fn refuse_show(rt: &HostRuntime, word: &str) -> u8 {
    say_wrong(rt, "show", word);
    Fault::Words.status()
}

// Shows the lines of a run as these words ask.
fn show_asked(rt: HostRuntime, asked: &RunWords<'_>) -> u8 {
    let is_terminal = rt.stdout().is_terminal();
    show_run(
        rt,
        asked.settings(has_color(&rt, asked.color.unwrap_or(Color::Auto), is_terminal)),
    )
}

// What words ask for.
enum Asked<'a> {
    Run(RunWords<'a>),
    Other(Other<'a>),
}

// What words ask for that aren't those of `run`, or not as they should be.
enum Other<'a> {
    Show(RunWords<'a>),
    /// This word of `run`, or of `show`, is wrong.
    WrongRun(&'a str),
    WrongShow(&'a str),
    /// Another command.
    Command,
}

// What the words after `run` ask for.
fn run_asked(options: &[String]) -> Asked<'_> {
    match run_words_of(options) {
        Ok(asked) => Asked::Run(asked),
        Err(word) => Asked::Other(Other::WrongRun(word)),
    }
}

// What the words after `show` ask for.
fn other_show(options: &[String]) -> Other<'_> {
    match show_words_of(options) {
        Ok(asked) => Other::Show(asked),
        Err(word) => Other::WrongShow(word),
    }
}

fn asked_of(words: Option<&[String]>) -> Asked<'_> {
    match words {
        Some([command, options @ ..]) if command.as_str() == "run" => run_asked(options),
        Some([command, options @ ..]) if command.as_str() == "show" => {
            Asked::Other(other_show(options))
        }
        _ => Asked::Other(Other::Command),
    }
}

// The words that were given; none where one of them is not UTF-8.
fn given(words: &Option<Vec<String>>) -> Option<&[String]> {
    match words {
        Some(words) => Some(words.as_slice()),
        None => None,
    }
}

// The words that were given, none where one of them is not UTF-8; or the status of what was done in place of a run.
fn words_of(rt: &HostRuntime) -> Result<Option<Vec<String>>, u8> {
    match request_of(rt, &COMMANDS) {
        Request::Help => Err(print(rt, HELP)),
        Request::Version => Err(print(rt, VERSION)),
        Request::NoMemory => Err(no_memory(rt)),
        Request::Run(words) => Ok(Some(words)),
        Request::NoText => Ok(None),
    }
}

// Does what words ask for but `run`, and answers the status.
fn do_other<X: Threads + Wait + Sync>(
    threads: &X,
    rt: HostRuntime,
    words: Option<&[String]>,
    other: Other<'_>,
) -> u8 {
    match other {
        Other::Show(asked) => show_asked(rt, &asked),
        Other::WrongRun(word) => refuse_run(&rt, word),
        Other::WrongShow(word) => refuse_show(&rt, word),
        Other::Command => run_words(threads, rt, words),
    }
}

fn main(rt: HostRuntime) -> ExitCode {
    let words = match words_of(&rt) {
        Ok(words) => words,
        Err(status) => return ExitCode::from(status),
    };
    let words = given(&words);
    let status = match asked_of(words) {
        Asked::Run(asked) => {
            let bar = bar_of(&rt, asked.progress.unwrap_or(Progress::Auto));
            let report = report_of(rt, &asked);
            let junit = junit_of(&rt, asked.junit);
            let listened = run_and_deliver(&rt, rt, lines_of(rt), report, bar, junit, asked.record);
            end_listened(&rt, words.unwrap_or(&[]), asked.junit, listened)
        }
        Asked::Other(other) => do_other(&rt, rt, words, other),
    };
    ExitCode::from(status)
}
