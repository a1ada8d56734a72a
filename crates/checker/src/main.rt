// The checking program: a line on standard input, blocks.csv and loops.csv of the folder it runs in, and one line out.
#![tactic(auto)]

ghost use Rattle.checker.specs.Program.{LoopsJudged, FilesJudged, InputJudged, Ran};
ghost use Rattle.std.specs.Prelude.{pos};
ghost use Rattle.streams.specs.Calls.{WroteTo};

use limits::MOST_TEXT_BYTES;
use report::{Line, Refusal};
use stages::{Files, Wanted};

const STDIN_FILENO: i32 = 0;

const STDOUT_FILENO: i32 = 1;

const STDERR_FILENO: i32 = 2;

// One byte more than the longest good setting, and than the longest good text: that byte tells that there is more.
const SETTING_ROOM: usize = 16;

const TEXT_ROOM: usize = MOST_TEXT_BYTES + 1;

// After good blocks. The loops file is opened only where it decides the outcome.
fn with_loops(rt: &HostRuntime, setting: &[u8], blocks: &[u8]) -> Result<i64, Refusal>
    ensures { LoopsJudged setting.now blocks.now result }
{
    let outcome = stages::outcome_of(setting, Files::Blocks, blocks, b"");
    let Wanted::Loops = stages::wanted_by(outcome) else {
        return outcome;
    };
    let mut text = [0u8; TEXT_ROOM];
    let Some(len) = streams::read_file(rt, b"loops.csv", &mut text) else {
        return outcome;
    };
    let loops = streams::prefix(&text, len);
    stages::outcome_of(setting, Files::Both, blocks, loops)
}

// After the setting. The blocks file is opened only where it decides the outcome.
fn with_files(rt: &HostRuntime, setting: &[u8]) -> Result<i64, Refusal>
    ensures { FilesJudged setting.now result }
{
    let outcome = stages::outcome_of(setting, Files::Neither, b"", b"");
    let Wanted::Blocks = stages::wanted_by(outcome) else {
        return outcome;
    };
    let mut text = [0u8; TEXT_ROOM];
    let Some(len) = streams::read_file(rt, b"blocks.csv", &mut text) else {
        return outcome;
    };
    with_loops(rt, setting, streams::prefix(&text, len))
}

// An input that cannot be read says nothing.
fn judged(rt: &HostRuntime) -> Result<i64, Refusal>
    ensures { InputJudged result }
{
    let mut line = [0u8; SETTING_ROOM];
    let len = streams::read_all(rt, STDIN_FILENO, &mut line).unwrap_or(0);
    with_files(rt, streams::prefix(&line, len))
}

fn print(rt: &HostRuntime, line: &Line) -> bool
    ensures { WroteTo (pos 1) line.now result }
{
    streams::write_all(rt, STDOUT_FILENO, line.text())
}

// Prints the line, or says on standard error that it cannot. Returns whether the line is written.
fn run(rt: &HostRuntime) -> bool
    ensures { Ran result }
{
    let written = print(rt, &report::line_of(judged(rt)));
    if !written {
        streams::write_all(rt, STDERR_FILENO, b"cannot write the reply\n");
    }
    written
}

fn main(rt: HostRuntime) {
    run(&rt);
}
