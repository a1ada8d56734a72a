// One reply struct for every answer of the C library: its four numbers from each answer.
#![tactic(auto)]

ghost use Rattle.std.specs.Prelude.{◌≡◌, ◌<◌, ◌^◌};
ghost use Rattle.certificate.specs.Answers.{table_meaning};
ghost use Rattle.shortest.specs.Answers.{shortest_meaning};
ghost use Rattle.walk.specs.Reply.{meaning};
ghost use Rattle.solver.specs.Answers.{solve_meaning};
ghost use Rattle.writer.specs.Answers.{mps_meaning};
ghost use Rattle.tally.specs.Tally.{meaning as tallyMeaning};
ghost use Rattle.recordings.specs.Answers.{vcd_meaning};
ghost use Rattle.replies.specs.Fields.{acceptance, refusing, of_tables, of_count, of_walk, ending_number, of_reading, PlaceFits, ValueFits};

use certificate::TableFault;
use csv_text::Ending;
use nesting::Refusal;
use recordings::VcdFault;
use shortest::ShortestFault;
use solver::SolveFault;
use tables::{ReadFault, Rows};
use tally::TallyFault;
use walk::{WalkFault, Walked};
use writer::MpsFault;

// number 0: accepted, with value the row count, the bound, the cost, the step count, the count of places filled or the length, and more the line end of a text's first record (0 CR LF, 1 LF, 2 the
// end of the text) or the steps of a walk. Else the number and place of a refusal.
#[repr(C)]
#[derive(Clone, Copy, PartialEq, Eq)]
pub struct Reply {
    pub number: u32,
    pub place: u32,
    pub value: i64,
    pub more: u64,
}

fn accepted(value: i64, more: u64) -> Reply
    ensures { result ≡ acceptance value more }
{
    Reply {
        number: 0,
        place: 0,
        value,
        more,
    }
}

// A refusal of any number, at any place.
pub fn refusal_reply(number: u32, place: usize) -> Reply
    requires { place < 2 ^ 32 }
    ensures { result ≡ refusing number place }
{
    Reply {
        number,
        place: place as u32,
        value: 0,
        more: 0,
    }
}

fn refused_as(refusal: Refusal) -> Reply
    requires { refusal.place < 2 ^ 32 }
    ensures { result ≡ refusing refusal.number refusal.place }
{
    refusal_reply(refusal.number, refusal.place)
}

pub fn table_reply(answer: Result<i64, TableFault>) -> Reply
    requires { PlaceFits (of_tables (table_meaning answer)) }
    ensures { result ≡ of_tables (table_meaning answer) }
{
    match answer {
        Ok(bound) => accepted(bound, 0),
        Err(fault) => refused_as(TableFault::refusal(fault)),
    }
}

pub fn shortest_reply(answer: Result<i64, ShortestFault>) -> Reply
    requires { PlaceFits (of_tables (shortest_meaning answer)) }
    ensures { result ≡ of_tables (shortest_meaning answer) }
{
    match answer {
        Ok(lower) => accepted(lower, 0),
        Err(fault) => refused_as(ShortestFault::refusal(fault)),
    }
}

pub fn solve_reply(answer: Result<i64, SolveFault>) -> Reply
    requires { PlaceFits (of_tables (solve_meaning answer)) }
    ensures { result ≡ of_tables (solve_meaning answer) }
{
    match answer {
        Ok(optimum) => accepted(optimum, 0),
        Err(fault) => refused_as(SolveFault::refusal(fault)),
    }
}

pub fn mps_reply(answer: Result<usize, MpsFault>) -> Reply
    requires { PlaceFits (of_count (mps_meaning answer)) × ValueFits (of_count (mps_meaning answer)) }
    ensures { result ≡ of_count (mps_meaning answer) }
{
    match answer {
        Ok(length) => accepted(length as i64, 0),
        Err(fault) => refused_as(MpsFault::refusal(fault)),
    }
}

pub fn walk_reply(answer: Result<Walked, WalkFault>) -> Reply
    requires { PlaceFits (of_walk (meaning answer)) × ValueFits (of_walk (meaning answer)) }
    ensures { result ≡ of_walk (meaning answer) }
{
    match answer {
        Ok(Walked { cost, steps }) => accepted(cost as i64, steps as u64),
        Err(fault) => refused_as(WalkFault::refusal(fault)),
    }
}

pub fn tally_reply(answer: Result<usize, TallyFault>) -> Reply
    requires { PlaceFits (of_count (tallyMeaning answer)) × ValueFits (of_count (tallyMeaning answer)) }
    ensures { result ≡ of_count (tallyMeaning answer) }
{
    match answer {
        Ok(steps) => accepted(steps as i64, 0),
        Err(fault) => refused_as(TallyFault::refusal(fault)),
    }
}

pub fn vcd_reply(answer: Result<usize, VcdFault>) -> Reply
    requires { PlaceFits (of_count (vcd_meaning answer)) × ValueFits (of_count (vcd_meaning answer)) }
    ensures { result ≡ of_count (vcd_meaning answer) }
{
    match answer {
        Ok(count) => accepted(count as i64, 0),
        Err(fault) => refused_as(VcdFault::refusal(fault)),
    }
}

fn ending_number(ending: Ending) -> u64
    ensures { result ≡ ending_number ending }
{
    match ending {
        Ending::CrLf => 0,
        Ending::Lf => 1,
        Ending::EndOfText => 2,
    }
}

pub fn read_reply(answer: Result<Rows, ReadFault>) -> Reply
    requires { PlaceFits (of_reading answer) × ValueFits (of_reading answer) }
    ensures { result ≡ of_reading answer }
{
    match answer {
        Ok(Rows { count, ending }) => accepted(count as i64, ending_number(ending)),
        Err(fault) => refusal_reply(fault.number(), fault.place()),
    }
}
