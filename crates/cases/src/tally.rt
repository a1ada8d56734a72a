// What the cases gave: a line for each, and how many were wrong.
use pieces::answers::Answer;
use pieces::part;
use pieces::room::Room;
use std::fmt;

// More bytes than an answer has in words.
const MOST_BYTES: usize = 80;

// Both answers to a case, and whether what was lent holds what it should.
#[derive(Clone, Copy)]
pub struct Answers {
    pub got: Answer,
    pub checked: Answer,
    pub kept: bool,
}

#[derive(Clone, Copy, Default)]
pub struct Tally {
    pub cases: u64,
    pub wrong: u64,
}

// An answer in words.
#[derive(Clone, Copy)]
struct Words(Answer);

impl fmt::Display for Words {
    fn fmt<W: fmt::Write>(&self, f: &mut fmt::Formatter<W>) -> fmt::Result {
        match self.0 {
            Ok(accepted) => write!(f, "{accepted}"),
            Err(refusal) => write!(f, "{refusal}"),
        }
    }
}

fn is_worded(answer: Answer, wanted: &[u8]) -> bool {
    let mut places = [0u8; MOST_BYTES];
    let mut words = Room::new(&mut places);
    words.put(Words(answer));
    let count = words.count();
    part(&places, 0, count) == wanted
}

// What cannot be written is left out.
fn say<R: Print>(rt: &R, bytes: &[u8]) {
    let _ = rt.write_all(bytes);
}

fn say_answer<R: Print>(rt: &R, answer: Answer) {
    let _ = rt.print(Words(answer));
}

fn say_wrong<R: Print>(rt: &R, answers: Answers, wanted: &[u8]) {
    say(rt, b" WRONG, should be ");
    say(rt, wanted);
    say(rt, b", the checker says ");
    say_answer(rt, answers.checked);
    if !answers.kept {
        say(rt, b", columns or bytes differ");
    }
}

impl Tally {
    // One more case: its name, the answers, and the one that both should be.
    pub fn tell<R: Print>(&mut self, rt: &R, name: &[u8], answers: Answers, wanted: &[u8]) {
        say(rt, name);
        say(rt, b": ");
        say_answer(rt, answers.got);
        self.cases = self.cases.saturating_add(1);
        let is_right = answers.kept && answers.got == answers.checked;
        if !is_right || !is_worded(answers.got, wanted) {
            say_wrong(rt, answers, wanted);
            self.wrong = self.wrong.saturating_add(1);
        }
        say(rt, b"\n");
    }
}
