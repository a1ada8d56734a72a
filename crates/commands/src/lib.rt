// One command after the declarations of a recording (document 02, §8), read where it stands: a change, a time, a dump keyword or a comment.
#![tactic(auto)]

ghost use Rattle.std.specs.Prelude.{◌≡◌, ◌≤◌, ◌<◌, Some, None, length, drop};
ghost use Rattle.vcd.specs.Words.{size};
ghost use Rattle.vcd.specs.Syntax.{is_dump};
ghost use Rattle.commands.specs.Reads.{BitsRead, states_at, bits_by, digits_at, code_at, CommentRead, KeywordRead, TimeRead, ScalarRead, ChangeRead, VectorRead, RealRead, CommandRead, end_by};

use words::Word;

// A word that the syntax does not allow, or a text that ends too soon: the place of 432.
#[derive(Clone, Copy)]
pub struct BadWord(pub usize);

// Bits at a place: the number that they write, at most 65,535, and where they end.
#[derive(Clone, Copy)]
pub struct Bits {
    pub value: u16,
    pub to: usize,
}

// The digits of a vector's change: the value, if the named vector may take it, and the place after them.
#[derive(Clone, Copy)]
pub struct Digits {
    pub value: Option<u16>,
    pub to: usize,
}

// A code: the place after it, and whether it is the named one.
#[derive(Clone, Copy)]
pub struct Code {
    pub to: usize,
    pub named: bool,
}

// A command: the place after it, and whether a dump goes on there; a change of the named vector, with its value, the place of the word that holds it and
// the place after it; or the text has no more.
#[derive(Clone, Copy)]
pub enum Command {
    Passed { to: usize, dump: bool },
    Value { value: u16, place: usize, to: usize },
    Ended,
}

// The bits at a place.
fn bits_at(text: &[u8], at: usize) -> Bits
    ensures { BitsRead text.now at result }
{
    let mut value = 0;
    for i in at..text.len() {
        let b = text[i];
        if b < b'0' || b > b'1' {
            return Bits { value, to: i };
        }
        value = (u32::from(value) * 2 + u32::from(b - b'0')).min(65535) as u16;
    }
    Bits {
        value,
        to: text.len().max(at),
    }
}

// Digits that are not all bits, so that the named vector may not take the value.
fn states_at(text: &[u8], at: usize) -> Option<Digits>
    ensures { result ≡ states_at text.now at }
{
    let to = words::word_in(text, at, words::is_state)?;
    Some(Digits { value: None, to })
}

// Digits that are all bits, if there are any.
fn bits_value(at: usize, bits: Bits) -> Option<Digits>
    ensures { result ≡ bits_by at bits }
{
    if bits.to == at {
        return None;
    }
    let value = (bits.value < 65535).then_some(bits.value);
    Some(Digits { value, to: bits.to })
}

// The digits of a vector's change from a place on.
fn digits_at(text: &[u8], at: usize) -> Option<Digits>
    ensures { result ≡ digits_at text.now at }
{
    let bits = bits_at(text, at);
    if bits.to < text.len() && !words::is_parting(text[bits.to]) {
        return states_at(text, at);
    }
    bits_value(at, bits)
}

// The code at a place.
#[inline]
pub fn code_at(text: &[u8], at: usize, code: &[u8]) -> Option<Code>
    ensures { result ≡ code_at code.now text.now at }
{
    let to = words::word_in(text, at, words::is_graphic)?;
    let w = &text[at..to];
    if words::same_bytes(w, b"$end") {
        return None;
    }
    Some(Code {
        to,
        named: words::same_bytes(w, code),
    })
}

// A change whose value, at `place`, was read: its code is due.
fn change_at(
    text: &[u8],
    at: usize,
    code: &[u8],
    dump: bool,
    value: u16,
    place: usize,
) -> Result<Command, BadWord>
    ensures { ChangeRead code.now text.now at dump (Some value) place result }
{
    let from = words::next_start(text, at).ok_or(BadWord(text.len()))?.from;
    let found = code_at(text, from, code).ok_or(BadWord(from))?;
    if !found.named {
        return Ok(Command::Passed { to: found.to, dump });
    }
    Ok(Command::Value {
        value,
        place,
        to: found.to,
    })
}

// The same of a value that the named vector may not take. It stands apart, so that the scan for the code of any other has no option to keep.
fn unfit_at(
    text: &[u8],
    at: usize,
    code: &[u8],
    dump: bool,
    place: usize,
) -> Result<Command, BadWord>
    ensures { ChangeRead code.now text.now at dump None place result }
{
    let from = words::next_start(text, at).ok_or(BadWord(text.len()))?.from;
    let found = code_at(text, from, code).ok_or(BadWord(from))?;
    if !found.named {
        return Ok(Command::Passed { to: found.to, dump });
    }
    Err(BadWord(place))
}

// A vector's change at its first byte.
fn vector_at(text: &[u8], from: usize, code: &[u8], dump: bool) -> Result<Command, BadWord>
    requires { from < length text.now }
    ensures { VectorRead code.now text.now from dump result }
{
    let digits = digits_at(text, from + 1).ok_or(BadWord(from))?;
    match digits.value {
        Some(value) => change_at(text, digits.to, code, dump, value, from),
        None => unfit_at(text, digits.to, code, dump, from),
    }
}

// A real change at its first byte.
fn real_at(text: &[u8], from: usize, code: &[u8], dump: bool) -> Result<Command, BadWord>
    ensures { RealRead code.now text.now from dump result }
{
    let to = words::word_end(text, from);
    unfit_at(text, to, code, dump, from)
}

// A time at its first byte.
fn time_at(text: &[u8], from: usize, dump: bool) -> Result<Command, BadWord>
    requires { from < length text.now }
    ensures { TimeRead text.now from dump result }
{
    if dump {
        return Err(BadWord(from));
    }
    let to = words::word_in(text, from + 1, words::is_decimal).ok_or(BadWord(from))?;
    Ok(Command::Passed { to, dump: false })
}

// A scalar change at its digit.
fn scalar_at(text: &[u8], from: usize, code: &[u8], dump: bool) -> Result<Command, BadWord>
    requires { from < length text.now }
    ensures { ScalarRead code.now text.now from dump result }
{
    let found = code_at(text, from + 1, code).ok_or(BadWord(from))?;
    if found.named {
        return Err(BadWord(from));
    }
    Ok(Command::Passed { to: found.to, dump })
}

// Whether a word is a keyword that opens a dump.
#[tactic(auto, unfolding(vcd::specs::Syntax::is_dump))]
fn is_dump(w: &[u8]) -> bool
    ensures { result ≡ is_dump w.now }
{
    words::same_bytes(w, b"$dumpvars")
        || words::same_bytes(w, b"$dumpall")
        || words::same_bytes(w, b"$dumpoff")
        || words::same_bytes(w, b"$dumpon")
}

// A comment after its keyword.
fn comment_at(text: &[u8], at: usize) -> Result<Command, BadWord>
    ensures { CommentRead text.now at result }
{
    let to = words::after_end(text, at).ok_or(BadWord(text.len()))?;
    Ok(Command::Passed { to, dump: false })
}

// A keyword at its first byte.
fn keyword_at(text: &[u8], from: usize, dump: bool) -> Result<Command, BadWord>
    requires { (from < length text.now) × (0 < size (drop from text.now)) }
    ensures { KeywordRead text.now from dump result }
{
    let to = words::word_end(text, from);
    let w = &text[from..to];
    if dump {
        if words::same_bytes(w, b"$end") {
            return Ok(Command::Passed { to, dump: false });
        }
        return Err(BadWord(from));
    }
    if is_dump(w) {
        return Ok(Command::Passed { to, dump: true });
    }
    if words::same_bytes(w, b"$comment") {
        return comment_at(text, to);
    }
    Err(BadWord(from))
}

// Where the text ends.
fn end_of(dump: bool, length: usize) -> Result<Command, BadWord>
    ensures { result ≡ end_by dump length }
{
    if dump {
        return Err(BadWord(length));
    }
    Ok(Command::Ended)
}

// The command from a place on.
pub fn command_at(text: &[u8], at: usize, code: &[u8], dump: bool) -> Result<Command, BadWord>
    ensures { CommandRead code.now text.now at dump result }
{
    let Some(Word { from, first }) = words::next_start(text, at) else {
        return end_of(dump, text.len());
    };
    match first {
        b'b' | b'B' => vector_at(text, from, code, dump),
        b'#' => time_at(text, from, dump),
        b'$' => keyword_at(text, from, dump),
        b'r' | b'R' => real_at(text, from, code, dump),
        _ if words::is_state(first) => scalar_at(text, from, code, dump),
        _ => Err(BadWord(from)),
    }
}
