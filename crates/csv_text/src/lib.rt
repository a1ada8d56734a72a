// Comma-separated text by RFC 4180, with LF beside CR LF: where a field ends, how a record splits into fields, and a field without its quote
// marks.
#![tactic(auto)]

ghost use Rattle.std.specs.Prelude.{◌≡◌, ◌+◌, ◌<◌, length, drop};
ghost use Rattle.limits.specs.Limits.{most_field_bytes};
ghost use Rattle.csv_text.specs.Grammar.{is_text, plain, inside_quotes, after_quote, extent, line_feed, following, field, record_of, records, first_ending, alike, width};
ghost use Rattle.csv_text.specs.Place.{close_at, found_at, split_of, no_places, note, part_of, field_at, inner};

use limits::MOST_FIELD_BYTES;

// How a record ends.
#[derive(Clone, Copy, PartialEq, Eq)]
pub enum Ending {
    CrLf,
    Lf,
    EndOfText,
}

// The end of a field, by what follows it. Three cases, so neither an Option nor a Result.
#[derive(Clone, Copy)]
pub enum Found {
    Comma(usize),
    Ends(Ending, usize),
    Broken,
}

// A record: the bounds of its first eight fields, the count of all its fields, where the next record starts, and how it ends. A record with a
// broken field has no ending: only the fields before that one are noted, and `next` is where it starts. The bounds are two arrays, as `split_of`
// of specs/ gives them.
#[derive(Drop)]
pub struct Split {
    pub starts: [usize; 8],
    pub ends: [usize; 8],
    pub count: usize,
    pub next: usize,
    pub ending: Option<Ending>,
}

// Whether b may stand in a plain field.
fn is_text(b: u8) -> bool
    ensures { result ≡ is_text b }
{
    !matches!(b, b'"' | b',' | b'\r' | b'\n')
}

// Inside quotes: the end of the field, if it comes within `room` bytes. Each byte takes one of them, so the calls are at most
// MOST_FIELD_BYTES deep. Document 01 names this form for the two functions.
#[cycle(after_quote_inside_quotes)]
fn inside_quotes(text: &[u8], at: usize, room: usize) -> Option<usize>
    ensures { result ≡ close_at at room (inside_quotes (drop at text.now)) }
{
    if at >= text.len() {
        return None;
    }
    if room == 0 {
        return None;
    }
    if text[at] == b'"' {
        after_quote(text, at + 1, room - 1)
    } else {
        inside_quotes(text, at + 1, room - 1)
    }
}

// After a quote mark of a quoted field: a second mark hands back to `inside_quotes`, and otherwise the first one closed the field.
#[cycle(after_quote_inside_quotes)]
fn after_quote(text: &[u8], at: usize, room: usize) -> Option<usize>
    ensures { result ≡ close_at at room (after_quote (drop at text.now)) }
{
    if at >= text.len() {
        return Some(at);
    }
    if text[at] == b'"' {
        if room == 0 {
            return None;
        }
        inside_quotes(text, at + 1, room - 1)
    } else {
        Some(at)
    }
}

// The end of the run of text bytes that starts at `at`.
#[tactic(auto, using(crate::proofs::Fields::run_over, crate::proofs::Fields::run_stops, crate::proofs::Fields::run_on))]
fn plain_end(text: &[u8], at: usize) -> usize
    ensures { result ≡ at + plain (drop at text.now) }
{
    for i in at..text.len() {
        if !is_text(text[i]) {
            return i;
        }
    }
    at.max(text.len())
}

// The end of the field that starts at `at`, if it has at most MOST_FIELD_BYTES bytes as written.
#[tactic(auto, using(crate::proofs::Fields::close_quoted, crate::proofs::Fields::close_plain))]
fn field_close(text: &[u8], at: usize) -> Option<usize>
    ensures { result ≡ close_at at most_field_bytes (extent (drop at text.now)) }
{
    if at < text.len() && text[at] == b'"' {
        return inside_quotes(text, at + 1, MOST_FIELD_BYTES - 1);
    }
    let end = plain_end(text, at);
    (end - at <= MOST_FIELD_BYTES).then_some(end)
}

// What follows a field that ends at `end`: a comma, or the end of its record. A CR ends the record only if an LF comes next.
#[tactic(auto, using(crate::proofs::Fields::found_following))]
pub fn follow(text: &[u8], end: usize) -> Found
    ensures { result ≡ found_at end (following 0 (drop end text.now)) }
{
    if end >= text.len() {
        return Found::Ends(Ending::EndOfText, end);
    }
    match text[end] {
        b',' => Found::Comma(end),
        b'\r' if end + 1 < text.len() && text[end + 1] == b'\n' => Found::Ends(Ending::CrLf, end),
        b'\n' => Found::Ends(Ending::Lf, end),
        _ => Found::Broken,
    }
}

// The end of the field that starts at `at`, by what follows it.
#[tactic(auto, using(crate::proofs::Fields::find_never, crate::proofs::Fields::find_at))]
fn field_end(text: &[u8], at: usize) -> Found
    ensures { result ≡ found_at at (field (drop at text.now)) }
{
    match field_close(text, at) {
        Some(end) => follow(text, end),
        None => Found::Broken,
    }
}

impl Ending {
    // The bytes that an ending takes.
    pub fn width(self) -> usize
        ensures { result ≡ width self }
    {
        match self {
            Ending::CrLf => 2,
            Ending::Lf => 1,
            Ending::EndOfText => 0,
        }
    }

    // Whether a record may end in the way `own` in a text whose first record ends in this way: only the last may end with the text.
    pub fn allows(self, own: Ending) -> bool
        ensures { result ≡ alike self own }
    {
        own == Ending::EndOfText || own == self
    }
}

// Notes the bounds of field i, if it is one of the first eight.
fn note_bounds(starts: &mut [usize; 8], ends: &mut [usize; 8], i: usize, from: usize, to: usize)
    ensures { (starts.new ≡ note starts.old i from) × (ends.new ≡ note ends.old i to) }
{
    if i < 8 {
        starts[i] = from;
        ends[i] = to;
    }
}

// The record that starts at `at`, in one scan.
pub fn scan_record(text: &[u8], at: usize) -> Split
    ensures { result ≡ split_of no_places no_places 0 at (record_of (drop at text.now)) }
{
    let mut starts = [0usize; 8];
    let mut ends = [0usize; 8];
    let mut count: usize = 0;
    let mut p = at;
    loop {
        match field_end(text, p) {
            Found::Comma(e) => {
                note_bounds(&mut starts, &mut ends, count, p, e);
                count += 1;
                p = e + 1;
            }
            Found::Ends(x, e) => {
                note_bounds(&mut starts, &mut ends, count, p, e);
                return Split {
                    starts,
                    ends,
                    count: count + 1,
                    next: e + x.width(),
                    ending: Some(x),
                };
            }
            Found::Broken => {
                return Split {
                    starts,
                    ends,
                    count,
                    next: p,
                    ending: None,
                };
            }
        }
    }
}

// How the first record of a text ends. That of an empty text, or of a first record with a broken field, is the end of the text.
#[tactic(auto, using(crate::proofs::Splits::first_split))]
pub fn first_ending(text: &[u8]) -> Ending
    ensures { result ≡ first_ending (records text.now) }
{
    let split = scan_record(text, 0);
    split.ending.unwrap_or(Ending::EndOfText)
}

// The part of the text between two bounds, no copy. It is empty where they do not lie in the text, or not in order.
pub fn part(text: &[u8], from: usize, to: usize) -> &[u8]
    ensures { result.now ≡ part_of text.now from to }
{
    text.get(from..to).unwrap_or_default()
}

impl Split {
    // The field finder: field i of the record as written, a part of its text, by the bounds that `scan_record` noted.
    pub fn field<'a>(&self, text: &'a [u8], i: usize) -> &'a [u8]
        ensures { result.now ≡ field_at text.now self.now.starts self.now.ends i }
    {
        if i >= 8 {
            return &[];
        }
        part(text, self.starts[i], self.ends[i])
    }
}

// A field without its quote marks, a part of the text. Doubled marks stay as they are.
#[tactic(auto, using(crate::proofs::Quotes::inner_is))]
pub fn inner_part(w: &[u8]) -> &[u8]
    ensures { result.now ≡ inner w.now }
{
    match w {
        [b'"', inner @ .., _] => inner,
        [b'"', ..] => &[],
        _ => w,
    }
}
