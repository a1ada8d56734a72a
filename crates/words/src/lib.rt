// The words of a recording's text (document 02, §8): where the next one begins, where it ends, and whether each byte of it passes a test.
#![tactic(auto)]

ghost use Rattle.std.specs.Prelude.{◌≡◌, ◌+◌, drop};
ghost use Rattle.lists.specs.Bytes.{same};
ghost use Rattle.vcd.specs.Words.{parting, size};
ghost use Rattle.vcd.specs.Syntax.{is_graphic, is_state, is_decimal};
ghost use Rattle.words.specs.Places.{Run, next_start, WordIn, TextEnds};

// Where a word begins, and its first byte.
#[derive(Clone, Copy)]
pub struct Word {
    pub from: usize,
    pub first: u8,
}

// Whether a byte parts words. By `||` and not by `matches!`, of which LLVM makes a row of branches in place of one bit test; so too below.
pub fn is_parting(b: u8) -> bool
    ensures { result ≡ parting b }
{
    b == b' ' || b == b'\t' || b == b'\r' || b == b'\n'
}

// Whether a byte may stand in a code.
pub fn is_graphic(b: u8) -> bool
    ensures { result ≡ is_graphic b }
{
    b.is_ascii_graphic()
}

// Whether a byte is a digit of a vector: 0, 1, x or z, in either case.
pub fn is_state(b: u8) -> bool
    ensures { result ≡ is_state b }
{
    b == b'0' || b == b'1' || b == b'x' || b == b'X' || b == b'z' || b == b'Z'
}

// Whether a byte is a digit of a time.
pub fn is_decimal(b: u8) -> bool
    ensures { result ≡ is_decimal b }
{
    b.is_ascii_digit()
}

// Where the bytes that pass a test end, from a place on.
fn run_end<F: Fn(u8) -> bool>(text: &[u8], at: usize, passes: F) -> usize
    requires { F.IsAlwaysCallable passes }
    ensures { Run (F.post passes) text.now at result }
{
    for i in at..text.len() {
        if !passes(text[i]) {
            return i;
        }
    }
    text.len().max(at)
}

// The first word that begins at a place or after it.
fn start_at(text: &[u8], at: usize) -> Option<Word>
    ensures { result ≡ next_start text.now at }
{
    let from = run_end(text, at, is_parting);
    let first = *text.get(from)?;
    Some(Word { from, first })
}

// The text and the place in it where the reader stands. Document 01 names this form.
#[derive(Clone, Copy)]
pub struct Reader<'a> {
    pub text: &'a [u8],
    pub at: usize,
}

impl Reader<'_> {
    // The first word from the reader's place on.
    pub fn next_word(self) -> Option<Word>
        ensures { result ≡ next_start self.entry.text.now self.entry.at }
    {
        start_at(self.text, self.at)
    }
}

// The same, of a text and a place in it that a caller holds apart.
pub fn next_start(text: &[u8], at: usize) -> Option<Word>
    ensures { result ≡ next_start text.now at }
{
    Reader { text, at }.next_word()
}

// Where the word at a place ends.
pub fn word_end(text: &[u8], at: usize) -> usize
    ensures { result ≡ at + size (drop at text.now) }
{
    run_end(text, at, |b| !is_parting(b))
}

// Where the word at a place ends, if it is one or more bytes that pass a test.
pub fn word_in<F: Fn(u8) -> bool>(text: &[u8], at: usize, passes: F) -> Option<usize>
    requires { F.IsAlwaysCallable passes }
    ensures { WordIn (F.post passes) text.now at result }
{
    let to = run_end(text, at, passes);
    if to == at || to < text.len() && !is_parting(text[to]) {
        return None;
    }
    Some(to)
}

// Whether two parts of texts are the same bytes. Byte by byte and not by `==`: words are short, and a call of std's comparison for each of them took
// half as long again.
pub fn same_bytes(a: &[u8], b: &[u8]) -> bool
    ensures { result ≡ same a.now b.now }
{
    if a.len() != b.len() {
        return false;
    }
    for i in 0..a.len() {
        if a[i] != b[i] {
            return false;
        }
    }
    true
}

// The place after the first $end from a place on.
pub fn after_end(text: &[u8], at: usize) -> Option<usize>
    ensures { TextEnds text.now at result }
{
    let mut p = at;
    while let Some(word) = next_start(text, p) {
        p = word_end(text, word.from);
        if same_bytes(&text[word.from..p], b"$end") {
            return Some(p);
        }
    }
    None
}
