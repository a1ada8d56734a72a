// The declarations of a recording (document 02, §8), up to the place where its commands begin.
#![tactic(auto)]

ghost use Rattle.std.specs.Prelude.{◌≡◌};
ghost use Rattle.vcd.specs.Syntax.{is_declaration};
ghost use Rattle.declarations.specs.Reads.{WordRead, CodeRead, VariableRead, TextRead, VariableEnds, DefinitionsEnd, DeclarationRead, BodyRead};

use commands::{BadWord, Code};

// A declaration: the place after it, and whether the named vector is declared by then; or, after $enddefinitions, the place where the commands begin.
#[derive(Clone, Copy)]
pub enum Declaration {
    On { to: usize, declared: bool },
    Body(usize),
}

// A word of $var before its code, which may not be $end: the place after it.
fn plain_word(text: &[u8], at: usize) -> Result<usize, BadWord>
    ensures { WordRead text.now at result }
{
    let from = words::next_start(text, at).ok_or(BadWord(text.len()))?.from;
    let to = words::word_end(text, from);
    if words::same_bytes(&text[from..to], b"$end") {
        return Err(BadWord(from));
    }
    Ok(to)
}

// The code of $var.
fn variable_code(text: &[u8], at: usize, code: &[u8]) -> Result<Code, BadWord>
    ensures { CodeRead code.now text.now at result }
{
    let from = words::next_start(text, at).ok_or(BadWord(text.len()))?.from;
    commands::code_at(text, from, code).ok_or(BadWord(from))
}

// The three words after $var.
fn variable_at(text: &[u8], at: usize, code: &[u8]) -> Result<Code, BadWord>
    ensures { VariableRead code.now text.now at result }
{
    let second = plain_word(text, at)?;
    let third = plain_word(text, second)?;
    variable_code(text, third, code)
}

// The text of a declaration up to its $end.
fn text_at(text: &[u8], at: usize, declared: bool) -> Result<Declaration, BadWord>
    ensures { TextRead text.now at declared result }
{
    let to = words::after_end(text, at).ok_or(BadWord(text.len()))?;
    Ok(Declaration::On { to, declared })
}

// What comes after $var.
fn variable_end(text: &[u8], at: usize, code: &[u8], declared: bool) -> Result<Declaration, BadWord>
    ensures { VariableEnds code.now text.now at declared result }
{
    let found = variable_at(text, at, code)?;
    text_at(text, found.to, declared || found.named)
}

// What comes after $enddefinitions, which is at `from` and ends at `at`.
fn definitions_end(
    text: &[u8],
    from: usize,
    at: usize,
    declared: bool,
) -> Result<Declaration, BadWord>
    ensures { DefinitionsEnd text.now from at declared result }
{
    if !declared {
        return Err(BadWord(from));
    }
    let to = words::after_end(text, at).ok_or(BadWord(text.len()))?;
    Ok(Declaration::Body(to))
}

// Whether a word opens a declaration of which nothing but its $end counts.
#[tactic(auto, unfolding(vcd::specs::Syntax::is_declaration))]
fn is_declaration(w: &[u8]) -> bool
    ensures { result ≡ is_declaration w.now }
{
    words::same_bytes(w, b"$comment")
        || words::same_bytes(w, b"$date")
        || words::same_bytes(w, b"$scope")
        || words::same_bytes(w, b"$timescale")
        || words::same_bytes(w, b"$upscope")
        || words::same_bytes(w, b"$version")
}

// The declaration from a place on.
fn declaration_at(
    text: &[u8],
    at: usize,
    code: &[u8],
    declared: bool,
) -> Result<Declaration, BadWord>
    ensures { DeclarationRead code.now text.now at declared result }
{
    let from = words::next_start(text, at).ok_or(BadWord(text.len()))?.from;
    let to = words::word_end(text, from);
    let w = &text[from..to];
    if words::same_bytes(w, b"$var") {
        return variable_end(text, to, code, declared);
    }
    if words::same_bytes(w, b"$enddefinitions") {
        return definitions_end(text, from, to, declared);
    }
    if is_declaration(w) {
        return text_at(text, to, declared);
    }
    Err(BadWord(from))
}

// The place after all declarations. Compiled alone, as the pass over the commands is, so that the text and the places stay in registers.
#[inline(never)]
pub fn body_of(text: &[u8], code: &[u8]) -> Result<usize, BadWord>
    ensures { BodyRead code.now text.now result }
{
    let mut declared = false;
    let mut p = 0;
    loop {
        match declaration_at(text, p, code, declared)? {
            Declaration::On {
                to,
                declared: by_then,
            } => {
                p = to;
                declared = by_then;
            }
            Declaration::Body(to) => return Ok(to),
        }
    }
}
