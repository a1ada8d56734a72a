// A reader of recordings, value change dumps (VCD, IEEE 1364), written from document 02 apart from the library: one declaration, one comment, one dump
// and one change at a time. Where no word is left, the empty one at the text's end is a word that the syntax does not allow, and its place is the
// text's length.
#![tactic(auto)]

use pieces::answers::{Accepted, Answer, Refusal};
use pieces::part;

// No number of a block.
const NO_BLOCK: u16 = 65535;

const END: &[u8] = b"$end";

fn not_allowed(place: usize) -> Refusal {
    Refusal { number: 432, place }
}

// "words parted by space, tab, CR or LF"
fn is_blank(b: u8) -> bool {
    matches!(b, b' ' | b'\t' | b'\r' | b'\n')
}

// "A code is one or more of bytes 33 to 126 and never $end."
fn is_code(bytes: &[u8]) -> bool {
    !bytes.is_empty() && bytes != END && bytes.iter().all(|b| b.is_ascii_graphic())
}

// "# takes one or more of 0 to 9"
fn is_time(bytes: &[u8]) -> bool {
    match bytes {
        [b'#', digits @ ..] => !digits.is_empty() && digits.iter().all(|b| b.is_ascii_digit()),
        _ => false,
    }
}

// One or more digits of a vector, "each 0, 1, x or z in either case".
fn are_bits(digits: &[u8]) -> bool {
    !digits.is_empty()
        && digits
            .iter()
            .all(|&b| matches!(b, b'0' | b'1' | b'x' | b'X' | b'z' | b'Z'))
}

// A number with one digit more.
fn with_bit(number: u16, b: u8) -> Option<u16> {
    let bit = match b {
        b'0' => 0,
        b'1' => 1,
        _ => return None,
    };
    number.checked_mul(2)?.checked_add(bit)
}

// The block that the digits of a vector say.
fn block_of(digits: &[u8]) -> Option<u16> {
    let number = digits
        .iter()
        .try_fold(0u16, |number, &b| with_bit(number, b))?;
    (number != NO_BLOCK).then_some(number)
}

#[derive(Clone, Copy)]
struct Word<'t> {
    from: usize,
    bytes: &'t [u8],
}

// The words of a text from an index on.
#[derive(Clone, Copy)]
struct Words<'t> {
    text: &'t [u8],
    at: usize,
}

impl<'t> Words<'t> {
    // The first byte from an index on that is blank, or that is not; the text's length where there is none.
    fn first_from(&self, from: usize, blank: bool) -> usize {
        for i in from..self.text.len() {
            if is_blank(self.text[i]) == blank {
                return i;
            }
        }
        self.text.len()
    }

    // The next word, empty at the text's end.
    fn next_word(&mut self) -> Word<'t> {
        let from = self.first_from(self.at, false);
        self.at = self.first_from(from, true);
        Word {
            from,
            bytes: part(self.text, from, self.at),
        }
    }

    // The next word, which has to be a code.
    fn next_code(&mut self) -> Result<&'t [u8], Refusal> {
        let word = self.next_word();
        if !is_code(word.bytes) {
            return Err(not_allowed(word.from));
        }
        Ok(word.bytes)
    }

    // Passes over what stands before the next `$end`, and over that.
    fn pass_end(&mut self) -> Result<(), Refusal> {
        for _ in 0..self.text.len() {
            if self.next_word().bytes == END {
                return Ok(());
            }
        }
        Err(not_allowed(self.text.len()))
    }
}

// The declarations of a text, and whether the vector of a code is among those that are read.
#[derive(Drop)]
struct Declarations<'t, 'c> {
    words: Words<'t>,
    code: &'c [u8],
    is_declared: bool,
}

impl Declarations<'_, '_> {
    // "the code is the third word after $var, and a $end among those three is not allowed"
    fn variable(&mut self) -> Result<(), Refusal> {
        for _ in 0..2 {
            let word = self.words.next_word();
            if word.bytes == END {
                return Err(not_allowed(word.from));
            }
        }
        let code = self.words.next_code()?;
        self.is_declared = self.is_declared || code == self.code;
        Ok(())
    }

    // One declaration, and whether it is the last one.
    fn declaration(&mut self) -> Result<bool, Refusal> {
        let keyword = self.words.next_word();
        match keyword.bytes {
            b"$var" => self.variable()?,
            b"$enddefinitions" if self.is_declared => {}
            b"$comment" | b"$date" | b"$scope" | b"$timescale" | b"$upscope" | b"$version" => {}
            _ => return Err(not_allowed(keyword.from)),
        }
        self.words.pass_end()?;
        Ok(matches!(keyword.bytes, b"$enddefinitions"))
    }

    // "Declarations come first, $enddefinitions once and last"
    fn read_all(&mut self) -> Result<(), Refusal> {
        for _ in 0..self.words.text.len() {
            if self.declaration()? {
                return Ok(());
            }
        }
        Err(not_allowed(self.words.text.len()))
    }
}

// The changes of the vector of a code. Its values so far, as many as there is room for, stand in `blocks`, as far as that goes.
#[derive(Drop)]
struct Changes<'t, 'c, 'b> {
    words: Words<'t>,
    code: &'c [u8],
    room: usize,
    blocks: &'b mut [u16],
    count: usize,
    last: Option<u16>,
}

impl Changes<'_, '_, '_> {
    // A value of the named vector, whose word is at `from`. "A repeated value adds no block".
    fn add(&mut self, block: u16, from: usize) -> Result<(), Refusal> {
        if self.last == Some(block) {
            return Ok(());
        }
        if self.count >= self.room {
            return Err(Refusal {
                number: 433,
                place: from,
            });
        }
        if let Some(place) = self.blocks.get_mut(self.count) {
            *place = block;
        }
        self.count += 1;
        self.last = Some(block);
        Ok(())
    }

    // A vector or a real number, whose word is at `from`, and its code, the next word. A value that is no block may not be the named vector's.
    fn value(&mut self, block: Option<u16>, from: usize) -> Result<(), Refusal> {
        let code = self.words.next_code()?;
        if code != self.code {
            return Ok(());
        }
        let Some(block) = block else {
            return Err(not_allowed(from));
        };
        self.add(block, from)
    }

    // A change by its first word. A scalar has its code in that word, and the named vector is no scalar. "One or more digits follow b or B", and "any
    // bytes or none may follow r or R".
    fn change(&mut self, first: Word<'_>) -> Result<(), Refusal> {
        match first.bytes {
            [b'0' | b'1' | b'x' | b'X' | b'z' | b'Z', code @ ..]
                if is_code(code) && code != self.code => { Ok(()) }
            [b'b' | b'B', digits @ ..] if are_bits(digits) => {
                self.value(block_of(digits), first.from)
            }
            [b'r' | b'R', ..] => self.value(None, first.from),
            _ => Err(not_allowed(first.from)),
        }
    }

    // "A dump keyword and its $end are passed over; only changes may stand between, and they count."
    fn dump(&mut self) -> Result<(), Refusal> {
        for _ in 0..self.words.text.len() {
            let word = self.words.next_word();
            if word.bytes == END {
                return Ok(());
            }
            self.change(word)?;
        }
        Err(not_allowed(self.words.text.len()))
    }

    // What may stand after the declarations, by its first word.
    fn command(&mut self, first: Word<'_>) -> Result<(), Refusal> {
        match first.bytes {
            b"$comment" => self.words.pass_end(),
            b"$dumpall" | b"$dumpoff" | b"$dumpon" | b"$dumpvars" => self.dump(),
            bytes if is_time(bytes) => Ok(()),
            _ => self.change(first),
        }
    }

    // How many values the vector takes.
    fn read_all(&mut self) -> Result<usize, Refusal> {
        for _ in 0..self.words.text.len() {
            let word = self.words.next_word();
            if word.bytes.is_empty() {
                break;
            }
            self.command(word)?;
        }
        Ok(self.count)
    }
}

// Reads the changes into as many blocks as it is lent, and counts them up to some room.
fn read_changes(
    words: Words<'_>,
    code: &[u8],
    room: usize,
    blocks: &mut [u16],
) -> Result<usize, Refusal> {
    let mut changes = Changes {
        words,
        code,
        room,
        blocks,
        count: 0,
        last: None,
    };
    changes.read_all()
}

// The reply to a text: how many values the vector of a code takes, which then stand in `blocks`. The first time over the changes no value is kept.
pub fn read_dump(text: &[u8], code: &[u8], blocks: &mut [u16]) -> Answer {
    if text.len() > 65536 {
        return Err(Refusal {
            number: 101,
            place: 0,
        });
    }
    let mut declarations = Declarations {
        words: Words { text, at: 0 },
        code,
        is_declared: false,
    };
    declarations.read_all()?;
    let words = declarations.words;
    read_changes(words, code, blocks.len(), &mut [])?;
    let count = read_changes(words, code, blocks.len(), blocks)?;
    Ok(Accepted::Value(i64::try_from(count).unwrap_or(i64::MAX)))
}
