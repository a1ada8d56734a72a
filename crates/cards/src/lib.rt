// The cards of fixed MPS: the first 24 columns of a card by value, and a cursor that puts words, numbers and cards into a lent buffer.
#![tactic(auto)]

ghost use Rattle.std.specs.Prelude.{◌≡◌, [], ◌+◌, ◌≤◌, ◌≢◌, length};
ghost use Rattle.std.proofs.Math.Seq.{paste};
ghost use Rattle.lists.specs.Bytes.{bytes};
ghost use Rattle.digits.specs.Decimal.{numeral_of, integer_of};
ghost use Rattle.mps.specs.Program.{objective, block, loop};
ghost use Rattle.mps.specs.Text.{digits_in, row_name, edge_name};
ghost use Rattle.cards.specs.Cards.{Space, Put, head, block_row, loop_row, signed, card, CardLength};

// ---- cards

// Columns 1 to 24 of a card: a name in columns 5 to 12, a row's name in columns 15 to 22.
pub type Head = [u8; 24];

// The line with the last k decimal digits of n from place `at` on.
fn with_digits<const N: usize>(mut line: [u8; N], at: usize, k: usize, mut n: usize) -> [u8; N]
    requires { at + k ≤ N }
    ensures { result ≡ paste line.entry at (digits_in k n []) k }
{
    for i in (at..at + k).rev() {
        line[i] = b'0' + (n % 10) as u8;
        n /= 10;
    }
    line
}

#[tactic(auto, unfolding(crate::specs::Cards::head, mps::specs::Text::digits_in, mps::specs::Text::edge_name, mps::specs::Text::row_name, mps::specs::Text::filled))]
pub fn cost_head(e: usize) -> Head
    ensures { result ≡ head (edge_name e) (row_name objective) }
{
    with_digits(*b"    E0000     COST      ", 5, 4, e)
}

#[tactic(auto, unfolding(crate::specs::Cards::head, mps::specs::Text::digits_in, mps::specs::Text::edge_name, mps::specs::Text::row_name, mps::specs::Text::filled))]
pub fn block_head(e: usize, u: usize) -> Head
    ensures { result ≡ head (edge_name e) (row_name (block u)) }
{
    let head = with_digits(*b"    E0000     B0000     ", 5, 4, e);
    with_digits(head, 15, 4, u)
}

#[tactic(auto, unfolding(crate::specs::Cards::head, mps::specs::Text::digits_in, mps::specs::Text::edge_name, mps::specs::Text::row_name, mps::specs::Text::filled))]
pub fn loop_head(e: usize, l: usize) -> Head
    ensures { result ≡ head (edge_name e) (row_name (loop l)) }
{
    let head = with_digits(*b"    E0000     L00       ", 5, 4, e);
    with_digits(head, 15, 2, l)
}

#[tactic(auto, unfolding(crate::specs::Cards::head, mps::specs::Text::digits_in, mps::specs::Text::edge_name, mps::specs::Text::row_name, mps::specs::Text::filled))]
pub fn right_head(u: usize) -> Head
    ensures { result ≡ head (bytes "RHS") (row_name (block u)) }
{
    with_digits(*b"    RHS       B0000     ", 15, 4, u)
}

// The line of a block's row, and of a loop's row.
#[tactic(auto, unfolding(crate::specs::Cards::block_row, mps::specs::Text::digits_in, mps::specs::Text::row_name))]
pub fn block_row(u: usize) -> [u8; 10]
    ensures { result ≡ block_row u }
{
    with_digits(*b" E  B0000\n", 5, 4, u)
}

#[tactic(auto, unfolding(crate::specs::Cards::loop_row, mps::specs::Text::digits_in, mps::specs::Text::row_name))]
pub fn loop_row(l: usize) -> [u8; 8]
    ensures { result ≡ loop_row l }
{
    with_digits(*b" L  L00\n", 5, 2, l)
}

// ---- the buffer

// A lent buffer, and the place in it where the next byte goes.
#[derive(Drop)]
pub struct Cursor<'a> {
    pub out: &'a mut [u8],
    pub at: usize,
}

impl<'a> Cursor<'a> {
    pub fn new(out: &'a mut [u8]) -> Cursor<'a>
        ensures same { result.out.ghost_name ≡ out.entry.ghost_name }
        ensures bytes { result.out.now ≡ out.old }
        ensures start { result.at ≡ 0 }
    {
        Cursor { out, at: 0 }
    }

    pub fn put(&mut self, w: &[u8])
        requires { Space w.now self.old }
        ensures { Put w.now self.old self.new }
    {
        let next = self.at + w.len();
        self.out[self.at..next].copy_from_slice(w);
        self.at = next;
    }

    // A number in decimal digits, from the last one on: its length says where that stands.
    fn put_numeral(&mut self, n: u64)
        requires { Space (numeral_of n) self.old }
        ensures { Put (numeral_of n) self.old self.new }
    {
        let next = self.at + numeral_length(n);
        let mut rest = n;
        for i in (self.at..next).rev() {
            self.out[i] = b'0' + (rest % 10) as u8;
            rest /= 10;
        }
        self.at = next;
    }

    // With its sign: not for 0, which has none.
    fn put_integer(&mut self, negative: bool, n: u64)
        requires some { n ≢ 0 }
        requires space { Space (integer_of (signed negative n)) self.old }
        ensures { Put (integer_of (signed negative n)) self.old self.new }
    {
        if negative {
            self.put(b"-");
        }
        self.put_numeral(n);
    }

    // The card of a number by its sign and its size, where it is not 0. Inlined, like the next one, so that the place of a caller's cursor stays in a
    // register from byte to byte.
    #[inline(always)]
    pub fn put_signed_number(&mut self, head: &Head, negative: bool, n: u64)
        requires { Space (card head.now (signed negative n)) self.old }
        ensures { Put (card head.now (signed negative n)) self.old self.new }
    {
        if n != 0 {
            self.put(head);
            self.put_integer(negative, n);
            self.put(b"\n");
        }
    }

    // The same for an integer.
    #[inline(always)]
    pub fn put_number(&mut self, head: &Head, x: i64)
        requires { Space (card head.now x) self.old }
        ensures { Put (card head.now x) self.old self.new }
    {
        self.put_signed_number(head, x < 0, x.unsigned_abs());
    }
}

// ---- lengths

fn numeral_length(n: u64) -> usize
    ensures { result ≡ length (numeral_of n) }
{
    if n < 10 {
        1
    } else {
        numeral_length(n / 10) + 1
    }
}

// The bytes of a number's card, by its sign and its size.
pub fn signed_length(negative: bool, n: u64) -> usize
    ensures { CardLength (signed negative n) result }
{
    if n == 0 {
        return 0;
    }
    numeral_length(n) + usize::from(negative) + 25
}

// The same for an integer.
pub fn number_length(x: i64) -> usize
    ensures { CardLength x result }
{
    signed_length(x < 0, x.unsigned_abs())
}
