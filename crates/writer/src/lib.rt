// The path-counting program of a pair of tables as a text in fixed MPS, in a lent buffer. The text is measured before a byte is written.
#![tactic(auto)]

ghost use Rattle.std.specs.Prelude.{◌≡◌, ◌*◌, ◌<◌, length};
ghost use Rattle.wcet.specs.Table.{block_count};
ghost use Rattle.wcet.specs.Rules.{refused};
ghost use Rattle.nesting.specs.Columns.{routine_of};
ghost use Rattle.mps.specs.Reply.{Exported};
ghost use Rattle.mps.specs.Program.{target};
ghost use Rattle.cards.specs.Cards.{block_row, loop_row, Space, Put};
ghost use Rattle.writer.specs.Pieces.{Readable, loop_number, edge_of, ends_text, edge_text, EdgeLength, span, rows_text, edges_text, EdgesLength, rights_text, whole_text, Landed};
ghost use Rattle.writer.specs.Answers.{mps_meaning};

use cards::Cursor;
use loopsets::Sets;
use nesting::{Refusal, StructureFault, Tables};

// Why no text is written: 201 to 207 as the structure check names them, 209, or 411, the text does not fit.
#[derive(Clone, Copy, PartialEq, Eq)]
pub enum MpsFault {
    Structure(StructureFault),
    UndeclaredLoop,
    NoRoom,
}

impl From<StructureFault> for MpsFault {
    ghost use Rattle.writer.specs.declared.MpsFault.TheVariants.{Structure};

    ghost from_gives = { λ f x. x ≡ Structure f };

    fn from(broken: StructureFault) -> Self {
        MpsFault::Structure(broken)
    }
}

impl MpsFault {
    pub fn refusal(self) -> Refusal
        ensures { refused result.number result.place ≡ mps_meaning (Err self) }
    {
        match self {
            MpsFault::Structure(fault) => fault.refusal(),
            MpsFault::UndeclaredLoop => Refusal {
                number: 209,
                place: 0,
            },
            MpsFault::NoRoom => Refusal {
                number: 411,
                place: 0,
            },
        }
    }
}

// The tables that the text is read off, and their loop sets.
#[derive(Clone, Copy)]
struct Program<'a> {
    around: &'a Sets,
    tables: &'a Tables<'a>,
    ghost readable: { Readable (routine_of tables.now) },
}

// An edge: its number, its blocks, its number in COST, the target's innermost loop, and its number in the row of that loop.
#[derive(Clone, Copy)]
struct Edge {
    number: usize,
    source: usize,
    target: usize,
    cost: i64,
    headed: usize,
    coefficient: i64,
}

// ---- the lines of an edge

// Of its source u and its target v, the lower first: none, where they are the same.
fn put_ends(out: &mut Cursor<'_>, e: usize, u: usize, v: usize)
    requires { Space (ends_text e u v) out.old }
    ensures { Put (ends_text e u v) out.old out.new }
{
    if u < v {
        out.put_number(&cards::block_head(e, u), 1);
        out.put_number(&cards::block_head(e, v), -1);
    } else if v < u {
        out.put_number(&cards::block_head(e, v), -1);
        out.put_number(&cards::block_head(e, u), 1);
    }
}

impl Edge {
    fn length(self) -> usize
        ensures { EdgeLength self result }
    {
        let ends = if self.source == self.target { 0 } else { 53 };
        cards::number_length(self.cost) + ends + cards::number_length(self.coefficient)
    }

    fn put(self, out: &mut Cursor<'_>)
        requires { Space (edge_text self) out.old }
        ensures { Put (edge_text self) out.old out.new }
    {
        out.put_number(&cards::cost_head(self.number), self.cost);
        put_ends(out, self.number, self.source, self.target);
        out.put_number(
            &cards::loop_head(self.number, self.headed),
            self.coefficient,
        );
    }
}

// ---- the other lines

// Kept as two functions: one that takes a closure over the cursor was tried, and the generated part of its caller's proof did not close.
fn put_block_rows(out: &mut Cursor<'_>, n: usize)
    requires { Space (span block_row 0 n) out.old }
    ensures { Put (span block_row 0 n) out.old out.new }
{
    for u in 0..n {
        out.put(&cards::block_row(u));
    }
}

fn put_loop_rows(out: &mut Cursor<'_>, m: usize)
    requires { (0 < m) × Space (span loop_row 1 m) out.old }
    ensures { Put (span loop_row 1 m) out.old out.new }
{
    for l in 1..m {
        out.put(&cards::loop_row(l));
    }
}

// The sections NAME and ROWS.
fn put_rows(out: &mut Cursor<'_>, n: usize, m: usize)
    requires { (0 < m) × Space (rows_text n m) out.old }
    ensures { Put (rows_text n m) out.old out.new }
{
    out.put(b"NAME\nROWS\n N  COST\n");
    put_block_rows(out, n);
    put_loop_rows(out, m);
}

// The sections RHS and ENDATA.
fn put_rights(out: &mut Cursor<'_>, n: usize)
    requires { (0 < n) × Space (rights_text n) out.old }
    ensures { Put (rights_text n) out.old out.new }
{
    out.put(b"RHS\n    RHS       B0000     1\n");
    out.put_number(&cards::right_head(n - 1), -1);
    out.put(b"ENDATA\n");
}

// ---- the program

impl Program<'_> {
    ghost use Rattle.writer.specs.Programs.{sets_of, table_of};

    // The number of an edge from block u to v in the row of v's loop: 0, unless v is its header.
    fn loop_number(&self, u: usize, v: u16) -> i64
        requires { (u < block_count (table_of self.now)) × (v < block_count (table_of self.now)) }
        ensures { result ≡ loop_number (sets_of self.now) (table_of self.now) u v }
    {
        let l = usize::from(self.tables.loops[usize::from(v)]);
        if self.tables.header[l] != v {
            return 0;
        }
        let from = usize::from(self.tables.loops[u]);
        if loopsets::set_at(self.around, from).contains(l) {
            return 1;
        }
        1 - i64::from(self.tables.limit[l])
    }

    // Where edge number e ends.
    fn target(&self, e: usize) -> u16
        requires { e < 2 * block_count (table_of self.now) }
        ensures { result ≡ target (table_of self.now) e }
    {
        if e % 2 == 0 {
            self.tables.first[e / 2]
        } else {
            self.tables.second[e / 2]
        }
    }

    // Edge number e, where there is one.
    fn edge_at(&self, e: usize) -> Option<Edge>
        requires { e < 2 * block_count (table_of self.now) }
        ensures { result ≡ edge_of (sets_of self.now) (table_of self.now) e }
    {
        let (u, v) = (e / 2, self.target(e));
        if v == 65535 {
            return None;
        }
        let to = usize::from(v);
        Some(Edge {
            number: e,
            source: u,
            target: to,
            cost: -i64::from(self.tables.cost[to]),
            headed: usize::from(self.tables.loops[to]),
            coefficient: self.loop_number(u, v),
        })
    }

    fn edges_length(&self) -> usize
        ensures { EdgesLength (sets_of self.now) (table_of self.now) result }
    {
        let mut total = 0;
        for e in 0..2 * self.tables.cost.len() {
            if let Some(edge) = self.edge_at(e) {
                total += edge.length();
            }
        }
        total
    }

    // 10 bytes for each block's row, 8 for each loop's from loop 1 up, and the lines that every text has.
    fn length(&self) -> usize
        ensures { result ≡ length (whole_text (sets_of self.now) (table_of self.now)) }
    {
        let rows = 10 * self.tables.cost.len() + 8 * self.tables.header.len();
        self.edges_length() + rows + 83
    }

    fn put_edges(&self, out: &mut Cursor<'_>)
        requires { Space (edges_text (sets_of self.now) (table_of self.now)) out.old }
        ensures { Put (edges_text (sets_of self.now) (table_of self.now)) out.old out.new }
    {
        for e in 0..2 * self.tables.cost.len() {
            if let Some(edge) = self.edge_at(e) {
                edge.put(out);
            }
        }
    }

    fn put(&self, out: &mut Cursor<'_>)
        requires { Space (whole_text (sets_of self.now) (table_of self.now)) out.old }
        ensures { Put (whole_text (sets_of self.now) (table_of self.now)) out.old out.new }
    {
        let n = self.tables.cost.len();
        put_rows(out, n, self.tables.header.len());
        out.put(b"COLUMNS\n");
        self.put_edges(out);
        put_rights(out, n);
    }

    // Writes the text, where it fits.
    fn write(&self, text: &mut [u8]) -> Result<usize, MpsFault>
        ensures { Landed (whole_text (sets_of self.now) (table_of self.now)) text.old result text.new }
    {
        if self.length() > text.len() {
            return Err(MpsFault::NoRoom);
        }
        let mut out = Cursor::new(text);
        self.put(&mut out);
        Ok(out.at)
    }
}

// Writes the program of the tables into the buffer and returns the length of the text; or the first broken rule, and no byte is written. The
// contract also says that the text, read by the definition of MPS, gives the program.
pub fn mps(tables: &Tables<'_>, text: &mut [u8]) -> Result<usize, MpsFault>
    ensures { Exported (routine_of tables.now) text.old (mps_meaning result) text.new }
{
    let around = nesting::check_structure(tables)?;
    let order = order::order_of(&around, tables);
    if order.count < tables.cost.len() {
        return Err(MpsFault::UndeclaredLoop);
    }
    let program = Program {
        around: &around,
        tables,
    };
    program.write(text)
}
