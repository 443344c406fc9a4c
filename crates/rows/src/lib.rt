// A row of the work slice, filled from the rows of its parts: one loop a kind. Cells are read and written at
// their index, since the row that is written lies in the slice that is read, and a row, its parts and its
// columns are parameters, since a struct of them would be made once a call.
#![tactic(auto)]

ghost use Rattle.std.specs.Prelude.{ℕ, ◌≡◌, ◌+◌, ◌*◌, ◌<◌, ◌≤◌, length};
ghost use Rattle.schedule.specs.Letters.{letter_at};
ghost use Rattle.theory.specs.inside.RunCosts.{sum_run};
ghost use Rattle.cells.specs.inside.Cells.{con_of, plain_cell, since_cell, until_state, until_cell};
ghost use Rattle.cells.specs.inside.Cells.{atom_cell, plain_state};
ghost use Rattle.cells.specs.inside.Stands.{Stand};
ghost use Rattle.rows.specs.inside.Rows.{row_of, RowReady, Filled, row_length};
ghost use Rattle.schedule.specs.Limits.{work_length, max_entries};

use cells::{CUT_OFF, Connective, State, atom_cell, con, slid};
use schedule::LentLetters;

// Cells of a row of the work slice: an entry has one row, a position one cell.
pub const ROW_LENGTH: usize = 512;

// The cells of a work slice, as they are read: whoever lends one has seen that it has its length.
#[derive(Clone, Copy)]
pub struct Cells<'a> {
    pub work: &'a [u16],
    ghost room: { work_length ≤ length work.now },
}

impl<'a> Cells<'a> {
    // The cell of an entry at a position. (Bounds are clauses: both are plain indices, and each reader has
    // others for them.)
    pub fn at(self, entry: usize, position: usize) -> u16
        requires { (entry < max_entries) × (position < row_length) }
        ensures { result ≡ row_of self.entry.work.now entry position }
    {
        self.work[entry * ROW_LENGTH + position]
    }
}

// A since, from its parts' rows: rising, from before 0. A loop of its own beside the plain kinds: its state
// goes from cell to cell, which the contract of a closure says less plainly.
pub fn since_row(work: &mut [u16], row: usize, left: usize, right: usize, cols: usize)
    requires { RowReady row left right cols (length work.old) }
    ensures { Filled row cols
        (since_cell (row_of work.old left) (row_of work.old right)) work.old
        work.new }
{
    let mut x = State {
        holds: false,
        pro: CUT_OFF,
        con: 1,
    };
    for p in 0..cols {
        x = x.step(work[left * ROW_LENGTH + p], work[right * ROW_LENGTH + p]);
        work[row * ROW_LENGTH + p] = x.cell();
    }
}

// A negation, a disjunction or a conjunction, from its parts' rows. A negation names its part twice. (A kind
// and no closure that makes a state of two cells: that would ask two clauses more of callers.)
pub fn plain_row(
    work: &mut [u16],
    row: usize,
    kind: Connective,
    left: usize,
    right: usize,
    cols: usize,
)
    requires { RowReady row left right cols (length work.old) }
    ensures { Filled row cols
        (plain_cell (plain_state kind) (row_of work.old left) (row_of work.old right))
        work.old work.new }
{
    match kind {
        Connective::Not => made_row(work, row, left, right, cols, |a, _| State::not(a)),
        Connective::Or => made_row(work, row, left, right, cols, State::or),
        Connective::And => made_row(work, row, left, right, cols, State::and),
    }
}

// The loop of these kinds: position by position, by the state made of the two cells there.
fn made_row<F: Fn(u16, u16) -> State>(
    work: &mut [u16],
    row: usize,
    left: usize,
    right: usize,
    cols: usize,
    state: F,
)
    ghost make: { ℕ → ℕ → Stand }
    requires ready { RowReady row left right cols (length work.old) }
    requires callable { F.IsAlwaysCallable state }
    requires made { (a b : ℕ) (x : Stand) → F.post state a b x → x ≡ make a b }
    ensures { Filled row cols
        (plain_cell make (row_of work.old left) (row_of work.old right))
        work.old work.new }
{
    for p in 0..cols {
        let x = state(work[left * ROW_LENGTH + p], work[right * ROW_LENGTH + p]);
        work[row * ROW_LENGTH + p] = x.cell();
    }
}

// Where the loop of an until stands: its state, and the sum of `con` over rule 16's window.
struct Carried {
    state: State,
    sum: u32,
}

// An until's state one lap in, and the sum of that lap. (A loop of its own: it stores nothing, and its sum
// grows where the other's slides.)
fn run_in(cells: Cells<'_>, left: usize, right: usize, cols: usize, lap: usize) -> Carried
    requires { (left < max_entries) × (right < max_entries) × (cols + lap ≤ row_length) }
    ensures { let work = cells.entry.work.now in
        (result.state ≡ until_state (row_of work left) (row_of work right) (cols + lap) lap)
        × (result.sum ≡ sum_run (λ q. con_of (row_of work right q)) cols lap)
        × (result.sum ≤ 65535 * lap) }
{
    let mut x = State {
        holds: false,
        pro: CUT_OFF,
        con: CUT_OFF,
    };
    let mut sum: u32 = 0;
    for p in (cols..cols + lap).rev() {
        let b = cells.at(right, p);
        x = x.step(cells.at(left, p), b);
        sum += con(b);
    }
    Carried { state: x, sum }
}

// An until, from its parts' rows: falling, from one lap past the last column;
// the right side repeats from start on.
pub fn until_row(
    work: &mut [u16],
    row: usize,
    left: usize,
    right: usize,
    cols: usize,
    lap: usize,
    start: usize,
)
    requires { RowReady row left right cols (length work.old) × (1 ≤ lap) × (cols + lap ≤ row_length)
        × (start ≤ cols) }
    ensures { Filled row cols
        (until_cell (row_of work.old left) (row_of work.old right) cols lap start)
        work.old work.new }
{
    let Carried {
        state: mut x,
        mut sum,
    } = run_in(Cells { work }, left, right, cols, lap);
    for p in (0..cols).rev() {
        let b = work[right * ROW_LENGTH + p];
        x = x.step(work[left * ROW_LENGTH + p], b);
        sum = slid(sum, b, work[right * ROW_LENGTH + (p + lap)], start <= p);
        work[row * ROW_LENGTH + p] = x.stored(sum);
    }
}

// An atom, from the letters. It has no parts' rows, so it shares no loop with the kinds above.
pub fn atom_row(letters: LentLetters<'_>, work: &mut [u16], row: usize, atom: usize, cols: usize)
    requires { (work_length ≤ length work.old) × (row < max_entries) × (cols ≤ row_length) }
    ensures { Filled row cols (atom_cell (letter_at letters.entry.prefix.now letters.entry.looped.now) atom)
        work.old work.new }
{
    for p in 0..cols {
        work[row * ROW_LENGTH + p] = atom_cell(letters.letter(p), atom);
    }
}
