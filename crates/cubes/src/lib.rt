// Cubes of a PLA text: whether a line is a cube, and the rows that a cube's literals cover, on a whole truth table at once.
// Rests on rows for tables; what a cube says, and the formula that says the same, stand in specs/.
#![tactic(auto)]

ghost use Rattle.std.specs.Prelude.{◌≡◌, ◌&&◌, List, map, ℕ};
ghost use Rattle.bits.specs.Digit.{on};
ghost use Rattle.rows.specs.Words.{Rowwise, row_on};
ghost use Rattle.cubes.specs.Cube.{Literal, literal_byte, read_cube};
ghost use Rattle.cubes.specs.Cover.{admits, covers};
ghost use Rattle.cubes.specs.Spelled.{is_literal, is_there};

// Whether a byte is a literal.
#[tactic(auto, unfolding(crate::specs::Spelled::is_literal))]
fn literal(b: u8) -> bool
    ensures { result ≡ is_literal b }
{
    matches!(b, b'0' | b'1' | b'-')
}

// Whether a line is a cube of i inputs and o outputs.
pub fn is_cube(l: &[u8], i: usize, o: usize) -> bool
    ensures { result ≡ is_there (read_cube i o l.now) }
{
    if l.len() <= i || l.len() - i - 1 != o {
        return false;
    }
    l[..i].iter().all(|b| literal(*b)) && l[i] == b' '
}

// The rows of t on which digit p of the row's number is as the literal b says.
fn narrowed(t: [u64; limits::TABLE_WORDS], b: u8, p: usize) -> [u64; limits::TABLE_WORDS]
    ensures { (l : Literal) → b ≡ literal_byte l → Rowwise (λ (r : ℕ). row_on t r && admits l (on r p)) result }
{
    match b {
        b'0' => rows::both(t, rows::complement(rows::input(p))),
        b'1' => rows::both(t, rows::input(p)),
        _ => t,
    }
}

// The rows that literals cover, one literal to a byte; the first input is the highest digit of a row's number. It stays a call:
// within its caller's loop over the cubes the compiler keeps half of the table in general registers, and moves it for each literal.
#[inline(never)]
pub fn covered(l: &[u8]) -> [u64; limits::TABLE_WORDS]
    ensures { (ls : List Literal) → l.now ≡ map literal_byte ls → Rowwise (covers ls) result }
{
    let mut t = rows::constant(true);
    for (i, b) in l.iter().enumerate() {
        // A variable of its own, since a call may not answer an array into the one that it takes.
        let next = narrowed(t, *b, l.len() - 1 - i);
        t = next;
    }
    t
}
