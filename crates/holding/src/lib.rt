// What the classes of one output hold while vertices take codes, and the sets of codes of the others narrowed by it. A rule
// that prunes is one law of specs/NarrowLaws, specs/FullLaws or specs/ReachLaws: what it takes away is in no solution.
#![tactic(auto)]

ghost use Rattle.std.specs.Prelude.{◌≡◌, true, false, not, ℕ, ◌+◌, ◌-◌, ◌*◌, ◌^◌, ◌<◌, ◌≤◌, max, eqb, length, get_or};
ghost use Rattle.bits.specs.Logic.{pick};
ghost use Rattle.limits.specs.Limits.{search_outputs, max_vertices, label_count, block_count, max_cells, max_codes};
ghost use Rattle.bits.specs.Digit.{on};
ghost use Rattle.problem.specs.Problem.{no_code, label_at, part_at, part_of, item, Block, Labels, Blocks, Kept, Hopeless};
ghost use Rattle.holding.specs.Held.{Held};
ghost use Rattle.holding.specs.Wants.{Wanted, Totals, TightBelow, Tight, needed};
ghost use Rattle.holding.specs.Blocks.{Table, Minus, Spans};
ghost use Rattle.holding.specs.Joined.{Joined};
ghost use Rattle.holding.specs.Narrow.{Narrowed, Keeps, Stays};
ghost use Rattle.holding.specs.Full.{Crowd, Free, Others};
ghost use Rattle.holding.specs.Reach.{Lacks, Reached, Fewer, Lost, NoRoom};

use limits::{BLOCKS, MAX_CODES, MAX_VERTICES, SEARCH_OUTPUTS};

// The codes without cell i.
fn without_cell(i: u8) -> u64
    requires { i < max_cells }
    ensures { (k : ℕ) → k < max_codes → on result k ≡ not (on k i) }
{
    match i {
        0 => 0x5555_5555_5555_5555,
        1 => 0x3333_3333_3333_3333,
        2 => 0x0f0f_0f0f_0f0f_0f0f,
        3 => 0x00ff_00ff_00ff_00ff,
        4 => 0x0000_ffff_0000_ffff,
        _ => 0x0000_0000_ffff_ffff,
    }
}

// The codes of d, and those that differ from a code of d in cell i alone.
fn joined(d: u64, i: u8) -> u64
    requires { i < max_cells }
    ensures { Joined d i result }
{
    let low = without_cell(i);
    let step = 1u32 << i;
    d | ((d & low) << step) | ((d >> step) & low)
}

// The codes that a mask does not tell from some code of d.
fn spread(mask: u8, d: u64) -> u64
    ensures { Spans mask d result }
{
    let mut r = d;
    for i in 0..cells::MAX_CELLS {
        if !cells::in_set(mask as u64, i) {
            r = joined(r, i);
        }
    }
    r
}

// The set of codes that a mask does not tell from c.
pub fn block(mask: u8, c: u8) -> u64
    requires { c < max_codes }
    ensures { Block mask c result }
{
    spread(mask, cells::single(c))
}

// The block of each code c for each of the first n outputs o, at o * MAX_CODES + c. It is made once for the codes of a block.
pub fn blocks(ms: [u8; SEARCH_OUTPUTS], n: usize) -> [u64; BLOCKS]
    requires { n ≤ search_outputs }
    ensures { Table ms (n * max_codes) result }
{
    let mut r = [0u64; BLOCKS];
    for i in 0..n * MAX_CODES {
        let m = ms[i / MAX_CODES];
        let c = (i % MAX_CODES) as u8;
        let first = c & m;
        if first == c {
            r[i] = block(m, c);
        } else {
            r[i] = r[i / MAX_CODES * MAX_CODES + first as usize];
        }
    }
    r
}

// Into own the codes of the blocks that each class holds, and into owns how many blocks.
fn held(
    cl: &[u8],
    bs: &[u64],
    ms: [u8; SEARCH_OUTPUTS],
    v: usize,
    j: usize,
    o: usize,
    codes: &[u8],
    own: &mut [u64],
    owns: &mut [u8],
)
    requires { Labels cl.now × Blocks ms bs.now j × (v ≤ max_vertices) × (j ≤ search_outputs) × (o < j) × (length codes.now ≡ max_vertices)
        × (length own.old ≡ max_vertices) × (length owns.old ≡ max_vertices)
        × ((l : ℕ) → l < max_vertices → item own.old l ≡ 0) × ((l : ℕ) → l < max_vertices → item owns.old l ≡ 0) }
    ensures { Held cl.now codes.now o (item ms o) v own.new owns.new }
{
    for y in 0..v {
        let c = codes[y];
        if c < problem::NO_CODE {
            let l = problem::label(cl, o, y) as usize;
            if !cells::in_set(own[l], c) {
                own[l] |= bs[o * MAX_CODES + c as usize];
                owns[l] += 1;
            }
        }
    }
}

// d without b.
fn minus(d: u64, b: u64) -> u64
    ensures { Minus d b result }
{
    d & !b
}

// One more than n, or two more where m is empty.
fn more(n: u8, m: u64) -> u8
    requires { n ≤ max_vertices }
    ensures { (m ≡ 0 → result ≡ n + 2) × ((m ≡ 0 → ⊥) → result ≡ n + 1) }
{
    if m == 0 { n + 2 } else { n + 1 }
}

// Into wants the blocks that each class holds, one more where one of its vertices can take none of them, and two more where such
// vertices have no block in common; and into meet the codes that they have in common, block by block.
fn wanted(
    cl: &[u8],
    mask: u8,
    v: usize,
    o: usize,
    dom: &[u64],
    own: &[u64],
    owns: &[u8],
    wants: &mut [u8],
    meet: &mut [u64],
)
    requires { Labels cl.now × (v ≤ max_vertices) × (o < search_outputs) × (length dom.now ≡ max_vertices) × (length own.now ≡ max_vertices)
        × (length owns.now ≡ max_vertices) × ((l : ℕ) → l < max_vertices → item owns.now l ≤ max_vertices) × (wants.old ≡ owns.now)
        × (length meet.old ≡ max_vertices) × ((l : ℕ) → l < max_vertices → item meet.old l ≡ 2 ^ 64 - 1) }
    ensures { Wanted cl.now o mask v dom.now own.now owns.now wants.new meet.new }
{
    for y in 0..v {
        let l = problem::label(cl, o, y) as usize;
        if dom[y] & own[l] == 0 {
            let m = meet[l] & spread(mask, dom[y]);
            meet[l] = m;
            wants[l] = more(owns[l], m);
        }
    }
}

// The blocks that the classes of each part of o hold, or need where that is more.
fn totals(cl: &[u8], base: &[u8], o: usize, owns: &[u8]) -> [usize; MAX_VERTICES]
    requires { Labels cl.now × (length base.now ≡ label_count) × (o < search_outputs) × (length owns.now ≡ max_vertices) }
    ensures { Totals cl.now owns.now base.now o max_vertices result }
{
    let mut t = [0usize; MAX_VERTICES];
    for l in 0..MAX_VERTICES {
        let p = problem::class_part(cl, o, l) as usize;
        t[p] += owns[l].max(problem::label(base, o, l)) as usize;
    }
    t
}

// The place of the largest of the numbers, the first of equally large ones: an iterator's max_by_key gives the last.
fn largest(t: &[usize]) -> usize
    requires { length t.now ≡ max_vertices }
    ensures { result < max_vertices }
{
    let mut m: usize = 0;
    for i in 1..MAX_VERTICES {
        if t[m] < t[i] {
            m = i;
        }
    }
    m
}

// Whether a vertex with code c is in b; without a code it is not.
fn inside(b: u64, c: u8) -> bool
    ensures { result ≡ true → (c < no_code) × (on b c ≡ true) }
{
    c < problem::NO_CODE && cells::in_set(b, c)
}

// The blocks that the classes of a part of o hold, or need where that is more, for the part where it is most.
pub fn total(cl: &[u8], base: &[u8], o: usize, owns: &[u8]) -> usize
    requires { Labels cl.now × (length base.now ≡ label_count) × (o < search_outputs) × (length owns.now ≡ max_vertices) }
    ensures { (p : ℕ) × (result ≡ needed cl.now owns.now base.now o p) }
{
    let ts = totals(cl, base, o, owns);
    ts[largest(&ts)]
}

// The most classes that an output has.
const CLASSES: u8 = MAX_VERTICES as u8;

// The classes of output o that are not of part p, one by one.
fn others(cl: &[u8], o: usize, p: u8) -> u64
    requires { Labels cl.now × (o < search_outputs) }
    ensures { Others cl.now o p max_vertices result }
{
    let mut r: u64 = 0;
    for l in 0..CLASSES {
        if problem::class_part(cl, o, l as usize) != p {
            r = cells::with(r, l);
        }
    }
    r
}

// Whether all classes of output o are of part p. They mostly are, so the loop does not stop early, as an iterator's all would:
// then several classes are compared at a time.
fn one_part(cl: &[u8], o: usize, p: u8) -> bool
    requires { Labels cl.now × (o < search_outputs) }
    ensures { result ≡ true → (l : ℕ) → l < max_vertices → part_at cl.now o l ≡ p }
{
    let mut all = true;
    for l in 0..MAX_VERTICES {
        all &= problem::class_part(cl, o, l) == p;
    }
    all
}

// The classes of output o that are not of part p. Where there are none, which is the usual case, no set is made up.
fn strangers(cl: &[u8], o: usize, p: u8) -> u64
    requires { Labels cl.now × (o < search_outputs) }
    ensures { Others cl.now o p max_vertices result }
{
    if one_part(cl, o, p) {
        0
    } else {
        others(cl, o, p)
    }
}

// The classes of output o in the block b and the classes of other parts than p, and how many of part p are in b.
#[derive(Drop)]
pub struct Classes {
    pub seen: u64,
    pub count: u8,
}

fn classes_in(cl: &[u8], v: usize, o: usize, p: u8, codes: &[u8], b: u64) -> Classes
    requires { Labels cl.now × (v ≤ max_vertices) × (o < search_outputs) × (length codes.now ≡ max_vertices) }
    ensures { Crowd cl.now codes.now o p b v result.seen result.count }
{
    let mut seen = strangers(cl, o, p);
    let mut count: u8 = 0;
    for y in 0..v {
        if inside(b, codes[y]) {
            let l = problem::label(cl, o, y);
            if !cells::in_set(seen, l) {
                seen = cells::with(seen, l);
                count += 1;
            }
        }
    }
    Classes { seen, count }
}

// The same for the part of x. A block with room for one class of a part is full as soon as x is in it: then no other vertex is
// looked at.
pub fn crowd(cl: &[u8], v: usize, o: usize, x: usize, cap: u8, codes: &[u8], b: u64) -> Classes
    requires { Labels cl.now × (v ≤ max_vertices) × (o < search_outputs) × (x < max_vertices) × (length codes.now ≡ max_vertices) }
    ensures { Crowd cl.now codes.now o (part_of cl.now o x) b v result.seen result.count }
{
    let p = problem::part(cl, o, x);
    if cap <= 1 && x < v && inside(b, codes[x]) {
        let seen = cells::with(strangers(cl, o, p), problem::label(cl, o, x));
        return Classes { seen, count: 1 };
    }
    classes_in(cl, v, o, p, codes, b)
}

// n where q is p, or nothing.
fn counted(q: u8, p: u8, n: u8) -> u8
    ensures { (result ≡ pick (eqb q p) n 0) × (result ≤ 255) }
{
    if q == p { n } else { 0 }
}

// What the classes of part p of output o hold or need, and how many of these blocks they lack.
#[derive(Drop)]
struct Lack {
    total: u16,
    news: u16,
}

fn lacks(cl: &[u8], base: &[u8], o: usize, p: u8, owns: &[u8], wants: &[u8]) -> Lack
    requires { Labels cl.now × (length base.now ≡ label_count) × (o < search_outputs) × ((l : ℕ) → l < max_vertices → item owns.now l ≤ item wants.now l)
        × (length owns.now ≡ max_vertices) × (length wants.now ≡ max_vertices) }
    ensures { Lacks cl.now owns.now wants.now base.now o p max_vertices result.total result.news }
{
    let mut total: u16 = 0;
    let mut news: u16 = 0;
    for l in 0..MAX_VERTICES {
        let q = problem::class_part(cl, o, l);
        let n = wants[l].max(problem::label(base, o, l));
        total += counted(q, p, n) as u16;
        news += counted(q, p, n - owns[l]) as u16;
    }
    Lack { total, news }
}

// The part p alone where t is spot, or no part.
fn tight_part(p: u8, t: usize, spot: usize) -> u64
    requires { p < max_vertices }
    ensures { (q : ℕ) → on result q ≡ true → (q ≡ p) × (t ≡ spot) }
{
    if t == spot { cells::with(0, p) } else { 0 }
}

// The parts whose number is spot.
fn tight_parts(ts: &[usize], spot: usize) -> u64
    requires { length ts.now ≡ max_vertices }
    ensures { TightBelow ts.now spot max_vertices result }
{
    let mut r: u64 = 0;
    for p in 0..CLASSES {
        if ts[p as usize] == spot {
            r = cells::with(r, p);
        }
    }
    r
}

// A part of output o that holds or needs most, what it holds or needs and what it lacks, the parts that hold or need spot, and
// the other parts that hold or need blocks.
#[derive(Drop)]
struct Busy {
    part: u8,
    total: u16,
    news: u16,
    tight: u64,
    others: u64,
}

// The parts other than q whose number is not 0.
fn others_of(ts: &[usize], q: u8) -> u64
    requires { length ts.now ≡ max_vertices }
{
    let mut r: u64 = 0;
    for p in 0..CLASSES {
        if p != q && ts[p as usize] != 0 {
            r = cells::with(r, p);
        }
    }
    r
}

fn busiest(cl: &[u8], base: &[u8], o: usize, owns: &[u8], wants: &[u8], spot: usize) -> Busy
    requires { Labels cl.now × (length base.now ≡ label_count) × (o < search_outputs) × ((l : ℕ) → l < max_vertices → item owns.now l ≤ item wants.now l)
        × (length owns.now ≡ max_vertices) × (length wants.now ≡ max_vertices) }
    ensures { Lacks cl.now owns.now wants.now base.now o result.part max_vertices result.total result.news
        × Tight cl.now wants.now base.now o spot result.tight }
{
    let p = problem::class_part(cl, o, 0);
    if one_part(cl, o, p) {
        let a = lacks(cl, base, o, p, owns, wants);
        return Busy {
            part: p,
            total: a.total,
            news: a.news,
            tight: tight_part(p, a.total as usize, spot),
            others: 0,
        };
    }
    let ts = totals(cl, base, o, wants);
    let q = largest(&ts) as u8;
    let b = lacks(cl, base, o, q, owns, wants);
    Busy {
        part: q,
        total: b.total,
        news: b.news,
        tight: tight_parts(&ts, spot),
        others: others_of(&ts, q),
    }
}

// Whether class l of output o is of part p and lacks blocks: it holds has and wants wants of them.
fn lacking(cl: &[u8], base: &[u8], o: usize, p: u8, l: usize, has: u8, wants: u8) -> bool
    requires { Labels cl.now × (length base.now ≡ label_count) × (o < search_outputs) × (l < max_vertices) }
    ensures { result ≡ false → part_at cl.now o l ≡ p → max wants (label_at base.now o l) ≤ has }
{
    problem::class_part(cl, o, l) == p && has < wants.max(problem::label(base, o, l))
}

// How many blocks each class holds, and how many it needs.
#[derive(Clone, Copy)]
struct Counts {
    owns: [u8; MAX_VERTICES],
    wants: [u8; MAX_VERTICES],
}

// An output whose sets are narrowed: its number, 2 to the number of its private cells, and of all that it reads; and how many
// vertices there are.
#[derive(Clone, Copy)]
struct Output {
    number: usize,
    cap: u8,
    spot: usize,
    vertices: usize,
}

// What the vertices without a code whose classes are of part p and lack blocks can take besides the blocks that these hold.
fn reach(
    cl: &[u8],
    base: &[u8],
    t: Output,
    p: u8,
    n: Counts,
    codes: &[u8],
    dom: &[u64],
    own: &[u64],
) -> u64
    requires { Labels cl.now × (length base.now ≡ label_count) × (t.vertices ≤ max_vertices) × (t.number < search_outputs) × (length dom.now ≡ max_vertices)
        × (length own.now ≡ max_vertices) × (length codes.now ≡ max_vertices) }
    ensures { Reached cl.now base.now n.owns n.wants codes.now dom.now own.now t.number p t.vertices result }
{
    let mut r: u64 = 0;
    for y in 0..t.vertices {
        if codes[y] >= problem::NO_CODE {
            let l = problem::label(cl, t.number, y) as usize;
            if lacking(cl, base, t.number, p, l, n.owns[l], n.wants[l]) {
                r |= minus(dom[y], own[l]);
            }
        }
    }
    r
}

// Whether d meets fewer than n blocks of output o.
fn fewer_blocks(bs: &[u64], o: usize, d: u64, n: u16) -> bool
    requires { (length bs.now ≡ block_count) × (o < search_outputs) }
    ensures { result ≡ true → (mask : ℕ) → ((c : ℕ) → c < max_codes → Block mask c (get_or bs.now (o * max_codes + c) 0)) → Fewer mask d n }
{
    let mut rest = d;
    let mut k: u16 = 0;
    // The blocks of a set of codes are taken off one by one.
    while rest != 0 {
        if n <= k {
            return false;
        }
        let c = cells::lowest(rest);
        rest = minus(cells::without(rest, c), bs[o * MAX_CODES + c as usize]);
        k += 1;
    }
    k < n
}

// Whether the classes of part p of output t lack more blocks than their vertices can take, news of them, where a block has room
// for one class of each part.
fn out_of_reach(
    cl: &[u8],
    base: &[u8],
    bs: &[u64],
    t: Output,
    p: u8,
    news: u16,
    n: Counts,
    codes: &[u8],
    dom: &[u64],
    own: &[u64],
) -> bool
    requires { Labels cl.now × (length base.now ≡ label_count) × (length bs.now ≡ block_count) × (t.vertices ≤ max_vertices) × (t.number < search_outputs)
        × (length dom.now ≡ max_vertices) × (length own.now ≡ max_vertices) × (length codes.now ≡ max_vertices) }
    ensures { result ≡ true → (t.cap ≤ 1) × ((mask : ℕ) → ((c : ℕ) → c < max_codes → Block mask c (get_or bs.now (t.number * max_codes + c) 0))
        → Lost cl.now base.now n.owns n.wants codes.now dom.now own.now t.number p mask t.vertices news) }
{
    if t.cap > 1 || news == 0 {
        return false;
    }
    fewer_blocks(
        bs,
        t.number,
        reach(cl, base, t, p, n, codes, dom, own),
        news,
    )
}

// Whether that is so of some part of the set others.
fn others_out_of_reach(
    cl: &[u8],
    base: &[u8],
    bs: &[u64],
    t: Output,
    others: u64,
    n: Counts,
    codes: &[u8],
    dom: &[u64],
    own: &[u64],
) -> bool
    requires { Labels cl.now × (length base.now ≡ label_count) × (length bs.now ≡ block_count) × (t.vertices ≤ max_vertices) × (t.number < search_outputs)
        × (length dom.now ≡ max_vertices) × (length own.now ≡ max_vertices) × (length codes.now ≡ max_vertices)
        × ((l : ℕ) → l < max_vertices → item n.owns l ≤ item n.wants l) }
    ensures { result ≡ true → (t.cap ≤ 1) × ((p : ℕ) × (total : ℕ) × (news : ℕ) × Lacks cl.now n.owns n.wants base.now t.number p max_vertices total news
        × ((mask : ℕ) → ((c : ℕ) → c < max_codes → Block mask c (get_or bs.now (t.number * max_codes + c) 0))
        → Lost cl.now base.now n.owns n.wants codes.now dom.now own.now t.number p mask t.vertices news)) }
{
    if t.cap != 1 {
        return false;
    }
    // Copies are lent, which was measured to be quicker than to lend the fields of n.
    let owns = n.owns;
    let wants = n.wants;
    let mut rest = others;
    // The parts of a set are taken off one by one.
    while rest != 0 {
        let p = cells::lowest(rest);
        rest = cells::without(rest, p);
        let a = lacks(cl, base, t.number, p, &owns, &wants);
        if out_of_reach(cl, base, bs, t, p, a.news, n, codes, dom, own) {
            return true;
        }
    }
    false
}

// The codes that a class keeps to where no place is left.
fn keep(own: u64, meet: u64, has: u8, wants: u8, need: u8) -> u64
    requires { has ≤ max_vertices }
    ensures { (k : ℕ) → k < max_codes → Keeps own meet has wants need k → on result k ≡ true }
{
    if wants == has && need <= has {
        own
    } else if wants == has + 1 && need <= has + 1 {
        own | meet
    } else {
        cells::ALL_CODES
    }
}

// The sets of the vertices without a code are narrowed where no place is left: in the parts of tight.
fn narrow(
    cl: &[u8],
    base: &[u8],
    t: Output,
    own: &[u64],
    meet: &[u64],
    n: Counts,
    tight: u64,
    codes: &[u8],
    dom: &mut [u64],
)
    requires { Labels cl.now × (length base.now ≡ label_count) × (t.vertices ≤ max_vertices) × (t.number < search_outputs) × (length own.now ≡ max_vertices)
        × (length meet.now ≡ max_vertices) × ((l : ℕ) → l < max_vertices → item n.owns l ≤ max_vertices)
        × (length codes.now ≡ max_vertices) × (length dom.old ≡ max_vertices) }
    ensures { Narrowed (Stays cl.now base.now t.number tight own.now meet.now n.owns n.wants)
        dom.old t.vertices dom.new }
{
    for y in 0..t.vertices {
        if codes[y] >= problem::NO_CODE {
            let l = problem::label(cl, t.number, y) as usize;
            if cells::in_set(tight, problem::class_part(cl, t.number, l)) {
                let need = problem::label(base, t.number, l);
                dom[y] &= keep(own[l], meet[l], n.owns[l], n.wants[l], need);
            }
        }
    }
}

// The sets of the vertices without a code whose classes are not in seen lose b.
pub fn shut(cl: &[u8], v: usize, o: usize, seen: u64, codes: &[u8], dom: &mut [u64], b: u64)
    requires { Labels cl.now × (v ≤ max_vertices) × (o < search_outputs) × (length codes.now ≡ max_vertices) × (length dom.old ≡ max_vertices) }
    ensures { Narrowed (Free cl.now o seen b) dom.old v dom.new }
{
    for y in 0..v {
        if codes[y] >= problem::NO_CODE && !cells::in_set(seen, problem::label(cl, o, y)) {
            dom[y] = minus(dom[y], b);
        }
    }
}

// Whether some part of output t has no room: it needs more blocks than there are places, or lacks more than its vertices can
// take. b is what the busiest part needs and lacks.
fn no_room(
    cl: &[u8],
    base: &[u8],
    bs: &[u64],
    t: Output,
    b: Busy,
    n: Counts,
    codes: &[u8],
    dom: &[u64],
    own: &[u64],
) -> bool
    requires { Labels cl.now × (length base.now ≡ label_count) × (length bs.now ≡ block_count) × (t.vertices ≤ max_vertices) × (t.number < search_outputs)
        × (length dom.now ≡ max_vertices) × (length own.now ≡ max_vertices) × (length codes.now ≡ max_vertices)
        × ((l : ℕ) → l < max_vertices → item n.owns l ≤ item n.wants l)
        × Lacks cl.now n.owns n.wants base.now t.number b.part max_vertices b.total b.news }
    ensures { result ≡ true → NoRoom cl.now base.now n.owns n.wants codes.now dom.now own.now bs.now
        t.number t.vertices t.cap t.spot }
{
    t.spot < b.total as usize
        || out_of_reach(cl, base, bs, t, b.part, b.news, n, codes, dom, own)
        || others_out_of_reach(cl, base, bs, t, b.others, n, codes, dom, own)
}

// The sets are narrowed by what the classes of output o hold, own, and need, meet, and by how many blocks these are. False where
// no solution keeps to them.
fn narrow_by(
    cl: &[u8],
    base: &[u8],
    bs: &[u64],
    p: problem::Problem,
    o: usize,
    own: &[u64],
    meet: &[u64],
    n: Counts,
    codes: &[u8],
    dom: &mut [u64],
) -> bool
    requires { Labels cl.now × (length base.now ≡ label_count) × Blocks p.ms bs.now p.outputs × (p.vertices ≤ max_vertices) × (p.outputs ≤ search_outputs)
        × (o < p.outputs) × (length codes.now ≡ max_vertices) × (length dom.old ≡ max_vertices)
        × Held cl.now codes.now o (item p.ms o) p.vertices own.now n.owns
        × Wanted cl.now o (item p.ms o) p.vertices dom.old own.now n.owns n.wants meet.now }
    ensures { Kept cl.now base.now p.ms p.caps p.spots p.vertices p.outputs codes.now dom.old dom.new
        × (length dom.new ≡ max_vertices)
        × (result ≡ false → (kn val : ℕ) → Hopeless cl.now base.now p.ms p.caps p.spots p.vertices p.outputs kn val codes.now dom.old) }
{
    let t = Output {
        number: o,
        cap: p.caps[o],
        spot: p.spots[o] as usize,
        vertices: p.vertices,
    };
    // Copies are lent, which was measured to be quicker than to lend the fields of n.
    let owns = n.owns;
    let wants = n.wants;
    let b = busiest(cl, base, o, &owns, &wants, t.spot);
    let tight = b.tight;
    if no_room(cl, base, bs, t, b, n, codes, dom, own) {
        return false;
    }
    if tight == 0 {
        return true;
    }
    narrow(cl, base, t, own, meet, n, tight, codes, dom);
    true
}

// The sets are narrowed by what the classes of output o hold and need. False where no solution keeps to them.
pub fn settle(
    cl: &[u8],
    base: &[u8],
    bs: &[u64],
    p: problem::Problem,
    o: usize,
    codes: &[u8],
    dom: &mut [u64],
) -> bool
    requires { Labels cl.now × (length base.now ≡ label_count) × Blocks p.ms bs.now p.outputs × (p.vertices ≤ max_vertices) × (p.outputs ≤ search_outputs)
        × (o < p.outputs) × (length codes.now ≡ max_vertices) × (length dom.old ≡ max_vertices) }
    ensures { Kept cl.now base.now p.ms p.caps p.spots p.vertices p.outputs codes.now dom.old dom.new
        × (length dom.new ≡ max_vertices)
        × (result ≡ false → (kn val : ℕ) → Hopeless cl.now base.now p.ms p.caps p.spots p.vertices p.outputs kn val codes.now dom.old) }
{
    let mut own = [0u64; MAX_VERTICES];
    let mut owns = [0u8; MAX_VERTICES];
    held(
        cl, bs, p.ms, p.vertices, p.outputs, o, codes, &mut own, &mut owns,
    );
    let mut wants = owns;
    let mut meet = [cells::ALL_CODES; MAX_VERTICES];
    wanted(
        cl, p.ms[o], p.vertices, o, dom, &own, &owns, &mut wants, &mut meet,
    );
    let n = Counts { owns, wants };
    narrow_by(cl, base, bs, p, o, &own, &meet, n, codes, dom)
}
