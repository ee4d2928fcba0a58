// What the lines of a network sheet list besides the inputs: the names of shared tables, and which vertex produces a code
// first. Rests on network for names in a row, and on serving for what a code is.
#![tactic(auto)]

ghost use Rattle.std.specs.Prelude.{◌≡◌, map, ◌++◌, ℕ, ◌+◌, ◌*◌, ◌≤◌, ◌<◌, length};
ghost use Rattle.limits.specs.Limits.{max_cells, max_vertices, max_codes};
ghost use Rattle.names.specs.Pack.{name_of};
ghost use Rattle.network.specs.Printer.{lut_name};
ghost use Rattle.network.specs.Numbers.{numbers_of};
ghost use Rattle.serving.specs.Build.{code_in};
ghost use Rattle.network.specs.Shown.{max_names, shown, item};
ghost use Rattle.netnames.specs.Listed.{one_digit, Firsts};

use limits::Vertex;
use network::Names;

// The bytes of a shared table's name: the first one, and that of table 0's number.
const UNDERSCORE: u64 = b'_' as u64;

const ZERO: u64 = b'0' as u64;

// The names of a, then those of b.
pub fn joined(a: Names, b: Names) -> Names
    requires { a.count + b.count ≤ max_names }
    ensures { (shown result ≡ shown a ++ shown b) × (result.count ≡ a.count + b.count) }
{
    let mut r = a;
    for v in &b.list[..b.count] {
        r = network::pushed(r, *v);
    }
    r
}

// The number that holds the name of shared table i.
pub fn lut_name(i: usize) -> u64
    requires { i < one_digit }
    ensures { name_of result ≡ lut_name i }
{
    (i as u64 + ZERO) * names::BASE + UNDERSCORE
}

// The names of the tables below u whose digits are 1 in the mask.
pub fn read_names(u: usize, mask: u8) -> Names
    requires { u ≤ max_cells }
    ensures { (shown result ≡ map lut_name (numbers_of u mask)) × (result.count ≡ length (numbers_of u mask)) × (result.count ≤ u) }
{
    let mut r = network::no_names();
    for i in 0..u {
        if bits::has(u64::from(mask), i as u32) {
            r = network::pushed(r, lut_name(i));
        }
    }
    r
}

// The code of the vertex number n in the tables below u whose digits are 1 in the mask.
fn code_of(u: usize, mask: u8, n: u8) -> usize
    requires { u ≤ max_cells }
    ensures { (result ≡ code_in (numbers_of u mask) n) × (result < max_codes) }
{
    let mut code = 0;
    for i in 0..u {
        if bits::has(u64::from(mask), i as u32) {
            code = code * 2 + usize::from(bits::has(u64::from(n), i as u32));
        }
    }
    code
}

// For each code the first vertex that produces it, where one does. The last vertex goes in first, so that the first one stays.
pub fn firsts(
    u: usize,
    mask: u8,
    codes: [u8; limits::MAX_VERTICES],
    vertices: usize,
) -> [Option<Vertex>; limits::MAX_CODES]
    requires { (u ≤ max_cells) × (vertices ≤ max_vertices) }
    ensures { Firsts (λ (x : ℕ). code_in (numbers_of u mask) (item codes x)) vertices 0 result }
{
    let mut r = [None; limits::MAX_CODES];
    for x in (0..vertices).rev() {
        r[code_of(u, mask, codes[x])] = Some(Vertex(x));
    }
    r
}
