// Sets of outputs as numbers: output o is in the set whose digit o is 1. Their members in order, how many they have, and the order
// in which sets are asked about. Rests on limits and bits.
#![tactic(auto)]

ghost use Rattle.std.specs.Prelude.{◌≡◌, ◌≤◌};
ghost use Rattle.limits.specs.Limits.{search_outputs};
ghost use Rattle.subsets.specs.Rank.{rank};
ghost use Rattle.subsets.specs.Listed.{Lists};

use limits::SEARCH_OUTPUTS;

// The members of a set: so many, in the first places of from.
#[derive(Clone, Copy)]
pub struct Listed {
    pub count: usize,
    pub from: [u8; SEARCH_OUTPUTS],
}

// The members of the set among the first m outputs.
pub fn members(set: u8, m: usize) -> Listed
    requires { m ≤ search_outputs }
    ensures { Lists m set result.count result.from }
{
    let mut from = [0u8; SEARCH_OUTPUTS];
    let mut n: usize = 0;
    for o in 0..m {
        if bits::has(u64::from(set), o as u32) {
            from[n] = o as u8;
            n += 1;
        }
    }
    Listed { count: n, from }
}

// The set of rank r among the sets of m outputs, which has its digits turned round.
pub fn of_rank(r: u8, m: usize) -> u8
    requires { m ≤ search_outputs }
    ensures { result ≡ rank m r }
{
    let mut s: u8 = 0;
    for i in 0..m {
        s = s * 2 + u8::from(bits::has(u64::from(r), i as u32));
    }
    s
}
