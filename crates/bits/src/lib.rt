// Binary digits, truth values, counting and filled arrays: what stands in specs/ is what the crates above cite. The code is one
// test of a digit, and powers of 2.
#![tactic(auto)]

ghost use Rattle.std.specs.Prelude.{◌≡◌, ◌<◌, ◌^◌};
ghost use Rattle.bits.specs.Digit.{on};

// Whether digit k of x is 1.
pub fn has(x: u64, k: u32) -> bool
    requires { k < 64 }
    ensures { result ≡ on x k }
{
    (x >> k) & 1 == 1
}

// 2 to the power n.
pub fn power(n: usize) -> usize
    requires { n < 64 }
    ensures { result ≡ 2 ^ n }
{
    1 << n
}
