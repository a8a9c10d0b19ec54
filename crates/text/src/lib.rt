// Words and numbers put into a lent buffer of bytes, each behind what stands there: a function is told the place and answers the place behind what it put.
#![tactic(auto)]

ghost use Rattle.std.specs.Prelude.{◌+◌, ◌≤◌, ◌++◌, length};
ghost use Rattle.text.specs.Decimal.{decimal};
ghost use Rattle.text.specs.Put.{Put, most_digits};

// The bytes, from `at` on.
pub fn put_bytes(out: &mut [u8], at: usize, bytes: &[u8]) -> usize
    requires { at + length bytes.now ≤ length out.old }
    ensures { Put out.old at bytes.now out.new result }
{
    for (i, byte) in bytes.iter().enumerate() {
        out[at + i] = *byte;
    }
    at + bytes.len()
}

// The digits of n, from `at` on.
pub fn put_decimal(out: &mut [u8], at: usize, n: u64) -> usize
    requires { at + length (decimal n) ≤ length out.old }
    ensures { Put out.old at (decimal n) out.new result }
{
    if n < 10 {
        out[at] = 48 + n as u8;
        at + 1
    } else {
        let last = put_decimal(out, at, n / 10);
        out[last] = 48 + (n % 10) as u8;
        last + 1
    }
}

// A label and a number behind it, from `at` on.
pub fn put_field(out: &mut [u8], at: usize, label: &[u8], n: u64) -> usize
    requires { at + (length label.now + most_digits) ≤ length out.old }
    ensures put { Put out.old at (label.now ++ decimal n) out.new result }
    ensures upper_bound { result ≤ at + (length label.now + most_digits) }
{
    let from = put_bytes(out, at, label);
    put_decimal(out, from, n)
}
