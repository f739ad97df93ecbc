// Lines put into a lent buffer. Each is put whole, and the place after it returned; or, where it doesn't fit, nothing is put and
// the place is as it was.
ghost use Rattle.std.specs.Prelude.{◌≡◌, ◌≤◌, ◌<◌};
ghost use Rattle.text.specs.Numbers.{digits, decimal, hexadecimal};
ghost use Rattle.text.specs.Lines.{line, written, place_after};

use crate::numbers::{decimal_length, put_digits};

pub fn put_bytes(out: &mut [u8], at: usize, bytes: &[u8]) -> usize
    ensures out_after { out.new ≡ written at bytes.now out.old }
    ensures value { result ≡ place_after at bytes.now out.old }
{
    if out.len() < at {
        return at;
    }
    if out.len() - at < bytes.len() {
        return at;
    }
    // Byte by byte: `copy_from_slice` would need the `memmove` of a host.
    for i in 0..bytes.len() {
        out[at + i] = bytes[i];
    }
    at + bytes.len()
}

// A line whose value is the last `count` digits of n in a base.
fn put_line(out: &mut [u8], at: usize, key: &[u8], base: u64, count: usize, n: u64) -> usize
    requires { (0 < base) × (base ≤ 16) }
    ensures out_after { out.new ≡ written at (line key.now (digits base count n)) out.old }
    ensures value { result ≡ place_after at (line key.now (digits base count n)) out.old }
{
    if out.len() < at {
        return at;
    }
    let room = out.len() - at;
    if room < key.len() {
        return at;
    }
    // The newline takes one byte more than the digits.
    if room - key.len() <= count {
        return at;
    }
    let value = put_bytes(out, at, key);
    // Before the digits: the other way round it takes more instructions.
    let next = put_bytes(out, value + count, b"\n");
    put_digits(out, value, base, count, n);
    next
}

pub fn put_decimal_line(out: &mut [u8], at: usize, key: &[u8], n: u64) -> usize
    ensures out_after { out.new ≡ written at (line key.now (decimal n)) out.old }
    ensures value { result ≡ place_after at (line key.now (decimal n)) out.old }
{
    put_line(out, at, key, 10, decimal_length(n), n)
}

pub fn put_hexadecimal_line(out: &mut [u8], at: usize, key: &[u8], n: u64) -> usize
    ensures out_after { out.new ≡ written at (line key.now (hexadecimal 16 n)) out.old }
    ensures value { result ≡ place_after at (line key.now (hexadecimal 16 n)) out.old }
{
    put_line(out, at, key, 16, 16, n)
}
