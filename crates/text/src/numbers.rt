// A number's digits, put and read.
ghost use Rattle.std.specs.Prelude.{◌≡◌, Some, None, ◌&&◌, cond, ◌+◌, ◌≤◌, ◌<◌, leb, length};
ghost use Rattle.text.specs.Numbers.{digit, digits, decimal};
ghost use Rattle.text.specs.Lines.{written};
ghost use Rattle.text.specs.Fields.{digit_in, are_digits, number_spelt, number_in, signed_in, bits_in};

// How many decimal digits n takes: four for each division, and those of what is left.
pub fn decimal_length(n: u64) -> usize
    ensures { result ≡ length (decimal n) }
{
    let mut count = 1;
    let mut rest = n;
    while rest >= 10000 {
        rest /= 10000;
        count += 4;
    }
    if rest < 10 {
        return count;
    }
    if rest < 100 {
        return count + 1;
    }
    if rest < 1000 {
        return count + 2;
    }
    count + 3
}

// The ASCII code of a digit, in upper case.
fn digit(d: u64) -> u8
    requires { d < 16 }
    ensures { result ≡ digit d }
{
    if d < 10 {
        b'0' + d as u8
    } else {
        b'A' + (d - 10) as u8
    }
}

// Puts the last two digits of n in a base.
fn put_two(out: &mut [u8], at: usize, base: u64, n: u64)
    requires base_nonzero { (0 < base) × (base ≤ 16) }
    requires at_in_bounds { at + 2 ≤ length out.old }
    ensures { out.new ≡ written at (digits base 2 n) out.old }
{
    out[at] = digit(n / base % base);
    out[at + 1] = digit(n % base);
}

// Puts the last `count` digits of n in a base, from the last to the first: two for each division of n, and then the one that is left. What is
// left is counted by hand, since a `for` over pairs would reckon each place from the number of the pair.
pub(crate) fn put_digits(out: &mut [u8], at: usize, base: u64, count: usize, n: u64)
    requires base_nonzero { (0 < base) × (base ≤ 16) }
    requires count_in_bounds { at + count ≤ length out.old }
    ensures { out.new ≡ written at (digits base count n) out.old }
{
    let square = base * base;
    let mut left = count;
    let mut rest = n;
    while left > 1 {
        left -= 2;
        put_two(out, at + left, base, rest % square);
        rest /= square;
    }
    if left > 0 {
        out[at] = digit(rest % base);
    }
}

// The number of a digit, 16 for a byte that is none: no digit of any base, so that one comparison tells both.
fn digit_in(byte: u8) -> u64
    ensures { result ≡ digit_in byte }
{
    match byte {
        b'0'..=b'9' => (byte - b'0') as u64,
        b'A'..=b'F' => (byte - b'A' + 10) as u64,
        _ => 16,
    }
}

// The number of digits of a base, where it is at most `most`. What has been read never passes it, so nothing overflows.
fn read_digits(digits: &[u8], base: u64, most: u64) -> Option<u64>
    requires { (0 < base) × (base ≤ 16) }
    ensures { result ≡ cond (are_digits base digits.now && leb (number_spelt base 0 digits.now) most) (Some (number_spelt base 0 digits.now)) None }
{
    let mut value: u64 = 0;
    for &byte in digits {
        let digit = digit_in(byte);
        if digit >= base {
            return None;
        }
        if most < digit {
            return None;
        }
        if (most - digit) / base < value {
            return None;
        }
        value = value * base + digit;
    }
    Some(value)
}

// The decimal number of a field that holds at most `most`.
pub fn read_number(digits: &[u8], most: u64) -> Option<u64>
    ensures { result ≡ number_in most digits.now }
{
    if digits.is_empty() {
        return None;
    }
    if digits.len() > 1 && digits[0] == b'0' {
        return None;
    }
    read_digits(digits, 10, most)
}

// After a minus 32768 is a number too, and takes more than 16 bits until the sign is on.
pub fn read_signed(digits: &[u8]) -> Option<i16>
    ensures { result ≡ signed_in digits.now }
{
    if digits.is_empty() {
        return None;
    }
    if digits[0] == b'-' {
        let size = read_number(&digits[1..], 32768)?;
        return (size > 0).then_some((0 - size as i32) as i16);
    }
    let size = read_number(digits, 32767)?;
    Some(size as i16)
}

// A float's bits. Eight digits are below 2 ^ 32, so the bound refuses none.
pub fn read_bits(digits: &[u8]) -> Option<u32>
    ensures { result ≡ bits_in digits.now }
{
    if digits.len() != 8 {
        return None;
    }
    let bits = read_digits(digits, 16, 0xFFFF_FFFF)?;
    Some(bits as u32)
}
