// Wishes as units, their trimming, and what is read of a carrier, in metres.
#![tactic(auto)]

ghost use Rattle.std.specs.Prelude.{◌≡◌, true, false, cond, ℕ, ◌+◌, ◌^◌, ◌≤◌, ◌<◌, ℤ, pos, negsuc, Some};
ghost use Rattle.std.specs.Float.{fin, binary32};
ghost use Rattle.std.specs.Float.Ieee.{lt, mul, of_bits};
ghost use Rattle.std.specs.Float.Ieee.Exact.{HasValue};
ghost use Rattle.std.specs.Int.Signed.{mag};
ghost use Rattle.std.specs.Range.{range_inclusive_start, range_inclusive_end, range_inclusive_exhausted};
ghost use Rattle.wish.specs.Rounding.{rounded_size, rounded_times};
ghost use Rattle.wish.specs.Units.{lies_within, units_within, units_of, size_in};
ghost use Rattle.wish.specs.declared.Wish.TheVariants.{Acceleration, TargetSpeed};
ghost use Rattle.wish.specs.Trimming.{trimmed_to};
ghost use Rattle.wish.specs.Reading.{reading_of};

use std::ops::RangeInclusive;

// "A wish is of one of four sorts": whole units, an acceleration in m/s², a target speed in m/s, or hold.
#[derive(Clone, Copy)]
pub enum Wish {
    Units(i16),
    Acceleration(f32),
    TargetSpeed(f32),
    Hold,
}

// Position in metres and speed in m/s.
#[repr(C)]
#[derive(Clone, Copy)]
pub struct Reading {
    pub position: f64,
    pub speed: f64,
}

// ±2 ^ −126, the least normal number in size.
fn least_normal(minus: bool) -> f32
    ensures { result ≡ fin minus 1 (negsuc 125) }
{
    if minus {
        -f32::MIN_POSITIVE
    } else {
        f32::MIN_POSITIVE
    }
}

// A float that asks for what the float of these bits does. `f32::from_bits` leaves a NaN's patterns open, so they are told apart first; and no
// subnormal number is made, since a host's mode of the processor may flush it or trap on it, in any comparison or product.
fn float_of(bits: u32) -> f32
    ensures acceleration { (v : ℕ) → units_of (Acceleration result) v ≡ units_of (Acceleration (of_bits binary32 bits)) v }
    ensures target { (v : ℕ) → units_of (TargetSpeed result) v ≡ units_of (TargetSpeed (of_bits binary32 bits)) v }
{
    let size = bits % 0x8000_0000;
    if size > 0x7F80_0000 {
        return f32::NAN;
    }
    if (size > 0) & (size < 0x80_0000) {
        return least_normal(bits >= 0x8000_0000);
    }
    f32::from_bits(bits)
}

// The wish of a float's bits, as an acceleration. Which float it holds is open: at every speed the units are those of the bits' own.
// The two sorts have a function each, since the calls and the laws of bits go by these names.
pub fn acceleration_of(bits: u32) -> Wish
    ensures { (v : ℕ) → units_of result v ≡ units_of (Acceleration (of_bits binary32 bits)) v }
{
    Wish::Acceleration(float_of(bits))
}

// The same as a target speed.
pub fn target_of(bits: u32) -> Wish
    ensures { (v : ℕ) → units_of result v ≡ units_of (TargetSpeed (of_bits binary32 bits)) v }
{
    Wish::TargetSpeed(float_of(bits))
}

// A float as a fraction: digits / 2 ^ shift, negative where `negative` is true.
#[derive(Clone, Copy)]
struct Fraction {
    negative: bool,
    digits: u32,
    shift: u32,
}

impl Fraction {
    // The fraction that y, from −8192 to 8192, is by its bits. The bound keeps the shift from falling below 0.
    fn of(y: f32) -> Fraction
        requires { lies_within (fin true 1 (pos 13)) (fin false 1 (pos 13)) y ≡ true }
        ensures { HasValue y result.negative result.digits (2 ^ result.shift) × (result.digits < 16777216) }
    {
        let bits = y.to_bits();
        let negative = bits >= 0x8000_0000;
        let exponent = (bits % 0x8000_0000) >> 23;
        let significand = bits % 0x80_0000;
        if exponent == 0 {
            // subnormal: no leading one
            Fraction {
                negative,
                digits: significand,
                shift: 149,
            }
        } else {
            Fraction {
                negative,
                digits: 0x80_0000 + significand,
                shift: 150 - exponent,
            }
        }
    }

    // The size of the whole number to which it is rounded, the same for both signs. The rule of rounding stands here alone: less than half a unit
    // is added before the cut, and where the whole part is odd exactly half, so that a half goes up to the even one.
    fn rounded_size(self) -> u32
        requires { self.digits < 16777216 }
        ensures { result ≡ rounded_size self.digits (2 ^ self.shift) }
    {
        // 2 ^ 25 parts make a unit, so that 0xFF_FFFF is one part less than half. Digits below 2 ^ 24 are less than that half after a shift by 25,
        // and no larger one leaves more.
        let parts = (self.digits as u64) << (25 - self.shift.min(25));
        let odd = (parts >> 25) % 2;
        ((parts + 0xFF_FFFF + odd) >> 25) as u32
    }
}

// y, from −8192 to 8192, rounded to a whole number.
fn rounded(y: f32) -> i64
    requires { lies_within (fin true 1 (pos 13)) (fin false 1 (pos 13)) y ≡ true }
    ensures { result ≡ rounded_times 1 y }
{
    let f = Fraction::of(y);
    let size = f.rounded_size() as i64;
    if f.negative { -size } else { size }
}

// `factor` times x, rounded, where x lies in the range, ends included. Not-a-number lies nowhere. In the ranges of both sorts the product is exact.
fn units_within(range: RangeInclusive<f32>, factor: f32, x: f32) -> Option<i64>
    requires whole { range_inclusive_exhausted range ≡ false }
    requires in_bounds { lies_within (range_inclusive_start range) (range_inclusive_end range) x ≡ true
        → lies_within (fin true 1 (pos 13)) (fin false 1 (pos 13)) (mul binary32 x factor) ≡ true }
    ensures small { (z : ℤ) → result ≡ Some z → mag z ≤ 8192 }
    ensures given { result ≡ units_within (range_inclusive_start range) (range_inclusive_end range) x (rounded_times 1 (mul binary32 x factor)) }
{
    range.contains(&x).then(|| rounded(x * factor))
}

// The units of a wish at the present speed v, before trimming, and none for a float outside its range. They are 64 bits wide, since v may be any
// number of 32.
pub fn units(w: Wish, v: u32) -> Option<i64>
    ensures given { result ≡ units_of w v }
    ensures small { size_in result ≤ 32767 + v }
{
    match w {
        Wish::Units(u) => Some(u as i64),
        Wish::Acceleration(x) => units_within(-16.0..=16.0, 16.0, x),
        Wish::TargetSpeed(x) => units_within(0.0..=64.0, 128.0, x).map(|z| z - v as i64),
        Wish::Hold => Some(0),
    }
}

// The units w, trimmed for the speed v. Above the limit the ends cross, and the lower one wins: nothing brakes harder than `hardest`.
pub fn trimmed(w: i64, v: u32, hardest: u32, most: u32, limit: u32) -> i64
    ensures { result ≡ trimmed_to w v hardest most limit }
{
    let low = -(hardest.min(v) as i64);
    let high = (limit as i64 - v as i64).min(most as i64);
    w.min(high).max(low)
}

// x, and 0 where it is none above. A whole number of 32 bits becomes a double by a difference of two, and a host that rounds down gets −0 of it for 0.
// `f64::max` would leave open which zero it answers there.
fn zero_or_above(x: f64) -> f64
    ensures { result ≡ cond (lt (fin false 0 (pos 0)) x) x (fin false 0 (pos 0)) }
{
    if 0.0 < x { x } else { 0.0 }
}

// The position p and the speed v in metres and m/s. A whole number of 32 bits by a power of two loses nothing as a double.
pub fn reading_of(p: u32, v: u32) -> Reading
    ensures value { result ≡ reading_of p v }
    ensures has_value { HasValue result.position false p 2048 × HasValue result.speed false v 128 }
{
    Reading {
        position: zero_or_above((p as f64) / 2048.0),
        speed: zero_or_above((v as f64) / 128.0),
    }
}
