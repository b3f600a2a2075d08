// The printed form of a fraction.

ghost use Rattle.std.specs.Prelude.{◌≡◌, pos, ◌+◌, ◌*◌, ◌^◌, ◌<◌, ◌≤◌, ◌++◌, [], length, replicate, unsigned_abs, IfSome, OnOk, OnErr, string_bytes, string_len};
ghost use Rattle.std.specs.Fmt.{decimal};
ghost use Rattle.frac128.specs.Appends.{Appends, HasRoom};
ghost use Rattle.frac128.specs.Printed.{least_places, short_decimal, with_point, fraction_text, size_text, minus_text, printed, PlacesAreLeast, PrintedReadsBack};

use crate::number::Frac;
use itoa::Buffer;
use memory::Memory;

/// A decimal: a whole number, and how many of its digits stand behind the point.
#[derive(Clone, Copy)]
pub struct Decimal {
    pub digits: u128,
    pub places: usize,
}

const LIMIT: u128 = 1 << 127;

/// A sign, and two numbers of at most 40 bytes with a mark between them.
const LONGEST: usize = 82;

/// Appends where there is room already, so that it cannot fail.
fn append(to: &mut String, piece: &str)
    requires { HasRoom to.old (length piece.now) }
    ensures { Appends to.old to.new piece.now }
{
    let _ = to.push_str(piece);
}

fn append_whole(to: &mut String, n: u128)
    requires { HasRoom to.old 40 }
    ensures text { Appends to.old to.new (decimal n) }
    ensures short { length (decimal n) ≤ 40 }
{
    let mut buffer = Buffer::new();
    append(to, buffer.format(n));
}

fn append_zeros(to: &mut String, count: usize)
    requires { HasRoom to.old count }
    ensures { Appends to.old to.new (replicate count 48) }
{
    for _ in 0..count {
        append(to, "0");
    }
}

/// Digits with a point before the last `places` of them.
fn append_decimal(to: &mut String, number: Decimal)
    requires places { number.places ≤ 18 }
    requires room { HasRoom to.old 80 }
    ensures { Appends to.old to.new (with_point (decimal number.digits) number.places) }
{
    let mut buffer = Buffer::new();
    let digits = buffer.format(number.digits);
    let len = digits.len();
    if len <= number.places {
        append(to, "0.");
        append_zeros(to, number.places - len);
        append(to, digits);
        return;
    }
    let (front, back) = digits.split_at(len - number.places);
    append(to, front);
    append(to, ".");
    append(to, back);
}

/// The least power of ten, up to the 18th, that `den` divides.
fn least_places(den: u128) -> Option<usize>
    requires { 0 < den }
    ensures places { result ≡ least_places 19 0 den }
    ensures few { IfSome result (λ k. k ≤ 18) }
{
    let mut power: u128 = 1;
    for places in 0..19 {
        if power % den == 0 {
            return Some(places);
        }
        power *= 10;
    }
    None
}

/// `size / den` as a decimal of at most 18 places whose digits are below `2 ^ 127`.
fn short_decimal(size: u128, den: u128) -> Option<Decimal>
    requires { 0 < den }
    ensures decimal { result ≡ short_decimal size den }
    ensures few { IfSome result (λ x. x.places ≤ 18) }
{
    let places = least_places(den)?;
    let scale = 10u128.pow(places as u32) / den;
    match size.checked_mul(scale) {
        Some(digits) if digits < LIMIT => Some(Decimal { digits, places }),
        _ => None,
    }
}

fn append_fraction(to: &mut String, size: u128, den: u128)
    requires den { 0 < den }
    requires room { HasRoom to.old 81 }
    ensures { Appends to.old to.new (fraction_text size den (short_decimal size den)) }
{
    match short_decimal(size, den) {
        Some(number) => append_decimal(to, number),
        None => {
            append_whole(to, size);
            append(to, "/");
            append_whole(to, den);
        }
    }
}

fn append_size(to: &mut String, size: u128, den: u128)
    requires den { 0 < den }
    requires room { HasRoom to.old 81 }
    ensures { Appends to.old to.new (size_text size den) }
{
    if den == 1 {
        append_whole(to, size);
    } else {
        append_fraction(to, size, den);
    }
}

fn append_sign(to: &mut String, num: i128)
    requires { HasRoom to.old 1 }
    ensures { Appends to.old to.new (minus_text num) }
{
    if num < 0 {
        append(to, "-");
    }
}

impl Frac {
    /// Appends the number: as a whole number, as a decimal of at most 18 places where it has one whose
    /// digits are below `2 ^ 127`, or else as numerator, `/` and denominator.
    pub fn write(self, to: &mut String) -> Result<(), Memory>
        ensures ok { OnOk result (string_bytes to.new ≡ string_bytes to.old ++ printed self) }
        ensures err { OnErr result (string_bytes to.new ≡ string_bytes to.old) }
    {
        let num = self.num();
        let den = self.den() as u128;
        match to.reserve(LONGEST) {
            Ok(()) => {}
            Err(_) => return Err(Memory),
        }
        append_sign(to, num);
        append_size(to, num.unsigned_abs(), den);
        Ok(())
    }
}

/// A decimal is printed with as few places as it can be.
pub fn places_are_least()
    ensures { PlacesAreLeast }
{}

/// What is printed without `/` is a narrow numeral of the same value.
pub fn printed_reads_back()
    ensures { PrintedReadsBack }
{}
