// Whole numbers that a text tells in digits, and how many units a search may spend.
ghost use Rattle.std.specs.Prelude.{◌≡◌, ◌≤◌, IfSome};
ghost use Rattle.cell_refs.specs.Units as read;

/// The greatest number of units that a search may spend.
pub const MOST_UNITS: u64 = 1_000_000;

/// The number of units that a text is: a whole number in digits, from 1 to the greatest.
pub fn units_in(text: &str) -> Option<u64>
    ensures read { result ≡ read.units_in text.now }
    ensures few { IfSome result (λ n. n ≤ MOST_UNITS) }
{
    number_up_to(text, MOST_UNITS)
}

/// The number that a text is: a whole number in digits, from 1 to the greatest that is meant.
pub fn number_up_to(text: &str, most: u64) -> Option<u64>
    ensures read { result ≡ read.number_up_to most text.now }
    ensures few { IfSome result (λ n. n ≤ most) }
{
    if text.starts_with('+') {
        return None;
    }
    match text.parse::<u64>() {
        Ok(number) => {
            if 1 <= number && number <= most {
                Some(number)
            } else {
                None
            }
        }
        Err(_) => None,
    }
}
