// Sizes and times.
ghost use Rattle.std.specs.Prelude.{◌≡◌, ◌≤◌, ◌<◌, ◌-◌, ◌^◌, ◌*◌, ◌+◌, min, length, option_map, IfSome};
ghost use Rattle.std.specs.Str.{bytes_eq};
ghost use Rattle.serde_json.specs.View.{view};
ghost use Rattle.ccr_script.specs.Amounts.{amount_of, amount_of_text as amount_of_text_of, factor_of, digit_count as digit_count_of, number_after, is_digit as is_digit_of, size_factor as size_factor_of, time_factor as time_factor_of};

use serde_json::Value;

/// What an amount counts.
#[derive(Clone, Copy, Debug, PartialEq, Eq)]
pub enum Unit {
    /// A plain number.
    Count,
    /// Bytes, also as a text of digits and `b`, `kb`, `mb` or `gb`, in steps of 1024.
    Size,
    /// Milliseconds, also as a text of digits and `ms`, `s`, `m`, `h` or `d`.
    Time,
}

/// The amount that a value is, or `u64::MAX` where it is greater than that.
pub fn amount(unit: Unit, value: &Value) -> Option<u64>
    ensures { result ≡ option_map (min (2 ^ 64 - 1)) (amount_of unit (view value.now)) }
{
    match value.as_u64() {
        Some(number) => Some(number),
        None => amount_of_text(unit, value.as_str()?),
    }
}

#[tactic(auto, using(crate::proofs::Digits::digit_rules))]
fn amount_of_text(unit: Unit, text: &str) -> Option<u64>
    ensures { result ≡ option_map (min (2 ^ 64 - 1)) (amount_of_text_of unit text.now) }
{
    let bytes = text.as_bytes();
    let count = digit_count(bytes);
    if count == 0 {
        return None;
    }
    let factor = factor(unit, &bytes[count..])?;
    let number = number_of_digits(&bytes[..count]);
    Some(number.saturating_mul(factor))
}

/// How many digits a text begins with.
#[tactic(auto, using(crate::proofs::Digits::count_rules))]
fn digit_count(bytes: &[u8]) -> usize
    ensures value { result ≡ digit_count_of bytes.now }
    ensures within { result ≤ length bytes.now }
{
    let mut count = 0;
    for byte in bytes {
        if !is_digit(*byte) {
            return count;
        }
        count += 1;
    }
    count
}

fn is_digit(byte: u8) -> bool
    ensures { result ≡ is_digit_of byte }
{
    b'0' <= byte && byte <= b'9'
}

/// The number of these digits, or `u64::MAX` where it is greater than that.
#[tactic(auto, using(crate::proofs::Digits::number_rules))]
fn number_of_digits(digits: &[u8]) -> u64
    ensures { result ≡ min (2 ^ 64 - 1) (number_after 0 digits.now) }
{
    let mut number: u64 = 0;
    for digit in digits {
        number = next_number(number, *digit);
    }
    number
}

fn next_number(number: u64, digit: u8) -> u64
    ensures { result ≡ min (2 ^ 64 - 1) (number * 10 + (digit - 48)) }
{
    number
        .saturating_mul(10)
        .saturating_add(u64::from(digit.saturating_sub(b'0')))
}

/// How many of the least unit this unit has.
#[tactic(auto, unfolding(crate::specs::Amounts::factor_of))]
fn factor(unit: Unit, name: &[u8]) -> Option<u64>
    ensures value { result ≡ factor_of unit name.now }
    ensures some { IfSome result (λ factor. 1 ≤ factor) }
{
    match unit {
        Unit::Count => None,
        Unit::Size => size_factor(name),
        Unit::Time => time_factor(name),
    }
}

fn is(name: &[u8], text: &str) -> bool
    ensures { result ≡ bytes_eq name.now text.now }
{
    name == text.as_bytes()
}

#[tactic(auto, unfolding(crate::specs::Amounts::size_factor))]
fn size_factor(name: &[u8]) -> Option<u64>
    ensures value { result ≡ size_factor_of name.now }
    ensures some { IfSome result (λ factor. 1 ≤ factor) }
{
    if is(name, "b") {
        return Some(1);
    }
    if is(name, "kb") {
        return Some(1_024);
    }
    if is(name, "mb") {
        return Some(1_048_576);
    }
    if is(name, "gb") {
        return Some(1_073_741_824);
    }
    None
}

#[tactic(auto, unfolding(crate::specs::Amounts::time_factor))]
fn time_factor(name: &[u8]) -> Option<u64>
    ensures value { result ≡ time_factor_of name.now }
    ensures some { IfSome result (λ factor. 1 ≤ factor) }
{
    if is(name, "ms") {
        return Some(1);
    }
    if is(name, "s") {
        return Some(1_000);
    }
    if is(name, "m") {
        return Some(60_000);
    }
    if is(name, "h") {
        return Some(3_600_000);
    }
    if is(name, "d") {
        return Some(86_400_000);
    }
    None
}
