//! Numbers in words.
ghost use Rattle.std.specs.Prelude.{◌≡◌, ◌<◌, ◌≤◌, ◌^◌};
ghost use Rattle.std.specs.Option.{SomeIff};
ghost use Rattle.std.specs.Str.Parse.{IsNumeral, digits_value};
ghost use Rattle.sdv_text.specs.Number.{IsNumber, value_of};

/// The number that a text writes: in decimal digits, or after `0x` in hexadecimal digits of either
/// case. `None` for every other text, and for a number of 2^32 or more.
pub fn number_of(text: &str) -> Option<u32>
    ensures { SomeIff result (IsNumber text.now × (value_of text.now < 2 ^ 32))
        (value_of text.now) }
{
    match text.strip_prefix("0x") {
        Some(digits) => number_in_base(digits, 16),
        None => number_in_base(text, 10),
    }
}

// `from_str_radix` without the plus that it lets stand first.
fn number_in_base(digits: &str, base: u32) -> Option<u32>
    requires low { 2 ≤ base }
    requires high { base ≤ 36 }
    ensures { SomeIff result (IsNumeral base digits.now × (digits_value base digits.now < 2 ^ 32))
        (digits_value base digits.now) }
{
    if digits.starts_with('+') {
        return None;
    }
    u32::from_str_radix(digits, base).ok()
}
