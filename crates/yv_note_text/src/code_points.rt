//! Characters by their numbers in Unicode.
ghost use Rattle.std.specs.Prelude.{◌≡◌, ◌<◌, ◌≤◌, ◌/◌, ◌%◌, ◌++◌, ◌∷◌, [], OnOk, string_bytes};
ghost use Rattle.yv_note_text.specs.{Quotes.{Extends}, CodePoints.{hex_digit, last_digits, digit_count, code_point}};

use std::alloc::AllocError;

/// Adds the number of a character in Unicode, as U+001B.
pub fn push_code_point(text: &mut String, character: char) -> Result<(), AllocError>
    // The text is extended.
    ensures grows { OnOk result (Extends (string_bytes text.old) (string_bytes text.new)) }
    // It is extended by `U+` and the number in upper-case digits to base 16: four, or as many as it
    // needs.
    ensures writes { OnOk result
        (string_bytes text.new ≡ string_bytes text.old ++ code_point character) }
{
    text.push_str("U+")?;
    push_digits(text, character as u32)
}

// Adds the digits of a number to base 16: four of them, or as many as it needs.
fn push_digits(text: &mut String, number: u32) -> Result<(), AllocError>
    ensures { OnOk result (string_bytes text.new
        ≡ string_bytes text.old ++ last_digits (digit_count number) number) }
{
    push_high_digits(text, number)?;
    push_byte(text, number / 256)?;
    push_byte(text, number)
}

// Adds those before the last four, of which a number may have none.
fn push_high_digits(text: &mut String, number: u32) -> Result<(), AllocError>
    ensures none { OnOk result (number < 65536 → string_bytes text.new ≡ string_bytes text.old) }
    ensures one { OnOk result (65536 ≤ number → number < 1048576
        → string_bytes text.new ≡ string_bytes text.old ++ last_digits 1 (number / 65536)) }
    ensures two { OnOk result (1048576 ≤ number
        → string_bytes text.new ≡ string_bytes text.old ++ last_digits 2 (number / 65536)) }
{
    if number >= 1_048_576 {
        push_digit(text, number / 1_048_576)?;
    }
    if number >= 65_536 {
        push_digit(text, number / 65_536)?;
    }
    Ok(())
}

// Adds the last two digits of a number to base 16.
fn push_byte(text: &mut String, number: u32) -> Result<(), AllocError>
    ensures { OnOk result
        (string_bytes text.new ≡ string_bytes text.old ++ last_digits 2 number) }
{
    push_digit(text, number / 16)?;
    push_digit(text, number)
}

// Adds the last digit of a number to base 16.
fn push_digit(text: &mut String, number: u32) -> Result<(), AllocError>
    ensures { OnOk result
        (string_bytes text.new ≡ string_bytes text.old ++ hex_digit (number % 16) ∷ []) }
{
    text.push(last_digit(number))
}

// The last digit of a number to base 16.
fn last_digit(number: u32) -> char
    ensures value { result ≡ hex_digit (number % 16) }
    ensures ascii { result < 128 }
{
    let digit = (number % 16) as u8;
    char::from(if digit < 10 {
        b'0' + digit
    } else {
        b'A' + (digit - 10)
    })
}
