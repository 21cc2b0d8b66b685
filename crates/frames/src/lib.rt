// One line of a sheet: read as a frame that borrows its digits, as an entry in numbers, and written. What is read is
// written again byte for byte, and what is written reads back.
#![tactic(auto)]

ghost use Rattle.std.specs.Prelude.{◌≡◌, ◌+◌, ◌^◌, ◌<◌, ◌≤◌, length};
ghost use Rattle.frames.specs.Digits.{is_digit, digit_value, digit_of, value, digits};

mod entries;
mod kinds;
mod lines;
mod parsing;
mod printing;
mod shapes;

pub use entries::Entry;
pub use kinds::Kind;
pub use lines::first_line;
pub use parsing::{parse, read};
pub use printing::write;
pub use shapes::Frame;

// Whether a byte is a digit, 0-9 or a-f.
fn is_digit(byte: u8) -> bool
    ensures { result ≡ is_digit byte }
{
    matches!(byte, b'0'..=b'9' | b'a'..=b'f')
}

// What a digit counts; other bytes count nothing.
fn digit_value(byte: u8) -> u8
    ensures value { result ≡ digit_value byte }
    ensures bound { result < 16 }
{
    match byte {
        b'0'..=b'9' => byte - b'0',
        b'a'..=b'f' => byte - b'a' + 10,
        _ => 0,
    }
}

// The number that at most eight digits write.
#[tactic(auto, using(crate::proofs::Powers::power_room))]
fn number(digits: &[u8]) -> u32
    requires { length digits.now ≤ 8 }
    ensures value { result ≡ value digits.now }
    ensures bound { result < 16 ^ length digits.now }
{
    let mut number = 0;
    for digit in digits {
        number = number * 16 + u32::from(digit_value(*digit));
    }
    number
}

// The number that four digits write.
fn short_number(digits: &[u8]) -> u16
    requires { length digits.now ≡ 4 }
    ensures { result ≡ value digits.now }
{
    number(digits) as u16
}

// The digit that counts a number below sixteen.
fn digit_of(number: u8) -> u8
    requires { number < 16 }
    ensures { result ≡ digit_of number }
{
    if number < 10 {
        b'0' + number
    } else {
        b'a' + (number - 10)
    }
}

// Writes the last digits of a number, as many as there is room for.
#[tactic(auto, unfolding(crate::specs::Digits::digits))]
fn put_number(slot: &mut [u8], number: u32)
    ensures { slot.new ≡ digits (length slot.old) number }
{
    if let Some((digit, front)) = slot.split_last_mut() {
        *digit = digit_of((number % 16) as u8);
        put_number(front, number / 16);
    }
}
