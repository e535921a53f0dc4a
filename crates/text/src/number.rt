// Numbers of 16 bits, from text.
ghost use Rattle.std.specs.Prelude.{◌≡◌, ◌≤◌, cond, nat_lt, Some, None};
ghost use Rattle.text.specs.Numbers.{digit_value, value_in, word_value};

// The value of a character as a hexadecimal digit, if it is one. It is a match of its own, since the library's `to_digit` takes
// up to 1.6 times as long on hexadecimal texts.
fn digit_value(character: u8) -> Option<u32>
    ensures { result ≡ cond (nat_lt (digit_value character) 16) (Some (digit_value character)) None }
{
    match character {
        b'0'..=b'9' => Some(u32::from(character) - 48),
        b'a'..=b'f' => Some(u32::from(character) - 87),
        b'A'..=b'F' => Some(u32::from(character) - 55),
        _ => None,
    }
}

// The number that the digits make in a base of at most 16, if they are digits and it fits 16 bits. It is a loop of its own, since
// `from_str_radix` takes two to four times as long on decimal texts.
#[tactic(auto, using(crate::proofs::Digits::digit_more, crate::proofs::Digits::digit_none, crate::proofs::Digits::value_none, crate::proofs::Digits::digits_all, crate::proofs::Digits::some_digits))]
fn value_in(base: u32, digits: &[u8]) -> Option<u16>
    requires { base ≤ 16 }
    ensures { result ≡ value_in base digits.now }
{
    if digits.is_empty() {
        return None;
    }
    let mut value = 0u32;
    for character in digits {
        let digit = digit_value(*character)?;
        if digit >= base {
            return None;
        }
        value = value * base + digit;
        if value > 65535 {
            return None;
        }
    }
    Some(value as u16)
}

// The word that a text names: decimal, or hexadecimal after 0x; none for any other text and past 65,535. The prefix is taken off
// the bytes, since `strip_prefix` of a text takes longer, which shows where a text is short or refused.
pub fn parse_word(text: &str) -> Option<u16>
    ensures { result ≡ word_value text.now }
{
    let bytes = text.as_bytes();
    match bytes.strip_prefix(b"0x") {
        Some(digits) => value_in(16, digits),
        None => value_in(10, bytes),
    }
}
