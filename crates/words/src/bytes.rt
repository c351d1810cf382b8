// Words that are byte strings: pairs of lowercase hexadecimal digits, or `-` for the empty string.
ghost use Rattle.std.specs.Prelude.{◌≡◌, ◌+◌, ◌*◌, ◌/◌, ◌%◌, ◌<◌, ◌&&◌, [], ◌∷◌, ◌++◌, IfOk, if◌then◌else◌, Some, None, vec_items, string_bytes, OnOk};
ghost use Rattle.words.specs.Bytes.{is_hex, hex_value, hex_in, bytes_in, hex_digit, hex_of, hex_text};
ghost use Rattle.words.specs.Outcomes.{Gives};

use crate::faults::*;
use std::alloc::Global;

fn hex_value(digit: u8) -> Option<u8>
    ensures { result ≡ (if is_hex digit then Some (hex_value digit) else None) }
{
    match digit {
        b'0'..=b'9' => Some(digit - b'0'),
        b'a'..=b'f' => Some(digit - b'a' + 10),
        _ => None,
    }
}

fn hex_pair(high: u8, low: u8) -> Option<u8>
    ensures { result ≡ (if is_hex high && is_hex low then Some (16 * hex_value high + hex_value low) else None) }
{
    let high = hex_value(high)?;
    let low = hex_value(low)?;
    Some(16 * high + low)
}

fn hex_bytes(heap: Global, word: &[u8]) -> Result<Vec<u8>, Fault>
    ensures { Gives vec_items result (hex_in word.now) }
{
    let mut bytes = Vec::new(heap);
    let mut left = word;
    while let [high, low, rest @ ..] = left {
        let byte = hex_pair(*high, *low).ok_or(Fault::NotBytes)?;
        bytes.push(byte)?;
        left = rest;
    }
    if left.is_empty() {
        Ok(bytes)
    } else {
        Err(Fault::NotBytes)
    }
}

// The byte string that a word says.
pub fn bytes(heap: Global, word: &str) -> Result<Vec<u8>, Fault>
    ensures { Gives vec_items result (bytes_in word.now) }
{
    match word {
        "" => Err(Fault::NotBytes),
        "-" => Ok(Vec::new(heap)),
        _ => hex_bytes(heap, word.as_bytes()),
    }
}

fn hex_digit(value: u8) -> char
    requires { value < 16 }
    ensures value { result ≡ hex_digit value }
    ensures bound { result < 128 }
{
    char::from_digit(u32::from(value), 16).unwrap()
}

// A byte as two hexadecimal digits behind a text.
fn push_byte(text: &mut String, byte: u8) -> Result<(), Fault>
    ensures { OnOk result (string_bytes text.new ≡ string_bytes text.old ++ (hex_digit (byte / 16) ∷ hex_digit (byte % 16) ∷ [])) }
{
    text.push(hex_digit(byte / 16))?;
    text.push(hex_digit(byte % 16))?;
    Ok(())
}

fn hex_of(heap: Global, bytes: &[u8]) -> Result<String, Fault>
    ensures { IfOk result (λ s. string_bytes s ≡ hex_of bytes.now) }
{
    let mut text = String::new(heap);
    for b in bytes {
        push_byte(&mut text, *b)?;
    }
    Ok(text)
}

// A byte string as it is printed.
pub fn hex_text(heap: Global, bytes: &[u8]) -> Result<String, Fault>
    ensures { IfOk result (λ s. string_bytes s ≡ hex_text bytes.now) }
{
    if bytes.is_empty() {
        return Ok(String::from_str(heap, "-")?);
    }
    hex_of(heap, bytes)
}
