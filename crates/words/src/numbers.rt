// Words that are numbers: decimal digits and nothing else.
ghost use Rattle.std.specs.Prelude.{◌≡◌, ◌≤◌, IfOk};
ghost use Rattle.std.specs.Str.{all_ascii_digits};
ghost use Rattle.words.specs.Numbers.{number_in};

use crate::faults::Fault;

// The number that a word says, whatever the word's length. `above` is the fault of a number that passes `most`.
pub fn number(word: &str, most: u64, above: Fault) -> Result<u64, Fault>
    ensures value { result ≡ number_in most above word.now }
    ensures bound { IfOk result (λ n. n ≤ most) }
{
    if word.is_empty() || !all_digits(word.as_bytes()) {
        return Err(Fault::NotANumber);
    }
    // Digits that do not fit 64 bits are above every `most`.
    match word.parse::<u64>() {
        Ok(n) if n <= most => Ok(n),
        _ => Err(above),
    }
}

fn all_digits(word: &[u8]) -> bool
    ensures { result ≡ all_ascii_digits word.now }
{
    word.iter().all(|b| b.is_ascii_digit())
}
