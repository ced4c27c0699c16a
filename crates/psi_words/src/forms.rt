//! Words of a form, and their values.
ghost use Rattle.std.specs.Prelude.{◌≡◌, ◌≤◌, ◌<◌, ◌^◌, ◌⊎◌, true, None, Some, Ok, Err, IfOk, IfErr, SomeIff, if◌then◌else◌};
ghost use Rattle.std.specs.Char.{is_ascii_digit};
ghost use Rattle.std.specs.List.{list_all};
ghost use Rattle.psi_words.specs.Forms.{is_number, is_numeral, is_of, written_number, read, seed_of};
ghost use Rattle.psi_words.specs.Forms.Form.{Number, Seed, File};
ghost use Rattle.psi_words.specs.declared.fault.WordFault.TheVariants.{NoMemory, Value};

use crate::fault::WordFault;
use crate::name::Name;
use hex::FromHex;
use std::alloc::Global;

/// The value of a number word from `low` to `high`, which stands at the number `at` of all words.
pub fn read_number(word: &str, at: u32, low: u64, high: u64) -> Result<u64, WordFault>
    ensures value { result ≡ read (Number low high) at word.now (written_number word.now) }
    ensures within { IfOk result (λ value. (low ≤ value) × (value ≤ high)) }
{
    match value(word.as_bytes()) {
        Some(value) if low <= value && value <= high => Ok(value),
        _ => Err(WordFault::Value { word: at }),
    }
}

// The value of a number word. None where the word is none, or has a greater value than fits.
fn value(word: &[u8]) -> Option<u64>
    ensures { result ≡ (if is_of (Number 0 18446744073709551615) word.now then Some
        (written_number word.now) else None) }
{
    if is_number(word) {
        digits_value(word)
    } else {
        None
    }
}

// Whether a word is `0`, or decimal digits that do not begin with 0.
fn is_number(word: &[u8]) -> bool
    ensures { result ≡ is_number word.now }
{
    word == b"0".as_slice() || (is_numeral(word) && word[0] != b'0')
}

// Whether a word is decimal digits, one at least.
fn is_numeral(word: &[u8]) -> bool
    ensures { result ≡ is_numeral word.now }
{
    !word.is_empty() && all_digits(word)
}

// Whether all bytes are decimal digits.
fn all_digits(word: &[u8]) -> bool
    ensures { result ≡ list_all is_ascii_digit word.now }
{
    word.iter().all(|digit| digit.is_ascii_digit())
}

// The number that decimal digits write. None where it does not fit.
fn digits_value(digits: &[u8]) -> Option<u64>
    requires { is_numeral digits.now ≡ true }
    ensures { SomeIff result (written_number digits.now < 2 ^ 64) (written_number digits.now) }
{
    let mut number: u64 = 0;
    for digit in digits {
        number = number
            .checked_mul(10)?
            .checked_add(u64::from(*digit - b'0'))?;
    }
    Some(number)
}

/// The bytes of a SEED, which stands at the number `at` of all words: 64 hexadecimal digits of either case.
pub fn read_seed(word: &str, at: u32) -> Result<[u8; 32], WordFault>
    ensures { result ≡ read Seed at word.now (seed_of word.now) }
{
    match <[u8; 32] as FromHex>::from_hex(word) {
        Ok(seed) => Ok(seed),
        Err(_) => Err(WordFault::Value { word: at }),
    }
}

/// The name of a FILE, which stands at the number `at` of all words and is not empty.
pub fn read_file(alloc: Global, word: &str, at: u32) -> Result<Name, WordFault>
    ensures name { IfOk result (λ name. read File at word.now word.now ≡ Ok name) }
    ensures fault { IfErr result (λ fault. (read File at word.now word.now ≡ Err fault)
        ⊎ ((fault ≡ NoMemory) × (is_of File word.now ≡ true))) }
{
    if word.is_empty() {
        return Err(WordFault::Value { word: at });
    }
    Ok(Name::of(String::from_str(alloc, word)?))
}
