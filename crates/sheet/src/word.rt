//! What the words of a line say, each read by one rule.
ghost use Rattle.std.specs.Prelude.{◌≡◌, ℕ, ◌<◌, ◌≤◌, List, vec_items, Option as Maybe, IfSome};
ghost use Rattle.sheet.specs.Bytes.{hex_digit, byte_of};
ghost use Rattle.sheet.specs.Lines.{Tells};
ghost use Rattle.sheet.specs.Numbers.{decimal_digit, number_of, only_number, NumbersReadBack, ZerosDropped};
ghost use Rattle.sheet.specs.Words.{plain_words, all_of};

use super::LineError;
use super::lexer::Words;
use std::alloc::Global;

/// What a word can say, by the rule of its type.
pub trait Word: Sized {
    ghost said: { List ℕ → Maybe Self };

    /// What the word says, if it follows the rule.
    fn from_word(word: &[u8]) -> Option<Self>
        ensures { result ≡ said word.now };
}

/// A byte of a telegram, in two hexadecimal digits.
impl Word for u8 {
    ghost said = { byte_of };

    fn from_word(word: &[u8]) -> Option<u8> {
        match word {
            // Two digits below 16 make a byte.
            [high, low] => Some((digit(*high, 16)? * 16 + digit(*low, 16)?) as u8),
            _ => None,
        }
    }
}

/// The number of a cell, or of cells.
impl Word for u16 {
    ghost said = { number_of 65535 };

    fn from_word(word: &[u8]) -> Option<u16> {
        u16::try_from(u32::from_word(word)?).ok()
    }
}

/// The value of a cell.
impl Word for u32 {
    ghost said = { number_of 4294967295 };

    // Digit by digit: `parse` would take a sign `+` too, and `try_fold` does not tell at which number it broke off.
    fn from_word(word: &[u8]) -> Option<u32> {
        if word.is_empty() {
            return None;
        }
        let mut number: u32 = 0;
        for code in word {
            number = number.checked_mul(10)?.checked_add(digit(*code, 10)?)?;
        }
        Some(number)
    }
}

/// The value of a digit, of either case where it is a letter.
fn digit(code: u8, radix: u32) -> Option<u32>
    requires least { 2 ≤ radix }
    requires most { radix ≤ 36 }
    ensures decimal { radix ≡ 10 → result ≡ decimal_digit code }
    ensures hex { radix ≡ 16 → result ≡ hex_digit code }
    ensures bound { IfSome result (λ d. d < radix) }
{
    char::from(code).to_digit(radix)
}

/// What the words to come say.
pub fn read_all<T: Word + Drop>(heap: Global, words: Words) -> Result<Vec<T>, LineError>
    ensures { Tells vec_items result (all_of T.Word.said (plain_words words.entry.rest.now)) }
{
    // A loop: what `try_collect` answers is told by a run of the iterator, which is not tied to the words by itself.
    let mut all = Vec::new(heap);
    for word in words {
        all.push(T::from_word(word).ok_or(LineError::NotUnderstood)?)?;
    }
    Ok(all)
}

/// The number that the only word to come says.
// Only the number of a cell, or of cells, ever stands alone, so this is for no other `Word`.
pub fn only_number(mut words: Words) -> Option<u16>
    ensures { result ≡ only_number (plain_words words.entry.rest.now) }
{
    let word = words.next()?;
    words.end()?;
    u16::from_word(word)
}

/// A number is read back from what is written of it, and a zero in front of it does not matter.
pub fn laws_of_numbers()
    ensures back { NumbersReadBack }
    ensures zeros { ZerosDropped }
{}
