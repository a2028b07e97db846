//! The text of a fraction, read and printed.

ghost use Rattle.std.specs.Prelude.{◌≡◌, IfOk, MatchOption};
ghost use Rattle.std.specs.Fmt.{signed_decimal};
ghost use Rattle.frac_128.specs.Text.{fraction_text, IsFractionText, NamesNoFraction, NamesNoNumber, NoPair, IsPair};

use crate::{Fraction, gcd};
use itoa::Buffer;
use std::alloc::{AllocError, Global};
use std::str;

impl Fraction {
    /// The fraction that prints as `text`, or None where no fraction does.
    pub fn read(text: &[u8]) -> Option<Fraction>
        ensures { MatchOption result (NamesNoFraction text.now) (λ f. IsFractionText text.now f.num f.den) }
    {
        let text = str::from_utf8(text).ok()?;
        match text.split_once('/') {
            None => {
                let num = read_number(text)?;
                Some(Fraction { num, den: 1 })
            }
            Some((num, den)) => read_pair(num, den),
        }
    }

    /// `P`, or `P/Q` with Q at least 2, in decimal.
    pub fn print(self, alloc: Global) -> Result<Vec<u8>, AllocError>
        ensures { IfOk result (λ text. text.items ≡ fraction_text self.num self.den) }
    {
        let mut buffer = Buffer::new();
        let mut text = Vec::from_slice(alloc, buffer.format(self.num).as_bytes())?;
        if self.den != 1 {
            text.push(b'/')?;
            text.extend_from_slice(buffer.format(self.den).as_bytes())?;
        }
        Ok(text)
    }
}

/// The fraction in lowest terms, its denominator at least 2, whose numbers print as the two texts.
fn read_pair(num: &str, den: &str) -> Option<Fraction>
    ensures { MatchOption result (NoPair num.now den.now) (λ f. IsPair num.now den.now f.num f.den) }
{
    let num = read_number(num)?;
    let den = read_number(den)?;
    if den >= 2 && gcd(num.unsigned_abs(), den.unsigned_abs()) == 1 {
        Some(Fraction { num, den })
    } else {
        None
    }
}

/// The number that prints as `text`, or None where no number does.
fn read_number(text: &str) -> Option<i128>
    ensures { MatchOption result (NamesNoNumber text.now) (λ n. text.now ≡ signed_decimal n) }
{
    let number = text.parse::<i128>().ok()?;
    // `parse` also takes a leading `+`, leading zeros and `-0`.
    let mut buffer = Buffer::new();
    if buffer.format(number) == text {
        Some(number)
    } else {
        None
    }
}
