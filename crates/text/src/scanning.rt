// Numbers found in a line, each after a blank.
ghost use Rattle.text.specs.Scanning.{Figures, NextNumber, AtMostTwo, Listed};

use crate::commands::Numbers;
use crate::faults::Fault;
use std::alloc::Global;

// The number that the digits at the front write, at most `u32::MAX`, and how many digits there are.
fn figures(bytes: &[u8]) -> (u32, usize)
    ensures { Figures bytes.now result.0 result.1 }
{
    let mut value = 0u32;
    for (i, b) in bytes.iter().enumerate() {
        if !b.is_ascii_digit() {
            return (value, i);
        }
        value = value
            .saturating_mul(10)
            .saturating_add(u32::from(*b - b'0'));
    }
    (value, bytes.len())
}

// The number after the blank that the text begins with, and what stands behind it.
fn next(text: &[u8]) -> Option<(u32, &[u8])>
    ensures { NextNumber text.now result }
{
    let [b' ', digits @ ..] = text else {
        return None;
    };
    let (value, count) = figures(digits);
    let (number, rest) = digits.split_at(count);
    match number {
        [] => None,
        // No number of two digits or more begins so.
        [b'0', _, ..] => None,
        _ => Some((value, rest)),
    }
}

// At most two numbers and nothing behind them, for which no memory is asked.
pub fn at_most_two(text: &[u8]) -> Option<Numbers>
    ensures { AtMostTwo text.now result }
{
    if text.is_empty() {
        return Some(Numbers::Zero);
    }
    let (first, rest) = next(text)?;
    if rest.is_empty() {
        return Some(Numbers::One([first]));
    }
    let (second, rest) = next(rest)?;
    if rest.is_empty() {
        Some(Numbers::Two([first, second]))
    } else {
        None
    }
}

// All numbers, to the end of the text.
pub fn numbers(heap: Global, text: &[u8]) -> Result<Vec<u32>, Fault>
    ensures { Listed text.now result }
{
    let mut numbers = Vec::new(heap);
    let mut rest = text;
    while let Some((n, more)) = next(rest) {
        numbers.push(n)?;
        rest = more;
    }
    if rest.is_empty() {
        Ok(numbers)
    } else {
        Err(Fault::Unreadable)
    }
}
