// Decimal numbers in a text of bytes: written without leading zeros, and read.
#![tactic(auto)]

pub mod promises;
pub mod text;

ghost use Rattle.std.specs.Prelude.{◌≡◌, true, ◌+◌, ◌-◌, ◌%◌, ◌≤◌, ◌<◌, [], ◌∷◌, length, get_or, drop};
ghost use Rattle.sheet.specs.Kept.Written.{written};
ghost use Rattle.decimal.specs.Decimal.{digit, digits, decimal, is_digit};
ghost use Rattle.decimal.specs.Decimal.{starts_with, read_number};
ghost use Rattle.decimal.specs.Kept.Digits.{Starts, ReadAs};

use crate::text::has;

// Writes the last digit of a number at a place, and gives the place behind it.
fn put_digit(out: &mut [u8], at: usize, n: usize) -> usize
    requires { at < length out.old }
    ensures end { result ≡ at + 1 }
    ensures written { out.new ≡ written at (digit (n % 10) ∷ []) out.old }
{
    out[at] = 48 + (n % 10) as u8;
    at + 1
}

// Writes at most so many digits of a number at a place, the last ones, and gives the place behind them.
fn put_digits(out: &mut [u8], at: usize, n: usize, most: usize) -> usize
    requires { at + length (digits most n) ≤ length out.old }
    ensures end { result ≡ at + length (digits most n) }
    ensures written { out.new ≡ written at (digits most n) out.old }
{
    if most == 0 {
        return at;
    }
    if n < 10 {
        return put_digit(out, at, n);
    }
    let end = put_digits(out, at, n / 10, most - 1);
    put_digit(out, end, n)
}

// Writes a number of at most five digits at a place, and gives the place behind it.
pub fn put(out: &mut [u8], at: usize, n: usize) -> usize
    requires { at + length (decimal n) ≤ length out.old }
    ensures end { result ≡ at + length (decimal n) }
    ensures written { out.new ≡ written at (decimal n) out.old }
{
    if n < 10 {
        return put_digit(out, at, n);
    }
    if n < 100 {
        let end = put_digit(out, at, n / 10);
        return put_digit(out, end, n);
    }
    put_digits(out, at, n, 5)
}

// How many digits a number below 100 has.
pub fn width(n: usize) -> usize
    requires { n < 100 }
    ensures length { result ≡ length (decimal n) }
    ensures short { result ≤ 2 }
{
    if n < 10 {
        return 1;
    }
    2
}

// A number below 100 stands at a place of a text.
pub fn stands(text: &[u8], at: usize, n: usize) -> bool
    requires { (at ≤ length text.now) × (n < 100) }
    ensures { result ≡ starts_with (decimal n) (drop at text.now) }
{
    if n < 10 {
        return has(text, at, 48 + n as u8);
    }
    has(text, at, 48 + (n / 10) as u8) && has(text, at + 1, 48 + (n % 10) as u8)
}

// 0 to 9.
fn is_digit(b: u8) -> bool
    ensures { result ≡ is_digit b }
{
    48 <= b && b < 58
}

// A digit stands at a place of a text.
fn digit_at(text: &[u8], at: usize) -> bool
    ensures { result ≡ is_digit (get_or text.now at 0) }
{
    at < text.len() && is_digit(text[at])
}

// The value of the digit at a place of a text.
fn value_at(text: &[u8], at: usize) -> usize
    requires { is_digit (get_or text.now at 0) ≡ true }
    ensures { (result ≡ get_or text.now at 0 - 48) × (result < 10) }
{
    usize::from(text[at]) - 48
}

// The number that goes on behind its first digit, at a place of a text.
fn read_on(text: &[u8], at: usize, first: usize) -> Option<usize>
    requires { Starts text.now at first }
    ensures { ReadAs (read_number (drop at text.now)) result }
{
    let mut n = first;
    let mut i = at + 1;
    // Not a `for`: it ends where the digits do.
    while digit_at(text, i) {
        n = 10 * n + value_at(text, i);
        if 65535 < n {
            return None;
        }
        i += 1;
    }
    Some(n)
}

// The number below 65,536 that is written at a place of a text, if one is.
pub fn read(text: &[u8], at: usize) -> Option<usize>
    ensures { ReadAs (read_number (drop at text.now)) result }
{
    if !digit_at(text, at) {
        return None;
    }
    let first = value_at(text, at);
    if first == 0 && digit_at(text, at + 1) {
        return None;
    }
    read_on(text, at, first)
}
