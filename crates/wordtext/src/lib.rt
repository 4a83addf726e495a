// Reads 32-bit words as text: decimal numbers, or hexadecimal ones after `0x`, with white space between them.
#![tactic(auto)]

ghost use Rattle.std.specs.Prelude.{◌≡◌, ◌+◌, ◌^◌, ◌<◌, ◌≤◌, length, drop, if◌then◌else◌, Some, None, IfSome, nat_lt};
ghost use Rattle.std.specs.Iterator.{item_count, YieldsFirstBy};
ghost use Rattle.std.specs.List.{position, prefix_len, suffix_len};
ghost use Rattle.wordtext.specs.Lines.{within_line, position_of, first_line_of, position_text};
ghost use Rattle.wordtext.specs.Numbers.{digit_of, numeral_value, value_of, problem_text};
ghost use Rattle.wordtext.specs.Texts.{white, dark, pieces, Parsed, Longest, ReadsBack};
ghost use Rattle.wordtext.specs.declared.Failure.TheVariants.{NoMemory};

use std::alloc::{AllocFailed, Global};
use std::fmt;

// The first value that 32 bits do not hold.
const LIMIT: u64 = 0x1_0000_0000;

// Why a piece is no word: `TooLarge` where it is a number of 2^32 or more.
#[derive(Clone, Copy, PartialEq, Eq, Debug)]
pub enum Problem {
    NotANumber,
    TooLarge,
}

impl fmt::Display for Problem {
    ghost output = { λ problem. Some (problem_text problem) };

    fn fmt<W: fmt::Write>(&self, f: &mut fmt::Formatter<W>) -> fmt::Result {
        f.write_str(match self {
            Problem::NotANumber => "not a number; write it in decimal, or in hexadecimal after 0x",
            Problem::TooLarge => "the number does not fit 32 bits",
        })
    }
}

// The first piece that is no word, `text[from..end]`.
#[derive(Clone, Copy, PartialEq, Eq, Debug)]
pub struct Fault {
    pub problem: Problem,
    pub from: usize,
    pub end: usize,
}

// Why a text gives no words.
#[derive(Clone, Copy, PartialEq, Eq, Debug)]
pub enum Failure {
    Bad(Fault),
    NoMemory,
}

// By hand, since the contract of `parse` names the failure that its `?` makes.
impl<T: Drop> From<AllocFailed<T>> for Failure {
    ghost from_gives = { λ _ r. r ≡ NoMemory };

    fn from(_refused: AllocFailed<T>) -> Failure {
        Failure::NoMemory
    }
}

// The digit that a byte writes in the base.
fn digit(byte: u8, base: u32) -> Option<u32>
    requires low { 2 ≤ base }
    requires high { base ≤ 16 }
    ensures { result ≡ (if nat_lt (digit_of byte) base then Some (digit_of byte) else None) }
{
    char::from(byte).to_digit(base)
}

// The number that digits of the base write. Once it is past the limit, the other bytes must still be digits.
// `from_str_radix` takes a sign too, and stops at the digit that makes it too large; an `Option<u32>` of checked
// steps, in place of a number held at the limit, takes twice the instructions for each digit.
#[tactic(auto, using(crate::proofs::Numerals::numeral_bad, std::proofs::lemmas::Grind::common_steps))]
fn numeral(digits: &[u8], base: u32) -> Result<u32, Problem>
    requires low { 2 ≤ base }
    requires high { base ≤ 16 }
    ensures { result ≡ numeral_value base digits.now }
{
    if digits.is_empty() {
        return Err(Problem::NotANumber);
    }
    let mut value: u64 = 0;
    for byte in digits {
        let digit = digit(*byte, base).ok_or(Problem::NotANumber)?;
        value = (value * u64::from(base) + u64::from(digit)).min(LIMIT);
    }
    u32::try_from(value).map_err(|_| Problem::TooLarge)
}

// The word that a piece without white space writes: decimal digits, or `0x` and hexadecimal digits.
pub fn number(piece: &[u8]) -> Result<u32, Problem>
    ensures { result ≡ value_of piece.now }
{
    match piece {
        [b'0', b'x', digits @ ..] => numeral(digits, 16),
        _ => numeral(piece, 10),
    }
}

// Tab, line feed, vertical tab, form feed, carriage return and space. `is_ascii_whitespace` has no vertical tab.
fn is_white(byte: u8) -> bool
    ensures { result ≡ white byte }
{
    matches!(byte, 9..=13 | 32)
}

// Where the first byte stands that is no white space.
fn first_dark(bytes: &[u8]) -> Option<usize>
    ensures value { result ≡ position dark bytes.now }
    ensures within { IfSome result (λ place. place < length bytes.now) }
{
    bytes.iter().position(|b| !is_white(*b))
}

// How many bytes come before the first white space.
fn leading_dark(bytes: &[u8]) -> usize
    ensures value { result ≡ prefix_len dark bytes.now }
    ensures within { result ≤ length bytes.now }
{
    bytes.iter().take_while(|b| !is_white(**b)).count()
}

// Bytes without white space, and the place of the first.
#[derive(Clone, Copy)]
struct Piece<'a> {
    from: usize,
    bytes: &'a [u8],
    ghost fits: { from + length bytes.now < 2 ^ 64 },
}

// The pieces of a text from a place on. Past the end there are none.
#[derive(Clone, Copy)]
struct Pieces<'a> {
    text: &'a [u8],
    at: usize,
}

impl<'a> Iterator for Pieces<'a> {
    type Item = Piece<'a>;

    ghost next_gives = { YieldsFirstBy (λ p. record { place = p.from; bytes = p.bytes.now }) (λ s. pieces s.at (drop s.at s.text.now)) };

    ghost remaining = { item_count (λ s. pieces s.at (drop s.at s.text.now)) };

    #[tactic(auto, using(crate::proofs::Cuts::no_piece, crate::proofs::Cuts::next_piece))]
    fn next(&mut self) -> Option<Piece<'a>> {
        let from = self.at + first_dark(self.text.get(self.at..)?)?;
        let end = from + leading_dark(&self.text[from..]);
        self.at = end;
        Some(Piece {
            from,
            bytes: &self.text[from..end],
        })
    }
}

// The words of the text from byte `start` on, or the first piece that is no word. Past the end there are no words.
#[tactic(auto, using(crate::proofs::Cuts::cut, crate::proofs::Printed::reads_back))]
pub fn parse(heap: Global, text: &[u8], start: usize) -> Result<Vec<u32>, Failure>
    ensures words { Parsed text.now start result }
    ensures longest { Longest }
    ensures back { ReadsBack }
{
    let mut words = Vec::new(heap);
    let pieces = Pieces { text, at: start };
    for Piece { from, bytes } in pieces {
        let end = from + bytes.len();
        let word = number(bytes).map_err(|problem| Failure::Bad(Fault { problem, from, end }))?;
        words.push(word)?;
    }
    Ok(words)
}

// How many bytes stand behind the last newline.
fn last_line_len(bytes: &[u8]) -> usize
    ensures value { result ≡ suffix_len within_line bytes.now }
    ensures within { result ≤ length bytes.now }
{
    bytes.iter().rev().take_while(|b| **b != b'\n').count()
}

// A line and a column, both from 1.
#[derive(Clone, Copy, PartialEq, Eq, Debug)]
pub struct Position {
    pub line: usize,
    pub column: usize,
}

impl Position {
    // The line and the column of a place: newlines end lines, and a place past the end counts as the end.
    #[tactic(auto, using(std::proofs::lemmas::List::take_min))]
    pub fn of(text: &[u8], place: usize) -> Position
        ensures { result ≡ position_of text.now place }
    {
        let before = &text[..place.min(text.len())];
        Position {
            line: 1 + before.iter().filter(|b| **b == b'\n').count(),
            column: 1 + last_line_len(before),
        }
    }
}

impl fmt::Display for Position {
    ghost output = { λ position. Some (position_text position) };

    fn fmt<W: fmt::Write>(&self, f: &mut fmt::Formatter<W>) -> fmt::Result {
        write!(f, "line {}, column {}", self.line, self.column)
    }
}

// Where the first line ends: at the first newline, or at the end of the text.
pub fn first_line(text: &[u8]) -> usize
    ensures value { result ≡ first_line_of text.now }
    ensures within { result ≤ length text.now }
{
    text.iter().take_while(|b| **b != b'\n').count()
}

#[cfg(test)]
mod tests {
    use super::*;
    use std::process::Abort;
    use std::test::Fail;

    // What is read of the text is these words.
    fn reads(
        rt: &impl Abort,
        heap: Global,
        text: &[u8],
        start: usize,
        words: &[u32],
    ) -> Result<(), Fail> {
        let read = parse(heap, text, start)?;
        assert!(rt; read.as_slice() == words);
        Ok(())
    }

    // What is read of the text is this problem, at these places.
    fn refuses(
        rt: &impl Abort,
        heap: Global,
        text: &[u8],
        problem: Problem,
        from: usize,
        end: usize,
    ) -> Result<(), Fail> {
        match parse(heap, text, 0) {
            Ok(_) => Err(Fail::new("no problem")),
            Err(failure) => {
                assert_eq!(rt; failure, Failure::Bad(Fault { problem, from, end }));
                Ok(())
            },
        }
    }

    #[test]
    fn numbers(rt: HostRuntime) {
        assert_eq!(rt; number(b"0"), Ok(0));
        assert_eq!(rt; number(b"0000000000000000042"), Ok(42));
        assert_eq!(rt; number(b"4294967295"), Ok(0xffff_ffff));
        assert_eq!(rt; number(b"4294967296"), Err(Problem::TooLarge));
        assert_eq!(rt;
            number(b"99999999999999999999999999"),
            Err(Problem::TooLarge)
        );
        assert_eq!(rt; number(b"0xffffffff"), Ok(0xffff_ffff));
        assert_eq!(rt; number(b"0x00aBcDeF09"), Ok(0xabcd_ef09));
        assert_eq!(rt; number(b"0x100000000"), Err(Problem::TooLarge));
    }

    #[test]
    fn no_numbers(rt: HostRuntime) {
        assert_eq!(rt; number(b""), Err(Problem::NotANumber));
        assert_eq!(rt; number(b"0x"), Err(Problem::NotANumber));
        assert_eq!(rt; number(b"0X1"), Err(Problem::NotANumber));
        assert_eq!(rt; number(b"-1"), Err(Problem::NotANumber));
        assert_eq!(rt; number(b"1_000"), Err(Problem::NotANumber));
        assert_eq!(rt; number(b"12a"), Err(Problem::NotANumber));
        assert_eq!(rt; number(b"0x1g"), Err(Problem::NotANumber));
        assert_eq!(rt;
            number(b"99999999999999999999999999a"),
            Err(Problem::NotANumber)
        );
    }

    #[test]
    fn texts(rt: HostRuntime) -> Result<(), Fail> {
        let heap = rt.alloc();
        reads(&rt, heap, b"", 0, &[])?;
        reads(&rt, heap, b" \t\r\n\x0b\x0c ", 0, &[])?;
        reads(&rt, heap, b"1\t2\r\n0x10", 0, &[1, 2, 16])?;
        reads(&rt, heap, b"name: 7 8\n", 5, &[7, 8])?;
        reads(&rt, heap, b"1 2", 9, &[])?;
        refuses(&rt, heap, b"1 2a 4294967296\n", Problem::NotANumber, 2, 4)?;
        refuses(&rt, heap, b"1 4294967296", Problem::TooLarge, 2, 12)
    }

    #[test]
    fn positions(rt: HostRuntime) {
        let text = b"ab\n\ncd";
        assert_eq!(rt; first_line(text), 2);
        assert_eq!(rt; first_line(b"ab"), 2);
        assert_eq!(rt; Position::of(text, 0), Position { line: 1, column: 1 });
        assert_eq!(rt; Position::of(text, 2), Position { line: 1, column: 3 });
        assert_eq!(rt; Position::of(text, 3), Position { line: 2, column: 1 });
        assert_eq!(rt; Position::of(text, 5), Position { line: 3, column: 2 });
        assert_eq!(rt; Position::of(text, 99), Position { line: 3, column: 3 });
    }
}
