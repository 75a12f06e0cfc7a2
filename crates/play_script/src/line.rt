//! The lines of a schedule.
ghost use Rattle.std.specs.Prelude.{◌≡◌, ◌<◌, ◌≤◌, ◌↔◌, ◌++◌, ◌∷◌, ◌==◌, ◌^◌, ℕ, List, Some, None, true, length, position, nat_lt, codes, MatchOption, IfOk, if◌then◌else◌};
ghost use Rattle.std.specs.List.{list_all};
ghost use Rattle.std.specs.Str.{bytes_eq};
ghost use Rattle.play_script.specs.Lines.{Lacks, lines_of, Gives, told_of, is_digit, is_decimal, value_of, with_digit, number_by, number_in, bytes_in, node_in, asked_in, one_word, two_words, three_words, words_ask, read_of, Asks, IsBad};
ghost use Rattle.play_script.specs.Words.{AreWords};
ghost use Rattle.play_script.specs.declared.line.LineErr.TheVariants.{Memory};

use bson_core::Bytes;
use hex::FromHexError;
use std::alloc::Global;
use txn_types::NodeId;

/// A line has no more bytes.
pub const MOST_LINE: usize = 100_000_000;

/// What a line of a schedule asks.
#[derive(Drop)]
pub enum Line {
    /// Bytes come on a connection.
    Ask { conn: u32, bytes: Bytes },
    /// Bytes come on a connection, and what they lead to is settled.
    Client { conn: u32, bytes: Bytes },
    /// A connection ends.
    Gone { conn: u32 },
    /// A message, counted from 0 as they were sent, is delivered, whether it was before or not.
    Deliver { number: u64 },
    /// A message counts as delivered.
    Lose { number: u64 },
    /// Messages are delivered until nothing more comes of it.
    Settle,
    /// A node starts anew.
    Restart { node: NodeId },
    /// A node sends again what it waits for.
    Resend { node: NodeId },
    /// The wall stands at this second.
    Wall { secs: u32 },
    /// The list of commits is written.
    Dump,
    /// From now on messages and boots are written too.
    Log,
}

/// Why a line was not read: the first of these.
#[derive(Clone, Copy, Debug, PartialEq, Eq)]
pub enum LineErr {
    /// It is too long, its words are no line's, or digits stand for no number.
    Form,
    /// Its bytes aren't in hexadecimal.
    Hex,
    /// A number is too large for its place.
    Number,
    /// There was no memory.
    Memory,
}

impl From<FromHexError> for LineErr {
    ghost from_gives = { λ error e. e ≡ told_of error };

    fn from(error: FromHexError) -> LineErr {
        match error {
            FromHexError::OutOfMemory => LineErr::Memory,
            _ => LineErr::Hex,
        }
    }
}

/// Where this byte stands first.
fn place_of(bytes: &[u8], byte: u8) -> Option<usize>
    ensures { result ≡ position (λ b. b == byte) bytes.now }
{
    bytes.iter().position(|b| *b == byte)
}

/// The bytes before the first of this byte, and those after it.
fn split_at_first(bytes: &[u8], byte: u8) -> Option<(&[u8], &[u8])>
    ensures { MatchOption result (Lacks byte bytes.now)
        (λ x. (bytes.now ≡ x.0.now ++ byte ∷ x.1.now) × Lacks byte x.0.now) }
{
    let at = place_of(bytes, byte)?;
    Some((&bytes[..at], &bytes[at + 1..]))
}

/// The first line, and the lines after it. A line ends by a line feed; the last may lack it.
pub fn next_line(lines: &[u8]) -> (&[u8], &[u8])
    requires { 0 < length lines.now }
    ensures parts { lines_of lines.now ≡ result.0.now ∷ lines_of result.1.now }
    ensures shorter { length result.1.now < length lines.now }
{
    match split_at_first(lines, b'\n') {
        Some(parts) => parts,
        None => (lines, &lines[lines.len()..]),
    }
}

/// The words of a line.
enum Words<'a> {
    One(&'a [u8]),
    Two(&'a [u8], &'a [u8]),
    Three(&'a [u8], &'a [u8], &'a [u8]),
    /// More than three.
    Many,
}

/// The words of a line whose first two these are.
fn words_from<'a>(first: &'a [u8], second: &'a [u8], rest: &'a [u8]) -> Words<'a>
    requires first { Lacks 32 first.now }
    requires second { Lacks 32 second.now }
    ensures { AreWords result (first.now ++ 32 ∷ (second.now ++ 32 ∷ rest.now)) }
{
    match split_at_first(rest, b' ') {
        Some(_) => Words::Many,
        None => Words::Three(first, second, rest),
    }
}

/// The words of a line.
fn words_of(line: &[u8]) -> Words<'_>
    ensures { AreWords result line.now }
{
    let Some((first, rest)) = split_at_first(line, b' ') else {
        return Words::One(line);
    };
    match split_at_first(rest, b' ') {
        Some((second, rest)) => words_from(first, second, rest),
        None => Words::Two(first, rest),
    }
}

/// Whether each byte is a decimal digit.
fn are_digits(bytes: &[u8]) -> bool
    ensures { result ≡ list_all is_digit bytes.now }
{
    bytes.iter().all(|byte| byte.is_ascii_digit())
}

/// Whether these are decimal digits, without a leading zero but for 0 itself.
fn is_decimal(digits: &[u8]) -> bool
    ensures { result ≡ is_decimal digits.now }
{
    match digits.split_first() {
        Some((first, more)) => are_digits(digits) && (more.is_empty() || *first != b'0'),
        None => false,
    }
}

/// The number with one more digit, where it fits.
fn with_digit(number: u64, digit: u8) -> Option<u64>
    requires { is_digit digit ≡ true }
    ensures { result ≡ (if nat_lt (with_digit number digit) (2 ^ 64)
        then Some (with_digit number digit) else None) }
{
    number.checked_mul(10)?.checked_add(u64::from(digit - b'0'))
}

/// The number of these digits, where it fits.
#[tactic(auto, using(crate::proofs::Digits::too_large))]
fn value_of(digits: &[u8]) -> Option<u64>
    requires { list_all is_digit digits.now ≡ true }
    ensures { result
        ≡ (if nat_lt (value_of digits.now) (2 ^ 64) then Some (value_of digits.now) else None) }
{
    let mut number = 0;
    for digit in digits {
        number = with_digit(number, *digit)?;
    }
    Some(number)
}

/// The number of these digits, at most so large.
fn number_by(most: u64, digits: &[u8]) -> Result<u64, LineErr>
    requires { is_decimal digits.now ≡ true }
    ensures { result ≡ number_by most (value_of digits.now) }
{
    match value_of(digits) {
        Some(number) => {
            if number <= most {
                Ok(number)
            } else {
                Err(LineErr::Number)
            }
        }
        None => Err(LineErr::Number),
    }
}

/// The number that the digits spell, at most so large.
fn number_in(most: u64, digits: &[u8]) -> Result<u64, LineErr>
    ensures { result ≡ number_in most digits.now }
{
    if is_decimal(digits) {
        number_by(most, digits)
    } else {
        Err(LineErr::Form)
    }
}

/// The same, for a number of 32 bits.
fn small_number_in(digits: &[u8]) -> Result<u32, LineErr>
    ensures { result ≡ number_in 4294967295 digits.now }
{
    let number = number_in(u64::from(u32::MAX), digits)?;
    Ok(number as u32)
}

/// The number of a node.
fn node_number_in(digits: &[u8]) -> Result<u16, LineErr>
    ensures { result ≡ number_in 65535 digits.now }
{
    let number = number_in(u64::from(u16::MAX), digits)?;
    Ok(number as u16)
}

/// The bytes that the digits spell.
fn bytes_in(alloc: Global, digits: &[u8]) -> Result<Bytes, LineErr>
    ensures { Gives (λ b. b) result (bytes_in digits.now) }
{
    if digits.is_empty() {
        return Err(LineErr::Hex);
    }
    Ok(Bytes::new(hex::decode(alloc, digits)?))
}

/// Whether the word is that one.
fn is_word(word: &[u8], name: &str) -> bool
    ensures { result ≡ bytes_eq word.now name.now }
{
    word == name.as_bytes()
}

/// The node of that kind and number.
fn node_in(kind: &[u8], digits: &[u8]) -> Result<NodeId, LineErr>
    ensures { result ≡ node_in kind.now digits.now }
{
    if is_word(kind, "shard") {
        Ok(NodeId::Shard(node_number_in(digits)?))
    } else if is_word(kind, "router") {
        Ok(NodeId::Router(node_number_in(digits)?))
    } else {
        Err(LineErr::Form)
    }
}

/// A connection and the bytes that come on it.
fn asked_in(alloc: Global, conn: &[u8], digits: &[u8]) -> Result<(u32, Bytes), LineErr>
    ensures { Gives (λ a. (a.0, a.1)) result (asked_in conn.now digits.now) }
{
    if !is_decimal(conn) {
        return Err(LineErr::Form);
    }
    let bytes = bytes_in(alloc, digits)?;
    let conn = small_number_in(conn)?;
    Ok((conn, bytes))
}

fn one_word(word: &[u8]) -> Result<Line, LineErr>
    ensures { result ≡ one_word word.now }
{
    if is_word(word, "settle") {
        Ok(Line::Settle)
    } else if is_word(word, "dump") {
        Ok(Line::Dump)
    } else if is_word(word, "log") {
        Ok(Line::Log)
    } else {
        Err(LineErr::Form)
    }
}

fn two_words(word: &[u8], digits: &[u8]) -> Result<Line, LineErr>
    ensures { result ≡ two_words word.now digits.now }
{
    if is_word(word, "gone") {
        let conn = small_number_in(digits)?;
        Ok(Line::Gone { conn })
    } else if is_word(word, "deliver") {
        let number = number_in(u64::MAX, digits)?;
        Ok(Line::Deliver { number })
    } else if is_word(word, "lose") {
        let number = number_in(u64::MAX, digits)?;
        Ok(Line::Lose { number })
    } else if is_word(word, "wall") {
        let secs = small_number_in(digits)?;
        Ok(Line::Wall { secs })
    } else {
        Err(LineErr::Form)
    }
}

fn three_words(alloc: Global, word: &[u8], first: &[u8], second: &[u8]) -> Result<Line, LineErr>
    ensures { Gives (λ l. l) result (three_words word.now first.now second.now) }
{
    if is_word(word, "ask") {
        let (conn, bytes) = asked_in(alloc, first, second)?;
        Ok(Line::Ask { conn, bytes })
    } else if is_word(word, "client") {
        let (conn, bytes) = asked_in(alloc, first, second)?;
        Ok(Line::Client { conn, bytes })
    } else if is_word(word, "restart") {
        let node = node_in(first, second)?;
        Ok(Line::Restart { node })
    } else if is_word(word, "resend") {
        let node = node_in(first, second)?;
        Ok(Line::Resend { node })
    } else {
        Err(LineErr::Form)
    }
}

/// Reads a line of a schedule. The first refusal is told: `Form`, then `Hex`, then `Number`.
pub fn read_line(alloc: Global, line: &[u8]) -> Result<Line, LineErr>
    ensures { Gives (λ l. l) result (read_of line.now) }
{
    if line.len() > MOST_LINE {
        return Err(LineErr::Form);
    }
    match words_of(line) {
        Words::One(word) => one_word(word),
        Words::Two(word, digits) => two_words(word, digits),
        Words::Three(word, first, second) => three_words(alloc, word, first, second),
        Words::Many => Err(LineErr::Form),
    }
}

/// What is played so far: bytes that come on a connection.
#[derive(Drop)]
pub struct Ask {
    pub connection: u32,
    pub bytes: Bytes,
}

/// Reads what a line asks that is played so far. It is refused, with `Form` or what stands in its
/// way, exactly where it asks nothing that is, unless memory runs out.
pub fn read_ask(alloc: Global, line: &[u8]) -> Result<Ask, LineErr>
    ensures ok { IfOk result
        (λ a. Asks line.now (record { connection = a.connection; bytes = a.bytes })) }
    ensures bad { (e : _) → result ≡ Err e → (e ≡ Memory → ⊥) → IsBad line.now }
{
    let asked = read_line(alloc, line)?;
    match asked {
        Line::Client { conn, bytes } => Ok(Ask {
            connection: conn,
            bytes,
        }),
        _ => Err(LineErr::Form),
    }
}
