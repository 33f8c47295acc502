// The words of a script's line, and why a line is no command.
use hexadecimal::NoOctets;
use std::alloc::{AllocError, Global};
use std::str::FromStr;
use thiserror::Error;

#[derive(Debug, Drop, Error)]
pub enum BadLine {
    #[error("unknown command; `help` lists the commands")]
    Unknown,
    #[error("octets in hexadecimal are wanted behind the command")]
    NeedsHex,
    #[error("the octets are not hexadecimal, two digits each, or `-` for none")]
    NotHex,
    #[error("a number is wanted behind the command")]
    NeedsNumber,
    #[error("this is not a number, or too large a one")]
    NotNumber,
    #[error("there are more words than the command takes")]
    TooManyWords,
    #[error("no line is open; `line cell OCTETS` or `line packed OCTETS` opens one")]
    NoLine,
    #[error("a line is `cell` or `packed`")]
    LineKind,
    #[error("no slots are open; `slots code=N ticks=N records=N store=N` opens some")]
    NoSlots,
    #[error("there is no receipt for this slot")]
    NoReceipt,
    #[error("a mark is up to eight numbers with commas between them")]
    NotMark,
    #[error("this is neither `yes` nor `no`")]
    NotYesNo,
    #[error("digits are up to 16 of 0 to 9 and a to f, or `-` for none")]
    NotDigits,
    #[error("routing is on `title` or on `subsystem`")]
    NotRouting,
    #[error("a code is `up`, `down` or `sccp-down`, a subsystem `up`, `failed` or `unequipped`")]
    NotState,
    #[error("a subsystem is named by its code, a stroke and its number, as 5/8")]
    NotPlace,
    #[error("a point code is 0 to 16,383")]
    NotCode,
    #[error("a value that the command needs is missing")]
    MissingValue,
    #[error("there is a word that the command does not take")]
    BadWord,
    #[error("there is no memory for it")]
    NoMemory(#[from(alloc)] AllocError),
}

impl From<NoOctets> for BadLine {
    fn from(why: NoOctets) -> BadLine {
        match why {
            NoOctets::NotHexadecimal => BadLine::NotHex,
            NoOctets::NoMemory => BadLine::NoMemory(AllocError),
        }
    }
}

// The first word of a text, and what stands behind it.
pub fn parted(text: &str) -> (&str, &str) {
    let text = text.trim();
    text.split_once(' ').unwrap_or((text, ""))
}

// The command of a line, and what stands behind it; what stands behind a `#` is a comment.
pub fn command(line: &str) -> (&str, &str) {
    parted(line.split_once('#').map_or(line, |(before, _)| before))
}

// The one word behind a command.
pub fn only_word(rest: &str, missing: BadLine) -> Result<&str, BadLine> {
    let mut words = rest.split_whitespace();
    match (words.next(), words.next()) {
        (None, _) => Err(missing),
        (Some(word), None) => Ok(word),
        (Some(_), Some(_)) => Err(BadLine::TooManyWords),
    }
}

pub fn no_words(rest: &str) -> Result<(), BadLine> {
    if rest.trim().is_empty() {
        Ok(())
    } else {
        Err(BadLine::TooManyWords)
    }
}

// The number that a word is, of whatever type is asked for.
pub fn number<N: FromStr>(word: &str) -> Result<N, BadLine>
where
    N::Err: Drop,
{
    word.parse().map_err(|_| BadLine::NotNumber)
}

// The one number behind a command.
pub fn number_behind(rest: &str) -> Result<usize, BadLine> {
    number(only_word(rest, BadLine::NeedsNumber)?)
}

pub fn octets(heap: Global, word: &str) -> Result<Vec<u8>, BadLine> {
    Ok(hexadecimal::octets_of(heap, word)?)
}

// The octets in the one word behind a command.
pub fn octets_behind(heap: Global, rest: &str) -> Result<Vec<u8>, BadLine> {
    octets(heap, only_word(rest, BadLine::NeedsHex)?)
}

// So many octets, all zero.
pub fn zeros(heap: Global, n: usize) -> Result<Vec<u8>, BadLine> {
    Ok(vec![in heap; 0u8; n]?)
}

// Stays: its words are a script's, and std's own parsing of a bool takes others.
pub fn yes_or_no(word: &str) -> Result<bool, BadLine> {
    match word {
        "yes" => Ok(true),
        "no" => Ok(false),
        _ => Err(BadLine::NotYesNo),
    }
}

// What stands behind `key=` in one of the words.
pub fn value<'a>(rest: &'a str, key: &str) -> Result<&'a str, BadLine> {
    rest.split_whitespace()
        .find_map(|word| word.strip_prefix(key)?.strip_prefix('='))
        .ok_or(BadLine::MissingValue)
}

// Each word is `key=..` with one of the keys.
pub fn only_keys(rest: &str, keys: &[&str]) -> Result<(), BadLine> {
    let fit = rest.split_whitespace().all(|word| {
        word.split_once('=')
            .is_some_and(|(name, _)| keys.contains(&name))
    });
    if fit { Ok(()) } else { Err(BadLine::BadWord) }
}
