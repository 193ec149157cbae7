//! The words of the command line.

ghost use Rattle.std.specs.Prelude.{◌≡◌, map};
ghost use Rattle.std.specs.List.{list_all};
ghost use Rattle.std.specs.Option.{option_copied};
ghost use Rattle.std.specs.String.{string_bytes};
ghost use Rattle.sk_script.specs.Words as spec;

/// The greatest seed.
const MOST_SEED: u32 = 65_536;

/// The most transfers that a script is generated of.
const MOST_TRANSFERS: u32 = 100_000;

#[tactic(auto, unfolding(crate::specs::Words::is_directory))]
fn is_directory(word: &[u8]) -> bool
    ensures { result ≡ spec.is_directory word.now }
{
    match word {
        [] => false,
        [b, ..] => *b != b'-',
    }
}

fn is_digit(b: u8) -> bool
    ensures { result ≡ spec.is_digit b }
{
    48 <= b && b <= 57
}

fn are_digits(word: &[u8]) -> bool
    ensures { result ≡ list_all spec.is_digit word.now }
{
    word.iter().all(|b| 48 <= *b && *b <= 57)
}

fn is_decimal(word: &[u8]) -> bool
    ensures { result ≡ spec.is_decimal word.now }
{
    match word {
        [] => false,
        [b] => is_digit(*b),
        [b, ..] => *b != b'0' && are_digits(word),
    }
}

/// What digits come to, up to this number.
fn amount(digits: &[u8], most: u32) -> Option<u32>
    ensures { result ≡ spec.up_to most (spec.amount 0 digits.now) }
{
    let mut n: u64 = 0;
    let mut rest = digits;
    while let [b, more @ ..] = rest {
        n = 10 * n + b.saturating_sub(b'0') as u64;
        if n > most as u64 {
            return None;
        }
        rest = more;
    }
    Some(n as u32)
}

/// The number that a word is, up to this one.
#[tactic(auto, unfolding(crate::specs::Words::number_to))]
fn number_to(most: u32, word: &[u8]) -> Option<u32>
    ensures { result ≡ spec.number_to most word.now }
{
    if is_decimal(word) {
        amount(word, most)
    } else {
        None
    }
}

fn both(m: Option<u32>, n: Option<u32>) -> Option<(u32, u32)>
    ensures { result ≡ spec.both m n }
{
    match m {
        None => None,
        Some(m) => match n {
            None => None,
            Some(n) => Some((m, n)),
        },
    }
}

/// The seed and the number of transfers where the words are `gen SEED N DIR`: the seed is from 0 to 65536, and the number from 0 to
/// 100000, both in decimal digits without a zero before others.
#[tactic(auto, unfolding(crate::specs::Words::transfers_of))]
pub fn transfers_of(words: &[String]) -> Option<(u32, u32)>
    ensures exact { result ≡ spec.transfers_of (map string_bytes words.now) }
{
    match words {
        [first, seed, count, last] if first.as_str() == "gen" && is_directory(last.as_bytes()) =>
            both(
                number_to(MOST_SEED, seed.as_bytes()),
                number_to(MOST_TRANSFERS, count.as_bytes()),
            ),
        _ => None,
    }
}

/// The last of the words where they are `run DIR` or `gen SEED N DIR`, and DIR is not empty and does not begin with `-`.
#[tactic(auto, unfolding(crate::specs::Words::place))]
pub fn place(words: &[String]) -> Option<&str>
    ensures exact { option_copied result ≡ spec.place (map string_bytes words.now) }
{
    match words {
        [first, last] if first.as_str() == "run" && is_directory(last.as_bytes()) => Some(
            last.as_str(),
        ),
        [_, _, _, last] if transfers_of(words).is_some() => Some(last.as_str()),
        _ => None,
    }
}
