// Words: cutting a text at a byte, comparing words, numbers and names.
ghost use Rattle.std.specs.Prelude.{◌≡◌, ◌≤◌, ◌<◌, decimal, Decides, MatchOption};
ghost use Rattle.std.specs.Char.{digit_value};
ghost use Rattle.job_lines.specs.Words.{Cut, Name, NameByte, Number, Reads, StartsNumber};

// The part of a text before the first `byte`, and the part after it; none if the byte stands nowhere.
pub fn cut<'a>(text: &'a [u8], byte: u8) -> Option<(&'a [u8], &'a [u8])>
    ensures { Cut byte text.now result }
{
    let at = text.iter().position(|b| *b == byte)?;
    Some((&text[..at], &text[at + 1..]))
}

// Whether two words are the same. The name is public, so it stays beside `==`.
pub fn same(a: &[u8], b: &[u8]) -> bool
    ensures { Decides result (a.now ≡ b.now) }
{
    a == b
}

// Whether a word is a name.
pub fn is_name(word: &[u8]) -> bool
    ensures { Decides result (Name word.now) }
{
    (1..=8).contains(&word.len()) && word.iter().all(|b| is_name_byte(*b))
}

// Whether a byte is a capital letter or a digit.
fn is_name_byte(byte: u8) -> bool
    ensures { Decides result (NameByte byte) }
{
    byte.is_ascii_uppercase() || byte.is_ascii_digit()
}

// The number that a word writes: one to four digits with no leading zero except 0 itself.
#[tactic(auto, using(crate::proofs::Digits::number_short, crate::proofs::Digits::number_starts, crate::proofs::Digits::number_digit, crate::proofs::Digits::digits_before))]
pub fn read_number(word: &[u8]) -> Option<u16>
    ensures { Reads Number decimal word.now result }
{
    if word.len() > 4 || !starts_number(word) {
        return None;
    }
    let mut number = 0;
    for byte in word {
        number = number * 10 + digit_of(*byte)?;
    }
    Some(number)
}

// The value of a decimal digit; none for another byte.
fn digit_of(byte: u8) -> Option<u16>
    ensures { MatchOption result (10 ≤ digit_value byte) (λ digit. (digit < 10) × (digit ≡ digit_value byte)) }
{
    match byte {
        b'0'..=b'9' => Some((byte - b'0') as u16),
        _ => None,
    }
}

// Whether a word begins with a digit, and with 0 only if it is 0.
fn starts_number(word: &[u8]) -> bool
    ensures { Decides result (StartsNumber word.now) }
{
    matches!(word, [b'0'] | [b'1'..=b'9', ..])
}
