ghost use Rattle.std.specs.Prelude.{◌≡◌, ◌^◌, ◌<◌, true, IfSome, IfNone};
ghost use Rattle.std.specs.Str.{all_ascii_digits};
ghost use Rattle.std.specs.Str.Parse.{digits_value};
ghost use Rattle.textline.specs.Words.{ReadsCount, ReadsNumber, ReadsBelowZero};

/// The value of some digits, where it has at most 64 bits.
fn value(digits: &[u8]) -> Option<u64>
    ensures some { IfSome result (λ n. (all_ascii_digits digits.now ≡ true) × (n ≡ digits_value 10 digits.now) × (n < 2 ^ 64)) }
    ensures none { IfNone result (all_ascii_digits digits.now ≡ true → digits_value 10 digits.now < 2 ^ 64 → ⊥) }
{
    let mut value: u64 = 0;
    for b in digits {
        if !b.is_ascii_digit() {
            return None;
        }
        let next = u128::from(value) * 10 + u128::from(*b - b'0');
        if next > u128::from(u64::MAX) {
            return None;
        }
        value = next as u64;
    }
    Some(value)
}

/// The count of at most 64 bits that a word spells, with no sign and no leading zero.
pub fn read_count(word: &[u8]) -> Option<u64>
    ensures { ReadsCount word.now result }
{
    if word.is_empty() {
        return None;
    }
    if word.len() > 1 {
        if word[0] == b'0' {
            return None;
        }
    }
    value(word)
}

/// The number below zero whose digits these are.
fn below_zero(digits: &[u8]) -> Option<i64>
    ensures { ReadsBelowZero digits.now result }
{
    let Some(size) = read_count(digits) else {
        return None;
    };
    if size == 0 {
        return None;
    }
    if size > 1 << 63 {
        return None;
    }
    Some((-i128::from(size)) as i64)
}

/// The number of 64 bits that a word spells, with no plus, no leading zero and no `-0`.
pub fn read_number(word: &[u8]) -> Option<i64>
    ensures { ReadsNumber word.now result }
{
    if word.is_empty() {
        return None;
    }
    if word[0] == b'-' {
        let (_, digits) = word.split_at(1);
        return below_zero(digits);
    }
    let Some(size) = read_count(word) else {
        return None;
    };
    if size < 1 << 63 {
        return Some(size as i64);
    }
    None
}
