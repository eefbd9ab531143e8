ghost use Rattle.std.specs.Prelude.{◌≡◌, ◌^◌, ◌<◌, IfSome};
ghost use Rattle.heat_file.specs.Numbers.{natural, number, ReadsNumeral};

// The number that a word writes: 1 to 13 digits, perhaps after a minus, no leading zero and no -0.
pub fn parse_number(word: &[u8]) -> Option<i64>
    ensures is_the_number_written { result ≡ number word.now }
    ensures reads_exactly_numerals { ReadsNumeral word.now result }
{
    match word {
        [b'-', digits @ ..] => match parse_natural(digits)? {
            0 => None,
            n => Some(-(n as i64)),
        },
        _ => Some(parse_natural(word)? as i64),
    }
}

// 1 to 13 digits with no leading zero.
fn parse_natural(digits: &[u8]) -> Option<u64>
    ensures is { result ≡ natural digits.now }
    ensures has_at_most_13_digits { IfSome result (λ n. n < 10 ^ 13) }
{
    if matches!(digits, [] | [b'0', _, ..]) || digits.len() > 13 {
        return None;
    }
    let mut n = 0;
    for digit in digits {
        if !digit.is_ascii_digit() {
            return None;
        }
        n = n * 10 + u64::from(*digit - b'0');
    }
    Some(n)
}
