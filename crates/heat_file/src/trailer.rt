ghost use Rattle.std.specs.Prelude.{◌≡◌, length, MatchOption, IfSome};
ghost use Rattle.std.specs.Option.{option_map};
ghost use Rattle.heat_file.specs.Cuts.{cut, closed};
ghost use Rattle.heat_file.specs.Files.{ending, data_from, located, Parts};

use super::line::numbers;

// A longer file is refused.
const LONGEST: usize = 65_535;

// The byte place of the data lines, and their bytes up to the trailer, if the file's length and its trailer are as they should.
pub(crate) fn data_lines(file: &[u8]) -> Option<(usize, &[u8])>
    ensures { option_map (λ d. (d.0, d.1.now)) result ≡ located file.now }
{
    if file.len() > LONGEST {
        return None;
    }
    let (front, trailer) = split_trailer(file)?;
    let (place, count) = parse_trailer(trailer)?;
    let lines = data_from(front, place, count)?;
    Some((place, lines))
}

// What is before the last line, and that line without its feed.
fn split_trailer(file: &[u8]) -> Option<(&[u8], &[u8])>
    ensures { MatchOption result (located file.now ≡ None) (λ x. Parts file.now x.0.now x.1.now) }
{
    let [text @ .., b'\n'] = file else {
        return None;
    };
    let trailer = text.rsplit(|byte| *byte == b'\n').next()?;
    Some(text.split_at(text.len() - trailer.len()))
}

// The two numbers of a trailer `end P L`.
fn parse_trailer(line: &[u8]) -> Option<(usize, usize)>
    ensures { result ≡ ending line.now }
{
    let [place, count] = numbers::<2>(line.strip_prefix(b"end ")?)?;
    Some((usize::try_from(place).ok()?, usize::try_from(count).ok()?))
}

// What is from a place on, if a line begins there and it is so many lines.
fn data_from(front: &[u8], place: usize, count: usize) -> Option<&[u8]>
    ensures { option_map (λ d. d.now) result ≡ data_from front.now place count }
{
    let lines = front.get(place..)?;
    if is_whole(&front[..place]) && count_lines(lines) == count {
        Some(lines)
    } else {
        None
    }
}

// Whether a text is empty or ends in a line feed.
fn is_whole(text: &[u8]) -> bool
    ensures { result ≡ closed 10 text.now }
{
    matches!(text, [] | [.., b'\n'])
}

fn count_lines(text: &[u8]) -> usize
    ensures { result ≡ length (cut 10 text.now) }
{
    let mut count = 0;
    for byte in text {
        count += usize::from(*byte == b'\n');
    }
    count
}
