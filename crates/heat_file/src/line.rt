ghost use Rattle.std.specs.Prelude.{◌≡◌, ◌∷◌, ◌++◌, codes, length};
ghost use Rattle.std.specs.Option.{option_map};
ghost use Rattle.heat_file.specs.Lines.{exactly, parse_line, ReadsLine};

use super::number::parse_number;
use balance::range::Range;

// What a data line says. Nodes, rows and columns are counted from 1 and are not checked here.
#[derive(Clone, Copy, PartialEq, Eq, Debug)]
pub enum Entry {
    Size(i64),
    Coefficient { row: i64, column: i64, range: Range },
    RightSide { row: i64, range: Range },
    Weight { node: i64, weight: i64 },
}

impl Entry {
    // The entry that a line without its feed writes; another shape writes none. (`size` is the one tag longer than a byte.)
    #[tactic(auto, using(crate::proofs::Shapes::no_shape))]
    pub fn parse(line: &[u8]) -> Option<Entry>
        ensures is_the_entry_written { result ≡ parse_line line.now }
        ensures has_one_reading { ReadsLine line.now result }
    {
        match line {
            [tag, b' ', rest @ ..] => match *tag {
                b'a' => coefficient(rest),
                b'b' => right_side(rest),
                b'u' => weight(rest),
                _ => None,
            },
            _ => size(line.strip_prefix(b"size ")?),
        }
    }
}

// `size n`, from what follows the first space.
fn size(rest: &[u8]) -> Option<Entry>
    ensures { result ≡ parse_line (codes "size " ++ rest.now) }
{
    let [size] = numbers::<1>(rest)?;
    Some(Entry::Size(size))
}

// `a i j lower upper`, likewise.
fn coefficient(rest: &[u8]) -> Option<Entry>
    ensures { result ≡ parse_line (97 ∷ 32 ∷ rest.now) }
{
    let [row, column, lower, upper] = numbers::<4>(rest)?;
    let range = Range { lower, upper };
    Some(Entry::Coefficient { row, column, range })
}

// `b i lower upper`, likewise.
fn right_side(rest: &[u8]) -> Option<Entry>
    ensures { result ≡ parse_line (98 ∷ 32 ∷ rest.now) }
{
    let [row, lower, upper] = numbers::<3>(rest)?;
    let range = Range { lower, upper };
    Some(Entry::RightSide { row, range })
}

// `u i number`, likewise.
fn weight(rest: &[u8]) -> Option<Entry>
    ensures { result ≡ parse_line (117 ∷ 32 ∷ rest.now) }
{
    let [node, weight] = numbers::<2>(rest)?;
    Some(Entry::Weight { node, weight })
}

// N numbers with one space between. (In a function over N the check does not take a `for` over an array, so `fill` goes over the list.)
pub(crate) fn numbers<const N: usize>(text: &[u8]) -> Option<[i64; N]>
    ensures { result ≡ exactly N text.now }
{
    let mut numbers = [0; N];
    fill(&mut numbers, text)?;
    Some(numbers)
}

// Fills a list with just as many numbers, unless the text has fewer or more.
fn fill(numbers: &mut [i64], text: &[u8]) -> Option<()>
    ensures { exactly (length numbers.old) text.now ≡ option_map (λ _. numbers.new) result }
{
    let mut words = text.split(|byte| *byte == b' ');
    for number in numbers.iter_mut() {
        *number = parse_number(words.next()?)?;
    }
    match words.next() {
        None => Some(()),
        Some(_) => None,
    }
}
