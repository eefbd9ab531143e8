ghost use Rattle.std.specs.Prelude.{◌≡◌, ℕ, ◌≤◌, List, length, option_map, position};
ghost use Rattle.std.specs.Option.{MatchOption};
ghost use Rattle.std.specs.Iterator.{YieldsFirstBy, item_count};
ghost use Rattle.heat_file.specs.Words.{is_gap, is_tag, begins_at, gap_before, spelled, shown, run, word_at, words, words_left, IsRun, IsWord, IsEveryWord};

use super::number::parse_number;

// A word of a file with its byte place: a run of bytes with neither a space nor a line feed in it. A tag is one of the words that begin a
// line, a number one that writes a number, and a name any other.
#[derive(Clone, Copy, PartialEq, Eq, Debug)]
pub enum Word<'a> {
    Tag { bytes: &'a [u8], place: usize },
    Number { bytes: &'a [u8], place: usize },
    Name { bytes: &'a [u8], place: usize },
}

fn is_gap(byte: u8) -> bool
    ensures { result ≡ is_gap byte }
{
    byte == b' ' || byte == b'\n'
}

fn is_tag(word: &[u8]) -> bool
    ensures { result ≡ is_tag word.now }
{
    matches!(word, b"size" | b"a" | b"b" | b"u" | b"end")
}

fn gap_before(file: &[u8], place: usize) -> bool
    requires { place ≤ length file.now }
    ensures { result ≡ gap_before file.now place }
{
    match place.checked_sub(1) {
        None => true,
        Some(before) => is_gap(file[before]),
    }
}

fn begins_at(file: &[u8], place: usize) -> bool
    ensures { result ≡ begins_at file.now place }
{
    place < file.len() && !is_gap(file[place]) && gap_before(file, place)
}

// A word of the kind that its bytes tell.
fn told(bytes: &[u8], place: usize) -> Word<'_>
    ensures { shown result ≡ spelled bytes.now place }
{
    if is_tag(bytes) {
        Word::Tag { bytes, place }
    } else if parse_number(bytes).is_some() {
        Word::Number { bytes, place }
    } else {
        Word::Name { bytes, place }
    }
}

// Where the first space or line feed stands.
fn first_gap(bytes: &[u8]) -> Option<usize>
    ensures { result ≡ position is_gap bytes.now }
{
    bytes.iter().position(|b| is_gap(*b))
}

// Up to the first space or line feed, or the end.
fn run(bytes: &[u8]) -> &[u8]
    ensures { result.now ≡ run bytes.now }
{
    &bytes[..first_gap(bytes).unwrap_or(bytes.len())]
}

// The word that begins at a byte place, if one begins there.
pub fn word_at(file: &[u8], place: usize) -> Option<Word<'_>>
    ensures answers { option_map shown result ≡ word_at file.now place }
    ensures is_the_word_there { MatchOption (option_map shown result) ((bytes : List ℕ) → IsRun file.now place bytes → ⊥) (λ w. IsWord file.now place w) }
{
    if begins_at(file, place) {
        Some(told(run(&file[place..]), place))
    } else {
        None
    }
}

// The words of a file that are left, in order.
#[derive(Drop)]
pub struct FileWords<'a> {
    file: &'a [u8],
    place: usize,
}

pub fn words(file: &[u8]) -> FileWords<'_>
    ensures has_the_words_of_the_file { words_left result ≡ words file.now }
    ensures has_every_word_once_in_order { IsEveryWord file.now (words_left result) }
{
    FileWords { file, place: 0 }
}

impl<'a> Iterator for FileWords<'a> {
    type Item = Word<'a>;

    ghost next_gives = { YieldsFirstBy shown words_left };

    ghost remaining = { item_count words_left };

    fn next(&mut self) -> Option<Word<'a>> {
        let file = self.file;
        for place in self.place..file.len() {
            if let Some(word) = word_at(file, place) {
                self.place = place + 1;
                return Some(word);
            }
        }
        self.place = file.len();
        None
    }
}
