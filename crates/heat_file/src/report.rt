ghost use Rattle.std.specs.Prelude.{◌≡◌, ◌+◌, ◌-◌, ◌≤◌, [], ◌∷◌, ◌++◌, length, take, drop, nat_le, decimal};
ghost use Rattle.std.specs.Option.{SomeIff};
ghost use Rattle.heat_file.specs.Reports.{box_line, node_line, rest_line, box_report, refused_line, refusal_report, length_or_no_room, put_in_front};

use arrayvec::ArrayString;
use balance::range::Range;
use balance::refusal::Refusal;
use itoa::Buffer;

// Room for the longest line.
const LINE: usize = 96;

fn box_line(size: usize) -> ArrayString<LINE>
    ensures { result.bytes ≡ box_line size }
{
    let mut line = ArrayString::new();
    let mut digits = Buffer::new();
    line.push_str("box ");
    line.push_str(digits.format(size));
    line.push_str("\n");
    line
}

fn node_line(node: usize, range: Range) -> ArrayString<LINE>
    ensures { result.bytes ≡ node_line node range }
{
    let mut line = ArrayString::new();
    let mut digits = Buffer::new();
    line.push_str(digits.format(node));
    line.push_str(" ");
    line.push_str(digits.format(range.lower));
    line.push_str(" ");
    line.push_str(digits.format(range.upper));
    line.push_str("\n");
    line
}

fn rest_line(rests: bool) -> &'static str
    ensures { result.now ≡ rest_line rests }
{
    if rests { "rest yes\n" } else { "rest no\n" }
}

// Writes a line at the front of what is left of a buffer, and says how long it is.
fn put_line(line: &str, tail: &mut [u8]) -> usize
    requires room { length line.now ≤ length tail.old }
    ensures is_the_length { result ≡ length line.now }
    ensures puts { tail.new ≡ line.now ++ drop (length line.now) tail.old }
{
    tail[..line.len()].copy_from_slice(line.as_bytes());
    line.len()
}

// Writes a line into the tail of a buffer that begins at a place, and says where the line ends.
fn put_behind(line: &str, out: &mut [u8], at: usize) -> usize
    requires room { at + length line.now ≤ length out.old }
    ensures is_the_end { result ≡ at + length line.now }
    ensures puts { out.new ≡ take at out.old ++ (line.now ++ drop (at + length line.now) out.old) }
{
    at + put_line(line, &mut out[at..])
}

// Whether a box's report is no longer than this.
fn box_fits(ranges: &[Range], rests: bool, room: usize) -> bool
    ensures { result ≡ nat_le (length (box_report ranges.now rests)) room }
{
    room_behind(ranges, rests, room).is_some()
}

// How many bytes of a room are left behind a box's report, if it fits.
fn room_behind(ranges: &[Range], rests: bool, room: usize) -> Option<usize>
    ensures { SomeIff result (length (box_report ranges.now rests) ≤ room) (room - length (box_report ranges.now rests)) }
{
    let mut left = room.checked_sub(box_line(ranges.len()).len())?;
    for (k, range) in ranges.iter().enumerate() {
        left = left.checked_sub(node_line(k + 1, *range).len())?;
    }
    left.checked_sub(rest_line(rests).len())
}

// Writes the report of a box: its size, each node with its two ends, and whether it is at rest. Answers how long the report is.
pub fn write_box(ranges: &[Range], rests: bool, out: &mut [u8]) -> Result<usize, Refusal>
    ensures answers { result ≡ length_or_no_room (box_report ranges.now rests) out.old }
    ensures writes_the_report_and_keeps_the_rest { out.new ≡ put_in_front (box_report ranges.now rests) out.old }
{
    if !box_fits(ranges, rests, out.len()) {
        return Err(Refusal::Room);
    }
    let mut at = put_behind(box_line(ranges.len()).as_str(), out, 0);
    for (k, range) in ranges.iter().enumerate() {
        at = put_behind(node_line(k + 1, *range).as_str(), out, at);
    }
    Ok(put_behind(rest_line(rests), out, at))
}

// Adds a number behind a space.
fn push_number(line: &mut ArrayString<LINE>, number: usize)
    requires room { length line.old.bytes + 21 ≤ LINE }
    ensures puts { line.new.bytes ≡ line.old.bytes ++ (32 ∷ decimal number) }
    ensures is_short { length line.new.bytes ≤ length line.old.bytes + 21 }
{
    line.push_str(" ");
    line.push_str(Buffer::new().format(number));
}

// `refused N P`
fn place_line(number: u8, place: usize) -> ArrayString<LINE>
    ensures { result.bytes ≡ refused_line (number ∷ place ∷ []) }
{
    let mut line = ArrayString::new();
    line.push_str("refused");
    push_number(&mut line, number as usize);
    push_number(&mut line, place);
    line.push_str("\n");
    line
}

// `refused N K I J`
fn limit_line(number: u8, part: usize, row: usize, column: usize) -> ArrayString<LINE>
    ensures { result.bytes ≡ refused_line (number ∷ part ∷ row ∷ column ∷ []) }
{
    let mut line = ArrayString::new();
    line.push_str("refused");
    push_number(&mut line, number as usize);
    push_number(&mut line, part);
    push_number(&mut line, row);
    push_number(&mut line, column);
    line.push_str("\n");
    line
}

fn refusal_line(refusal: Refusal) -> ArrayString<LINE>
    ensures { result.bytes ≡ refusal_report refusal }
{
    let number = refusal.number();
    match refusal {
        Refusal::Limit { part, row, column } => limit_line(number, part, row, column),
        _ => place_line(number, refusal.first_value()),
    }
}

// Writes the line of a refusal. Answers how long it is.
pub fn write_refusal(refusal: Refusal, out: &mut [u8]) -> Result<usize, Refusal>
    ensures answers { result ≡ length_or_no_room (refusal_report refusal) out.old }
    ensures writes_the_line_and_keeps_the_rest { out.new ≡ put_in_front (refusal_report refusal) out.old }
{
    let line = refusal_line(refusal);
    if line.len() > out.len() {
        return Err(Refusal::Room);
    }
    Ok(put_behind(line.as_str(), out, 0))
}
