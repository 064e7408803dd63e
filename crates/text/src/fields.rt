// Numbers and lines as text: document 01, "Capture and listing". Each is written at a place where there is room for it, and answers the place after
// it. Where there is no room it is counted all the same, so that the length of a text is what its writer answers over no text at all.
ghost use Rattle.std.specs.Prelude.{◌≡◌, List, ℕ, ◌-◌, ◌≤◌, length};
ghost use Rattle.answers.specs.Numbers.{counted};
ghost use Rattle.bits.specs.Order.{laid_at};
ghost use Rattle.text.specs.Text.{decimal, sync_name, shape_name, name_of, head_line, release_line};
ghost use Rattle.text.specs.Writing.{done, room_over};
ghost use Rattle.text.specs.inner.Wrote.{Wrote, field};

use answers::Refusal;
use frame::modes;
use frame::modes::{Row, Sync};

pub(crate) fn put(text: &mut [u8], at: usize, octets: &[u8]) -> usize
    ensures { Wrote octets.now at text.old result text.new }
{
    let next = at.saturating_add(octets.len());
    if next <= text.len() {
        text[at..next].copy_from_slice(octets);
    }
    next
}

// How many digits a number has: compared, not divided, since over no text this is all that a number costs. As a match it takes a tenth more.
fn width(n: u32) -> usize
    ensures { (result ≡ length (decimal n)) × (result ≤ 10) }
{
    if n < 10 {
        return 1;
    }
    if n < 100 {
        return 2;
    }
    if n < 1000 {
        return 3;
    }
    if n < 10000 {
        return 4;
    }
    if n < 100000 {
        return 5;
    }
    if n < 1000000 {
        return 6;
    }
    if n < 10000000 {
        return 7;
    }
    if n < 100000000 {
        return 8;
    }
    if n < 1000000000 {
        return 9;
    }
    10
}

// The digits of a number before the place `end`, the last one first.
fn write_digits(text: &mut [u8], end: usize, n: u32)
    requires { (length (decimal n) ≤ end) × (end ≤ length text.old) }
    ensures { text.new ≡ laid_at (decimal n) (end - length (decimal n)) text.old }
{
    let last = end - 1;
    if n < 10 {
        text[last] = b'0' + n as u8;
        return;
    }
    text[last] = b'0' + (n % 10) as u8;
    write_digits(text, last, n / 10);
}

pub(crate) fn put_decimal(text: &mut [u8], at: usize, n: u32) -> usize
    ensures { Wrote (decimal n) at text.old result text.new }
{
    let next = at.saturating_add(width(n));
    if next <= text.len() {
        write_digits(text, next, n);
    }
    next
}

// What the writer puts over the start of `text`. It is measured first, over no text: a text that is too short stays as it was.
pub(crate) fn put_where_room<F: Fn(&mut [u8]) -> usize>(
    text: &mut [u8],
    writer: F,
) -> Result<usize, Refusal>
    requires { F.IsAlwaysCallable writer }
    ensures { (new : List ℕ) → ((old : _) (end : ℕ) (after : _) → F.post writer old end after → Wrote new 0 old.now end after.now) → done (counted result) text.new ≡ room_over new text.old }
{
    if writer(&mut []) > text.len() {
        return Err(Refusal::Room);
    }
    Ok(writer(text))
}

// A number, and the octet that ends it. One test of the room serves both.
pub(crate) fn put_field(text: &mut [u8], at: usize, n: u32, end: u8) -> usize
    ensures { Wrote (field n end) at text.old result text.new }
{
    let next = at.saturating_add(width(n) + 1);
    if next <= text.len() {
        let last = next - 1;
        text[last] = end;
        write_digits(text, last, n);
    }
    next
}

fn letters_of(sync: Sync) -> &'static [u8]
    ensures { result.now ≡ sync_name sync }
{
    match sync {
        Sync::Crc12 => b"crc12",
        Sync::Fec => b"fec",
        Sync::Crc3 => b"crc3",
        Sync::Command => b"cmd",
    }
}

// Where blocks have gaps, the bits of a block.
fn put_shape(text: &mut [u8], at: usize, row: Row) -> usize
    ensures { Wrote (shape_name row.gap) at text.old result text.new }
{
    if row.gap == 0 {
        return at;
    }
    let next = put(text, at, b"-");
    put_decimal(text, next, modes::numbers_of(row).width)
}

// The name of the mode, and a space.
fn put_name(text: &mut [u8], row: Row) -> usize
    ensures { Wrote (name_of row) 0 text.old result text.new }
{
    let sync = put(text, 0, letters_of(row.sync));
    let shape = put_shape(text, sync, row);
    put(text, shape, b" ")
}

// Mode name, E, received, released.
pub(crate) fn put_head(text: &mut [u8], row: Row, e: u32, received: u32, released: u32) -> usize
    ensures { Wrote (head_line row e received released) 0 text.old result text.new }
{
    let name = put_name(text, row);
    let first = put_field(text, name, e, b' ');
    let second = put_field(text, first, received, b' ');
    put_field(text, second, released, b'\n')
}

// Number, status, place, pattern.
pub(crate) fn put_line(
    text: &mut [u8],
    at: usize,
    k: u32,
    status: u8,
    place: u16,
    pattern: u16,
) -> usize
    ensures { Wrote (release_line k status place pattern) at text.old result text.new }
{
    let first = put_field(text, at, k, b' ');
    let second = put_field(text, first, u32::from(status), b' ');
    let third = put_field(text, second, u32::from(place), b' ');
    put_field(text, third, u32::from(pattern), b'\n')
}
