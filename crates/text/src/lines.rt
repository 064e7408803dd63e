// The lines of a listing, and the whole of its text: document 01, "Capture and listing". It is written where there is room for all of it.
ghost use Rattle.std.specs.Prelude.{◌≡◌, ◌≤◌, length};
ghost use Rattle.answers.specs.Numbers.{counted};
ghost use Rattle.frame.specs.Modes.{most_of_all};
ghost use Rattle.text.specs.Text.{lines_of, text_of};
ghost use Rattle.text.specs.Writing.{done, room_over};
ghost use Rattle.text.specs.inner.Wrote.{Wrote};

use crate::fields;
use answers::Refusal;
use frame::modes::Row;

// What was released: for each multiblock a status, a place and a pattern.
#[derive(Clone, Copy)]
pub(crate) struct Releases<'a> {
    pub statuses: &'a [u8],
    pub places: &'a [u16],
    pub patterns: &'a [u16],
    ghost few: { length statuses.now ≤ most_of_all },
    ghost placed: { length places.now ≡ length statuses.now },
    ghost patterned: { length patterns.now ≡ length statuses.now },
}

impl Releases<'_> {
    fn put_lines(&self, text: &mut [u8], start: usize) -> usize
        ensures { Wrote (lines_of (length self.now.statuses.now) self.now.statuses.now self.now.places.now self.now.patterns.now) start text.old result text.new }
    {
        let mut at = start;
        let released = self.statuses.iter().zip(self.places).zip(self.patterns);
        for (k, ((status, place), pattern)) in released.enumerate() {
            at = fields::put_line(text, at, k as u32, *status, *place, *pattern);
        }
        at
    }

    fn put_all(&self, text: &mut [u8], row: Row, e: u32, received: u32) -> usize
        ensures { Wrote (text_of row e received self.now.statuses.now self.now.places.now self.now.patterns.now) 0 text.old result text.new }
    {
        let start = fields::put_head(text, row, e, received, self.statuses.len() as u32);
        self.put_lines(text, start)
    }

    // The header line and a line for each multiblock. They are measured first: a text that is too short stays as it was.
    pub(crate) fn put(
        &self,
        text: &mut [u8],
        row: Row,
        e: u32,
        received: u32,
    ) -> Result<usize, Refusal>
        ensures { done (counted result) text.new ≡ room_over (text_of row e received self.now.statuses.now self.now.places.now self.now.patterns.now) text.old }
    {
        fields::put_where_room(text, |text| self.put_all(text, row, e, received))
    }
}
