// Bytes that are put into lent places.
use std::fmt;

// Bytes behind one another. What has no place any more is counted alone, so that a room takes all that is put into it.
#[derive(Drop)]
pub struct Room<'a> {
    places: &'a mut [u8],
    count: usize,
}

impl<'a> Room<'a> {
    pub fn new(places: &'a mut [u8]) -> Room<'a> {
        Room { places, count: 0 }
    }

    // How many bytes were put.
    pub fn count(&self) -> usize {
        self.count
    }

    // Whether there are more bytes than places.
    pub fn is_over(&self) -> bool {
        self.count > self.places.len()
    }

    pub fn push(&mut self, b: u8) {
        if self.count < self.places.len() {
            self.places[self.count] = b;
        }
        self.count = self.count.saturating_add(1);
    }

    // The same byte so many times.
    pub fn push_many(&mut self, b: u8, times: usize) {
        let end = self.count.saturating_add(times);
        for i in self.count..end.min(self.places.len()) {
            self.places[i] = b;
        }
        self.count = end;
    }

    // Blanks up to an index.
    pub fn pad_to(&mut self, end: usize) {
        self.push_many(b' ', end.saturating_sub(self.count));
    }

    // What a value prints.
    pub fn put<D: fmt::Display + Drop>(&mut self, value: D) {
        let _ = fmt::Write::write(self, value);
    }
}

impl fmt::Write for Room<'_> {
    fn write_str(&mut self, s: &str) -> fmt::Result {
        for b in s.bytes() {
            self.push(b);
        }
        Ok(())
    }
}
