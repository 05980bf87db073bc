// What stands in the line of a case, word by word: numbers, bytes, and how much of a list is lent. Bytes are pairs of hexadecimal digits,
// numbers are decimal, and one blank parts two words.
#![tactic(auto)]

ghost use Rattle.std.specs.Prelude.{◌≡◌, ◌<◌, ◌≤◌, length, min, take};
ghost use Rattle.cases_lines.specs.Sizes.{digit_told, size_told};
ghost use Rattle.cases_lines.specs.Words.{next_word, behind};

// What is still to be read of a line.
#[derive(Clone, Copy)]
pub struct Line<'a> {
    rest: &'a [u8],
}

// What a digit, decimal or hexadecimal, stands for.
#[tactic(auto, unfolding(crate::specs::Sizes::digit_told))]
fn digit(byte: u8) -> u8
    ensures told { result ≡ digit_told byte }
    ensures small { result < 16 }
{
    if byte <= b'9' {
        byte % 16
    } else {
        (byte - b'7') % 16
    }
}

// The number that the digits of a word make, without its sign. It stays below 10 to the 18th.
#[tactic(auto, unfolding(crate::specs::Sizes::size_told, crate::specs::Sizes::with_byte))]
fn size(word: &[u8]) -> u64
    ensures told { result ≡ size_told word.now }
    ensures small { result < 1000000000000000000 }
{
    let size = word.iter().fold(0, |size: u64, byte| {
        if *byte == b'-' {
            size
        } else {
            size % 100000000000000000 * 10 + u64::from(digit(*byte))
        }
    });
    size % 1000000000000000000
}

impl<'a> Line<'a> {
    // All of it.
    pub fn new(line: &'a [u8]) -> Line<'a>
        ensures { result.rest.now ≡ line.now }
    {
        Line { rest: line }
    }

    // The next word: what stands before the next blank, or before the end.
    pub fn word(&mut self) -> &'a [u8]
        ensures word { result.now ≡ next_word self.old.rest.now }
        ensures behind { self.new.rest.now ≡ behind self.old.rest.now }
    {
        let rest = self.rest;
        match rest.iter().position(|byte| *byte == b' ') {
            Some(end) => {
                self.rest = &rest[end + 1..];
                &rest[..end]
            }
            None => {
                self.rest = &[];
                rest
            }
        }
    }

    // A count, or 0 at the end of the line.
    pub fn count(&mut self) -> usize
        ensures value { result ≡ size_told (next_word self.old.rest.now) }
        ensures behind { self.new.rest.now ≡ behind self.old.rest.now }
    {
        size(self.word()) as usize
    }

    fn number(&mut self) -> i64 {
        let word = self.word();
        let size = size(word) as i64;
        if word.starts_with(b"-") { -size } else { size }
    }

    // Puts the numbers that are left into a list, and lends those; numbers past its end are left out.
    pub fn numbers<'b>(&mut self, list: &'b mut [i64]) -> &'b [i64]
        ensures { length result.now ≤ length list.old }
    {
        let mut count = 0;
        for place in list.iter_mut() {
            if self.rest.is_empty() {
                break;
            }
            *place = self.number();
            count += 1;
        }
        &list[..count]
    }

    // Puts the bytes that the next word tells into a room, and lends those; bytes past its end are left out.
    pub fn bytes<'b>(&mut self, room: &'b mut [u8]) -> &'b [u8]
        ensures { length result.now ≤ length room.old }
    {
        let word = self.word();
        let count = room.len().min(word.len() / 2);
        let bytes = &mut room[..count];
        for (byte, pair) in bytes.iter_mut().zip(word.chunks_exact(2)) {
            *byte = 16 * digit(pair[0]) + digit(pair[1]);
        }
        bytes
    }

    // As much of a list as the next word counts, or all of it.
    pub fn front<'b, T>(&mut self, list: &'b mut [T]) -> &'b mut [T]
        ensures lent { result.now ≡ take (min (size_told (next_word self.old.rest.now)) (length list.old)) list.old }
        ensures behind { self.new.rest.now ≡ behind self.old.rest.now }
    {
        let size = self.count().min(list.len());
        &mut list[..size]
    }
}
