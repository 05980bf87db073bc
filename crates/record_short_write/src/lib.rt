// Moving rankings to kind 7 and back (02, Q-6). A record that is sound is written from the first byte of the room on; one that is not, or
// has no room, is refused and changes no byte. `lengthen_into` also serves whoever needs the kind 2 record of a short one that is sound.
#![tactic(auto)]

ghost use Rattle.std.specs.Prelude.{ℕ, ◌+◌, ◌*◌, ◌≤◌, ◌<◌, ◌≡◌, ◌++◌, length, drop};
ghost use Rattle.refusal.specs.Faults.{result_of};
ghost use Rattle.record_short.specs.Conversions.{triples_needed, short_bytes};
ghost use Rattle.record_short.specs.Conversions.{shortening_told, shortens, shortened_room};
ghost use Rattle.record_short.specs.Conversions.{lengthening_told, lengthens, lengthened_room};
ghost use Rattle.record_short.specs.ShortRecords.{triples_in, long_bytes};
ghost use Rattle.record_short_write.specs.Rooms.{with_triple, with_triples, Lengthens};
ghost use Rattle.record_short_write.specs.Rooms.{row_weighs, listed, with_row, with_rows};

mod ranking;
mod short;

use ranking::SoundRanking;
use record::Writing;
use refusal::{Fault, refused};
use short::SoundShort;

// ---- kind 7 to kind 2: zeros for every row, and then the triples, each at its row's places

impl SoundShort<'_> {
    fn put_triple(self, k: usize, room: &mut [u8])
        requires inside { k < triples_in self.bytes.now }
        requires roomy { 6 + 4 * self.m ≤ length room.old }
        ensures { room.new ≡ with_triple self.entry.m self.entry.bytes.now k room.old }
    {
        let at = 8 + 6 * k;
        let place = 6 + 2 * endian::u16_at(self.bytes, at);
        let y = endian::u16_at(self.bytes, at + 2);
        let z = endian::u16_at(self.bytes, at + 4);
        endian::put_u16(room, place, y);
        endian::put_u16(room, place + 2 * self.m, z);
    }

    fn put_triples(self, room: &mut [u8])
        requires { 6 + 4 * self.m ≤ length room.old }
        ensures { room.new ≡ with_triples self.entry.m self.entry.bytes.now (triples_in self.entry.bytes.now) room.old }
    {
        let count = endian::u16_at(self.bytes, 6);
        for k in 0..count {
            self.put_triple(k, room);
        }
    }

    // The kind 2 record.
    fn lengthen_into(self, room: &mut [u8])
        requires { 6 + 4 * self.m ≤ length room.old }
        ensures { (n : ℕ) → room.new ≡ long_bytes n self.entry.m self.entry.bytes.now ++ drop (6 + 4 * self.entry.m) room.old }
    {
        endian::put_u32(room, 0, 2 + 4 * self.m);
        endian::put_u16(room, 4, 2);
        room[6..6 + 4 * self.m].fill(0);
        self.put_triples(room);
    }
}

// The kind 2 record of a short one, for a loop of m rows.
pub fn lengthen_into(bytes: &[u8], m: usize, room: &mut [u8])
    requires sound { Lengthens m bytes.now }
    requires roomy { 6 + 4 * m ≤ length room.old }
    ensures { (n : ℕ) → room.new ≡ long_bytes n m bytes.now ++ drop (6 + 4 * m) room.old }
{
    SoundShort { bytes, m }.lengthen_into(room);
}

// How many bytes were written.
fn lengthened(bytes: &[u8], n: usize, m: usize, room: &mut [u8]) -> Result<usize, Fault>
    ensures value { result ≡ result_of (lengthening_told bytes.now n m room.old) (6 + 4 * m) }
    ensures left { room.new ≡ lengthened_room bytes.now n m room.old }
{
    record_short_check::check_short(bytes, n, m)?;
    let long = 6 + 4 * m;
    if room.len() < long {
        return refused(7, long);
    }
    lengthen_into(bytes, m, room);
    Ok(long)
}

// Writes the kind 2 record of a short one: the first bytes of the room hold it afterwards.
pub fn lengthen(bytes: &[u8], n: usize, m: usize, room: &mut [u8]) -> Writing
    ensures value { result ≡ lengthens bytes.now n m room.old }
    ensures room_after { room.new ≡ lengthened_room bytes.now n m room.old }
{
    Writing::of(lengthened(bytes, n, m, room))
}

// ---- kind 2 to kind 7: the rows that have weight, counted and then written one after another

impl SoundRanking<'_> {
    fn has_weight(self, i: usize) -> bool
        requires { i < self.m }
        ensures { result ≡ row_weighs self.entry.m self.entry.bytes.now i }
    {
        endian::u16_at(self.bytes, 6 + 2 * i) != 0
            || endian::u16_at(self.bytes, 6 + 2 * self.m + 2 * i) != 0
    }

    fn rows_counted(self) -> usize
        ensures { result ≡ triples_needed self.entry.m self.entry.bytes.now }
    {
        let mut count = 0;
        for i in 0..self.m {
            if self.has_weight(i) {
                count += 1;
            }
        }
        count
    }

    // The triple of row i at a place, if it has weight; where the next one goes.
    fn put_row(self, i: usize, room: &mut [u8], at: usize) -> usize
        requires inside { i < self.m }
        requires roomy { at + 6 * length (listed self.m self.bytes.now i) ≤ length room.old }
        ensures value { result ≡ at + 6 * length (listed self.entry.m self.entry.bytes.now i) }
        ensures room_after { room.new ≡ with_row self.entry.m self.entry.bytes.now i at room.old }
    {
        if !self.has_weight(i) {
            return at;
        }
        let y = endian::u16_at(self.bytes, 6 + 2 * i);
        let z = endian::u16_at(self.bytes, 6 + 2 * self.m + 2 * i);
        endian::put_u16(room, at, i);
        endian::put_u16(room, at + 2, y);
        endian::put_u16(room, at + 4, z);
        at + 6
    }

    fn put_rows(self, room: &mut [u8])
        requires { 8 + 6 * triples_needed self.m self.bytes.now ≤ length room.old }
        ensures { room.new ≡ with_rows self.entry.m self.entry.bytes.now self.entry.m room.old }
    {
        let mut at = 8;
        for i in 0..self.m {
            at = self.put_row(i, room, at);
        }
    }

    // The short record, of as many triples as have been counted.
    fn shorten_into(self, count: usize, room: &mut [u8])
        requires counted { count ≡ triples_needed self.m self.bytes.now }
        requires roomy { 8 + 6 * count ≤ length room.old }
        ensures { room.new ≡ short_bytes self.entry.m self.entry.bytes.now ++ drop (8 + 6 * count) room.old }
    {
        endian::put_u32(room, 0, 4 + 6 * count);
        endian::put_u16(room, 4, 7);
        endian::put_u16(room, 6, count);
        self.put_rows(room);
    }
}

// How many bytes were written.
fn shortened(bytes: &[u8], n: usize, m: usize, room: &mut [u8]) -> Result<usize, Fault>
    ensures value { result ≡ result_of (shortening_told bytes.now n m room.old) (8 + 6 * triples_needed m bytes.now) }
    ensures left { room.new ≡ shortened_room bytes.now n m room.old }
{
    record_check::check_ranking(bytes, n, m)?;
    let found = SoundRanking { bytes, m };
    let count = found.rows_counted();
    let long = 8 + 6 * count;
    if room.len() < long {
        return refused(7, long);
    }
    found.shorten_into(count, room);
    Ok(long)
}

// Writes a ranking of kind 2 as a short one: the first bytes of the room hold it afterwards.
pub fn shorten(bytes: &[u8], n: usize, m: usize, room: &mut [u8]) -> Writing
    ensures value { result ≡ shortens bytes.now n m room.old }
    ensures room_after { room.new ≡ shortened_room bytes.now n m room.old }
{
    Writing::of(shortened(bytes, n, m, room))
}
