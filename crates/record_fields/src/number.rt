// The forms of the numbers in a body, as types, so that a run is read and written by one function for all of them.
#![tactic(auto, using(crate::proofs::Stores::put_is, endian::proofs::Laws::length_digits), unfolding(record::specs::Fields::width, record::specs::Fields::number, record::specs::Fields::stored, record::specs::Fields::holds, endian::specs::Numbers::little_at))]

ghost use Rattle.std.specs.Prelude.{ℕ, ◌+◌, ◌≤◌, ◌≡◌, refl, true, length, take, drop};
ghost use Rattle.std.proofs.lemmas.List.Edits.{sets};
ghost use Rattle.record.specs.Fields.{Form, u16, i16, i32, width, number, stored, holds};

// A type that numbers in a body have.
pub trait Number {
    // The bytes that a number takes.
    const WIDTH: usize;

    ghost WIDTH: { ℕ };

    ghost form: { Form };

    // The number at a place.
    fn number_at(bytes: &[u8], place: usize) -> i64
        requires { place + WIDTH ≤ length bytes.now }
        ensures { result ≡ number form (take WIDTH (drop place bytes.now)) };

    // Puts a number at a place.
    fn put(room: &mut [u8], place: usize, z: i64)
        requires room { place + WIDTH ≤ length room.old }
        requires held { holds form z ≡ true }
        ensures { room.new ≡ sets room.old place (stored form z) };

    ghost wide: { width form ≡ WIDTH };
}

impl Number for u16 {
    const WIDTH: usize = 2;

    ghost WIDTH = { width u16 };

    ghost form = { u16 };

    ghost wide = { refl };

    fn number_at(bytes: &[u8], place: usize) -> i64 {
        endian::u16_at(bytes, place) as i64
    }

    fn put(room: &mut [u8], place: usize, z: i64) {
        endian::put_u16(room, place, z as usize);
    }
}

impl Number for i16 {
    const WIDTH: usize = 2;

    ghost WIDTH = { width i16 };

    ghost form = { i16 };

    ghost wide = { refl };

    fn number_at(bytes: &[u8], place: usize) -> i64 {
        endian::i16_at(bytes, place)
    }

    fn put(room: &mut [u8], place: usize, z: i64) {
        endian::put_i16(room, place, z);
    }
}

impl Number for i32 {
    const WIDTH: usize = 4;

    ghost WIDTH = { width i32 };

    ghost form = { i32 };

    ghost wide = { refl };

    fn number_at(bytes: &[u8], place: usize) -> i64 {
        endian::i32_at(bytes, place)
    }

    fn put(room: &mut [u8], place: usize, z: i64) {
        endian::put_i32(room, place, z);
    }
}
