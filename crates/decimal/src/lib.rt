// Decimal numbers: the functions in which a number becomes text, as specs/Decimals.antt says. Text is put into a room that has enough left, at the
// place where the text before ends; specs/Rooms.antt says what the room holds then. Nothing is allocated: the digits are counted first, and then
// put at their places from the last to the first.
#![tactic(auto, using(std::proofs::lemmas::Grind::common_steps, crate::proofs::RoomLaws::number_writing))]

ghost use Rattle.std.specs.Prelude.{[], ◌∷◌, ◌≡◌, pos, nat_abs, ◌<ℤ◌, length};
ghost use Rattle.decimal.specs.Decimals.{decimal, signed_decimal};
ghost use Rattle.decimal.specs.Texts.{HasRoom, Appends};

// A room for text, and the place in it where the text so far ends.
#[derive(Drop)]
pub struct Text<'a> {
    pub room: &'a mut [u8],
    pub at: usize,
}

// How many digits x has.
fn digit_count(x: u64) -> usize
    ensures { result ≡ length (decimal x) }
{
    // what is counted are digits, so no range is walked: a `while`
    let mut count = 1;
    let mut rest = x;
    while rest >= 10 {
        rest /= 10;
        count += 1;
    }
    count
}

// The size of a number below 0, of the smallest too.
fn size_below(z: i64) -> u64
    requires { z <ℤ pos 0 }
    ensures { result ≡ nat_abs z }
{
    (-1 - z) as u64 + 1
}

impl<'a> Text<'a> {
    // Writes a byte.
    pub fn put_byte(&mut self, b: u8)
        requires { HasRoom self.old (b ∷ []) }
        ensures { Appends self.old (b ∷ []) self.new }
    {
        self.room[self.at] = b;
        self.at += 1;
    }

    // Writes words that are given as bytes.
    pub fn put_bytes(&mut self, word: &[u8])
        requires { HasRoom self.old word.now }
        ensures { Appends self.old word.now self.new }
    {
        let end = self.at + word.len();
        self.room[self.at..end].copy_from_slice(word);
        self.at = end;
    }

    // Writes x.
    pub fn put_u64(&mut self, x: u64)
        requires { HasRoom self.old (decimal x) }
        ensures { Appends self.old (decimal x) self.new }
    {
        let place = self.at;
        let end = place + digit_count(x);
        let room = &mut *self.room;
        // from the last digit on, as long as there are any
        let mut at = end;
        let mut rest = x;
        while rest >= 10 {
            at -= 1;
            room[at] = 48 + (rest % 10) as u8;
            rest /= 10;
        }
        room[place] = 48 + rest as u8;
        self.at = end;
    }

    // Writes z.
    pub fn put_i64(&mut self, z: i64)
        requires { HasRoom self.old (signed_decimal z) }
        ensures { Appends self.old (signed_decimal z) self.new }
    {
        if z < 0 {
            self.put_byte(b'-');
            return self.put_u64(size_below(z));
        }
        self.put_u64(z as u64);
    }
}
