// Numbers on file: the few functions in which bytes become numbers and numbers become bytes, the
// lowest byte first. Each says what it returns, or leaves in the room, by specs/Numbers.antt, so
// that no caller meets a byte's bits. Bytes are converted by std, and i16_at and i32_at compile to
// one load that extends the sign. A lifted number is a remainder by a number written out, which
// shows that it is never below 0.
//
// There is one function for each form and not one for all: std's conversions are methods of each type, so the impls of a trait would hold the same
// lines, and what is never below 0 is given as a usize, with which callers reckon places. For runs of one form there is such a trait above
// these, `record_fields::Number`.
#![tactic(auto)]

ghost use Rattle.std.specs.Prelude.{◌+◌, ◌*◌, ◌%◌, ◌≤◌, ◌<◌, ◌≡◌, ◌++◌, pos, nat_abs, ◌+ℤ◌, ◌-ℤ◌, length, take, drop};
ghost use Rattle.std.specs.Int.Signed.{mag};
ghost use Rattle.endian.specs.Numbers.{little_at, digits, signed, unsigned};

// The u16 at a place.
pub fn u16_at(bytes: &[u8], place: usize) -> usize
    requires { place + 2 ≤ length bytes.now }
    ensures { (result ≡ little_at 2 bytes.now place) × (result < 65536) }
{
    u16::from_le_bytes([bytes[place], bytes[place + 1]]) as usize
}

// The u32 at a place.
pub fn u32_at(bytes: &[u8], place: usize) -> usize
    requires { place + 4 ≤ length bytes.now }
    ensures { (result ≡ little_at 4 bytes.now place) × (result < 4294967296) }
{
    u32::from_le_bytes([
        bytes[place],
        bytes[place + 1],
        bytes[place + 2],
        bytes[place + 3],
    ]) as usize
}

// The i16 at a place.
pub fn i16_at(bytes: &[u8], place: usize) -> i64
    requires { place + 2 ≤ length bytes.now }
    ensures { (result ≡ signed 32768 (little_at 2 bytes.now place)) × (nat_abs result ≤ 32768) }
{
    i16::from_le_bytes([bytes[place], bytes[place + 1]]) as i64
}

// The i16 at a place, lifted by 32,768: never below 0, so that a product with it needs no sign.
pub fn lifted_at(bytes: &[u8], place: usize) -> i64
    requires { place + 2 ≤ length bytes.now }
    ensures { (result ≡ signed 32768 (little_at 2 bytes.now place) +ℤ pos 32768) × (nat_abs result ≤ 65535)
        × (nat_abs (signed 32768 (little_at 2 bytes.now place)) ≤ 32768) }
{
    ((u16_at(bytes, place) + 32768) % 65536) as i64
}

// The i32 at a place.
pub fn i32_at(bytes: &[u8], place: usize) -> i64
    requires { place + 4 ≤ length bytes.now }
    ensures { (result ≡ signed 2147483648 (little_at 4 bytes.now place)) × (nat_abs result ≤ 2147483648) }
{
    i32::from_le_bytes([
        bytes[place],
        bytes[place + 1],
        bytes[place + 2],
        bytes[place + 3],
    ]) as i64
}

// Puts x at a place as a u16.
pub fn put_u16(room: &mut [u8], place: usize, x: usize)
    requires { (place + 2 ≤ length room.old) × (x < 65536) }
    ensures { room.new ≡ take place room.old ++ digits 2 x ++ drop (place + 2) room.old }
{
    room[place..place + 2].copy_from_slice(&(x as u16).to_le_bytes());
}

// Puts x at a place as a u32.
pub fn put_u32(room: &mut [u8], place: usize, x: usize)
    requires { (place + 4 ≤ length room.old) × (x < 4294967296) }
    ensures { room.new ≡ take place room.old ++ digits 4 x ++ drop (place + 4) room.old }
{
    room[place..place + 4].copy_from_slice(&(x as u32).to_le_bytes());
}

// Puts z at a place as an i16.
pub fn put_i16(room: &mut [u8], place: usize, z: i64)
    requires { (place + 2 ≤ length room.old) × (mag z < 32768) }
    ensures { room.new ≡ take place room.old ++ digits 2 (unsigned 32768 z) ++ drop (place + 2) room.old }
{
    room[place..place + 2].copy_from_slice(&(z as i16).to_le_bytes());
}

// Puts z at a place as an i32.
pub fn put_i32(room: &mut [u8], place: usize, z: i64)
    requires { (place + 4 ≤ length room.old) × (mag z < 2147483648) }
    ensures { room.new ≡ take place room.old ++ digits 4 (unsigned 2147483648 z) ++ drop (place + 4) room.old }
{
    room[place..place + 4].copy_from_slice(&(z as i32).to_le_bytes());
}
