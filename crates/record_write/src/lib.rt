// Writing a record: length and kind go first, and the body is filled in the part of the room after the kind. What does not make a record,
// or has no room, is refused and changes no byte.
#![tactic(auto)]

ghost use Rattle.std.specs.Prelude.{◌+◌, ◌≡◌, [], ◌++◌};
ghost use Rattle.std.proofs.lemmas.List.Edits.{sets};
ghost use Rattle.endian.specs.Numbers.{digits};
ghost use Rattle.record.specs.Writers.{writer, writes, room_after};
ghost use Rattle.record_fill.specs.Bodies.{body_bytes};
ghost use Rattle.record_write.specs.WrittenOut.{ToWrite, bytes_told};

use record::{Counts, Writing};
use refusal::{Fault, refused};

// Length and kind, then the body in the part of the room after the kind.
fn write_out(kind: usize, counts: Counts, long: usize, values: &[i64], room: &mut [u8])
    requires { ToWrite kind counts long values.now room.old }
    ensures { room.new ≡ sets room.old 0 (digits 4 long ++ (digits 2 kind ++ body_bytes kind counts values.now)) }
{
    endian::put_u32(room, 0, long);
    endian::put_u16(room, 4, kind);
    record_fill::write_body(&mut room[6..], kind, counts, values);
}

// Writes a record, and says how many bytes it has.
fn write_bytes(
    kind: usize,
    n: usize,
    m: usize,
    values: &[i64],
    room: &mut [u8],
) -> Result<usize, Fault>
    ensures value { result ≡ bytes_told (writer kind n m values.now room.old) }
    ensures room_filled { room.new ≡ room_after (writer kind n m values.now room.old) room.old }
{
    let counts = record_given::settle(kind, n, m, values)?;
    let long = record_fields::record_length(kind, counts);
    if room.len() < 4 + long {
        return refused(7, 4 + long);
    }
    write_out(kind, counts, long, values, room);
    Ok(4 + long)
}

// Writes a record: the first bytes of the room hold it afterwards.
pub fn write_record(kind: usize, n: usize, m: usize, values: &[i64], room: &mut [u8]) -> Writing
    ensures value { result ≡ writes (writer kind n m values.now room.old) }
    ensures room_after { room.new ≡ room_after (writer kind n m values.now room.old) room.old }
{
    Writing::of(write_bytes(kind, n, m, values, room))
}
