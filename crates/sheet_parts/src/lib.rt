// The text of a sheet part by part, for whoever has no room for all of it: the first line, and then as many whole lines as a small room
// takes. Laid end to end the parts are the text (proofs/EndToEnd.antt).
#![tactic(auto)]

ghost use Rattle.std.specs.Prelude.{◌≤◌, ◌<◌, ◌≡◌, length};
ghost use Rattle.sheet_text.specs.Sheets.{sheet_text};
ghost use Rattle.sheet_parts.specs.Parts.{to_come, Goes_on, Begins};

use decimal::Text;
use judge::SoundLoop;

// A part that was put into a room: its bytes, the place in the input from which on the certificates have no line yet, the count of the
// next one, and the loop's n and m.
#[derive(Clone, Copy)]
pub struct Part {
    pub written: usize,
    pub place: usize,
    pub count: usize,
    pub n: usize,
    pub m: usize,
}

// The last part: no certificate follows it.
fn last_part(input: &[u8], written: usize) -> Part
    ensures { (result.written ≡ written) × (result.place ≡ length input.now) × (result.count ≡ 1) }
{
    Part {
        written,
        place: input.len(),
        count: 1,
        n: 0,
        m: 0,
    }
}

// Puts the first line, which is the text of the loop without a certificate.
pub fn first_part(input: &[u8], room: &mut [u8]) -> Part
    requires { 306 ≤ length room.old }
    ensures { Begins (sheet_text input.now) input.now room.new result }
{
    if input.len() > 65536 {
        let written = sheet_put::put_sheet(room, input);
        return last_part(input, written);
    }
    let end = record_parting::first_end(input);
    let loopbytes = &input[..end];
    let mut text = Text { room, at: 0 };
    sheet_put::put_judged(&mut text, loopbytes, &input[..0]);
    let written = text.at;
    match record_check::check_loop(loopbytes) {
        Ok(found) => Part {
            written,
            place: end,
            count: 1,
            n: found.n,
            m: found.m,
        },
        Err(_) => last_part(input, written),
    }
}

// Puts the lines of the certificates that come next, while there is room for a line of any length.
pub fn next_part(input: &[u8], last: Part, room: &mut [u8]) -> Part
    requires in_bounds { 306 ≤ length room.old }
    requires goes_on { Goes_on input.now last }
    requires place_in_bounds { last.place < length input.now }
    ensures begins { Begins (to_come input.now last.place last.count) input.now room.new result }
    ensures place_lt_place { last.place < result.place }
{
    let end = record_parting::first_end(input);
    let looped = SoundLoop {
        bytes: &input[..end],
        n: last.n,
        m: last.m,
    };
    let mut text = Text { room, at: 0 };
    let mut place = last.place;
    let mut count = last.count;
    // a `for` over `Records`, with a break, was tried, and its proof did not close
    while place < input.len() {
        if text.room.len() - text.at < 306 {
            break;
        }
        let rest = &input[place..];
        let size = record_parting::first_end(rest);
        sheet_put::put_certificate(&mut text, looped, count, &rest[..size]);
        place += size;
        count += 1;
    }
    Part {
        written: text.at,
        place,
        count,
        n: last.n,
        m: last.m,
    }
}
