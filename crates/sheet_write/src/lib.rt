// The calls for a sheet: the room that is enough for its text, and the text itself, put into the caller's room.
#![tactic(auto)]

ghost use Rattle.std.specs.Prelude.{◌≡◌};
ghost use Rattle.sheet_text.specs.Sheets.{worst, sheet_answers, room_after};

use record::Writing;

// The room that is enough for the text of any input of a size.
pub fn room_needed(size: usize) -> usize
    ensures { result ≡ worst size }
{
    if size < 65536 {
        47 * size + 306
    } else {
        47 * 65536 + 306
    }
}

// Writes the text of a sheet. Room is tested first, against the worst case of the input's size.
#[tactic(auto, using(sheet_text::proofs::TextLaws::no_room, sheet_text::proofs::TextLaws::enough, sheet_text::proofs::WorstCase::never_longer))]
pub fn sheet(input: &[u8], text: &mut [u8]) -> Writing
    ensures value { result ≡ sheet_answers input.now text.old }
    ensures text_after { text.new ≡ room_after input.now text.old }
{
    let needed = room_needed(input.len());
    if text.len() < needed {
        return Writing {
            number: 7,
            place: needed,
            written: 0,
        };
    }
    let written = sheet_put::put_sheet(text, input);
    Writing {
        number: 0,
        place: 0,
        written,
    }
}
