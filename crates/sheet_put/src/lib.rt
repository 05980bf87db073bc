// The text of a sheet, put into a room that is long enough: the input is parted into records, the loop is checked once, each certificate is
// judged, and its line is put into the room, as the definitions of `sheet_text` say.
#![tactic(auto)]

ghost use Rattle.std.specs.Prelude.{◌≤◌, length};
ghost use Rattle.decimal.specs.Rooms.{Puts};
ghost use Rattle.decimal.specs.Texts.{HasRoom, Appends};
ghost use Rattle.record.specs.Readers.{sound};
ghost use Rattle.refusal.specs.Tests.{first};
ghost use Rattle.verdict.specs.Pairs.{loop_record};
ghost use Rattle.record_parting.specs.Parting.{records};
ghost use Rattle.sheet_text.specs.Sheets.{certificate_line, lines, judged, sheet_text};

use decimal::Text;
use judge::SoundLoop;
use record_check::Checked;
use record_parting::Records;

// Judges a certificate for a sound loop, and writes its line.
pub fn put_certificate(text: &mut Text<'_>, looped: SoundLoop, count: usize, certificate: &[u8])
    requires { HasRoom text.old (certificate_line looped.bytes.now count certificate.now) }
    ensures { Appends text.old (certificate_line looped.entry.bytes.now count certificate.now) text.new }
{
    let mut rank = [0i64; 16];
    let v = judge_short::judge_sound(looped, certificate, &mut rank);
    sheet_write_lines::put_line(text, count, v, &rank[..looped.n]);
}

// Writes a line for each certificate of a sound loop, with its count from 1.
fn put_certificates(text: &mut Text<'_>, looped: SoundLoop, certificates: &[u8])
    requires { HasRoom text.old (lines looped.bytes.now 1 (records certificates.now)) }
    ensures { Appends text.old (lines looped.entry.bytes.now 1 (records certificates.now)) text.new }
{
    let mut count = 1;
    for certificate in Records(certificates) {
        put_certificate(text, looped, count, certificate);
        count += 1;
    }
}

// Writes the text of a loop record and the certificates after it.
pub fn put_judged(text: &mut Text<'_>, loopbytes: &[u8], certificates: &[u8])
    requires { HasRoom text.old (judged (first sound (loop_record loopbytes.now)) loopbytes.now certificates.now) }
    ensures { Appends text.old (judged (first sound (loop_record loopbytes.now)) loopbytes.now certificates.now) text.new }
{
    text.put_bytes(b"loop ");
    match record_check::check_loop(loopbytes) {
        Ok(Checked { n, m, .. }) => {
            sheet_write_lines::put_pair(text, n, m);
            let looped = SoundLoop {
                bytes: loopbytes,
                n,
                m,
            };
            put_certificates(text, looped, certificates);
        }
        Err(fault) => sheet_write_lines::put_refusal(text, fault.number, fault.place),
    }
}

// Writes the text of an input.
pub fn put_sheet(text: &mut [u8], input: &[u8]) -> usize
    requires { length (sheet_text input.now) ≤ length text.old }
    ensures { Puts text.old 0 (sheet_text input.now) result text.new }
{
    let mut text = Text { room: text, at: 0 };
    if input.len() > 65536 {
        text.put_bytes(b"input too long\n");
        return text.at;
    }
    let end = record_parting::first_end(input);
    put_judged(&mut text, &input[..end], &input[end..]);
    text.at
}
