// Certificates for a loop of kind 1 that has been checked: a short ranking (kind 7) becomes the kind 2 record that it stands for, in a
// buffer of its own, and then the one judge decides; every other kind goes to the judge as it is.
#![tactic(auto)]

ghost use Rattle.std.specs.Prelude.{◌≡◌, true, ◌&&◌, leb, length};
ghost use Rattle.verdict_short.specs.ShortJudging.{of_short, judged_or_short, ranked_or_short};

use judge::SoundLoop;
use verdict::Verdict;

// Whether the certificate has a kind, and it is 7.
pub fn is_short(certificate: &[u8]) -> bool
    ensures { result ≡ (leb 6 (length certificate.now) && of_short certificate.now) }
{
    if certificate.len() < 6 {
        return false;
    }
    endian::u16_at(certificate, 4) == 7
}

// A certificate of kind 7: the record that it stands for is sound as it is, so its conditions are asked at once.
#[inline(always)]
pub fn by_short(looped: SoundLoop, certificate: &[u8], rank: &mut [i64]) -> Verdict
    requires { of_short certificate.now ≡ true }
    ensures { (result ≡ judged_or_short looped.entry.bytes.now certificate.now rank.old)
        × (rank.new ≡ ranked_or_short looped.entry.bytes.now certificate.now rank.old) }
{
    if let Err(fault) = record_short_check::check_short(certificate, looped.n, looped.m) {
        return judge::refused(2, fault.number, fault.place);
    }
    let mut long = [0u8; 262];
    record_short_write::lengthen_into(certificate, looped.m, &mut long);
    judge::ranking_sound(looped, &long[..6 + 4 * looped.m], rank)
}

// Judges a certificate for a loop record that has been checked.
pub fn judge_sound(looped: SoundLoop, certificate: &[u8], rank: &mut [i64]) -> Verdict
    ensures { (result ≡ judged_or_short looped.entry.bytes.now certificate.now rank.old)
        × (rank.new ≡ ranked_or_short looped.entry.bytes.now certificate.now rank.old) }
{
    if is_short(certificate) {
        return by_short(looped, certificate, rank);
    }
    judge::judge_sound(looped, certificate, rank)
}
