// The lines of a sheet: writers that put one word, number or verdict after another into a text, as the definitions say. Each asks for
// room enough for what it writes.
#![tactic(auto, using(std::proofs::lemmas::Grind::common_steps, crate::proofs::Writing::writing))]

ghost use Rattle.std.specs.Prelude.{[], ◌∷◌, ◌++◌, map};
ghost use Rattle.decimal.specs.Decimals.{decimal, signed_decimal};
ghost use Rattle.decimal.specs.Texts.{HasRoom, Appends};
ghost use Rattle.sheet_lines.specs.VerdictLines.{rank_words, outcome_words, verdict_line};
ghost use Rattle.sheet_lines.specs.Words.{bytes, line, run};

use decimal::Text;
use verdict::{Grade, Outcome, Verdict};

// Writes a count, number or place, and what parts it from the next word or ends the line.
fn put_number(text: &mut Text<'_>, x: usize, after: u8)
    requires { HasRoom text.old (decimal x ++ (after ∷ [])) }
    ensures { Appends text.old (decimal x ++ (after ∷ [])) text.new }
{
    text.put_u64(x as u64);
    text.put_byte(after);
}

// Writes a whole number, and what parts it from the next word or ends the line.
fn put_whole(text: &mut Text<'_>, z: i64, after: u8)
    requires { HasRoom text.old (signed_decimal z ++ (after ∷ [])) }
    ensures { Appends text.old (signed_decimal z ++ (after ∷ [])) text.new }
{
    text.put_i64(z);
    text.put_byte(after);
}

// Writes two numbers, the last words of a line.
pub fn put_pair(text: &mut Text<'_>, x: usize, y: usize)
    requires { HasRoom text.old (line (decimal x ∷ decimal y ∷ [])) }
    ensures { Appends text.old (line (decimal x ∷ decimal y ∷ [])) text.new }
{
    put_number(text, x, b' ');
    put_number(text, y, b'\n');
}

// Writes the entries of r, each with its blank.
fn put_entries(text: &mut Text<'_>, rank: &[i64])
    requires { HasRoom text.old (run (map signed_decimal rank.now)) }
    ensures { Appends text.old (run (map signed_decimal rank.now)) text.new }
{
    for z in rank {
        put_whole(text, *z, b' ');
    }
}

// Writes bytes, a whole number, and what parts it from the next word or ends the line. Inlined, as `put_rank` is, so that the text's place
// need not go through memory.
#[inline(always)]
fn put_named(text: &mut Text<'_>, name: &[u8], z: i64, after: u8)
    requires { HasRoom text.old (name.now ++ (signed_decimal z ++ (after ∷ []))) }
    ensures { Appends text.old (name.now ++ (signed_decimal z ++ (after ∷ []))) text.new }
{
    text.put_bytes(name);
    put_whole(text, z, after);
}

// Writes a word, the entries of r, `from`, start, `down` and fall, the last words of a line.
#[inline(always)]
fn put_rank(text: &mut Text<'_>, word: &[u8], rank: &[i64], start: i64, fall: i64)
    requires { HasRoom text.old (word.now ++ line (rank_words rank.now start fall)) }
    ensures { Appends text.old (word.now ++ line (rank_words rank.now start fall)) text.new }
{
    text.put_bytes(word);
    put_entries(text, rank);
    put_named(text, b"from ", start, b' ');
    put_named(text, b"down ", fall, b'\n');
}

// Writes a refusal, the last words of a line.
pub fn put_refusal(text: &mut Text<'_>, number: usize, fault: usize)
    requires { HasRoom text.old (line (bytes "refused" ∷ decimal number ∷ decimal fault ∷ [])) }
    ensures { Appends text.old (line (bytes "refused" ∷ decimal number ∷ decimal fault ∷ [])) text.new }
{
    text.put_bytes(b"refused ");
    put_pair(text, number, fault);
}

// Writes what follows the count in the line of a verdict, whose rank is given.
#[tactic(auto, using(std::proofs::lemmas::Grind::common_steps, crate::proofs::Writing::each_outcome))]
fn put_verdict(text: &mut Text<'_>, v: Verdict, rank: &[i64])
    requires { HasRoom text.old (line (outcome_words v.outcome v.number v.place rank.now)) }
    ensures { Appends text.old (line (outcome_words v.outcome v.number v.place rank.now)) text.new }
{
    let outcome = v.outcome;
    match outcome {
        Outcome::Nothing => put_refusal(text, v.number, v.place),
        Outcome::Ranking { start, fall } => put_rank(text, b"rank ", rank, start, fall),
        Outcome::Exclusion { grade } => match grade {
            Grade::Whole => text.put_bytes(b"excluded whole\n"),
            Grade::Fractions => text.put_bytes(b"excluded fractions\n"),
        },
        Outcome::Lasso { start, fall } => put_rank(text, b"lasso ", rank, start, fall),
        Outcome::Lexicographic => put_refusal(text, v.number, v.place),
        Outcome::Settling { .. } => put_refusal(text, v.number, v.place),
    }
}

// Writes the line of a certificate.
pub fn put_line(text: &mut Text<'_>, count: usize, v: Verdict, rank: &[i64])
    requires { HasRoom text.old (verdict_line count v rank.now) }
    ensures { Appends text.old (verdict_line count v rank.now) text.new }
{
    put_number(text, count, b' ');
    put_verdict(text, v, rank);
}
