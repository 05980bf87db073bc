// Bytes end to end, cut into records: how many of them the first record takes, where a record ends, and how many records there are,
// as specs/Parting.antt says. The sheet and a batch part their bytes so.
#![tactic(auto)]

ghost use Rattle.std.specs.Prelude.{◌+◌, ◌*◌, ◌≤◌, ◌≡◌, length, drop};
ghost use Rattle.std.specs.Iterator.{YieldsFirstRef, item_count};
ghost use Rattle.record_parting.specs.Parting.{taken, records};

// How many bytes the first record takes.
#[tactic(auto, using(crate::proofs::PartingLaws::first_taken), unfolding(crate::specs::Parting::stated))]
pub fn first_end(input: &[u8]) -> usize
    ensures { result ≡ taken input.now }
{
    if input.len() < 4 {
        return input.len();
    }
    let end = 4 + endian::u32_at(input, 0);
    if end < 6 {
        return input.len();
    }
    if input.len() < end {
        return input.len();
    }
    end
}

// The records of some bytes, one after another.
#[derive(Clone, Copy, Drop)]
pub struct Records<'a>(pub &'a [u8]);

impl<'a> Iterator for Records<'a> {
    type Item = &'a [u8];

    ghost next_gives = { YieldsFirstRef (λ left. records left.0.now) };

    ghost remaining = { item_count (λ left. records left.0.now) };

    fn next(&mut self) -> Option<&'a [u8]> {
        if self.0.is_empty() {
            return None;
        }
        let (record, rest) = self.0.split_at(first_end(self.0));
        self.0 = rest;
        Some(record)
    }
}

// Where the record ends that starts at a place.
#[tactic(auto, using(std::proofs::lemmas::Grind::common_steps, crate::proofs::PartingLaws::taken_within))]
pub fn end_at(bytes: &[u8], from: usize) -> usize
    requires { from ≤ length bytes.now }
    ensures { result ≡ from + taken (drop from bytes.now) }
{
    from + first_end(&bytes[from..])
}

// How many records in front take `size` bytes each. Where the next one starts is known before the length of the last is read, so that reading it does
// not wait (`docs/PERFORMANCE.md`, "A ranking's totals"), as it does where `Records` walks. No whole record takes fewer than 6 bytes.
fn alike(bytes: &[u8], size: usize) -> usize
    ensures { (result ≤ result * size) × (result * size ≤ length bytes.now)
        × (result + length (records (drop (result * size) bytes.now)) ≡ length (records bytes.now)) }
{
    if size < 6 {
        return 0;
    }
    let mut alike = 0;
    for record in bytes.chunks_exact(size) {
        if 4 + endian::u32_at(record, 0) != size {
            return alike;
        }
        alike += 1;
    }
    alike
}

// How many records there are. Rankings of kind 2 for one loop are all as long as the first, so they are counted ahead.
pub fn count(bytes: &[u8]) -> usize
    ensures { result ≡ length (records bytes.now) }
{
    let size = first_end(bytes);
    let alike = alike(bytes, size);
    alike + Records(&bytes[alike * size..]).count()
}
