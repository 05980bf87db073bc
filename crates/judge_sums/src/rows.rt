// Where the rows of a loop, a path or a stem lie, and where multipliers lie beside them: places in the bytes of records, which are not
// unpacked. Whoever has one of these knows that it lies within its bytes.
#![tactic(auto)]

ghost use Rattle.std.specs.Prelude.{◌+◌, ◌*◌, ◌≤◌, ◌<◌, ◌≡◌, length};
ghost use Rattle.endian.specs.Numbers.{little_at};
ghost use Rattle.judge_sums.specs.Places.{row_place, RowsIn, MultipliersIn};

// Rows over n variables, one after another from `start` on.
#[derive(Clone, Copy)]
pub struct Rows<'a> {
    pub bytes: &'a [u8],
    pub start: usize,
    pub n: usize,
    pub count: usize,
    ghost lie: { RowsIn bytes.now start n count },
}

impl Rows<'_> {
    // How far each row starts from the one before it.
    pub fn stride(self) -> usize
        ensures { result ≡ 4 * self.entry.n + 4 }
    {
        4 * self.n + 4
    }

    // Where row i starts.
    pub fn place_of(self, i: usize) -> usize
        requires { i < self.count }
        ensures { (result ≡ row_place self.entry.start self.entry.n i) × (result + (4 * self.entry.n + 4) ≤ length self.entry.bytes.now) }
    {
        self.start + i * self.stride()
    }
}

// Multipliers, one after another from a place on.
#[derive(Clone, Copy)]
pub struct Multipliers<'a> {
    pub bytes: &'a [u8],
    pub place: usize,
    pub count: usize,
    ghost lie: { MultipliersIn bytes.now place count },
}

impl Multipliers<'_> {
    // That of row i.
    pub fn at(self, i: usize) -> usize
        requires { i < self.count }
        ensures { (result ≡ little_at 2 self.entry.bytes.now (self.entry.place + 2 * i)) × (result < 65536) }
    {
        endian::u16_at(self.bytes, self.place + 2 * i)
    }
}
