// What the conditions of a lexicographic argument tell (02, Q-3), straight from the bytes of sound records of kinds 5 and 6: path by path
// 51, 52 or 53, each a law of weighted rows over the path's own rows.
#![tactic(auto)]

ghost use Rattle.std.specs.Prelude.{◌+◌, ◌*◌, ◌≤◌, ◌<◌, ◌≡◌, ◌&&◌};
ghost use Rattle.judge_sums.specs.Running.{CanGrow};
ghost use Rattle.refusal.specs.Faults.{result_of};
ghost use Rattle.refusal.specs.Tests.{done, first as first_failing};
ghost use Rattle.record_paths.specs.PathCertificates.{counted, sound_lexicographic};
ghost use Rattle.record_paths.specs.PathFields.{bytes_alone};
ghost use Rattle.record_paths.specs.PathLoops.{sound_paths};
ghost use Rattle.theory_paths.specs.PathConditions.{every, weighs as weighs-so, lexicographic_told};
ghost use Rattle.verdict_paths.specs.PathContents.{branches_in, lexicographic_in};
ghost use Rattle.judge_paths.specs.PathHeld.{weighted_of, column_meets, totals_meet, bounded_of, falling_of, staying_of, told_of};

mod path;

use judge_ranking::Lifted;
use judge_sums::{Multipliers, Rows};
use path::{Held, Path};
use refusal::Fault;

impl<'c> Held<'c> {
    // Whether column j's totals are -r and next times r: a condition of paths alone.
    fn column_holds(self, sums: Lifted, j: usize) -> bool
        requires { (j < sums.n) × (sums.n ≤ self.n) }
        ensures { result ≡ column_meets sums.entry self.entry j }
    {
        let entry = endian::i32_at(self.weights.bytes, self.r + 4 * j);
        let over = sums.now(j) == judge_conditions::minus(entry);
        let then = sums.next(j) == judge_conditions::times(self.next as i64, entry);
        over & then
    }

    // The same of all columns.
    fn columns_hold(self, sums: Lifted) -> bool
        requires { sums.n ≤ self.n }
        ensures { result ≡ every sums.entry.n (column_meets sums.entry self.entry) }
    {
        (0..sums.n).all(|j| self.column_holds(sums, j))
    }

    // Whether totals are what they are held to.
    fn met_by(self, sums: Lifted, right: i64) -> bool
        requires { (sums.n ≤ self.n) × CanGrow right }
        ensures { result ≡ totals_meet sums.entry right self.entry }
    {
        right <= self.limit && self.columns_hold(sums)
    }
}

impl<'l, 'c> Path<'l, 'c> {
    // Whether the rows weigh as they are held to.
    fn weighs(self, held: Held) -> bool
        requires { (self.rows.count ≤ held.weights.count) × (self.rows.n ≤ held.n) }
        ensures { result ≡ weighs-so self.entry.rows.n (weighted_of self.entry.rows held.entry) }
    {
        let mut sums = [0i64; 32];
        let beside = judge_totals::sum_rows(&mut sums, self.rows, held.weights);
        let lifted = Lifted {
            sums: &sums,
            n: self.rows.n,
            lift: beside.lift,
        };
        held.met_by(lifted, beside.right)
    }

    // The same under two lists, in one visit of each row, which is faster than one after the other (`docs/PERFORMANCE.md`, "Branches and
    // settlings"). One function for one list and for two would take an array of `Held` whose length is a parameter, which may not hold
    // references, and would have to choose between `sum_rows` and `sum_two` all the same. Put in place where it is called it reads no struct
    // from memory.
    #[inline(always)]
    fn weigh_two(self, first: Held, second: Held) -> (bool, bool)
        requires { (self.rows.count ≤ first.weights.count) × (self.rows.n ≤ first.n)
            × (self.rows.count ≤ second.weights.count) × (self.rows.n ≤ second.n) }
        ensures { (result.0 ≡ weighs-so self.entry.rows.n (weighted_of self.entry.rows first.entry))
            × (result.1 ≡ weighs-so self.entry.rows.n (weighted_of self.entry.rows second.entry)) }
    {
        let mut ys = [0i64; 32];
        let mut zs = [0i64; 32];
        let beside = judge_totals::sum_two(
            &mut ys,
            &mut zs,
            self.rows,
            first.weights,
            second.weights,
        );
        let y = Lifted {
            sums: &ys,
            n: self.rows.n,
            lift: beside.y.lift,
        };
        let z = Lifted {
            sums: &zs,
            n: self.rows.n,
            lift: beside.z.lift,
        };
        (
            first.met_by(y, beside.y.right),
            second.met_by(z, beside.z.right),
        )
    }

    // List k of the path.
    fn list(self, k: usize) -> Multipliers<'c>
        requires { k < 2 + self.component }
        ensures { (result.bytes.now ≡ self.entry.certificate.now) × (result.place ≡ self.entry.place + 2 * self.entry.rows.count * k)
            × (result.count ≡ self.entry.rows.count) }
    {
        Multipliers {
            bytes: self.certificate,
            place: self.place + 2 * self.rows.count * k,
            count: self.rows.count,
        }
    }

    // The path's own component. Bounded: it is δ0 at least before a step. Ranking: it falls by δ or more.
    fn own_holds(self) -> (bool, bool)
        ensures { (result.0 ≡ weighs-so self.entry.rows.n (bounded_of self.entry))
            × (result.1 ≡ weighs-so self.entry.rows.n (falling_of self.entry)) }
    {
        let n = self.rows.n;
        let own = self.first + self.component * (4 * n + 8);
        let start = endian::i32_at(self.certificate, own + 4 * n);
        let fall = endian::i32_at(self.certificate, own + 4 * n + 4);
        let bounded = Held {
            weights: self.list(0),
            r: own,
            n,
            next: 0,
            limit: judge_conditions::minus(start),
        };
        let ranking = Held {
            weights: self.list(1),
            r: own,
            n,
            next: 1,
            limit: judge_conditions::minus(fall),
        };
        self.weigh_two(bounded, ranking)
    }

    // What keeps the earlier component i from rising.
    fn staying(self, i: usize) -> Held<'c>
        requires { i < self.component }
        ensures { (weighted_of self.entry.rows result ≡ staying_of self.entry i)
            × (result.weights.count ≡ self.entry.rows.count) × (result.n ≡ self.entry.rows.n) }
    {
        Held {
            weights: self.list(2 + i),
            r: self.first + i * (4 * self.rows.n + 8),
            n: self.rows.n,
            next: 1,
            limit: 0,
        }
    }

    // Unaffecting, for the earlier component i: it does not rise.
    fn stays(self, i: usize) -> bool
        requires { i < self.component }
        ensures { result ≡ weighs-so self.entry.rows.n (staying_of self.entry i) }
    {
        self.weighs(self.staying(i))
    }

    // The same of two, i and the next, in one visit of each row; beside `stays` for the reasons of `weigh_two` beside `weighs`.
    fn stay_two(self, i: usize) -> bool
        requires { i + 1 < self.component }
        ensures { result ≡ (weighs-so self.entry.rows.n (staying_of self.entry i)
            && weighs-so self.entry.rows.n (staying_of self.entry (i + 1))) }
    {
        let (this, other) = self.weigh_two(self.staying(i), self.staying(i + 1));
        this & other
    }

    // The same of all earlier components, two at a time.
    fn none_rises(self) -> bool
        ensures { result ≡ every self.entry.component (λ i. weighs-so self.entry.rows.n (staying_of self.entry i)) }
    {
        for k in 0..self.component / 2 {
            if !self.stay_two(2 * k) {
                return false;
            }
        }
        self.component % 2 == 0 || self.stays(self.component - 1)
    }

    // What is told of the path, which is path j: 51, 52 or 53, whichever condition fails first.
    fn told(self, j: usize) -> Result<(), Fault>
        ensures { result ≡ result_of (told_of self.entry j) tt }
    {
        let (bounded, ranking) = self.own_holds();
        if !bounded {
            return refusal::refused(51, j);
        }
        if !ranking {
            return refusal::refused(52, j);
        }
        if !self.none_rises() {
            return refusal::refused(53, j);
        }
        Ok(())
    }
}

// Kind 6, of sound records: the first path that fails a condition, and which. Its rows and its lists lie where those of the paths before it
// end.
pub fn paths_fault(loopbytes: &[u8], certificate: &[u8]) -> Result<(), Fault>
    requires { (first_failing sound_paths (bytes_alone loopbytes.now) ≡ done)
        × (first_failing (sound_lexicographic (counted loopbytes.now)) (bytes_alone certificate.now) ≡ done) }
    ensures { result ≡ result_of (lexicographic_told (branches_in loopbytes.now)
        (lexicographic_in (counted loopbytes.now) certificate.now)) tt }
{
    let n = endian::u16_at(loopbytes, 6);
    let paths = endian::u16_at(loopbytes, 8);
    let first = 8 + 2 * paths;
    let mut row = 10 + 2 * paths;
    let mut place = first + endian::u16_at(certificate, 6) * (4 * n + 8);
    for j in 0..paths {
        let m = endian::u16_at(loopbytes, 10 + 2 * j);
        let component = endian::u16_at(certificate, 8 + 2 * j);
        let rows = Rows {
            bytes: loopbytes,
            start: row,
            n,
            count: m,
        };
        let path = Path {
            rows,
            certificate,
            place,
            first,
            component,
        };
        path.told(j)?;
        row += m * (4 * n + 4);
        place += 2 * (m * (2 + component));
    }
    Ok(())
}
