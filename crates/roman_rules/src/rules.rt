//! The interface of a system for algorithms over the numbers of pairs.
ghost use Rattle.std.specs.Prelude.{◌≡◌, ℕ, ◌+◌, ◌*◌, ◌/◌, ◌<◌, ◌≤◌, Bool, true, false, not, ◌&&◌};
ghost use Rattle.std.specs.Prelude.{length, count_by, ltb, sum_by, IsTrue};
ghost use Rattle.roman_model.specs.Lists.{IsIn, below};
ghost use Rattle.roman_model.specs.System.{has};
ghost use Rattle.roman_model.specs.Arena.{Arena, is_beaten, is_justified, mask as mask_of, back as predecessors};
ghost use Rattle.roman_model.specs.Numbers.{Sizes};
ghost use Rattle.roman_lanes.specs.Rows.{is_on, HasLanes, Keeps};
ghost use Rattle.roman_lanes.specs.Flags.{has_flag};
ghost use Rattle.roman_rules.specs.Alive.{AreAliveRows, HasAllRows};
ghost use Rattle.roman_rules.specs.Bits.{HasBits};
ghost use Rattle.roman_rules.specs.Numbered.{IsNumbered};
ghost use Rattle.roman_rules.specs.Finding.{HasFinding};

use crate::finding::Finding;
use crate::seat_set::SeatSet;
use roman_io::Steps;
use roman_model::Reason;
use std::sync::ledger::Ledger;

/// A system over the numbers of its pairs.
///
/// Pairs, actions and seats are numbers below [`pairs`](Rules::pairs), [`actions`](Rules::actions) and
/// [`seats`](Rules::seats). Numbers that are passed must be in range. Pairs lie in
/// [`rows`](Rules::rows) of [`lanes`](Rules::lanes) neighbours each, and bit l of a row's word stands
/// for the pair at lane l. Rows lie in [`bands`](Rules::bands) of [`band`](Rules::band) neighbours
/// each. A band is looked up by its first row. No call takes memory.
///
/// A pair is gone if an algorithm has removed it. Calls take the pairs that aren't gone as `words`,
/// one word for each row. A seat serves an action at a pair if the delegation has an outcome there,
/// and no outcome that is gone.
pub trait Rules {
    /// The system as an arena, on which removal lists and masks are defined.
    ghost arena: { Self → Arena ℕ };

    /// The facts about a row that are looked up once, as plain data.
    type Row: Drop;

    /// The number of pairs in a row.
    ghost lanes: { Self → ℕ };

    /// The number of rows in a band.
    ghost band: { Self → ℕ };

    /// The number of seats before a band's own. These seats have the same state at all pairs of a
    /// band.
    ghost mid: { Self → ℕ };

    /// The looked-up facts are those of the row with the given number.
    ghost is_row: { Self → ℕ → Self.Row → Type 0 };

    /// The word has the lanes at which all seats within the lanes may rest.
    ghost is_resting: { Self → ℕ → Type 0 };

    /// The sizes by which the pairs are numbered.
    ghost sizes: { Self → Sizes };

    /// Does nothing. Its contract states the limits on the numbers of every system.
    fn known(&self)
        ensures numbered { IsNumbered (arena self.now) }
        ensures lanes { (0 < lanes self.now) × (lanes self.now ≤ 64) }
        ensures band { (0 < band self.now) × (band self.now ≤ 64) }
        ensures bands { (bands : ℕ) × (bands * band self.now * lanes self.now ≡ length (arena self.now).nodes) };

    /// Returns the number of pairs.
    fn pairs(&self) -> u32
        ensures { result ≡ length (arena self.now).nodes };

    /// Returns the number of actions.
    fn actions(&self) -> u8
        ensures { result ≡ (arena self.now).actions };

    /// Returns the number of seats.
    fn seats(&self) -> u8
        ensures { result ≡ (arena self.now).seats };

    /// Returns whether seat `k` is ready: whether it takes delegations. A frozen seat isn't ready.
    fn is_ready(&self, k: u8) -> bool
        requires { k < (arena self.now).seats }
        ensures { result ≡ (arena self.now).ready k };

    /// Returns the number of pairs in a row, from 1 to 64. Pair p is lane `p % lanes` of row
    /// `p / lanes`.
    fn lanes(&self) -> u32
        ensures value { result ≡ lanes self.now }
        ensures few { (0 < result) × (result ≤ 64) };

    /// Returns the number of rows.
    fn rows(&self) -> u32
        ensures { result * lanes self.now ≡ length (arena self.now).nodes };

    /// Returns the number of rows in a band, from 1 to 64. Row x is in band `x / band`.
    fn band(&self) -> u32
        ensures value { result ≡ band self.now }
        ensures few { (0 < result) × (result ≤ 64) };

    /// Returns the number of bands.
    fn bands(&self) -> u32
        ensures { result * band self.now * lanes self.now ≡ length (arena self.now).nodes };

    /// Looks up the row `x`, for the calls that take a row. The result is valid until the system
    /// changes.
    fn row(&self, x: u32) -> Self::Row
        requires { x * lanes self.now < length (arena self.now).nodes }
        ensures { is_row self.now x result };

    /// Looks up the first row of the band `y`, for the calls that take a band.
    fn first_row(&self, y: u32) -> Self::Row
        requires { y * band self.now * lanes self.now < length (arena self.now).nodes }
        ensures { is_row self.now (y * band self.now) result };

    /// Returns the actions that the target allows at the pairs of a row: bit a is set exactly when
    /// it allows a. They are the same at all pairs of a row, and at all pairs of a band if the row
    /// is its first.
    fn row_actions(&self, row: &Self::Row) -> u32
        ensures row { (x lane : ℕ) → is_row self.now x row.now → lane < lanes self.now →
            HasBits result ((arena self.now).allows (x * lanes self.now + lane)) }
        ensures band { (y i lane : ℕ) → is_row self.now (y * band self.now) row.now → i < band self.now →
            lane < lanes self.now →
            HasBits result ((arena self.now).allows ((y * band self.now + i) * lanes self.now + lane)) };

    /// Returns the pairs of a row that don't meet clause 2 of an ND-simulation. No bit is set past the
    /// lanes.
    fn unfine(&self, row: &Self::Row) -> u64
        requires row { (x : ℕ) × is_row self.now x row.now }
        ensures { (x : ℕ) → is_row self.now x row.now →
            HasLanes (lanes self.now) x (λ p. not ((arena self.now).fine p)) result };

    /// Returns the lanes at which all seats within the lanes may rest. They are the same in all rows,
    /// until the system changes.
    fn resting(&self) -> u64
        ensures { is_resting self.now result };

    /// Clears, in `left`, the pairs of a band that meet clause 2 of an ND-simulation. `resting` is
    /// the result of [`resting`](Rules::resting). `left` has one word for each row of the band.
    fn unfine_band(&self, row: &Self::Row, resting: u64, left: &mut [u64])
        requires row { (y : ℕ) × is_row self.now (y * band self.now) row.now }
        requires resting { is_resting self.now resting }
        requires long { length left.old ≡ band self.now }
        ensures long { length left.new ≡ length left.old }
        ensures unfine { (y : ℕ) → is_row self.now (y * band self.now) row.now →
            Keeps (lanes self.now) (y * band self.now) (band self.now)
            (λ p. not ((arena self.now).fine p)) left.old left.new };

    /// Returns the mask of the action `a` at the pair at a lane of a row: the seats that serve the
    /// action there.
    fn mask(&self, row: &Self::Row, words: &[u64], a: u8, lane: u32) -> SeatSet
        requires row { (x : ℕ) × is_row self.now x row.now }
        requires action { a < (arena self.now).actions }
        requires lane { lane < lanes self.now }
        requires room { HasAllRows (arena self.now) (lanes self.now) words.now }
        ensures { (x : ℕ) (gone : ℕ → Bool) → is_row self.now x row.now →
            AreAliveRows (lanes self.now) gone words.now →
            HasBits result (has (mask_of (arena self.now) gone (x * lanes self.now + lane) a)) };

    /// Returns the number of choices of a seat for the action `a` at all pairs of a band together: the
    /// sum of the sizes of the pairs' masks. It is at most 131,072, for 32 seats at each of 4,096
    /// pairs.
    fn choices(&self, row: &Self::Row, words: &[u64], a: u8) -> u32
        requires row { (y : ℕ) × is_row self.now (y * band self.now) row.now }
        requires action { a < (arena self.now).actions }
        requires room { HasAllRows (arena self.now) (lanes self.now) words.now }
        ensures counted { (y : ℕ) (gone : ℕ → Bool) → is_row self.now (y * band self.now) row.now →
            AreAliveRows (lanes self.now) gone words.now →
            result
            ≡ sum_by (λ i. sum_by (λ lane. length (mask_of (arena self.now) gone
            ((y * band self.now + i) * lanes self.now + lane) a))
            (below (lanes self.now))) (below (band self.now)) }
        ensures few { result ≤ 131072 };

    /// Returns the pairs of a row at which seat `k` serves the action `a`: the seat is ready, and
    /// has an outcome there, and no outcome that is gone. No bit is set past the lanes, or if the
    /// target doesn't allow the action.
    fn good(&self, row: &Self::Row, words: &[u64], a: u8, k: u8) -> u64
        requires row { (x : ℕ) × is_row self.now x row.now }
        requires action { a < (arena self.now).actions }
        requires seat { k < (arena self.now).seats }
        requires room { HasAllRows (arena self.now) (lanes self.now) words.now }
        ensures { (x : ℕ) (gone : ℕ → Bool) → is_row self.now x row.now →
            AreAliveRows (lanes self.now) gone words.now →
            HasLanes (lanes self.now) x (λ p. not (is_beaten (arena self.now) gone p a k)) result };

    /// Clears, in `left`, the pairs of a band at which seat `k` serves the action `a`. `left` has one
    /// word for each row of the band.
    fn clear_good(&self, row: &Self::Row, words: &[u64], a: u8, k: u8, left: &mut [u64])
        requires row { (y : ℕ) × is_row self.now (y * band self.now) row.now }
        requires action { a < (arena self.now).actions }
        requires seat { k < (arena self.now).seats }
        requires room { HasAllRows (arena self.now) (lanes self.now) words.now }
        requires long { length left.old ≡ band self.now }
        ensures long { length left.new ≡ length left.old }
        ensures left { (y : ℕ) (gone : ℕ → Bool) → is_row self.now (y * band self.now) row.now →
            AreAliveRows (lanes self.now) gone words.now →
            Keeps (lanes self.now) (y * band self.now) (band self.now)
            (λ p. is_beaten (arena self.now) gone p a k) left.old left.new };

    /// Returns those of the pairs `wanted` of a row at which the action `a` is allowed and no seat
    /// serves it. A bit that isn't set in `wanted` isn't set in the result.
    fn unserved(&self, row: &Self::Row, words: &[u64], a: u8, wanted: u64) -> u64
        requires row { (x : ℕ) × is_row self.now x row.now }
        requires action { a < (arena self.now).actions }
        requires room { HasAllRows (arena self.now) (lanes self.now) words.now }
        ensures lost { (x : ℕ) (gone : ℕ → Bool) → is_row self.now x row.now →
            AreAliveRows (lanes self.now) gone words.now →
            (lane : ℕ) → lane < lanes self.now →
            is_on result lane ≡ (is_on wanted lane
            && is_justified (arena self.now) gone (x * lanes self.now + lane) (Reason.Act a)) }
        ensures within { (lane : ℕ) → is_on wanted lane ≡ false → is_on result lane ≡ false };

    /// Clears, in `left`, the pairs of a band at which the action `a` isn't allowed or some seat
    /// serves it. `left` has one word for each row of the band.
    fn unserved_band(&self, row: &Self::Row, words: &[u64], a: u8, left: &mut [u64])
        requires row { (y : ℕ) × is_row self.now (y * band self.now) row.now }
        requires action { a < (arena self.now).actions }
        requires room { HasAllRows (arena self.now) (lanes self.now) words.now }
        requires long { length left.old ≡ band self.now }
        ensures long { length left.new ≡ length left.old }
        ensures lost { (y : ℕ) (gone : ℕ → Bool) → is_row self.now (y * band self.now) row.now →
            AreAliveRows (lanes self.now) gone words.now →
            Keeps (lanes self.now) (y * band self.now) (band self.now)
            (λ p. is_justified (arena self.now) gone p (Reason.Act a)) left.old left.new };

    /// Marks each band with a pair that has a pair of the given band as an outcome. It can mark other
    /// bands as well. `marks` has one flag for each band, 64 to a word. Flags that are set stay set.
    ///
    /// Counts one step for each delegation to a seat before the band's own that leads to a given
    /// pair of the band. That number is the same for each pair of the band.
    fn mark_before<L: Ledger>(&self, row: &Self::Row, marks: &mut [u64], steps: &mut Steps<L>)
        requires row { (y : ℕ) × is_row self.now (y * band self.now) row.now }
        requires room { length (arena self.now).nodes ≤ 64 * length marks.old * band self.now * lanes self.now }
        ensures long { length marks.new ≡ length marks.old }
        ensures marked { (y i lane p a k : ℕ) → is_row self.now (y * band self.now) row.now → i < band self.now →
            lane < lanes self.now →
            p < length (arena self.now).nodes → IsIn ((y * band self.now + i) * lanes self.now + lane)
            ((arena self.now).outcomes p a k) →
            has_flag marks.new (p / lanes self.now / band self.now) ≡ true }
        ensures still { (y : ℕ) → has_flag marks.old y ≡ true → has_flag marks.new y ≡ true }
        ensures steps { (y i lane : ℕ) → is_row self.now (y * band self.now) row.now → i < band self.now →
            lane < lanes self.now →
            steps.new ≡ steps.old + count_by (λ d. ltb d.seat (mid self.now))
            (predecessors (arena self.now) ((y * band self.now + i) * lanes self.now + lane)) };

    /// Examines the outcomes of the action `a` at the pair `p`, delegated to seat `k`, and finds the
    /// first that isn't alive. Requires that the action is allowed at the pair, that the seat is
    /// ready, and that `alive` can be called at every pair. Counts exactly one step.
    fn examine<F: Fn(u32) -> bool, L: Ledger>(
        &self,
        alive: &F,
        p: u32,
        a: u8,
        k: u8,
        steps: &mut Steps<L>,
    ) -> Finding
        requires pair { p < length (arena self.now).nodes }
        requires allowed { IsTrue ((arena self.now).allows p a) }
        requires seat { k < (arena self.now).seats }
        requires ready { IsTrue ((arena self.now).ready k) }
        requires callable { (q : ℕ) → q < length (arena self.now).nodes → F.pre alive.now q }
        ensures finding { (gone : ℕ → Bool)
            → ((q : ℕ) (r : Bool) → q < length (arena self.now).nodes → F.post alive.now q r → r ≡ not (gone q))
            → HasFinding (sizes self.now) k gone ((arena self.now).outcomes p a k) result }
        ensures step { steps.new ≡ steps.old + 1 };
}
