//! The interface [`Rules`] of a joint, for algorithms over the numbers of its pairs.
ghost use Rattle.roman_joint.specs.Pairs.{arena_of};

use crate::attempt::{Attempt, target_move_of};
use crate::band::{alive_each, clear_seat, clear_served, served_by};
use crate::fine::{front_rests, own_rests, rests_within};
use crate::good::{alive_on, good_on, serving};
use crate::joint::Joint;
use crate::marks::mark_action;
use crate::row::Row;
use crate::states::row_states;
use crate::stripes::clear;
use crate::words::{less, with_lanes};
use roman_io::Steps;
use roman_rules::{BAND, Finding, Rules, SeatSet};
use std::sync::ledger::Ledger;

#[tactic(auto, using(crate::proofs::ArenaFacts::pair_count))]
impl Rules for Joint {
    ghost use Rattle.roman_model.specs.Numbers.{sizes_of};
    ghost use Rattle.roman_joint.specs.NamedSys.{system_of};
    ghost use Rattle.roman_joint.specs.Rows.{lanes_in, HasResting, IsRow};
    ghost use Rattle.roman_joint.specs.Bands.{mid_in, band_in};

    ghost arena = { λ joint. arena_of joint };

    type Row = Row;

    ghost lanes = { λ joint. lanes_in (system_of joint) };

    ghost band = { λ joint. band_in (system_of joint) };

    ghost mid = { λ joint. mid_in (system_of joint) };

    ghost is_row = { λ joint x row. IsRow (system_of joint) x row };

    ghost is_resting = { λ joint resting. HasResting (system_of joint) resting };

    ghost sizes = { λ joint. sizes_of (system_of joint) };

    #[tactic(auto, using(crate::proofs::ArenaFacts::pair_count, crate::proofs::ArenaFacts::joint_numbered))]
    fn known(&self) {
        let _rows = self.layout();
    }

    fn pairs(&self) -> u32 {
        self.shape().pairs()
    }

    fn actions(&self) -> u8 {
        self.environment().actions().len() as u8
    }

    fn seats(&self) -> u8 {
        Joint::seats(self)
    }

    fn is_ready(&self, k: u8) -> bool {
        !self.seat(k).frozen
    }

    fn lanes(&self) -> u32 {
        self.shape().lanes()
    }

    fn rows(&self) -> u32 {
        self.layout().rows
    }

    fn band(&self) -> u32 {
        self.layout().band
    }

    fn bands(&self) -> u32 {
        let rows = self.layout();
        rows.rows / rows.band
    }

    #[tactic(auto, using(crate::proofs::ArenaFacts::pair_count, crate::proofs::SplitLemmas::joint_sizes))]
    fn row(&self, x: u32) -> Row {
        let rows = self.layout();
        let p = x * rows.lanes;
        let target_view = self.target_view_at(p);
        Row {
            part: x % rows.env_rows,
            allowed: target_view.allowed,
            leading: target_view.leading,
            target: target_view.target,
            env: target_view.env,
            states: row_states(self, x),
        }
    }

    #[tactic(auto, using(crate::proofs::ArenaFacts::pair_count, crate::proofs::BandLemmas::first_fits))]
    fn first_row(&self, y: u32) -> Row {
        self.row(y * self.layout().band)
    }

    fn row_actions(&self, row: &Row) -> u32 {
        self.known(); // allowed actions are actions of the system
        row.allowed
    }

    fn unfine(&self, row: &Row) -> u64 {
        let rows = self.layout();
        if !self.target().is_final(row.target) {
            return 0;
        }
        if !front_rests(self, row, rows.low) {
            return rows.full;
        }
        less(rows.full, self.resting())
    }

    fn resting(&self) -> u64 {
        let rows = self.layout();
        let mut rests = rows.full;
        for k in rows.low..self.seats() {
            rests &= rests_within(self, k);
        }
        rests
    }

    fn unfine_band(&self, row: &Row, resting: u64, left: &mut [u64]) {
        let rows = self.layout();
        if !self.target().is_final(row.target) {
            clear(left);
            return;
        }
        let others = with_lanes(0, resting, front_rests(self, row, rows.mid));
        if others == 0 {
            return;
        }
        for i in 0..rows.band {
            let rests = with_lanes(0, others, own_rests(self, i));
            left[i as usize] = less(left[i as usize], rests);
        }
    }

    #[tactic(auto, using(crate::proofs::ArenaFacts::pair_count, roman_radix::proofs::CallerLemmas::lanes_few, roman_rules::proofs::CallerLemmas::mask_refused, crate::proofs::AllowedLemmas::open_here))]
    fn mask(&self, row: &Row, words: &[u64], a: u8, lane: u32) -> SeatSet {
        self.known(); // outcomes need an allowed action and a ready seat
        let Some(to) = target_move_of(self, row, a) else {
            return SeatSet::EMPTY;
        };
        let attempt = Attempt {
            words,
            row,
            action: a,
            to,
        };
        let alive = alive_on(self, &attempt);
        let mut mask = SeatSet::EMPTY;
        for k in 0..serving(self, alive) {
            let good = good_on(self, &attempt, alive, k);
            mask = mask.with(k, (good >> lane) & 1 == 1);
        }
        mask
    }

    #[tactic(auto, using(crate::proofs::ArenaFacts::pair_count, roman_radix::proofs::CallerLemmas::lanes_few))]
    fn choices(&self, row: &Row, words: &[u64], a: u8) -> u32 {
        self.known(); // outcomes need an allowed action and a ready seat, no size is 0
        let Some(to) = target_move_of(self, row, a) else {
            return 0;
        };
        let attempt = Attempt {
            words,
            row,
            action: a,
            to,
        };
        let mut alive = [0; BAND];
        alive_each(self, &attempt, &mut alive);
        let mut count = 0;
        for k in 0..self.seats() {
            count += served_by(self, &attempt, &alive, k);
        }
        count
    }

    #[tactic(auto, using(crate::proofs::ArenaFacts::pair_count))]
    fn good(&self, row: &Row, words: &[u64], a: u8, k: u8) -> u64 {
        self.known(); // outcomes need an allowed action and a ready seat
        let Some(to) = target_move_of(self, row, a) else {
            return 0;
        };
        let attempt = Attempt {
            words,
            row,
            action: a,
            to,
        };
        let alive = alive_on(self, &attempt);
        good_on(self, &attempt, alive, k)
    }

    #[tactic(auto, using(crate::proofs::ArenaFacts::pair_count, roman_radix::proofs::CallerLemmas::lanes_few))]
    fn clear_good(&self, row: &Row, words: &[u64], a: u8, k: u8, left: &mut [u64]) {
        self.known(); // outcomes need an allowed action and a ready seat, no size is 0
        let Some(to) = target_move_of(self, row, a) else {
            return;
        };
        let attempt = Attempt {
            words,
            row,
            action: a,
            to,
        };
        let mut alive = [0; BAND];
        alive_each(self, &attempt, &mut alive);
        clear_seat(self, &attempt, &alive, k, left);
    }

    fn unserved(&self, row: &Row, words: &[u64], a: u8, wanted: u64) -> u64 {
        self.known(); // the system is well formed
        let Some(to) = target_move_of(self, row, a) else {
            return 0;
        };
        let attempt = Attempt {
            words,
            row,
            action: a,
            to,
        };
        let alive = alive_on(self, &attempt);
        let mut left = wanted;
        for k in 0..serving(self, alive) {
            if left == 0 {
                return 0;
            }
            let good = good_on(self, &attempt, alive, k);
            left = less(left, good);
        }
        left
    }

    fn unserved_band(&self, row: &Row, words: &[u64], a: u8, left: &mut [u64]) {
        self.known(); // no size is 0, a pair's number fits in 32 bits
        if left.len() == 1 {
            left[0] = self.unserved(row, words, a, left[0]);
            return;
        }
        let Some(to) = target_move_of(self, row, a) else {
            clear(left);
            return;
        };
        let attempt = Attempt {
            words,
            row,
            action: a,
            to,
        };
        clear_served(self, &attempt, left);
    }

    fn mark_before<L: Ledger>(&self, row: &Row, marks: &mut [u64], steps: &mut Steps<L>) {
        self.known(); // the system is well formed, a pair's number fits in 32 bits
        for a in 0..self.environment().actions().len() as u8 {
            mark_action(self, row, marks, a, steps);
        }
    }

    fn examine<F: Fn(u32) -> bool, L: Ledger>(
        &self,
        alive: &F,
        p: u32,
        a: u8,
        k: u8,
        steps: &mut Steps<L>,
    ) -> Finding {
        steps.tick();
        let outcomes = self.outcomes(p, a, k);
        if outcomes.states.is_empty() {
            return Finding::NoOutcome;
        }
        match outcomes.first_gone(alive) {
            None => Finding::Good,
            Some((env, state)) => Finding::Leaves {
                env,
                state,
                pair: outcomes.number(env, state),
            },
        }
    }
}
