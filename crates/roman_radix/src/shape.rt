//! Shapes: the numbers of states of the parts of a pair, and the numbers of pairs.

ghost use Rattle.std.specs.Prelude.{◌≡◌, ℕ, ◌+◌, ◌*◌, ◌/◌, ◌%◌, ◌^◌, ◌<◌, ◌≤◌, ◌↔◌, length, take, slice_index, IsTrue, IsSome, IfSome, All};
ghost use Rattle.roman_model.specs.Lists.{product_of};
ghost use Rattle.roman_model.specs.Numbers.{IsPairOf, grown_sizes, sizes_without, count, number, pair_at};
ghost use Rattle.roman_model.specs.Change.{without};
ghost use Rattle.roman_radix.specs.Radix.{IsSizeTable, IsSizes, stride_of, env_stride_of, target_stride_of, with_part, AreSizes, sizes_from, grown_to, moved_to, IsPartState};
ghost use Rattle.roman_radix.specs.Places.{padded, strides_of};
ghost use Rattle.roman_radix.specs.Rows.{low_of, lanes_of, row_sizes};

use roman_model::{MAX_SERVICES, PLACES};
use std::marker::Model;

/// The greatest number of pairs in a row: one for each bit of a word.
const MAX_LANES: u32 = 64;

/// The numbers of states of the target, the environment and each component, called their sizes.
///
/// A pair has the target's state t, the environment's state e and the states b1, b2, .. of the
/// components. Its number is `((t * E + e) * s1 + b1) * s2 + b2` and so on, where E is the
/// environment's size and s1, s2, .. are the sizes of the components. A shape also has strides: the
/// stride of a part is the amount by which a number grows if the state of that part grows by 1. So
/// changing one state of a pair takes one multiplication.
///
/// A shape is `Copy`, and no call takes memory. Numbers that are passed must be in range: pairs below
/// [`pairs`](Shape::pairs), components below [`components`](Shape::components), and states below their
/// sizes.
#[derive(Clone, Copy, Debug)]
pub struct Shape {
    target: u8,
    env: u8,
    components: u8,
    pairs: u32,
    target_stride: u32,
    env_stride: u32,
    sizes: [u8; PLACES],
    strides: [u32; PLACES],
    low: u8,
    lanes: u32,
}

impl Model for Shape {
    ghost use Rattle.roman_model.specs.Numbers.{Sizes};

    ghost Value = { Sizes };

    ghost use Rattle.roman_radix.specs.Layout.{sizes_in, IsLaidOut, laid_out};

    ghost view = { sizes_in };

    ghost invariant = { IsLaidOut };

    ghost inverse = { laid_out };
}

impl Shape {
    /// Returns the shape of these sizes. Requires sizes of at least 1, and at most 32 components.
    /// Returns `None` exactly when there are more than `cap` pairs. The product of the sizes can't
    /// overflow.
    #[tactic(auto, using(crate::proofs::Tables::new_rules))]
    pub fn new(target: u8, env: u8, sizes: &[u8], cap: u32) -> Option<Shape>
        requires target { 0 < target }
        requires env { 0 < env }
        requires sizes { All (λ size. 0 < size) sizes.now }
        requires few { length sizes.now ≤ MAX_SERVICES }
        ensures fits { IsSome result ↔ (count (sizes_from target env sizes.now) ≤ cap) }
        ensures shape { IfSome result (λ shape. shape ≡ sizes_from target env sizes.now) }
    {
        if !is_within(target, env, sizes, cap) {
            return None;
        }
        let mut places = [0; PLACES];
        places[..sizes.len()].copy_from_slice(sizes);
        Some(lay_out(target, env, sizes.len() as u8, places))
    }

    /// Returns the number of pairs: the product of all sizes.
    pub fn pairs(&self) -> u32
        ensures { result ≡ count self.now }
    {
        self.pairs
    }

    /// Does nothing. Its contract states that no size of a shape is 0, and that the number of pairs
    /// fits in 32 bits.
    pub fn known(&self)
        ensures { IsSizes self.now }
    {
        let _pairs = &self.pairs;
    }

    /// Returns the number of components before the lanes. The components within the lanes are the
    /// last ones, as many of them as have sizes whose product is at most 64. They give a pair's
    /// lane. At all pairs of a row the target, the environment and each component before the lanes
    /// have the same state.
    #[tactic(auto, using(crate::proofs::Shown::lane_rules))]
    pub fn low(&self) -> u8
        ensures value { result ≡ low_of self.now.seats }
        ensures within { result ≤ length self.now.seats }
    {
        self.low
    }

    /// Returns the number of pairs in a row, from 1 to 64. Pair p is lane `p % lanes` of row
    /// `p / lanes`.
    #[tactic(auto, using(crate::proofs::Shown::lane_rules))]
    pub fn lanes(&self) -> u32
        ensures value { result ≡ lanes_of self.now.seats }
        ensures few { (0 < result) × (result ≤ 64) }
    {
        self.lanes
    }

    /// Returns the number of components before a band's own, and the number of rows in a band, from 1
    /// to 64. A band's own components are the last ones before the lanes, as many of them as have
    /// sizes whose product is at most 64. At all rows of a band the target, the environment and each
    /// component before the band's own have the same state. Row x is row `x % width` of band
    /// `x / width`, where `width` is the number of rows in a band.
    #[tactic(auto, using(crate::proofs::Shown::first_sizes, crate::proofs::Shown::lane_rules))]
    pub fn band(&self) -> (u8, u32)
        ensures first { result.0 ≡ low_of (row_sizes self.now).seats }
        ensures width { result.1 ≡ lanes_of (row_sizes self.now).seats }
    {
        self.known();
        lanes_over(self.low, &self.sizes)
    }

    /// Returns the number of rows: pairs divided by lanes, without remainder.
    #[tactic(auto, using(crate::proofs::Shown::lane_rules, crate::proofs::RowLemmas::rows_are))]
    pub fn rows(&self) -> u32
        ensures { result * lanes_of self.now.seats ≡ count self.now }
    {
        self.pairs / self.lanes
    }

    /// Returns the target's stride: how much a pair's number grows if the target's state grows by 1.
    pub fn target_stride(&self) -> u32
        ensures { result ≡ target_stride_of self.now }
    {
        self.target_stride
    }

    /// Returns the environment's stride: how much a pair's number grows if its state grows by 1.
    pub fn env_stride(&self) -> u32
        ensures { result ≡ env_stride_of self.now }
    {
        self.env_stride
    }

    /// Returns the stride of component `k`: how much a pair's number grows if its state grows by 1.
    #[tactic(auto, using(crate::proofs::Shown::stride_is))]
    pub fn stride(&self, k: u8) -> u32
        requires { k < length self.now.seats }
        ensures { result ≡ stride_of self.now k }
    {
        self.strides[k as usize]
    }

    /// Returns the stride and the size of component `k`. Neither is 0.
    #[inline(always)]
    #[tactic(auto, using(crate::proofs::Shown::stride_is, crate::proofs::Shown::size_is))]
    fn part(&self, k: usize) -> (u32, u8)
        requires { k < length self.now.seats }
        ensures stride { result.0 ≡ stride_of self.now k }
        ensures size { result.1 ≡ slice_index self.now.seats k }
        ensures strides_some { 0 < result.0 }
        ensures sizes_some { 0 < result.1 }
    {
        self.known();
        (self.strides[k], self.sizes[k])
    }

    /// Returns the number of components, at most 32.
    pub fn components(&self) -> u8
        ensures { result ≡ length self.now.seats }
    {
        self.components
    }

    /// Returns the number of states of component `k`, at least 1.
    #[tactic(auto, using(crate::proofs::Shown::size_is))]
    pub fn size(&self, k: u8) -> u8
        requires { k < length self.now.seats }
        ensures { result ≡ slice_index self.now.seats k }
    {
        self.sizes[k as usize]
    }

    /// Returns the number of the pair with the target's state `t`, the environment's state `e` and the
    /// states of the components, in order. Requires one state for each component.
    #[tactic(auto, using(crate::proofs::Moves::number_few, crate::proofs::Moves::states_more))]
    pub fn number(&self, t: u8, e: u8, states: &[u8]) -> u32
        requires { IsPairOf self.now (record { t = t; e = e; bs = states.now }) }
        ensures number { result ≡ number self.now (record { t = t; e = e; bs = states.now }) }
        ensures below { result < count self.now }
    {
        self.known();
        let mut number = u32::from(t) * self.target_stride() + u32::from(e) * self.env_stride();
        for (k, state) in states.iter().enumerate() {
            number += u32::from(*state) * self.part(k).0;
        }
        number
    }

    /// Returns the target's state at pair `p`.
    pub fn target_of(&self, p: u32) -> u8
        requires { p < count self.now }
        ensures value { result ≡ (pair_at self.now p).t }
        ensures below { result < self.now.target }
    {
        let (t, _) = divided(p / self.env_stride, self.env);
        t as u8
    }

    /// Returns the environment's state at pair `p`.
    pub fn env_of(&self, p: u32) -> u8
        requires { p < count self.now }
        ensures value { result ≡ (pair_at self.now p).e }
        ensures below { result < self.now.env }
    {
        let (_, e) = divided(p / self.env_stride, self.env);
        e
    }

    /// Returns the state of component `k` at pair `p`.
    #[tactic(auto, using(roman_model::proofs::CallerLemmas::part_at, std::proofs::lemmas::Nat::mod_below))]
    pub fn part_of(&self, p: u32, k: u8) -> u8
        requires pair { p < count self.now }
        requires component { k < length self.now.seats }
        ensures value { result ≡ slice_index (pair_at self.now p).bs k }
        ensures below { IsPartState self.now k result }
    {
        let (stride, size) = self.part(k as usize);
        let (_, state) = divided(p / stride, size);
        state
    }

    /// Returns the number of the pair that differs from pair `p` only in component `k`, which has
    /// state `b`.
    #[tactic(auto, using(crate::proofs::Moves::taken))]
    pub fn with_part(&self, p: u32, k: u8, b: u8) -> u32
        requires pair { p < count self.now }
        requires component { k < length self.now.seats }
        requires state { IsPartState self.now k b }
        ensures number { result ≡ number self.now (with_part (pair_at self.now p) k b) }
        ensures below { result < count self.now }
    {
        self.known();
        let stride = self.stride(k);
        p - u32::from(self.part_of(p, k)) * stride + u32::from(b) * stride
    }

    /// Returns the number of the pair that has the target's state `t`, the environment's state `e` and
    /// the state `b` of component `k`, and otherwise the states of pair `p`.
    #[tactic(auto, using(crate::proofs::Shown::shown, crate::proofs::Moves::moves_by))]
    pub fn moved(&self, p: u32, t: u8, e: u8, k: u8, b: u8) -> u32
        requires pair { p < count self.now }
        requires t { t < self.now.target }
        requires e { e < self.now.env }
        requires component { k < length self.now.seats }
        requires state { IsPartState self.now k b }
        ensures number { result ≡ moved_to self.now p t e k b }
        ensures below { result < count self.now }
    {
        self.known();
        let states = self.with_part(p, k, b) % self.env_stride();
        (u32::from(t) * u32::from(self.env) + u32::from(e)) * self.env_stride() + states
    }

    /// Returns the shape with one more component of the given size, at the end. Requires a size of
    /// at least 1, and a shape with fewer than 32 components. Returns `None` exactly when there
    /// would be more than `cap` pairs.
    #[tactic(auto, using(crate::proofs::Tables::Has, crate::proofs::Shown::Shows, crate::proofs::Tables::grow_rules))]
    pub fn grow(&self, size: u8, cap: u32) -> Option<Shape>
        requires size { 0 < size }
        requires few { length self.now.seats < MAX_SERVICES }
        ensures fits { IsSome result ↔ (count (grown_sizes self.now size) ≤ cap) }
        ensures shape { IfSome result (λ shape. shape ≡ grown_sizes self.now size) }
    {
        if u64::from(self.pairs) * u64::from(size) > u64::from(cap) {
            return None;
        }
        let mut places = self.sizes;
        places[self.components as usize] = size;
        Some(lay_out(self.target, self.env, self.components + 1, places))
    }

    /// Returns the shape without component `k`. Later components move up by one place.
    #[tactic(auto, using(crate::proofs::Tables::Has, crate::proofs::Shown::Shows, crate::proofs::Tables::shrink_rules))]
    pub fn shrink(&self, k: u8) -> Shape
        requires { k < length self.now.seats }
        ensures { result ≡ sizes_without k self.now }
    {
        let places = without_place(self.sizes, k as usize);
        lay_out(self.target, self.env, self.components - 1, places)
    }

    /// Returns the number of pair `p` after a component of the given size is added at the end, in
    /// state `b`. Requires a shape with fewer than 32 components, and at most 2^32 - 1 pairs of the
    /// grown shape.
    #[tactic(auto, using(crate::proofs::Moves::grows_by))]
    pub fn grown(&self, p: u32, size: u8, b: u8) -> u32
        requires pair { p < count self.now }
        requires state { b < size }
        requires few { length self.now.seats < MAX_SERVICES }
        requires fits { count (grown_sizes self.now size) < 2 ^ 32 }
        ensures number { result ≡ grown_to self.now p size b }
        ensures below { result < count (grown_sizes self.now size) }
    {
        p * u32::from(size) + u32::from(b)
    }

    /// Returns the number of pair `p` after component `k` is dropped, whatever its state is.
    #[tactic(auto, using(crate::proofs::Moves::shrinks))]
    pub fn without(&self, p: u32, k: u8) -> u32
        requires pair { p < count self.now }
        requires component { k < length self.now.seats }
        ensures number { result ≡ number (sizes_without k self.now) (without k (pair_at self.now p)) }
        ensures below { result < count (sizes_without k self.now) }
    {
        let (stride, size) = self.part(k as usize);
        p / stride / u32::from(size) * stride + p % stride
    }
}

/// Returns `n` divided by `size`, rounded down. Divides by common sizes as constants, which takes a
/// processor a fraction of the time.
fn quotient(n: u32, size: u8) -> u32
    requires { 0 < size }
    ensures { result ≡ n / size }
{
    match size {
        1 => n,
        2 => n / 2,
        3 => n / 3,
        4 => n / 4,
        5 => n / 5,
        6 => n / 6,
        _ => n / u32::from(size),
    }
}

/// Returns the quotient and the remainder of `n` divided by `size`.
fn divided(n: u32, size: u8) -> (u32, u8)
    requires { 0 < size }
    ensures whole { result.0 ≡ n / size }
    ensures rest { result.1 ≡ n % size }
{
    let whole = quotient(n, size);
    (whole, (n - whole * u32::from(size)) as u8)
}

/// Returns whether there are at most `cap` pairs of these sizes.
#[tactic(auto, using(crate::proofs::Strides::positive_rest, crate::proofs::Strides::too_many))]
fn is_within(target: u8, env: u8, sizes: &[u8], cap: u32) -> bool
    requires target { 0 < target }
    requires env { 0 < env }
    requires sizes { All (λ size. 0 < size) sizes.now }
    ensures { IsTrue result ↔ (count (sizes_from target env sizes.now) ≤ cap) }
{
    let cap = u64::from(cap);
    let mut pairs = u64::from(target) * u64::from(env);
    for size in sizes {
        if pairs > cap {
            return false;
        }
        pairs *= u64::from(*size);
    }
    pairs <= cap
}

/// Returns the stride of each component, and the product of the sizes. The sizes are padded with
/// zeros, and so are the strides.
fn strides_over(components: u8, sizes: &[u8; PLACES]) -> ([u32; PLACES], u32)
    requires table { IsSizeTable components sizes.now }
    requires fits { product_of (take components sizes.now) < 2 ^ 32 }
    ensures strides { result.0 ≡ padded (strides_of (take components sizes.now)) }
    ensures product { result.1 ≡ product_of (take components sizes.now) }
{
    let mut strides = [0; PLACES];
    let mut stride: u32 = 1;
    let mut k = components as usize;
    while k > 0 {
        k -= 1;
        strides[k] = stride;
        stride *= u32::from(sizes[k]);
    }
    (strides, stride)
}

/// Returns the number of components before the lanes, and the number of lanes.
fn lanes_over(components: u8, sizes: &[u8; PLACES]) -> (u8, u32)
    requires many { components ≤ length sizes.now }
    requires positive { AreSizes (take components sizes.now) }
    ensures low { result.0 ≡ low_of (take components sizes.now) }
    ensures lanes { result.1 ≡ lanes_of (take components sizes.now) }
{
    let mut low = components;
    let mut lanes: u32 = 1;
    while low > 0 {
        let more = lanes * u32::from(sizes[low as usize - 1]);
        if more > MAX_LANES {
            return (low, lanes);
        }
        lanes = more;
        low -= 1;
    }
    (low, lanes)
}

/// Returns the sizes without the one at place `k`. Later sizes move up by one place, and a zero
/// follows.
#[inline(always)]
fn without_place(mut sizes: [u8; PLACES], k: usize) -> [u8; PLACES]
    requires { k < length sizes }
    ensures long { length result ≡ length sizes }
    ensures below { (i : ℕ) → i < k → slice_index result i ≡ slice_index sizes i }
    ensures above { (i : ℕ) → k ≤ i → slice_index result i ≡ slice_index sizes (i + 1) }
{
    sizes.copy_within(k + 1.., k);
    sizes[PLACES - 1] = 0;
    sizes
}

/// Returns the shape of these sizes, which are padded with zeros.
fn lay_out(target: u8, env: u8, components: u8, sizes: [u8; PLACES]) -> Shape
    requires few { components ≤ MAX_SERVICES }
    requires padded { sizes ≡ padded (take components sizes) }
    requires sizes { IsSizes (sizes_from target env (take components sizes)) }
    ensures { result ≡ sizes_from target env (take components sizes) }
{
    let (strides, env_stride) = strides_over(components, &sizes);
    let target_stride = u32::from(env) * env_stride;
    let (low, lanes) = lanes_over(components, &sizes);
    Shape {
        target,
        env,
        components,
        pairs: u32::from(target) * target_stride,
        target_stride,
        env_stride,
        sizes,
        strides,
        low,
        lanes,
    }
}

#[cfg(test)]
mod tests {
    use super::*;
    use std::test::Fail;

    #[test]
    fn numbers_pairs(rt: HostRuntime) -> Result<(), Fail> {
        let none = Shape::new(3, 2, &[2, 4], 47);
        assert!(rt; none.is_none());
        let shape = Shape::new(3, 2, &[2, 4], 48).ok_or("48 pairs")?;
        assert_eq!(rt; shape.number(2, 1, &[1, 3]), 47);
        assert_eq!(rt; shape.part_of(45, 1), 1);
        assert_eq!(rt; shape.without(45, 0), 21);
        let grown = shape.grow(5, 240).ok_or("240 pairs")?;
        assert_eq!(rt; shape.grown(45, 5, 2), 227);
        assert_eq!(rt; grown.part_of(227, 1), 1);
        assert_eq!(rt; grown.low(), 0);
        assert_eq!(rt; grown.rows(), 6);
        Ok(())
    }
}
