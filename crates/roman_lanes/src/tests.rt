//! Compares each kernel with its plain definition, at each length up to several blocks and a rest.
use crate::{both, count_equal, first_set, less};
use std::test::*;

/// One block of numbers and one number more. Every fourth is the greatest number.
const CELLS: [u32; 17] = [
    0xffff_ffff,
    0x0000_0000,
    0x8000_0001,
    0x1234_5678,
    0xffff_ffff,
    0x0f0f_0f0f,
    0x7fff_fffe,
    0x0000_0001,
    0xffff_ffff,
    0xdead_beef,
    0x8000_0000,
    0x0000_ffff,
    0xffff_ffff,
    0xaaaa_aaaa,
    0x5555_5555,
    0x0123_4567,
    0xffff_ffff,
];

#[test]
fn outside_examples(rt: HostRuntime) {
    assert_eq!(rt; count_equal(&CELLS, u32::MAX), 5);
    assert_eq!(rt; count_equal(&CELLS[..16], 1), 1);
    assert_eq!(rt; first_set(&[0, 0, 4, 0, 1], 0), Some(2));
    assert_eq!(rt; first_set(&[0, 0, 4, 0, 1], 3), Some(4));
    assert_eq!(rt; first_set(&[0; 40], 7), None);
}

#[test]
fn numbers_are_counted_at_each_length(rt: HostRuntime) {
    let mut cells = [0; 200];
    for (i, cell) in cells.iter_mut().enumerate() {
        *cell = i as u32 % 3;
    }
    for length in 0..201usize {
        let values = &cells[..length];
        let plain = values.iter().filter(|x| **x == 2).count();
        assert_eq!(rt; count_equal(values, 2), plain);
    }
}

#[test]
fn each_word_is_found_at_each_length(rt: HostRuntime) {
    for length in 0..201usize {
        assert_eq!(rt; first_set(&[0; 200][..length], 0), None);
        for place in 0..length {
            let mut words = [0; 200];
            words[place] = 1 << (place % 64);
            let words = &words[..length];
            assert_eq!(rt; first_set(words, 0), Some(place));
            assert_eq!(rt; first_set(words, place), Some(place));
            assert_eq!(rt; first_set(words, place + 1), None);
        }
    }
}

/// Returns 200 different words, each computed from the word before it. The first comes from `first`.
fn words_from(first: u64) -> [u64; 200] {
    let mut words = [0; 200];
    let mut word = first;
    for place in words.iter_mut() {
        word = word.wrapping_mul(0x9e37_79b9_7f4a_7c15).wrapping_add(1);
        *place = word;
    }
    words
}

#[test]
fn words_are_combined_at_each_length(rt: HostRuntime) {
    let old = words_from(1);
    let other = words_from(2);
    for length in 0..201usize {
        let mut met = old;
        both(&mut met[..length], &other);
        let mut left = old;
        less(&mut left[..length], &other);
        for i in 0..200usize {
            let (common, rest) = if i < length {
                (old[i] & other[i], old[i] & !other[i])
            } else {
                (old[i], old[i])
            };
            assert_eq!(rt; met[i], common);
            assert_eq!(rt; left[i], rest);
        }
    }
}
