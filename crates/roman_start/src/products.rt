//! Computes products of any size, in decimal digits.
ghost use Rattle.std.specs.Prelude.{◌≡◌, ◌+◌, ◌*◌, ◌^◌, IfOk, length, nat_le, string_bytes};
ghost use Rattle.std.specs.Str.Parse.{AllDigits, digits_value};
ghost use Rattle.roman_model.specs.Lists.{product_of};
ghost use Rattle.roman_start.specs.Digits.{AreDigits, number_with_digits};

use std::alloc::{AllocError, Global};

/// Returns whether the product of the factors is at most the limit.
#[tactic(auto, using(crate::proofs::DigitLemmas::cut_more))]
pub fn is_within(factors: &[u32], limit: u32) -> bool
    ensures { result ≡ nat_le (product_of factors.now) limit }
{
    let mut product = 1u64;
    for factor in factors {
        product = product.saturating_mul(u64::from(*factor));
    }
    product <= u64::from(limit)
}

/// Returns the product of the factors, however large, in decimal digits. Returns `1` when there are
/// no factors. Fails only when out of memory.
#[tactic(auto, using(crate::proofs::DigitLemmas::product_more))]
pub fn product(alloc: Global, factors: &[u32]) -> Result<String, AllocError>
    ensures digits { IfOk result (λ text. AllDigits 10 (string_bytes text)) }
    ensures value { IfOk result (λ text. digits_value 10 (string_bytes text) ≡ product_of factors.now) }
{
    let mut digits = Vec::new(alloc);
    digits.push(1u8)?;
    for factor in factors {
        digits = times(alloc, &digits, *factor)?;
    }
    text_of(alloc, &digits)
}

/// Multiplies the number with the given digits by `factor`, and returns the digits of the product.
/// Both lists have the least significant digit first.
#[tactic(auto, using(crate::proofs::DigitLemmas::times_steps))]
fn times(alloc: Global, digits: &[u8], factor: u32) -> Result<Vec<u8>, AllocError>
    requires { AreDigits digits.now }
    ensures digits { IfOk result (λ product. AreDigits product.items) }
    ensures value { IfOk result (λ product. number_with_digits product.items ≡ number_with_digits digits.now * factor) }
{
    let mut product = Vec::new(alloc);
    let mut carry = 0u64;
    for digit in digits {
        let sum = u64::from(*digit) * u64::from(factor) + carry;
        product.push((sum % 10) as u8)?;
        carry = sum / 10;
    }
    push_number(&mut product, carry)?;
    Ok(product)
}

/// Appends the digits of `number` to `digits`, both with the least significant digit first. Appends
/// nothing when `number` is 0.
#[tactic(auto, using(crate::proofs::DigitLemmas::carry_step, crate::proofs::DigitLemmas::digits_push))]
fn push_number(digits: &mut Vec<u8>, number: u64) -> Result<(), AllocError>
    requires { AreDigits digits.now.items }
    ensures digits { AreDigits digits.new.items }
    ensures value { IfOk result (λ done.
        number_with_digits digits.new.items
        ≡ number_with_digits digits.old.items + number * 10 ^ length digits.old.items) }
{
    let mut rest = number;
    while rest > 0 {
        digits.push((rest % 10) as u8)?;
        rest /= 10;
    }
    Ok(())
}

/// Returns the decimal text of the number with the given digits, which have the least significant
/// digit first.
fn text_of(alloc: Global, digits: &[u8]) -> Result<String, AllocError>
    requires { AreDigits digits.now }
    ensures digits { IfOk result (λ text. AllDigits 10 (string_bytes text)) }
    ensures value { IfOk result (λ text. digits_value 10 (string_bytes text) ≡ number_with_digits digits.now) }
{
    let mut text = String::new(alloc);
    for i in (0..digits.len()).rev() {
        text.push(char::from(b'0' + digits[i]))?;
    }
    Ok(text)
}

#[cfg(test)]
mod tests {
    use super::*;
    use std::test::Fail;

    #[test]
    fn products_are_exact(rt: HostRuntime) -> Result<(), Fail> {
        let alloc = rt.alloc();
        assert_eq!(rt; product(alloc, &[])?.as_str(), "1");
        assert_eq!(rt; product(alloc, &[9, 10, 11])?.as_str(), "990");
        let powers = [64; 12];
        assert_eq!(rt; product(alloc, &powers)?.as_str(), "4722366482869645213696");
        assert!(rt;
            is_within(&[2, 3, 5], 30) && !is_within(&[2, 3, 5], 29) && !is_within(&powers, u32::MAX)
        );
        Ok(())
    }
}
