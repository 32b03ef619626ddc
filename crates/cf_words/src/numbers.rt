// The numbers that words write.
ghost use Rattle.std.specs.Prelude.{MatchOption, ℕ, ℤ};
ghost use Rattle.cf_words.specs.Lines.{IsNumber};
ghost use Rattle.cf_words.specs.Reading.{IsUpTo};

/// The number that the word writes in digits, where it is from 1 to the greatest.
pub fn number_up_to(greatest: u64, word: &str) -> Option<u64>
    ensures { MatchOption result ((n : ℕ) → IsUpTo greatest word.now n → ⊥) (λ n. IsUpTo greatest word.now n) }
{
    // `parse` would take a sign
    if word.as_bytes().first() == Some(&b'+') {
        return None;
    }
    match word.parse::<u64>() {
        Ok(n) if n >= 1 && n <= greatest => Some(n),
        _ => None,
    }
}

/// The whole number that the word writes, in digits or in `-` and digits, where it has 64 signed bits.
pub fn whole_number(word: &str) -> Option<i64>
    ensures { MatchOption result ((z : ℤ) → IsNumber word.now z → ⊥) (λ z. IsNumber word.now z) }
{
    // `parse` would take this sign too
    if word.as_bytes().first() == Some(&b'+') {
        return None;
    }
    match word.parse::<i64>() {
        Ok(z) => Some(z),
        Err(_) => None,
    }
}
