//! The words of a line of data.

/// Returns the two parts of a text, of which the second begins after its first blank.
///
/// # Example
///
/// ```
/// same(two_words("put 1 10"), ("put", "1 10"))?;
/// ```
pub fn two_words(text: &str) -> (&str, &str) {
    text.split_once(' ').unwrap_or((text, ""))
}

/// Returns the number that a word spells, or 0.
///
/// # Example
///
/// ```
/// same((number_of("12"), number_of("")), (12, 0))?;
/// ```
pub fn number_of(word: &str) -> u64 {
    word.parse().unwrap_or(0)
}

/// Returns the two numbers that a text spells, each 0 if it isn't there.
///
/// # Example
///
/// ```
/// same(two_numbers("1 10"), (1, 10))?;
/// ```
pub fn two_numbers(text: &str) -> (u64, u64) {
    let (first, second) = two_words(text);
    (number_of(first), number_of(second))
}

/// Returns what has this name in a table. Other functions only match the result, since a comparison
/// of words is proved anew with all that is in scope.
///
/// # Example
///
/// ```
/// same(named_in(&[("on", true), ("off", false)], "on"), Some(true))?;
/// ```
pub fn named_in<T: Copy>(table: &[(&str, T)], name: &str) -> Option<T> {
    for (word, named) in table {
        if *word == name {
            return Some(*named);
        }
    }
    None
}
