// SPDX-License-Identifier: MIT
// The words that tell what is done.

/// The word at a place, or an empty one where there is none.
pub fn word(words: &[String], place: usize) -> &str {
    match words.get(place) {
        Some(word) => word.as_str(),
        None => "",
    }
}

/// The number that the word at a place tells.
pub fn number(words: &[String], place: usize) -> Option<u32> {
    word(words, place).parse::<u32>().ok()
}
