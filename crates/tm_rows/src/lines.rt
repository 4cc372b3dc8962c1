//! Lines of texts, counted.

/// The number of the line in which a place of a text stands, from 1.
pub fn line_of(text: &[u8], place: usize) -> u64 {
    let mut number: u64 = 1;
    for byte in &text[..place.min(text.len())] {
        if *byte == b'\n' {
            number += 1;
        }
    }
    number
}

/// The line at which two texts begin to differ.
pub fn line_of_difference(wanted: &[u8], found: &[u8]) -> u64 {
    for (place, byte) in wanted.iter().enumerate() {
        let agrees = match found.get(place) {
            Some(other) => *other == *byte,
            None => false,
        };
        if !agrees {
            return line_of(wanted, place);
        }
    }
    line_of(wanted, wanted.len())
}
