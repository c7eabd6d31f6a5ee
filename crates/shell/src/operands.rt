// Operands of a command: words, numbers, hexadecimal bytes and records of an outline.
ghost use Rattle.std.specs.Prelude.{◌<◌, length, IfSome};

use crate::failure::Failure;
use crate::lines::split_once;
use std::alloc::Global;
use trees::outline::Record;

/// A text up to its first space, and what stands behind that space.
pub(crate) fn split_word(text: &[u8]) -> (&[u8], Option<&[u8]>)
    ensures { IfSome result.1 (λ b. length b.now < length text.now) }
{
    split_once(text, b' ').map_or((text, None), |(word, rest)| (word, Some(rest)))
}

/// A number of 1 to 10 digits that fits 32 bits.
pub(crate) fn read_number(text: &[u8]) -> Result<u32, Failure> {
    if text.is_empty() || text.len() > 10 {
        return Err(Failure::NotUnderstood);
    }
    text.iter()
        .try_fold(0u32, |value, byte| {
            let digit = char::from(*byte).to_digit(10)?;
            value.checked_mul(10)?.checked_add(digit)
        })
        .ok_or(Failure::NotUnderstood)
}

/// The lower 16 bits of a number.
pub(crate) fn read_half(text: &[u8]) -> Result<u16, Failure> {
    let number = read_number(text)?;
    // The mask says that bits are meant to be lost; a cast alone that loses some is refused.
    Ok((number & 0xffff) as u16)
}

// The byte of two hexadecimal digits.
fn read_byte(pair: &[u8]) -> Option<u8> {
    let [high, low] = pair else {
        return None;
    };
    let high = char::from(*high).to_digit(16)?;
    let low = char::from(*low).to_digit(16)?;
    Some((16 * high + low) as u8)
}

/// Bytes as pairs of hexadecimal digits, with spaces between pairs.
pub(crate) fn read_hex(heap: Global, text: &[u8]) -> Result<Vec<u8>, Failure> {
    let mut bytes = Vec::new(heap);
    for word in text.split(|byte| *byte == b' ') {
        for pair in word.chunks(2) {
            bytes.push(read_byte(pair).ok_or(Failure::NotUnderstood)?)?;
        }
    }
    Ok(bytes)
}

// A record of an outline: a depth, a colon and a label.
fn read_record(word: &[u8]) -> Result<Record, Failure> {
    let (depth, label) = split_once(word, b':').ok_or(Failure::NotUnderstood)?;
    Ok(Record {
        depth: read_half(depth)?,
        label: read_half(label)?,
    })
}

/// Records of an outline, with spaces between them.
pub(crate) fn read_records(heap: Global, text: &[u8]) -> Result<Vec<Record>, Failure> {
    let mut records = Vec::new(heap);
    for word in text.split(|byte| *byte == b' ') {
        if !word.is_empty() {
            records.push(read_record(word)?)?;
        }
    }
    Ok(records)
}
