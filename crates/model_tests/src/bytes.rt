// Files in words. A function here fails where a word is not read, or no memory is left.
use std::alloc::Global;
use std::test::Fail;

// A head of 1 location and no clock.
static ONE: [u8; 8] = [8, 0, 1, 0, 1, 0, 0, 0];

// A head of 3 locations and 2 clocks.
static THREE: [u8; 8] = [8, 0, 1, 0, 3, 0, 2, 0];

// An edge that keeps every rule in every model.
static EDGE: [u8; 12] = [12, 0, 2, 0, 0, 0, 0, 0, 0, 0, 0, 0];

// An atom that keeps every rule where there is a clock.
static ATOM: [u8; 8] = [0; 8];

// An edge of four atoms, from location 255 of 256 to location 254.
static LONG: [u8; 44] = *b"\x2c\x00\x02\x00\xff\x00\xfe\x00\x1f\x0f\x04\x00\
    \x00\x00\x00\x00\x01\x00\x00\x00\
    \x01\x01\x00\x00\x02\x00\x00\x00\
    \x02\x02\x00\x00\x03\x00\x00\x00\
    \x03\x03\x00\x00\xa0\x86\x01\x00";

// The bytes that a name stands for.
fn named(word: &str) -> Option<&'static [u8]> {
    match word {
        "one" => Some(&ONE),
        "three" => Some(&THREE),
        "edge" => Some(&EDGE),
        "atom" => Some(&ATOM),
        "long" => Some(&LONG),
        _ => None,
    }
}

// Appends what the word stands for: a name's bytes, as often as a number and `*` before it say, or one byte in hexadecimal.
fn add_word(file: &mut Vec<u8>, word: &str) -> Result<(), Fail> {
    let (times, name) = word.split_once('*').unwrap_or(("1", word));
    let Some(bytes) = named(name) else {
        file.push(u8::from_str_radix(word, 16)?)?;
        return Ok(());
    };
    for _ in 0..times.parse::<u32>()? {
        file.extend_from_slice(bytes)?;
    }
    Ok(())
}

// The file that the words write, one after the other.
pub fn build(heap: Global, words: &str) -> Result<Vec<u8>, Fail> {
    let mut file = Vec::new(heap);
    for word in words.split_ascii_whitespace() {
        add_word(&mut file, word)?;
    }
    Ok(file)
}
