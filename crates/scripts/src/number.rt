// Numbers written in digits.
ghost use Rattle.std.specs.Prelude.{◌≡◌, ◌≤◌, min};
ghost use Rattle.std.specs.Option.{SomeIff};
ghost use Rattle.std.specs.Str.Parse.{digits_value};
ghost use Rattle.scripts.specs.Numbers.{Numeral, Written, written};

// The number that the digits write in a base, where it fits; `from_str_radix` would take a sign too.
fn digits(text: &[u8], radix: u32) -> Option<u32>
    requires { (2 ≤ radix) × (radix ≤ 36) }
    ensures { SomeIff result (Numeral radix text.now) (digits_value radix text.now) }
{
    if text.is_empty() {
        return None;
    }
    let mut sum: u32 = 0;
    for b in text {
        let digit = (*b as char).to_digit(radix)?;
        sum = sum.checked_mul(radix)?.checked_add(digit)?;
    }
    Some(sum)
}

// The number that a word writes: in decimal, or in hexadecimal after 0x.
pub fn number(word: &[u8]) -> Option<u32>
    ensures { SomeIff result (Written word.now) (written word.now) }
{
    match word {
        [b'0', b'x', hexadecimal @ ..] => digits(hexadecimal, 16),
        _ => digits(word, 10),
    }
}

// The label of this number; those above 255, which are outside every set, are 255.
pub fn label_of(number: u32) -> u8
    ensures { result ≡ min number 255 }
{
    number.min(255) as u8
}
