//! Decimal numbers.
ghost use Rattle.std.specs.Prelude.{◌≡◌, ◌-◌, ◌^◌, min};
ghost use Rattle.std.specs.List.{list_all};
ghost use Rattle.std.specs.Option.{option_map};
ghost use Rattle.mail_wire.specs.Numbers.{is_digit, number_of};

/// Whether each octet is a decimal digit.
pub fn are_digits(octets: &[u8]) -> bool
    ensures { result ≡ list_all is_digit octets.now }
{
    octets.iter().all(|octet| b'0' <= *octet && *octet <= b'9')
}

/// The number that one or more digits write; one that is too large for the type is its greatest value.
pub fn read_number(text: &[u8]) -> Option<u64>
    ensures { result ≡ option_map (λ number. min number (2 ^ 64 - 1)) (number_of text.now) }
{
    if text.is_empty() {
        return None;
    }
    if !are_digits(text) {
        return None;
    }
    let mut number: u64 = 0;
    for octet in text {
        number = number
            .saturating_mul(10)
            .saturating_add(u64::from(octet.saturating_sub(b'0')));
    }
    Some(number)
}
