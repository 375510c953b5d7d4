//! The numbers of pieces.
ghost use Rattle.std.specs.Prelude.{◌≡◌, ◌<◌, ◌≤◌, ◌+◌, ◌*◌, IfNone, IfSome};
ghost use Rattle.std.specs.Option.{SomeIff};
ghost use Rattle.std.specs.Char.{digit_value};
ghost use Rattle.param_grammar.specs.Joining.{decimal_value};

// The value of a digit: decimal, or a letter as in greater bases, and 36 for other octets.
fn digit_of(octet: u8) -> usize
    ensures { result ≡ digit_value octet }
{
    match octet {
        b'0'..=b'9' => (octet - b'0') as usize,
        b'A'..=b'Z' => (octet - b'A') as usize + 10,
        b'a'..=b'z' => (octet - b'a') as usize + 10,
        _ => 36,
    }
}

// The number that another digit goes on to, where it is below a bound.
fn next_number(number: usize, digit: u8, bound: usize) -> Option<usize>
    ensures found { IfSome result (λ n. n ≡ 10 * number + digit_value digit) }
    ensures none { IfNone result (bound ≤ 10 * number + digit_value digit) }
{
    let Some(tens) = number.checked_mul(10) else {
        return None;
    };
    let Some(next) = tens.checked_add(digit_of(digit)) else {
        return None;
    };
    if next < bound {
        return Some(next);
    }
    None
}

/// The number that digits are, where it is below a bound.
pub fn number_below(digits: &[u8], bound: usize) -> Option<usize>
    ensures { SomeIff result (decimal_value digits.now < bound) (decimal_value digits.now) }
{
    let mut number = 0;
    for digit in digits {
        let Some(next) = next_number(number, *digit, bound) else {
            return None;
        };
        number = next;
    }
    if number < bound {
        return Some(number);
    }
    None
}
