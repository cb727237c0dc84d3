ghost use Rattle.std.specs.Prelude.{◌≡◌, ◌≤◌};
ghost use Rattle.taps_endpoint.specs.Numbers.{with_digit};

/// The number with a digit more, if it may be one from `least` to `most` without leading zeros.
pub fn one_digit_more(least: u16, most: u16, number: Option<u16>, digit: u16) -> Option<u16>
    requires { digit ≤ 9 }
    ensures { result ≡ with_digit least most number digit }
{
    match number {
        None => { if least <= digit { Some(digit) } else { None } }
        Some(number) => {
            let longer = 10 * u32::from(number) + u32::from(digit);
            if number >= 1 && longer <= u32::from(most) {
                Some(longer as u16)
            } else {
                None
            }
        }
    }
}
