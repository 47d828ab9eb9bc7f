ghost use Rattle.std.specs.Prelude.{◌≡◌, ◌≤◌, ◌++◌, drop, OnErr, OnOk};
ghost use Rattle.std.specs.Fmt.{decimal};

use ifc_base::Memory;

/// The most digits of a `u64`.
const MOST_DIGITS: usize = 20;

/// Appends the decimal digits of the number, with no zero in front. After want of memory the buffer is
/// as before. `O(n)` in the number's digits.
pub fn push_decimal(out: &mut Vec<u8>, number: u64) -> Result<(), Memory>
    ensures ok { OnOk result (out.new.items ≡ out.old.items ++ decimal number) }
    ensures err { OnErr result (out.new.items ≡ out.old.items) }
{
    let mut digits = [0; MOST_DIGITS];
    let from = write_digits(&mut digits, number);
    out.extend_from_slice(&digits[from..])?;
    Ok(())
}

/// Writes the digits of the number at the end of the array, and gives the place of the first.
fn write_digits(digits: &mut [u8; MOST_DIGITS], number: u64) -> usize
    ensures within { result ≤ MOST_DIGITS }
    ensures written { drop result digits.new ≡ decimal number }
{
    let mut from = MOST_DIGITS;
    let mut rest = number;
    while rest >= 10 {
        from -= 1;
        digits[from] = b'0' + (rest % 10) as u8;
        rest /= 10;
    }
    from -= 1;
    digits[from] = b'0' + rest as u8;
    from
}
