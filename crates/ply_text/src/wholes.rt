//! Whole numbers of a text.

ghost use Rattle.std.specs.Prelude.{◌≡◌};
ghost use Rattle.ply_text.specs.Wholes.{whole_of};

/// The most digits of a whole number.
const MAX_WHOLE_DIGITS: usize = 20;

/// The number of a token of 1 to 20 digits, where it is at most `limit`. `None`: the token is anything
/// else, or its number is larger.
pub fn read_whole(token: &[u8], limit: u64) -> Option<u64>
    ensures { result ≡ whole_of token.now limit }
{
    if token.is_empty() || token.len() > MAX_WHOLE_DIGITS {
        return None;
    }
    let mut value: u64 = 0;
    for byte in token {
        if !byte.is_ascii_digit() {
            return None;
        }
        value = value.checked_mul(10)?.checked_add(u64::from(byte - b'0'))?;
    }
    if value <= limit { Some(value) } else { None }
}
