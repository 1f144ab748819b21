//! Tokens, and the numbers that they spell.

ghost use Rattle.std.specs.Prelude.{◌≤◌, length};

use ply_text::NumberFault::{BadNumber, NotWhole, OutOfRange};
use ply_text::{NumberFault, one_numeral, one_reading, read_fixed, read_whole};

/// A number by what it is without cutting, and with it.
type Readings = (Result<i32, NumberFault>, Result<i32, NumberFault>);

/// A token, the power of ten, and the number without cutting and with it.
const NUMBERS: &[(&str, u32, Readings)] = &[
    ("-.5", 1, (Ok(-5), Ok(-5))),
    ("0.00447467", 7, (Err(NotWhole), Ok(44746))),
    ("1073741825.5", 0, (Err(NotWhole), Err(OutOfRange))),
    ("1e", 0, (Err(BadNumber), Err(BadNumber))),
    ("", 0, (Err(BadNumber), Err(BadNumber))),
    ("1 ", 0, (Err(BadNumber), Err(BadNumber))),
    (" 1", 0, (Err(BadNumber), Err(BadNumber))),
];

/// A token, a limit, and the number.
const WHOLES: &[(&str, u64, Option<u64>)] = &[
    ("0", 0, Some(0)),
    ("007", 7, Some(7)),
    ("8", 7, None),
    ("00000000000000000000", 0, Some(0)),
    ("000000000000000000000", 0, None),
    ("18446744073709551615", u64::MAX, Some(u64::MAX)),
    ("18446744073709551615", u64::MAX - 1, None),
    ("18446744073709551616", u64::MAX, None),
    ("99999999999999999999", u64::MAX, None),
    ("", 9, None),
    ("+1", 9, None),
    ("-1", 9, None),
    ("1.", 9, None),
];

/// What the token spells, without cutting and with it.
fn readings(token: &[u8], decimals: u32) -> Readings
    requires short { length token.now ≤ 255 }
    requires scale { decimals ≤ 9 }
{
    (
        read_fixed(token, decimals, false),
        read_fixed(token, decimals, true),
    )
}

#[test]
fn reads_decimal_numbers(rt: HostRuntime) {
    for (token, decimals, wanted) in NUMBERS {
        assert!(rt; token.len() <= 255 && *decimals <= 9);
        assert_eq!(rt; readings(token.as_bytes(), *decimals), *wanted, "{token}");
    }
    // The laws have nothing to run.
    one_numeral();
    one_reading();
}

#[test]
fn reads_whole_numbers(rt: HostRuntime) {
    for (token, limit, wanted) in WHOLES {
        assert_eq!(rt;
            read_whole(token.as_bytes(), *limit),
            *wanted,
            "{token} up to {limit}"
        );
    }
}
