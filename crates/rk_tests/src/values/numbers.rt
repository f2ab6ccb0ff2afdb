//! Which numbers are serials.
use crate::same::same;
use rk_names::Serial;

/// From 1 to the greatest positive number of a key_serial_t, 32 bits with a sign.
#[test]
fn a_serial_is_positive_in_31_bits(rt: HostRuntime) {
    let rows = [
        (0, None),
        (1, Some(1)),
        (2_147_483_647, Some(2_147_483_647)),
        (2_147_483_648, None),
        (4_294_967_295, None),
    ];
    for (number, want) in rows {
        let got = Serial::new(number).map(|serial| serial.get());
        same(&rt, (number, got), (number, want));
    }
}
