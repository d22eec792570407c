//! Times of nodes, and coins.

use port_state::{Coins, Timing};

// The times for cables of at most 1, 4 and 16 ticks: hold, force, timeout, short and long.
#[test]
fn times_of_cables(rt: HostRuntime) {
    let rows = [
        (1, [64, 256, 512, 3, 8]),
        (4, [256, 1024, 2048, 12, 32]),
        (16, [1024, 4096, 8192, 48, 128]),
    ];
    for (d, [hold, force, timeout, short, long]) in rows {
        let wanted = Timing {
            hold,
            force,
            timeout,
            short,
            long,
        };
        assert!(rt; 1 <= d && d <= 16);
        assert!(rt; Timing::usual(d) == wanted && wanted.in_range(d));
    }
}

// Whether the first coins are these, 1 for true.
fn gives(mut coins: Coins, wanted: &[u8]) -> bool {
    wanted.iter().all(|coin| coins.next() == (*coin == 1))
}

// Bits go round. The seed 42 on stream 54 is that of PCG's own demonstration, whose first words
// are a15c02b7, 7b47f409, ba1d3330, 83d2f293, bfa4784b and cbed606e.
#[test]
fn first_coins(rt: HostRuntime) {
    assert!(rt; gives(Coins::bits(0b101, 3), &[1, 0, 1, 1, 0, 1, 1]));
    assert!(rt; gives(Coins::bits(0b10, 1), &[0, 0, 0]));
    assert!(rt; gives(Coins::bits(1 << 63, 64), &[0, 0, 0]));
    assert!(rt; gives(Coins::seeded(42), &[1, 0, 1, 1, 1, 1]));
}
