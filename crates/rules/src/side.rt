// The two sides. Matching is written once, over the side of the standing orders.
ghost use Rattle.std.specs.Prelude.{◌≡◌};
ghost use Rattle.rules.specs.Sides.{Rule, Lawful, bids, asks};
ghost use Rattle.std.proofs.Common.{rules};

use crate::terms::SideName;

pub trait Side {
    ghost rule: { Rule };

    fn name() -> SideName
        ensures { result ≡ rule.name };

    // Whether of two prices p comes first.
    fn comes_first(p: u32, q: u32) -> bool
        ensures { result ≡ rule.ahead p q };

    // Whether p is ahead of the best price by at least that much.
    fn improves(p: u32, best: u32, by: u32) -> bool
        ensures { result ≡ rule.improved p best by };

    // The last price above 0 that improves on the best by that much.
    fn edge(best: u32, by: u32) -> Option<u64>
        ensures { result ≡ rule.edge best by };

    ghost lawful: { Lawful rule };
}

pub struct Bids;

impl Side for Bids {
    ghost rule = { bids };

    ghost lawful = { Prim.search rules };

    fn name() -> SideName {
        SideName::Bid
    }

    fn comes_first(p: u32, q: u32) -> bool {
        p > q
    }

    fn improves(p: u32, best: u32, by: u32) -> bool {
        p as u64 >= best as u64 + by as u64
    }

    fn edge(best: u32, by: u32) -> Option<u64> {
        Some(best as u64 + by as u64)
    }
}

pub struct Asks;

impl Side for Asks {
    ghost rule = { asks };

    ghost lawful = { Prim.search rules };

    fn name() -> SideName {
        SideName::Ask
    }

    fn comes_first(p: u32, q: u32) -> bool {
        p < q
    }

    fn improves(p: u32, best: u32, by: u32) -> bool {
        p as u64 + by as u64 <= best as u64
    }

    fn edge(best: u32, by: u32) -> Option<u64> {
        (best > by).then(|| best as u64 - by as u64)
    }
}
