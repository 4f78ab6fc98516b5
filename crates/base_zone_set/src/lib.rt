// A set of zones: a bit for each of sixteen.
#![tactic(auto)]

ghost use Rattle.std.specs.Prelude.{◌≡◌, ◌<◌};
ghost use Rattle.base_zone_set.specs.Meaning.Zones.{member, added};

use std::marker::Model;

// A contract sees a set as the number that its bits make.
#[derive(Clone, Copy, PartialEq, Eq)]
pub struct ZoneSet {
    bits: u16,
}

impl Model for ZoneSet {
    ghost use Rattle.std.specs.Prelude.{ℕ};

    ghost Value = { ℕ };

    ghost view = { λ s. s.bits };

    ghost inverse = { λ n. record { bits = n } };
}

impl ZoneSet {
    pub const EMPTY: ZoneSet = ZoneSet { bits: 0 };

    pub fn has(self, zone: usize) -> bool
        ensures { result ≡ member self zone }
    {
        zone < layout::ZONES && (self.bits >> zone) % 2 == 1
    }

    pub fn with(self, zone: usize) -> ZoneSet
        requires { zone < 16 }
        ensures { result ≡ added self zone }
    {
        ZoneSet {
            bits: self.bits | (1 << zone),
        }
    }
}
