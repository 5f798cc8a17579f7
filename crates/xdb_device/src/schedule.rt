// Which calls of an object in memory fail.
ghost use Rattle.std.specs.Prelude.{◌≡◌, ◌+◌, ◌-◌, ◌^◌, IsTrue};
ghost use Rattle.xdb_device.specs.Schedule.{fails_next, after_call};

use std::marker::Model;

#[derive(Debug, Drop)]
pub(crate) struct Schedule {
    fails: Vec<u64>,
    count: u64,
    faults: u64,
}

impl Model for Schedule {
    ghost use Rattle.xdb_device.specs.Schedule.{Calls};

    ghost Value = { Calls };

    ghost view = { λ s. record { fails = s.fails.items; count = s.count; faults = s.faults } };
}

impl Schedule {
    ghost use Rattle.std.specs.Prelude.{◌≡◌};
    ghost use Rattle.xdb_device.specs.Schedule.{fails_next, after_call};

    pub(crate) fn new(fails: Vec<u64>) -> Self
        ensures { result ≡ record { fails = fails.items; count = 0; faults = 0 } }
    {
        Schedule {
            fails,
            count: 0,
            faults: 0,
        }
    }

    pub(crate) fn count(&self) -> u64
        ensures { result ≡ self.now.count }
    {
        self.count
    }

    // Counts a call, and answers whether it is one of those that fail.
    pub(crate) fn fails(&mut self) -> bool
        ensures answer { result ≡ fails_next self.old }
        ensures counted { self.new ≡ after_call self.old }
    {
        self.count = self.count.saturating_add(1);
        let fails = self.count < u64::MAX && self.fails.contains(&self.count);
        if fails {
            self.faults = self.faults.saturating_add(1);
        }
        fails
    }
}
