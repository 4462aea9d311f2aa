//! One hinge, and what it adds to net and to the slope.
ghost use Rattle.std.specs.Prelude.{◌≡◌, ◌≤◌};
ghost use Rattle.raise.specs.Net.{on_line};
ghost use Rattle.hinges.specs.Hinges.{SizedHinge};

/// From this gross on net is higher by the jump, and by the pace for each unit beyond.
#[derive(Clone, Copy, Debug, Default, PartialEq, Eq)]
pub struct Hinge {
    /// the gross from which on it counts
    pub at: u32,
    /// ten-thousandths that are added at once, below 0 what is taken away
    pub jump: i64,
    /// ten-thousandths that are added for each unit beyond
    pub pace: i64,
}

impl Hinge {
    /// What it adds to net at a gross that it is not above.
    pub(crate) fn line_at(self, gross: u32) -> i64
        requires sized { SizedHinge self }
        requires order { self.at ≤ gross }
        requires low { gross ≤ 1000000000 }
        ensures { result ≡ on_line self.at self.jump self.pace gross }
    {
        self.jump + self.pace * i64::from(gross - self.at)
    }
}
