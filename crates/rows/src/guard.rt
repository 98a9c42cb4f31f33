// The bench of rows that the caller lends, and its guard.
ghost use Rattle.std.specs.Prelude.{◌≡◌, length, replicate};
ghost use Rattle.rows.specs.Views.{zero_row};

use crate::row::Row;

// Holds the lent rows, and zeroes every one of them at its end.
pub struct Guard<'a> {
    pub rows: &'a mut [Row],
}

impl Drop for Guard<'_> {
    fn drop(self)
        ensures { self.exit.0.now ≡ replicate (length self.entry.rows.now) zero_row }
    {
        self.rows.fill(Row::zero());
        let Guard { rows: _ } = self;
    }
}
