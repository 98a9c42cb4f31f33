// The products of totals along the paths of a sheet.
ghost use Rattle.std.specs.Prelude.{◌≡◌, ℕ, ◌*◌, ◌<◌, ◌≤◌, length, slice_index};
ghost use Rattle.sheet.specs.Counting.{Outcome};
ghost use Rattle.sheet.specs.First.{first};
ghost use Rattle.sheet.specs.Products.{total as draws, arrival, limit};
ghost use Rattle.sheet.specs.Scripts.{action};
ghost use Rattle.sheet.specs.Verdicts.{product_fault};

use crate::read::ReadSheet;
use arrayvec::ArrayVec;
use heads::fault::SheetFault;

// A product of totals along a path is at most this.
const LIMIT: u64 = 0x100_0000_0000;

impl ReadSheet<'_> {
    // The greatest product with which a path arrives at the line, from the greatest products of the lines before it.
    fn arrival(&self, line: u8, arrived: &[u64]) -> u64
        requires arrived_len { (length arrived.now ≡ line) × (((j : ℕ) → j < line → slice_index arrived.now j * draws (action self.now.bytes.now j) ≤ limit)) }
        ensures value { result ≡ arrival (action self.now.bytes.now) line arrived.now }
        ensures bound { result ≤ limit }
    {
        if line == 2 {
            return 1;
        }
        let mut most = 0;
        for (from, product) in (0..line).zip(arrived) {
            let action = self.action(from);
            if action.leads_to(line) {
                most = most.max(*product * u64::from(action.total()));
            }
        }
        most
    }

    // No path from line 2 has a product of totals above the limit.
    pub fn check_products(&self) -> Result<(), SheetFault>
        ensures { Outcome result (first self.now.lines (product_fault self.now.bytes.now)) }
    {
        let mut arrived = ArrayVec::<u64, 64>::new();
        for line in 0..self.lines {
            let most = self.arrival(line, arrived.as_slice());
            let action = self.action(line);
            if action.is_shuffle() && most * u64::from(action.total()) > LIMIT {
                return Err(SheetFault::Product { line });
            }
            arrived.push(most);
        }
        Ok(())
    }
}
