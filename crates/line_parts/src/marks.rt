// The marks that a turn shows, written down.
ghost use Rattle.std.specs.Prelude.{◌≡◌, ◌+◌, ◌≤◌, length};
ghost use Rattle.protocol.specs.Table.{overwritten};

// Writes the marks from an index on.
pub fn write_marks(page: &mut [u8], at: usize, marks: &[u8])
    requires { at + length marks.now ≤ length page.old }
    ensures { page.new ≡ overwritten page.old at marks.now }
{
    page[at..at + marks.len()].copy_from_slice(marks);
}
