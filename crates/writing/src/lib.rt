// How the lines of a sheet are written, and that a frame keeps its form exactly when it is so written.
#![tactic(auto)]

ghost use Rattle.writing.specs.Writing.{LineLaw};

// The law of a line's frame.
pub fn line_law() -> bool
    ensures { LineLaw }
{
    true
}
