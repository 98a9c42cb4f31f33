// What a refusal means and what to do next, and where a table stands, in words.
use crate::fault::TableFault;
use crate::phase::Phase;
use crate::table::Whereabouts;
use std::fmt;

impl fmt::Display for TableFault {
    fn fmt<W: fmt::Write>(&self, f: &mut fmt::Formatter<W>) -> fmt::Result {
        f.write_str(match self {
            TableFault::NotLaid { .. } => "no cards lie on the table yet. Next: lay a number",
            TableFault::NotEmpty { .. } =>
                "cards lie on the table already, and a table is laid once. Next: go on with the run, or begin another list of calls",
            TableFault::NoInput { .. } =>
                "the number is no input. Next: lay a number below 2, 4 or 8 for one, two or three players",
            TableFault::Ended { .. } => "the run has ended. Next: begin another list of calls",
            TableFault::OtherKind { .. } =>
                "the line wants another call. Next: step where it permutes or shuffles, turn where it turns, finish where it has the result",
            TableFault::Draw { .. } =>
                "the draw is not below the line's total. Next: step with a draw below the total, which is 1 where the line permutes",
            TableFault::RecordFull { .. } =>
                "the record has too few bytes left for the marks. Next: give a longer record, as by the line 'record 744'",
            TableFault::Unread { .. } =>
                "the marks have no branch, or the pair reads as no bit. Next: see that the cards are those of the sheet; with them this does not come",
        })
    }
}

impl fmt::Display for Phase {
    fn fmt<W: fmt::Write>(&self, f: &mut fmt::Formatter<W>) -> fmt::Result {
        f.write_str(match self {
            Phase::Empty => "the table is empty",
            Phase::Running => "the run is under way",
            Phase::Ended => "the run has ended",
        })
    }
}

impl fmt::Display for Whereabouts {
    fn fmt<W: fmt::Write>(&self, f: &mut fmt::Formatter<W>) -> fmt::Result {
        let Whereabouts {
            phase,
            line,
            written,
        } = self;
        write!(f, "{phase}, line {line}, {written} bytes written")
    }
}
