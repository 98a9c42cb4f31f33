// The calls on a table as values, and what they answer.
use table::fault::TableFault;
use table::table::Whereabouts;

#[derive(Clone, Copy, PartialEq, Eq, Debug)]
pub enum Call {
    Lay { number: u8 },
    Step { draw: u16 },
    Turn,
    Finish,
    Where,
}

// What a call that is not refused answers.
#[derive(Clone, Copy, PartialEq, Eq, Debug)]
pub enum Reply {
    // Lay: the line it begins at.
    Began { line: u8 },
    // Step: the next line.
    Stepped { line: u8 },
    // Turn: the target line, and the bytes written so far.
    Turned { line: u8, written: usize },
    // Finish: the output bit.
    Finished { output: u8 },
    // Where the table stands.
    Stands { at: Whereabouts },
}

pub type Answer = Result<Reply, TableFault>;
