// Refusals, certificates, calls and answers in few words.
use script::fault::Refusal;
use sessions::call::{Answer, Call, Reply};
use std::fmt;
use tree::certificate::Certificate;

// A refusal by its number, layer, line and place.
#[derive(Clone, Copy)]
pub struct Numbered<'a, R> {
    pub fault: &'a R,
}

impl<R: Refusal> fmt::Display for Numbered<'_, R> {
    fn fmt<W: fmt::Write>(&self, f: &mut fmt::Formatter<W>) -> fmt::Result {
        let number = self.fault.number();
        let layer = self.fault.layer().number();
        let line = self.fault.line();
        let place = self.fault.place();
        write!(f, "refused {number} {layer} {line} {place}")
    }
}

// The first node of a kind.
#[derive(Clone, Copy)]
struct Node(Option<u16>);

impl fmt::Display for Node {
    fn fmt<W: fmt::Write>(&self, f: &mut fmt::Formatter<W>) -> fmt::Result {
        match self.0 {
            Some(number) => write!(f, "{number}"),
            None => f.write_str("none"),
        }
    }
}

// A certificate: the count of nodes, the first wrong and the first leaking one, and the class of each input.
#[derive(Clone, Copy)]
pub struct Certified {
    pub inputs: u8,
    pub certificate: Certificate,
}

impl fmt::Display for Certified {
    fn fmt<W: fmt::Write>(&self, f: &mut fmt::Formatter<W>) -> fmt::Result {
        let nodes = self.certificate.nodes;
        let wrong = Node(self.certificate.wrong);
        let leaking = Node(self.certificate.leaking);
        write!(
            f,
            "nodes {nodes}, wrong {wrong}, leaking {leaking}, classes"
        )?;
        for input in 0..self.inputs {
            let class = self.certificate.classes.of(input);
            write!(f, " {class}")?;
        }
        Ok(())
    }
}

// A call, and what it answers.
#[derive(Clone, Copy)]
pub struct Answered {
    pub call: Call,
    pub answer: Answer,
}

impl fmt::Display for Answered {
    fn fmt<W: fmt::Write>(&self, f: &mut fmt::Formatter<W>) -> fmt::Result {
        let call = self.call;
        match call {
            Call::Lay { number } => write!(f, "{call} {number}: ")?,
            Call::Step { draw } => write!(f, "{call} {draw}: ")?,
            Call::Turn | Call::Finish | Call::Where => write!(f, "{call}: ")?,
        }
        match &self.answer {
            Ok(Reply::Began { line } | Reply::Stepped { line }) => write!(f, "line {line}"),
            Ok(Reply::Turned { line, written }) => write!(f, "line {line}, {written} bytes"),
            Ok(Reply::Finished { output }) => write!(f, "output {output}"),
            Ok(Reply::Stands { at }) => {
                let phase = at.phase.number();
                let line = at.line;
                let written = at.written;
                write!(f, "phase {phase}, line {line}, {written} bytes")
            }
            Err(fault) => {
                let numbered = Numbered { fault };
                write!(f, "{numbered}")
            }
        }
    }
}
