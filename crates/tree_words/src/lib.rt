// A certificate and the refusals of certify, in plain words.
#![tactic(auto)]

use script::fault::Refused;
use script::inputs::count_inputs;
use std::{fmt, io};
use tree::certificate::Certificate;
use tree::fault::TreeFault;

// The first node of a kind, where there is one.
#[derive(Clone, Copy)]
struct First(Option<u16>);

impl fmt::Display for First {
    fn fmt<W: fmt::Write>(&self, f: &mut fmt::Formatter<W>) -> fmt::Result {
        match self.0 {
            Some(node) => write!(f, "node {node}"),
            None => write!(f, "none"),
        }
    }
}

// A certificate for so many players: the number of nodes, the first wrong and the first leaking node, the class of each
// input, and whether the script is certified.
#[derive(Clone, Copy)]
pub struct CertificateWords<'a> {
    pub players: u8,
    pub certificate: &'a Certificate,
}

impl fmt::Display for CertificateWords<'_> {
    fn fmt<W: fmt::Write>(&self, f: &mut fmt::Formatter<W>) -> fmt::Result {
        let nodes = self.certificate.nodes;
        let wrong = First(self.certificate.wrong);
        let leaking = First(self.certificate.leaking);
        write!(
            f,
            "{nodes} nodes, {wrong} wrong, {leaking} leaking, classes"
        )?;
        for input in 0..count_inputs(self.players) {
            let class = self.certificate.classes.of(input);
            write!(f, " {class}")?;
        }
        let verdict = if self.certificate.is_faultless() {
            "certified"
        } else {
            "not certified"
        };
        write!(f, ": {verdict}")
    }
}

// Prints why the tree is not built.
pub fn print_refusal(rt: &HostRuntime, fault: &TreeFault) -> io::Result<()> {
    let refused = Refused { fault };
    println!(rt; "{refused}: {fault}")
}

// Prints why a script whose tree is built is not certified.
pub fn print_faults(rt: &HostRuntime, certificate: &Certificate) -> io::Result<()> {
    if let Some(node) = certificate.wrong {
        println!(rt;
            "node {node} is wrong: some dealing ends there with another bit than the function has for its input"
        )?;
    }
    if let Some(node) = certificate.leaking {
        println!(rt;
            "node {node} leaks: two inputs that must look alike come there by different numbers of draw lists, so the marks shown on the way tell something of the input"
        )?;
    }
    Ok(())
}
