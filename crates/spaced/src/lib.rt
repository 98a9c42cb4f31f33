// Numbers as text, with a blank before each.
#![tactic(auto)]

use std::fmt;

// The numbers in decimal.
#[derive(Clone, Copy)]
pub struct Spaced<'a>(pub &'a [u8]);

impl fmt::Display for Spaced<'_> {
    fn fmt<W: fmt::Write>(&self, f: &mut fmt::Formatter<W>) -> fmt::Result {
        for number in self.0 {
            write!(f, " {number}")?;
        }
        Ok(())
    }
}

// The numbers in two hexadecimal digits each. A format is no parameter, and `{:02X}` is for integers alone.
#[derive(Clone, Copy)]
pub struct Codes<'a>(pub &'a [u8]);

impl fmt::Display for Codes<'_> {
    fn fmt<W: fmt::Write>(&self, f: &mut fmt::Formatter<W>) -> fmt::Result {
        for code in self.0 {
            write!(f, " {code:02X}")?;
        }
        Ok(())
    }
}

#[cfg(test)]
mod tests {
    use super::*;
    use std::test::Fail;

    #[test]
    fn each_after_a_blank(rt: HostRuntime) -> Result<(), Fail> {
        let numbers = [1, 10, 255];
        let spaced = Spaced(&numbers).to_string(rt.alloc())?;
        assert_eq!(rt; spaced.as_str(), " 1 10 255");
        let codes = Codes(&numbers).to_string(rt.alloc())?;
        assert_eq!(rt; codes.as_str(), " 01 0A FF");
        Ok(())
    }
}
