// A frame as far as it has been read.
ghost use Rattle.std.specs.Prelude.{◌+◌, ◌≤◌, length};

use crate::rule::Rule;
use heads::fault::SheetFault;

// The bytes of a line's frame that are still to be read. The first of them has the index `at` in the frame.
#[derive(Clone, Copy)]
pub struct Cursor<'a> {
    pub line: u8,
    pub at: u8,
    pub rest: &'a [u8],
    ghost in_frame: { at + length rest.now ≤ 128 },
}

impl<'a> Cursor<'a> {
    ghost use Rattle.std.specs.Prelude.{◌≡◌, drop, [], true, false, MatchResult};
    ghost use Rattle.format.specs.Form.{listed};
    ghost use Rattle.format.specs.Taking.{Taken, Broken, Next, NoNext};

    // A line's frame, of which no byte has been read.
    pub fn new(line: u8, bytes: &'a [u8]) -> Cursor<'a>
        requires { length bytes.now ≤ 128 }
        ensures line { result.line ≡ line }
        ensures at { result.at ≡ 0 }
        ensures rest { result.rest.now ≡ bytes.now }
    {
        Cursor {
            line,
            at: 0,
            rest: bytes,
        }
    }

    // The fault of the next byte: it is missing, too many or against its rule.
    pub fn fault(&self) -> SheetFault
        ensures { result ≡ SheetFault.Byte self.now.line self.now.at }
    {
        SheetFault::Byte {
            line: self.line,
            index: self.at,
        }
    }

    // Goes past so many bytes, to the rest that a pattern found after them.
    pub fn skip(&mut self, count: u8, rest: &'a [u8])
        requires { (count ≤ length self.now.rest.now) × (rest.now ≡ drop count self.now.rest.now) }
        ensures line { self.new.line ≡ self.old.line }
        ensures at { self.new.at ≡ self.old.at + count }
        ensures rest { self.new.rest.now ≡ drop count self.old.rest.now }
    {
        self.at += count;
        self.rest = rest;
    }

    // The next byte, if it passes the test.
    pub fn byte<F: Fn(u8) -> bool>(&mut self, test: F) -> Result<u8, SheetFault>
        requires { F.IsAlwaysCallable test }
        ensures { MatchResult result (λ b. F.post test b true × Next self.old b self.new) (λ e. NoNext (λ b. F.post test b false) self.old e) }
    {
        match self.rest {
            [b, rest @ ..] if test(*b) => {
                self.skip(1, rest);
                Ok(*b)
            }
            _ => Err(self.fault()),
        }
    }

    // The next `count` bytes, each by the rule.
    pub fn list<R: Rule>(&mut self, count: usize, rule: &R) -> Result<&'a [u8], SheetFault>
        ensures { MatchResult result (λ list. Taken (R.Rule.test rule.now) count self.old list.now self.new) (λ e. Broken (listed count (R.Rule.test rule.now) []) self.old e) }
    {
        let bytes = self.rest;
        let mut after = *self;
        for i in 0..count {
            after.byte(|b| rule.passes(&bytes[..i], b))?;
        }
        *self = after;
        Ok(&bytes[..count])
    }
}
