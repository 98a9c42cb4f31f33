// The branches of a turn, one after another.
ghost use Rattle.std.specs.Prelude.{◌≡◌};
ghost use Rattle.std.specs.Iterator.{YieldsFirstBy, item_count};
ghost use Rattle.sheet.specs.Branching.{branch_view, branches_left};
ghost use Rattle.sheet.specs.Scripts.{branches_of};

// A mark for each of the turned cards, and the line that the branch goes to.
#[derive(Clone, Copy)]
pub struct Branch<'a> {
    pub marks: &'a [u8],
    pub target: u8,
}

// The branches that are left, of a turn of so many cards.
#[derive(Clone, Copy, Drop)]
pub struct Branches<'a> {
    turned: usize,
    rest: &'a [u8],
}

impl<'a> Branches<'a> {
    // The branches that the bytes write.
    pub fn new(turned: usize, bytes: &'a [u8]) -> Branches<'a>
        ensures { branches_left result ≡ branches_of turned bytes.now }
    {
        Branches {
            turned,
            rest: bytes,
        }
    }
}

impl<'a> Iterator for Branches<'a> {
    type Item = Branch<'a>;

    ghost next_gives = { YieldsFirstBy branch_view branches_left };

    ghost remaining = { item_count branches_left };

    fn next(&mut self) -> Option<Branch<'a>> {
        let (marks, others) = self.rest.split_at_checked(self.turned)?;
        let (target, rest) = others.split_first()?;
        self.rest = rest;
        Some(Branch {
            marks,
            target: *target,
        })
    }
}
