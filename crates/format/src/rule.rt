// Rules for the next byte of a list, over those before it.
ghost use Rattle.std.specs.Prelude.{◌≡◌, ℕ, ◌^◌, Bool, List, [], ◌∷◌, ◌++◌, nat_lt};
ghost use Rattle.heads.specs.Heads.{deck_meaning};
ghost use Rattle.format.specs.Kinds.{distinct_rule, ascending_rule, code_rule, mark_rule, precedes, head_rule};

use cards::deck::Deck;
use heads::head::DeckKind;
use heads::kind::Kind;
use shuffles::lists::stands;

// A rule for the next byte of a list, over those before it.
// A trait and no closure: what a rule means stands once, at its impl, and not at each list that is read by it.
pub trait Rule {
    ghost test: { Self → List ℕ → ℕ → Bool };

    fn passes(&self, before: &[u8], b: u8) -> bool
        ensures { result ≡ test self.now before.now b };
}

// From `low` to `high`, and not yet in the list.
#[derive(Clone, Copy)]
pub struct Distinct {
    pub low: u8,
    pub high: u8,
}

impl Rule for Distinct {
    ghost test = { λ r. distinct_rule r.low r.high };

    fn passes(&self, before: &[u8], b: u8) -> bool {
        (self.low..=self.high).contains(&b) && !stands(b, before)
    }
}

// From 1 to `high`, and above the last in the list.
#[derive(Clone, Copy)]
pub struct Ascending {
    pub high: u8,
}

impl Rule for Ascending {
    ghost test = { λ r. ascending_rule r.high };

    fn passes(&self, before: &[u8], b: u8) -> bool {
        (1..=self.high).contains(&b) && before.last().is_none_or(|last| *last < b)
    }
}

// A code that may lie in a layout of the deck and the players; one that may not repeat is not yet in the list.
#[derive(Clone, Copy)]
pub struct Codes {
    pub deck: DeckKind,
    pub players: u8,
}

impl Rule for Codes {
    ghost test = { λ r. code_rule (deck_meaning r.deck) r.players };

    fn passes(&self, before: &[u8], b: u8) -> bool {
        self.deck.may_lie(self.players, b)
            && (self.deck.may_repeat(self.players, b) || !stands(b, before))
    }
}

// Whether the list `previous` stands strictly before the list `before` with b at its end, in dictionary order.
pub fn stands_before(previous: &[u8], before: &[u8], b: u8) -> bool
    ensures { result ≡ precedes previous.now (before.now ++ b ∷ []) }
{
    // By hand: `cmp` of the two iterators made reading a turn's frame twice as slow.
    match (previous, before) {
        ([], _) => true,
        ([x, ..], []) => *x < b,
        ([x, xs @ ..], [y, ys @ ..]) => x < y || (x == y && stands_before(xs, ys, b)),
    }
}

// A mark of the deck; the last of `count` marks also brings the branch after the one before it, whose marks are
// `previous`.
#[derive(Clone, Copy)]
pub struct Marks<'a> {
    pub deck: DeckKind,
    pub count: usize,
    pub previous: &'a [u8],
}

impl<'a> Rule for Marks<'a> {
    ghost test = { λ r. mark_rule r.deck r.count r.previous.now };

    fn passes(&self, before: &[u8], b: u8) -> bool {
        (self.deck.lowest_mark()..=self.deck.highest_mark()).contains(&b)
            && (before.len() + 1 < self.count || stands_before(self.previous, before, b))
    }
}

// Whether the byte is below 2^(2^k) for k players: a function of k bits. Any byte is for three or more.
pub(crate) fn function_fits(players: u8, b: u8) -> bool
    ensures { result ≡ nat_lt b (2 ^ 2 ^ players) }
{
    players >= 3 || u16::from(b) < 1 << (1u32 << players)
}

// The bytes of a head, each by its index and those before it.
#[derive(Clone, Copy)]
pub struct HeadBytes {}

impl Rule for HeadBytes {
    ghost test = { λ _. head_rule };

    fn passes(&self, before: &[u8], b: u8) -> bool {
        match before {
            [] => b == Kind::Head.byte(),
            [_] => b <= 1,
            [_, _] => (2..=12).contains(&b),
            [_, _, cards] => (1..=3).contains(&b) && 2 * b <= *cards,
            [_, _, _, players] => function_fits(*players, b),
            _ => b <= 1,
        }
    }
}
