// Who holds a list of bytes: a slice lent by a sheet, or a vector. A shuffle reads its list through this, so that it can
// borrow the list or own it. It is a trait of its own, since `AsRef` has no word for the list that a value holds.
ghost use Rattle.std.specs.Prelude.{◌≡◌, ℕ, List};

pub trait Bytes {
    ghost listed: { Self → List ℕ };

    fn bytes(&self) -> &[u8]
        ensures { result.now ≡ listed self.now };
}

impl Bytes for &[u8] {
    ghost listed = { λ s. s.now };

    fn bytes(&self) -> &[u8] {
        self
    }
}

impl Bytes for Vec<u8> {
    ghost listed = { λ v. v.items };

    fn bytes(&self) -> &[u8] {
        self.as_slice()
    }
}
