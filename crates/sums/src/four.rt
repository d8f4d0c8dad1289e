// Four of a kind, at the places k - 1, k, k + 1 and k + 2 of a row or a column: coefficients, sums of them, the weights on them, or where rows start.
ghost use Rattle.std.specs.Prelude.{◌≡◌, ◌+◌, ◌<◌, ◌^◌};

#[derive(Clone, Copy)]
pub struct Four<T> {
    pub before: T,
    pub here: T,
    pub after: T,
    pub beyond: T,
}

impl<T> Four<T> {
    // What a function makes of each.
    pub fn map<U, F: Fn(T) -> U>(self, of: F) -> Four<U>
        requires { F.pre of self.before × F.pre of self.here × F.pre of self.after × F.pre of self.beyond }
        ensures { F.post of self.before result.before
            × F.post of self.here result.here
            × F.post of self.after result.after
            × F.post of self.beyond result.beyond }
    {
        Four {
            before: of(self.before),
            here: of(self.here),
            after: of(self.after),
            beyond: of(self.beyond),
        }
    }
}

impl Four<usize> {
    // The four indices from one on.
    pub fn indices(k: usize) -> Four<usize>
        requires { k + 3 < 2 ^ 64 }
        ensures { result ≡ record { before = k; here = k + 1; after = k + 2; beyond = k + 3 } }
    {
        Four {
            before: k,
            here: k + 1,
            after: k + 2,
            beyond: k + 3,
        }
    }
}
