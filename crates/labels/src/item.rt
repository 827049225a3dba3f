// What boards send each other: anything that can be compared for sameness.
ghost use Rattle.std.specs.Prelude.{◌≡◌, Bool};
ghost use Rattle.labels.specs.Item.{Tells};

// Items of which it can be told whether they are the same.
pub trait Item: Copy {
    // whether two items are the same
    ghost same: { Self → Self → Bool };

    // Kept a method, and no bound `Eq`: what `==` takes for equal need not be the same.
    fn is_same(self, other: Self) -> bool
        ensures { result ≡ same self other };

    ghost tells: { Tells same };
}
