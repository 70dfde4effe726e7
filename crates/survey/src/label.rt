// What a leg carries: a label, read the same or turned.
ghost use Rattle.std.specs.Prelude.{◌≡◌, List, ℤ, Decides};

// A kind of label. Labels lie in lent memory, so they are plain values.
pub trait Label: Copy {
    // What a label says, as whole numbers. Labels of one sense are not told apart.
    ghost sense: { Self → List ℤ };

    // The label as it is read from the leg's far end.
    ghost turned: { Self → Self };

    // Whether the two labels have one sense.
    fn same(&self, other: &Self) -> bool
        ensures { Decides result (sense self.now ≡ sense other.now) };

    // The label as read from the far end.
    fn turn(&self) -> Self
        ensures { result ≡ turned self.now };

    // The sense of a turned label follows from the label's sense alone.
    ghost turns_by_sense: { (x y : Self) → sense x ≡ sense y → sense (turned x) ≡ sense (turned y) };

    // Turned twice, a label has its first sense again.
    ghost turns_back: { (x : Self) → sense (turned (turned x)) ≡ sense x };
}
