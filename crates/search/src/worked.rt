ghost use Rattle.search.specs.Worked.{Worked};

// Says what the search and the classes give for networks that can be worked by hand.
pub fn worked()
    ensures { Worked }
{}
