// The legs of the worked networks.
use survey::grade::Grade;
use survey::leg_list::Leg;

// A leg of a grade, as the tables below write it. The tests of the survey have the same line: a library for it would be
// longer than both.
fn leg(from: u16, to: u16, value: u8) -> Leg<Grade> {
    Leg {
        from,
        to,
        label: Grade { value },
    }
}

// A leg there and a leg back, of different grades.
pub fn two_grades() -> [Leg<Grade>; 2] {
    [leg(0, 1, 1), leg(1, 0, 2)]
}

// The triangle, once round.
pub fn triangle() -> [Leg<Grade>; 3] {
    [leg(0, 1, 1), leg(1, 2, 1), leg(2, 0, 1)]
}

// The ring of six, once round.
pub fn ring_of_six() -> [Leg<Grade>; 6] {
    [
        leg(0, 1, 1),
        leg(1, 2, 1),
        leg(2, 3, 1),
        leg(3, 4, 1),
        leg(4, 5, 1),
        leg(5, 0, 1),
    ]
}
