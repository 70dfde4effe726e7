// What an atlas answers to a call that is not refused.

// The number of the network's form, counted from 1, and the trials that the search took; or only the trials.
#[derive(Clone, Copy, PartialEq, Eq, Debug)]
pub enum Answer {
    // The network is entered under the next number.
    New { form: u8, trials: u32 },
    // A form has a map to the network; it is in the place.
    Known { form: u8, trials: u32 },
    // No form has a map to the network.
    Unknown { trials: u32 },
    // More trials are needed than are allowed; as many as are allowed.
    Spent { trials: u32 },
}
