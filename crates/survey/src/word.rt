ghost use Rattle.std.specs.Prelude.{◌≡◌, ℕ, ◌<◌, Some, None, ◌≢◌};
ghost use Rattle.survey.specs.Words.{word_of};

// The word of a kind of stations. A kind is a byte and no enum: a rule of the subject, in which each of 256 is a kind, and
// eight of them have words. They stand in two matches, each proved case by case; a list of words would be searched.
pub fn word(kind: u8) -> &'static str
    ensures { result.now ≡ word_of kind }
{
    match kind {
        0 => "plain",
        1 => "entrance",
        2 => "junction",
        3 => "end",
        4 => "sump",
        5 => "pitch",
        6 => "choke",
        7 => "lead",
        _ => "other",
    }
}

// The kind that has a word of its own, as it stands in a notebook.
pub fn kind_of(word: &str) -> Option<u8>
    ensures { elim result [
      | Some k ↦ (k < 8) × (word.now ≡ word_of k)
      | None ↦ ((k : ℕ) → k < 8 → word.now ≢ word_of k)
    ] }
{
    match word {
        "plain" => Some(0),
        "entrance" => Some(1),
        "junction" => Some(2),
        "end" => Some(3),
        "sump" => Some(4),
        "pitch" => Some(5),
        "choke" => Some(6),
        "lead" => Some(7),
        _ => None,
    }
}
