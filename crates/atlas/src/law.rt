// The law over any list of calls, in the words of networks and maps between them.
ghost use Rattle.atlas.specs.Law.{SeasonLaw};

use survey::label::Label;

// Any list of calls put to a newly opened atlas has a lawful history, whatever the kind of label and the sources of
// the networks: each call is answered as defined; two numbered networks have one number exactly when a map joins them;
// new and unknown say that no network numbered before has a map; known shows one; numbers are given in order; and a
// larger allowance changes no settled answer. It promises this, so that the check asks for the proof, and does nothing.
pub fn season_law<L: Label>()
    ensures { SeasonLaw L.Label.sense }
{}
