// The lent kinds of a source's stations.
ghost use Rattle.std.specs.Prelude.{◌≡◌};
ghost use Rattle.survey.specs.Sources.{kinds_counted, kind_listed};

// A source has at most as many stations as a station number can tell apart.
pub(crate) const MOST_STATIONS: usize = 65_535;

// How many stations the kinds are of.
pub(crate) fn counted(kinds: &[u8]) -> u16
    ensures { result ≡ kinds_counted kinds.now }
{
    kinds.len().min(MOST_STATIONS) as u16
}

// The kind of a station, 0 where it is not there: a rule of all networks, of which one is asked of any number.
pub(crate) fn kind_at(kinds: &[u8], station: u16) -> u8
    ensures { result ≡ kind_listed kinds.now station }
{
    if station < counted(kinds) {
        kinds[station as usize]
    } else {
        0
    }
}
