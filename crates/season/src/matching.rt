// Matching two networks of readings: their labels are numbered, and a map is searched for.
use anyhow::anyhow;
use search::coded::{CodedNetwork, MOST_CODES, MOST_STATIONS};
use survey::label::Label;
use survey::network::Network;
use survey::reading::Reading;

// The number of a label's sense among those met so far, from 1; a new sense joins them.
fn number(met: &mut Vec<Reading>, label: Reading) -> anyhow::Result<u8> {
    if let Some(place) = met.iter().position(|held| label.same(held)) {
        return Ok(u8::try_from(place.saturating_add(1))?);
    }
    met.push(label)?;
    Ok(u8::try_from(met.len())?)
}

// The numbers of the legs from one station, put into its row.
fn code_row<N: Network<Label = Reading>>(
    met: &mut Vec<Reading>,
    net: &N,
    u: u16,
    row: &mut [u8],
) -> anyhow::Result<()> {
    for (v, code) in (0..net.stations()).zip(row) {
        if let Some(label) = net.leg(u, v) {
            *code = number(met, label)?;
        }
    }
    Ok(())
}

// The network with numbers for labels.
pub fn coded<N: Network<Label = Reading>>(
    met: &mut Vec<Reading>,
    net: &N,
) -> anyhow::Result<CodedNetwork> {
    let mut kinds = [0; MOST_STATIONS];
    let mut codes = [0; MOST_CODES];
    for (u, kind) in (0..net.stations()).zip(&mut kinds) {
        *kind = u16::from(net.kind(u));
    }
    for (u, row) in (0..net.stations()).zip(codes.chunks_mut(MOST_STATIONS)) {
        code_row(met, net, u, row)?;
    }
    CodedNetwork::new(net.stations() as usize, &kinds, &codes).ok_or_else(|| {
        anyhow!("the network has too many stations, or a leg from a station to itself")
    })
}
