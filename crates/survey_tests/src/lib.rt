// Worked labels, networks, layers and pairings, run against their answers.
#![tactic(auto)]

#[cfg(test)]
mod tests {
    use std::test::Fail;
    use survey::both_ways::BothWays;
    use survey::grade::Grade;
    use survey::grade_table::GradeTable;
    use survey::label::Label;
    use survey::leg_list::{Leg, LegList};
    use survey::network::Network;
    use survey::pairing::Pairing;
    use survey::reading::Reading;
    use survey::refusal::Refusal;
    use survey::turned::Turned;
    use survey::without::Without;
    use survey::word::{kind_of, word};

    // A leg of a grade, as the tables below write it. The worked networks have the same line: a library for it would be
    // longer than both.
    const fn leg(from: u16, to: u16, value: u8) -> Leg<Grade> {
        Leg {
            from,
            to,
            label: Grade { value },
        }
    }

    #[test]
    fn readings_turn(rt: HostRuntime) -> Result<(), Fail> {
        let there = Reading::new(1234, 905, -120)?;
        let back = Reading::new(1234, 2705, 120)?;
        assert_eq!(rt; there.turn(), back);
        assert_eq!(rt; back.turn(), there);
        assert_eq!(rt; Reading::new(0, 1800, 0)?.turn(), Reading::new(0, 0, 0)?);
        assert_eq!(rt;
            Reading::new(5, 1799, 900)?.turn(),
            Reading::new(5, 3599, -900)?
        );
        Ok(())
    }

    #[test]
    fn numbers_past_their_range_count_as_its_end(rt: HostRuntime) -> Result<(), Fail> {
        let past = Reading {
            length: 2_000_000,
            bearing: 9_999,
            gradient: -2_000,
        };
        let end = Reading::new(1_000_000, 3_599, -900)?;
        assert!(rt; past.same(&end));
        assert_eq!(rt; past.turn(), end.turn());
        let none = Grade { value: 0 };
        assert!(rt; none.same(&Grade::new(1)?));
        Ok(())
    }

    #[test]
    fn labels_outside_their_ranges_are_refused(rt: HostRuntime) {
        assert_eq!(rt; Grade::new(0), Err(Refusal::OutOfRange));
        assert_eq!(rt; Grade::new(256), Err(Refusal::OutOfRange));
        assert_eq!(rt; Reading::new(1_000_001, 0, 0), Err(Refusal::OutOfRange));
        assert_eq!(rt; Reading::new(0, 3_600, 0), Err(Refusal::OutOfRange));
        assert_eq!(rt; Reading::new(0, 0, 901), Err(Refusal::OutOfRange));
        assert_eq!(rt; Reading::new(0, 0, -901), Err(Refusal::OutOfRange));
    }

    #[test]
    fn ring_without_its_first_station(rt: HostRuntime) {
        let legs = [
            leg(0, 1, 1),
            leg(1, 2, 1),
            leg(2, 3, 1),
            leg(3, 4, 1),
            leg(4, 5, 1),
            leg(5, 0, 1),
        ];
        let kinds = [0, 1, 2, 3, 4, 5];
        let ring = BothWays::new(LegList::new(&kinds, &legs));
        let open = Without::new(ring, 1);
        assert_eq!(rt; open.stations(), 5);
        assert_eq!(rt; open.old_station(4), 5);
        assert_eq!(rt; open.kind(4), 5);
        assert_eq!(rt; open.leg(3, 4), Some(Grade { value: 1 }));
        assert_eq!(rt; open.leg(4, 3), Some(Grade { value: 1 }));
        assert_eq!(rt; open.leg(4, 0), None);
        assert_eq!(rt; open.kind(5), 0);
    }

    #[test]
    fn bits_past_the_count_take_nothing_out(rt: HostRuntime) {
        let kinds = [3, 4, 5];
        let legs = [leg(0, 2, 7)];
        let some = Without::new(LegList::new(&kinds, &legs), 0xffff_ffff_ffff_fff8);
        assert_eq!(rt; some.stations(), 3);
        assert_eq!(rt; some.leg(0, 2), Some(Grade { value: 7 }));
        let none = Without::new(LegList::new(&kinds, &legs), u64::MAX);
        assert_eq!(rt; none.stations(), 0);
        assert_eq!(rt; none.old_station(0), 3);
    }

    #[test]
    fn counts_of_stations(rt: HostRuntime) -> Result<(), Fail> {
        let kinds = vec![in rt.alloc(); 9u8; 70_000]?;
        let legs: [Leg<Grade>; 2] = [leg(64, 65, 2), leg(65_534, 0, 3)];
        for n in [0u16, 64, 65, 65_535] {
            let some = kinds.as_slice();
            if n as usize > some.len() {
                return Err(Fail::new("too few kinds"));
            }
            let net = LegList::new(&some[0..n as usize], &legs);
            assert_eq!(rt; net.stations(), n);
            assert_eq!(rt; net.kind(n), 0);
        }
        let all = LegList::new(kinds.as_slice(), &legs);
        assert_eq!(rt; all.stations(), 65_535);
        assert_eq!(rt; all.kind(65_534), 9);
        assert_eq!(rt; all.kind(65_535), 0);
        assert_eq!(rt; all.leg(65_534, 0), Some(Grade { value: 3 }));
        let fewer = Without::new(all, 0x8000_0000_0000_0001);
        assert_eq!(rt; fewer.stations(), 65_533);
        assert_eq!(rt; fewer.old_station(62), 64);
        assert_eq!(rt; fewer.leg(62, 63), Some(Grade { value: 2 }));
        assert_eq!(rt; fewer.old_station(65_532), 65_534);
        Ok(())
    }

    #[test]
    fn first_record_of_a_pair_counts(rt: HostRuntime) {
        let kinds = [0, 0];
        let legs = [leg(1, 0, 4), leg(0, 1, 5), leg(0, 1, 6), leg(0, 2, 7)];
        let net = LegList::new(&kinds, &legs);
        assert_eq!(rt; net.leg(0, 1), Some(Grade { value: 5 }));
        assert_eq!(rt; net.leg(1, 0), Some(Grade { value: 4 }));
        assert_eq!(rt; net.leg(0, 2), None);
        let turned = Turned::new(net);
        assert_eq!(rt; turned.leg(1, 0), Some(Grade { value: 5 }));
    }

    #[test]
    fn grade_table_cut_short(rt: HostRuntime) {
        let kinds = [0; 66];
        let mut bytes = [0; 130];
        bytes[1] = 8;
        bytes[64] = 9;
        bytes[129] = 7;
        let net = GradeTable::new(&kinds, &bytes);
        assert_eq!(rt; net.stations(), 66);
        assert_eq!(rt; net.leg(0, 1), Some(Grade { value: 8 }));
        assert_eq!(rt; net.leg(1, 0), Some(Grade { value: 9 }));
        assert_eq!(rt; net.leg(2, 1), Some(Grade { value: 7 }));
        assert_eq!(rt; net.leg(2, 2), None);
        assert_eq!(rt; net.leg(0, 64), None);
        assert_eq!(rt; net.leg(64, 0), None);
    }

    #[test]
    fn pairings_go_back_and_follow(rt: HostRuntime) -> Result<(), Fail> {
        let Some(there) = Pairing::from_images(&[2, 0, 1]) else {
            return Err(Fail::new("not one-to-one and onto"));
        };
        assert_eq!(rt; there.image(0)?, 2);
        assert_eq!(rt; there.image(3), Err(Refusal::NoSuchStation));
        let twice = there.then(&there)?;
        assert!(rt; twice.images() == [1u8, 2, 0].as_slice());
        let back = there.reversed();
        assert!(rt; back.images() == [1u8, 2, 0].as_slice());
        let home = there.then(&back)?;
        assert!(rt; home == Pairing::identity(3)?);
        assert!(rt; there.then(&Pairing::empty()).is_err());
        assert!(rt; Pairing::from_images(&[0, 2, 0]).is_none());
        assert!(rt; Pairing::from_images(&[0, 3, 1]).is_none());
        assert!(rt; Pairing::from_images(&[0; 65]).is_none());
        assert!(rt; Pairing::identity(65).is_err());
        Ok(())
    }

    #[test]
    fn kinds_by_word(rt: HostRuntime) {
        assert_eq!(rt; kind_of("sump"), Some(4));
        assert_eq!(rt; kind_of("other"), None);
        assert!(rt; word(7) == "lead");
        assert!(rt; word(8) == "other");
        assert!(rt; word(255) == "other");
    }
}
