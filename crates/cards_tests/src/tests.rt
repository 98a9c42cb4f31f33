// Every layer at its edges, by tables.
#[cfg(test)]
mod edges {
    use super::super::{Reversed, TurnedRound};
    use cards::deck::{Deck, Standard, TwoColour};
    use cards::place::{Place, Slot};
    use cards::reading::Reading;
    use cards::row::Row;
    use shuffles::bank::{Bank, Everywhere, With, deal};
    use shuffles::cut::Cut;
    use shuffles::explicit::Explicit;
    use shuffles::piles::Piles;
    use shuffles::places::Places;
    use shuffles::samples::worked_images;
    use shuffles::shuffle::Shuffle;
    use std::test::Fail;

    const STAY: [u8; 12] = [0, 1, 2, 3, 4, 5, 6, 7, 8, 9, 10, 11];

    // width, total and the images under a draw
    fn seen<S: Shuffle + Drop>(shuffle: S, draw: u16) -> (u8, u16, [u8; 12]) {
        let bank = Everywhere { shuffle };
        (bank.width(7), bank.total(7), bank.images(7, draw))
    }

    #[test]
    fn cuts(rt: HostRuntime) {
        let five = [4u8, 0, 1, 2, 3, 5, 6, 7, 8, 9, 10, 11];
        let twelve = [11u8, 0, 1, 2, 3, 4, 5, 6, 7, 8, 9, 10];
        for (slots, draw, width, total, images) in [
            (5u8, 4u16, 5u8, 5u16, five),
            (5, 0, 5, 5, STAY),
            (5, 5, 5, 5, STAY),
            (5, 65535, 5, 5, STAY),
            (12, 11, 12, 12, twelve),
            (1, 0, 1, 1, STAY),
            (0, 0, 1, 1, STAY),
            (13, 1, 1, 1, STAY),
            (255, 3, 1, 1, STAY),
        ] {
            assert_eq!(rt; seen(Cut { slots }, draw), (width, total, images));
        }
    }

    #[test]
    fn piles(rt: HostRuntime) {
        let two = [2u8, 3, 0, 1, 4, 5, 6, 7, 8, 9, 10, 11];
        let six = [10u8, 11, 0, 1, 2, 3, 4, 5, 6, 7, 8, 9];
        for (slots, size, draw, width, total, images) in [
            (2u8, 2u8, 1u16, 4u8, 2u16, two),
            (2, 2, 2, 4, 2, STAY),
            (6, 2, 5, 12, 6, six),
            (5, 3, 1, 5, 5, STAY),
            (2, 0, 1, 2, 2, STAY),
            (1, 12, 0, 12, 1, STAY),
            (1, 13, 0, 1, 1, STAY),
            (12, 255, 1, 12, 12, STAY),
        ] {
            let below = Cut { slots };
            assert_eq!(rt; seen(Piles { size, below }, draw), (width, total, images));
        }
    }

    #[test]
    fn places(rt: HostRuntime) {
        let apart = [11u8, 1, 2, 3, 4, 5, 6, 7, 8, 9, 10, 0];
        for (cards, first, second, width, images) in [
            (12u8, 1u8, 12u8, 12u8, apart),
            (12, 12, 1, 12, apart),
            (11, 1, 12, 2, STAY),
            (12, 0, 12, 2, STAY),
            (12, 5, 5, 2, STAY),
            (13, 1, 12, 2, STAY),
            (0, 1, 2, 2, STAY),
        ] {
            let list = [first, second];
            let below = Cut { slots: 2 };
            let places: &[u8] = &list;
            assert_eq!(rt;
                seen(
                    Places {
                        cards,
                        places,
                        below,
                    },
                    1,
                ),
                (width, 2, images)
            );
        }
        let short: &[u8] = &[3];
        let below = Cut { slots: 2 };
        assert_eq!(rt;
            seen(
                Places {
                    cards: 4,
                    places: short,
                    below,
                },
                1,
            ),
            (2, 2, STAY)
        );
    }

    #[test]
    fn entries(rt: HostRuntime) {
        let swapped = [1u8, 0, 2, 3, 4, 5, 6, 7, 8, 9, 10, 11];
        let uneven: &[u8] = &[2, 0, 1, 1, 1, 0];
        for (draw, images) in [(0u16, STAY), (1, STAY), (2, swapped), (3, STAY)] {
            assert_eq!(rt;
                seen(
                    Explicit {
                        slots: 2,
                        entries: uneven,
                    },
                    draw,
                ),
                (2, 3, images)
            );
        }
        let light: &[u8] = &[0, 1, 0];
        let cut_short: &[u8] = &[1, 1, 0, 1, 1];
        let twice: &[u8] = &[1, 1, 1];
        let high: &[u8] = &[1, 2, 0];
        let empty: &[u8] = &[];
        for (slots, entries) in [
            (2u8, light),
            (2, cut_short),
            (2, twice),
            (2, high),
            (2, empty),
            (0, light),
            (13, light),
        ] {
            assert_eq!(rt; seen(Explicit { slots, entries }, 0), (1, 1, STAY));
        }
    }

    // 257 entries of weight 255 are 65,535 draws; one more is too many
    #[test]
    fn many_draws(rt: HostRuntime) -> Result<(), Fail> {
        let mut entries = Vec::new(rt.alloc());
        for _ in 0..257u16 {
            entries.push(255)?;
            entries.push(0)?;
        }
        let full = Explicit { slots: 1, entries };
        assert_eq!(rt; full.draws(), Some(65535));
        let Explicit {
            slots: _,
            mut entries,
        } = full;
        entries.push(1)?;
        entries.push(0)?;
        assert_eq!(rt; Explicit { slots: 1, entries }.draws(), None);
        Ok(())
    }

    #[test]
    fn banks(rt: HostRuntime) {
        let bank = With {
            line: 3,
            shuffle: TurnedRound,
            rest: Everywhere {
                shuffle: Cut { slots: 5 },
            },
        };
        for (line, width, total, image) in [(3u8, 3u8, 2u16, 2u8), (2, 5, 5, 1), (4, 5, 5, 1)] {
            assert_eq!(rt;
                (
                    bank.width(line),
                    bank.total(line),
                    bank.image(line, 1, Slot::at(0)).number(),
                ),
                (width, total, image)
            );
        }
    }

    // the library's layers and its dealing, over a shuffle that it does not know
    #[test]
    fn own_shuffle(rt: HostRuntime) {
        let list: &[u8] = &[2, 4, 6];
        let shuffle = Places {
            cards: 6,
            places: list,
            below: TurnedRound,
        };
        let row = Row {
            cards: [1, 2, 3, 4, 5, 6, 0, 0, 0, 0, 0, 0],
        };
        let after = deal(&Everywhere { shuffle }, 0, 1, row);
        assert_eq!(rt; after.cards, [1, 6, 3, 4, 5, 2, 0, 0, 0, 0, 0, 0]);
        let piles = Piles {
            size: 4,
            below: TurnedRound,
        };
        assert_eq!(rt;
            seen(piles, 1),
            (12, 2, [8, 9, 10, 11, 4, 5, 6, 7, 0, 1, 2, 3])
        );
    }

    #[test]
    fn decks(rt: HostRuntime) {
        for (code, input, two, standard, reversed) in [
            (0u8, 0u8, 0u8, 0u8, 0u8),
            (1, 0, 1, 1, 0),
            (2, 0, 0, 2, 0),
            (12, 0, 0, 12, 0),
            (13, 0, 0, 0, 0),
            (16, 0, 0, 1, 1),
            (17, 0, 1, 2, 0),
            (16, 1, 1, 2, 0),
            (17, 1, 0, 1, 1),
            (18, 1, 0, 3, 1),
            (20, 4, 1, 6, 0),
            (21, 4, 0, 5, 1),
            (22, 255, 0, 0, 0),
        ] {
            let cards = (
                TwoColour.card(code, input),
                Standard.card(code, input),
                Reversed.card(code, input),
            );
            assert_eq!(rt; cards, (two, standard, reversed));
        }
        for (players, code, two, standard) in [
            (1u8, 0u8, true, false),
            (1, 2, false, false),
            (1, 3, false, true),
            (1, 12, false, true),
            (1, 13, false, false),
            (1, 17, true, true),
            (1, 18, false, false),
            (3, 21, true, true),
            (3, 6, false, false),
            (3, 7, false, true),
            (255, 21, true, true),
            (255, 22, false, false),
            (0, 16, false, false),
        ] {
            assert_eq!(rt;
                (
                    TwoColour.may_lie(players, code),
                    Standard.may_lie(players, code),
                ),
                (two, standard)
            );
        }
        assert_eq!(rt;
            (
                TwoColour.may_repeat(2, 1),
                TwoColour.may_repeat(2, 16),
                Standard.may_repeat(1, 12),
            ),
            (true, false, false)
        );
        assert_eq!(rt;
            (
                TwoColour.read(0, 1),
                Standard.read(2, 1),
                Reversed.read(0, 1),
            ),
            (Reading::Zero, Reading::One, Reading::One)
        );
        assert_eq!(rt; TwoColour.read(1, 1), Reading::Neither);
    }

    #[test]
    fn rows(rt: HostRuntime) {
        let row = Row {
            cards: [1, 2, 15, 0, 0, 0, 0, 0, 0, 0, 0, 0],
        };
        for (n, number) in [
            (0u8, 0u64),
            (1, 1),
            (2, 0x12),
            (3, 0x12f),
            (12, 0x12f000000000),
            (13, 0x12f000000000),
        ] {
            assert_eq!(rt; row.pack(n), number);
        }
        assert_eq!(rt; Row::unpack(3, 0x12f).cards, row.cards);
        assert_eq!(rt;
            Row::unpack(2, 0x12f).cards,
            [2, 15, 0, 0, 0, 0, 0, 0, 0, 0, 0, 0]
        );
        assert_eq!(rt;
            Row::unpack(12, 0xfedcba987654).cards,
            [15, 14, 13, 12, 11, 10, 9, 8, 7, 6, 5, 4]
        );
        let lost = row.moved([1, 1, 12, 3, 4, 5, 6, 7, 8, 9, 10, 11]);
        assert_eq!(rt; lost.cards, [1, 2, 15, 0, 0, 0, 0, 0, 0, 0, 0, 0]);
    }

    #[test]
    fn counts_from(rt: HostRuntime) -> Result<(), Fail> {
        assert!(rt; Place::new(0).is_none() && Place::new(13).is_none() && Slot::new(12).is_none());
        for p in 1..13u8 {
            let place = Place::new(p).ok_or(p)?;
            assert_eq!(rt; place.slot().number(), p - 1);
            assert_eq!(rt; place.slot().place().number(), p);
        }
        assert_eq!(rt; worked_images(), (2, 3));
        Ok(())
    }
}
