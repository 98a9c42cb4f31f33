// The tables.
ghost use Rattle.std.specs.Prelude.{◌≡◌};

#[cfg(test)]
mod edges {
    use super::super::{permuted, shuffled, totalled};
    use cards::deck::TwoColour;
    use cards::place::Place;
    use cards::reading::Reading;
    use heads::head::{DeckKind, Head, Output};
    use rows::guard::Guard;
    use rows::marks;
    use rows::node::{first_wrong, leaks};
    use rows::outcome::Outcome;
    use rows::row::Row;
    use rows::start::start;
    use rows::state::State;
    use rows::turn::Turned;
    use shuffles::bank::Everywhere;
    use shuffles::cut::Cut;
    use std::process::Abort;
    use std::test::Fail;

    const STAY: [u8; 12] = [0, 1, 2, 3, 4, 5, 6, 7, 8, 9, 10, 11];

    // a row that marks what was not written
    fn blank() -> Row {
        Row {
            sequence: 777,
            weights: [7; 8],
        }
    }

    fn row(sequence: u64, input: u8, weight: u64) -> Row {
        let mut weights = [0u64; 8];
        if input < 8 {
            weights[usize::from(input)] = weight;
        }
        Row { sequence, weights }
    }

    // two players with four cards of two colours
    fn head(function: u8, output: Output) -> Head
        ensures players { result.players ≡ 2 }
        ensures cards { result.cards ≡ 4 }
    {
        Head {
            deck: DeckKind::TwoColour,
            cards: 4,
            players: 2,
            function,
            output,
        }
    }

    // the rows written are these sequences with these weights under input 0, and the row after them stands
    fn written(
        rt: &impl Abort,
        what: &str,
        got: Option<usize>,
        room: &[Row],
        wanted: &[(u64, u64)],
    ) {
        assert_eq!(rt; got, Some(wanted.len()), "{what}");
        assert!(rt; wanted.len() <= room.len(), "{what}");
        for (row, (sequence, weight)) in room.iter().zip(wanted.iter()) {
            assert_eq!(rt; row.sequence, *sequence, "{what}");
            assert_eq!(rt; row.weights[0], *weight, "{what}");
        }
        for row in room.iter().skip(wanted.len()) {
            assert_eq!(rt; row.sequence, 777, "{what}");
        }
    }

    // rows with these sequences, each of weight 1, joined one by one to an empty run
    fn join_all(given: &[u64], room: &mut [Row]) -> Option<usize> {
        let mut rows = [row(0, 0, 1); 8];
        for (at, sequence) in rows.iter_mut().zip(given.iter()) {
            at.sequence = *sequence;
        }
        permuted(12, STAY, &rows[0..given.len().min(8)], room)
    }

    fn joined_in(
        rt: &impl Abort,
        what: &str,
        given: &[u64],
        room: &mut [Row],
        wanted: Option<&[(u64, u64)]>,
    ) {
        let got = join_all(given, room);
        match wanted {
            Some(wanted) => written(rt, what, got, room, wanted),
            None => assert!(rt; got.is_none(), "{what}"),
        }
    }

    fn joined(
        rt: &impl Abort,
        what: &str,
        given: &[u64],
        places: usize,
        wanted: Option<&[(u64, u64)]>,
    ) {
        let mut room = [blank(); 8];
        assert!(rt; places <= 8, "{what}");
        joined_in(rt, what, given, &mut room[0..places], wanted)
    }

    #[test]
    fn joins(rt: HostRuntime) {
        joined(&rt, "nothing, no room", &[], 0, Some(&[]));
        joined(&rt, "nothing", &[], 3, Some(&[]));
        joined(&rt, "no room", &[5], 0, None);
        joined(&rt, "into an empty run", &[5], 1, Some(&[(5, 1)]));
        joined(&rt, "first", &[5, 3], 3, Some(&[(3, 1), (5, 1)]));
        joined(
            &rt,
            "in the middle",
            &[5, 9, 7],
            3,
            Some(&[(5, 1), (7, 1), (9, 1)]),
        );
        joined(&rt, "last", &[5, 7, 9], 4, Some(&[(5, 1), (7, 1), (9, 1)]));
        joined(
            &rt,
            "equal, first",
            &[1, 2, 3, 1],
            3,
            Some(&[(1, 2), (2, 1), (3, 1)]),
        );
        joined(
            &rt,
            "equal, in the middle",
            &[1, 2, 3, 2],
            3,
            Some(&[(1, 1), (2, 2), (3, 1)]),
        );
        joined(
            &rt,
            "equal, last",
            &[1, 2, 3, 3],
            3,
            Some(&[(1, 1), (2, 1), (3, 2)]),
        );
        joined(&rt, "one short, first", &[3, 2, 1, 0], 3, None);
        joined(&rt, "one short, last", &[0, 1, 2, 3], 3, None);
        joined(
            &rt,
            "just enough",
            &[0, 1, 2, 3],
            4,
            Some(&[(0, 1), (1, 1), (2, 1), (3, 1)]),
        );
        joined(
            &rt,
            "all equal",
            &[8, 8, 8, 8, 8, 8, 8, 8],
            1,
            Some(&[(8, 8)]),
        );
    }

    #[test]
    fn permutes(rt: HostRuntime) {
        let rows = [row(0x012, 0, 3), row(0x120, 0, 4)];
        let mut room = [blank(); 3];
        let got = permuted(3, [1, 2, 0, 3, 4, 5, 6, 7, 8, 9, 10, 11], &rows, &mut room);
        written(&rt, "a permute", got, &room, &[(0x012, 4), (0x201, 3)]);
    }

    #[test]
    fn shuffles(rt: HostRuntime) {
        let bank = Everywhere {
            shuffle: Cut { slots: 3 },
        };
        let rows = [row(0x001, 0, 2), row(0x010, 0, 5)];
        let mut room = [blank(); 4];
        let got = shuffled(&bank, 3, 3, &rows, &mut room);
        written(
            &rt,
            "a cut",
            got,
            &room,
            &[(0x001, 7), (0x010, 7), (0x100, 7)],
        );
        let mut room = [blank(); 3];
        assert_eq!(rt;
            shuffled(&bank, 3, 3, &rows, &mut room),
            Some(3),
            "just enough"
        );
        let mut room = [blank(); 2];
        assert!(rt;
            shuffled(&bank, 3, 3, &rows, &mut room).is_none(),
            "one short"
        );
        let mut room = [blank(); 3];
        let got = shuffled(&bank, 4, 3, &rows, &mut room);
        written(&rt, "another width", got, &room, &[(0x001, 6), (0x010, 15)]);
        let mut room = [blank(); 3];
        let got = shuffled(&bank, 3, 5, &rows, &mut room);
        written(
            &rt,
            "another total",
            got,
            &room,
            &[(0x001, 10), (0x010, 25)],
        );
    }

    // the exclusive or: two players lay their bits as pairs of cards
    const CODES: [u8; 4] = [16, 17, 18, 19];

    #[test]
    fn starts(rt: HostRuntime) {
        let mut room = [blank(); 5];
        let got = start(&TwoColour, 2, &CODES, &mut room);
        written(
            &rt,
            "a layout",
            got,
            &room,
            &[(0x0101, 1), (0x0110, 0), (0x1001, 0), (0x1010, 0)],
        );
        assert_eq!(rt; room[0].weights, [1, 0, 0, 0, 0, 0, 0, 0]);
        assert_eq!(rt; room[1].weights, [0, 0, 1, 0, 0, 0, 0, 0]);
        assert_eq!(rt; room[2].weights, [0, 1, 0, 0, 0, 0, 0, 0]);
        assert_eq!(rt; room[3].weights, [0, 0, 0, 1, 0, 0, 0, 0]);
        let mut room = [blank(); 3];
        assert!(rt;
            start(&TwoColour, 2, &CODES, &mut room).is_none(),
            "one short"
        );
        let mut room = [blank(); 2];
        assert_eq!(rt;
            start(&TwoColour, 1, &[16, 17], &mut room),
            Some(2),
            "just enough"
        );
    }

    #[test]
    fn turns(rt: HostRuntime) -> Result<(), Fail> {
        let rows = [
            row(0x0101, 0, 1),
            row(0x0110, 0, 2),
            row(0x1001, 0, 3),
            row(0x1010, 0, 4),
        ];
        let turned = Turned {
            state: State {
                cards: 4,
                rows: &rows,
            },
            places: &[1, 2],
        };
        let first = turned.next_marks(None).ok_or("no first child")?;
        assert_eq!(rt; first, [0, 1, 0, 0, 0, 0, 0, 0, 0, 0, 0, 0]);
        let mut room = [blank(); 3];
        let got = turned.gather(first, &mut room);
        written(
            &rt,
            "the first child",
            got,
            &room,
            &[(0x0101, 1), (0x0110, 2)],
        );
        let second = turned.next_marks(Some(first)).ok_or("no second child")?;
        assert_eq!(rt; second, [1, 0, 0, 0, 0, 0, 0, 0, 0, 0, 0, 0]);
        let mut room = [blank(); 2];
        let got = turned.gather(second, &mut room);
        written(
            &rt,
            "the second child",
            got,
            &room,
            &[(0x1001, 3), (0x1010, 4)],
        );
        assert!(rt; turned.next_marks(Some(second)).is_none());
        let mut room = [blank(); 1];
        assert!(rt; turned.gather(second, &mut room).is_none(), "one short");
        assert!(rt;
            Turned {
                state: State {
                    cards: 4,
                    rows: &rows[0..0],
                },
                places: &[1, 2],
            }
            .next_marks(None)
            .is_none(),
            "no row"
        );
        Ok(())
    }

    #[test]
    fn marks_in_order(rt: HostRuntime) {
        assert!(rt; marks::before(&[], &[0]));
        assert!(rt; !marks::before(&[0], &[]));
        assert!(rt; !marks::before(&[1, 2], &[1, 2]));
        assert!(rt; marks::before(&[1, 2], &[1, 3]));
        assert!(rt; !marks::before(&[2, 0], &[1, 9]));
        assert!(rt; [1u8, 2][..] == [1u8, 2][..]);
        assert!(rt; [1u8, 2][..] != [1u8, 3][..]);
        assert!(rt; [1u8, 2][..] != [1u8][..]);
    }

    #[test]
    fn totals_leak(rt: HostRuntime) -> Result<(), Fail> {
        let even = [
            row(0x0101, 0, 2),
            row(0x0110, 1, 2),
            row(0x1001, 2, 2),
            row(0x1010, 3, 2),
        ];
        let uneven = [
            row(0x0101, 0, 2),
            row(0x0110, 1, 1),
            row(0x1001, 2, 1),
            row(0x1010, 3, 2),
        ];
        let even = totalled(&even).ok_or("too many")?;
        let uneven = totalled(&uneven).ok_or("too many")?;
        assert_eq!(rt; even, [2, 2, 2, 2, 0, 0, 0, 0]);
        assert_eq!(rt; uneven, [2, 1, 1, 2, 0, 0, 0, 0]);
        assert!(rt;
            !leaks(&head(6, Output::Committed), &even),
            "even, committed"
        );
        assert!(rt;
            leaks(&head(6, Output::Committed), &uneven),
            "uneven, committed"
        );
        assert!(rt;
            !leaks(&head(6, Output::Open), &uneven),
            "uneven as the values, open"
        );
        assert!(rt; leaks(&head(8, Output::Open), &uneven), "uneven, open");
        Ok(())
    }

    #[test]
    fn wrong_rows(rt: HostRuntime) -> Result<(), Fail> {
        let rows = [
            row(0x0101, 0, 1),
            row(0x0110, 1, 0),
            row(0x0110, 2, 1),
            row(0x0111, 1, 1),
        ];
        let third = Outcome::Committed {
            left: Place::at(3),
            right: Place::at(4),
        };
        assert!(rt;
            first_wrong(&TwoColour, &head(6, Output::Committed), third, &rows[0..3]).is_none(),
            "right"
        );
        let wrong = first_wrong(&TwoColour, &head(6, Output::Committed), third, &rows).ok_or(
            "none is wrong",
        )?;
        assert_eq!(rt; wrong.row.sequence, 0x0111);
        assert_eq!(rt; wrong.input, 1);
        assert_eq!(rt; wrong.reading, Reading::Neither);
        let open = Outcome::Opened { value: 1 };
        let wrong = first_wrong(&TwoColour, &head(6, Output::Open), open, &rows).ok_or(
            "none is wrong",
        )?;
        assert_eq!(rt; wrong.row.sequence, 0x0101);
        assert_eq!(rt; wrong.input, 0);
        assert_eq!(rt; wrong.reading, Reading::One);
        Ok(())
    }

    // a bench above 65,535 rows is zeroed whole
    #[test]
    fn guards(rt: HostRuntime) -> Result<(), Fail> {
        let mut bench = vec![in rt.alloc(); blank(); 65_540]?;
        {
            let guard = Guard { rows: &mut bench };
            assert!(rt; guard.rows.len() == 65_540);
        }
        for row in &bench {
            assert_eq!(rt; row.sequence, 0);
            assert_eq!(rt; row.weights, [0; 8]);
        }
        assert_eq!(rt; bench.len(), 65_540);
        Ok(())
    }
}
