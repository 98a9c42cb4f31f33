// The tests.
#[cfg(test)]
mod lent {
    use super::super::Raised;
    use cards::deck::{Standard, TwoColour};
    use certifier::certified::CertifiedScript;
    use certifier::certifying::certify;
    use certifier::making::into_certified;
    use rows::row::Row;
    use script::fault::Refusal;
    use sheet::states::{CheckedScript, Sheet};
    use shuffles::bank::Everywhere;
    use shuffles::explicit::Explicit;
    use std::alloc::Global;
    use std::test::Fail;
    use table::commitment::commit;
    use table::fault::TableFault;
    use table::phase::Phase;
    use table::table::Table;

    // exclusive or with four cards
    const XOR: [u8; 41] = [
        6, 0x01, 0x00, 0x04, 0x02, 0x06, 0x00, 5, 0x02, 0x10, 0x11, 0x12, 0x13, 7, 0x11, 0x02,
        0x02, 0x01, 0x03, 0x02, 0x04, 11, 0x20, 0x02, 0x01, 0x02, 0x02, 0x00, 0x01, 0x04, 0x01,
        0x00, 0x05, 3, 0x30, 0x03, 0x04, 3, 0x30, 0x04, 0x03,
    ];

    fn checked(heap: Global) -> Result<CheckedScript, Fail> {
        let sheet = Sheet::new(XOR.to_vec(heap)?);
        match sheet.check() {
            Ok(()) => Ok(sheet.into_checked()),
            Err(_) => Err(Fail::new("the sheet is refused")),
        }
    }

    // the sheet certified with the two-colour deck and its own shuffles, and a second script as their bank
    fn opened(heap: Global) -> Result<(Table, CheckedScript), Fail> {
        let script = checked(heap)?;
        let bank = script.copied(heap)?;
        let mut bench = [Row::zero(); 10];
        let Ok(certificate) = certify(&script, &TwoColour, &bank, &mut bench) else {
            return Err(Fail::new("the tree is not built"));
        };
        if !certificate.is_faultless() {
            return Err(Fail::new("the script is not certified"));
        }
        Ok((
            Table::open(into_certified(script, &TwoColour, &bank, &certificate)),
            bank,
        ))
    }

    // the number of the refusal, none where the call is granted
    fn refused<T: Drop>(answer: Result<T, TableFault>) -> Option<u8> {
        answer.err().map(|fault| fault.number())
    }

    #[test]
    fn cards_of_another_deck(rt: HostRuntime) -> Result<(), Fail> {
        let (mut table, bank) = opened(rt.alloc())?;
        let mut page = [9u8; 4];
        assert_eq!(rt; refused(table.lay(&Standard, commit(0))), None);
        assert_eq!(rt; refused(table.step(&bank, 1)), None);
        assert_eq!(rt; refused(table.turn(&mut page)), Some(31));
        assert_eq!(rt; page, [9, 9, 9, 9]);
        assert_eq!(rt; table.whereabouts().line, 3);
        assert_eq!(rt; table.whereabouts().written, 0);
        Ok(())
    }

    #[test]
    fn a_pair_of_another_deck(rt: HostRuntime) -> Result<(), Fail> {
        let (mut table, bank) = opened(rt.alloc())?;
        let mut page = [9u8; 4];
        assert_eq!(rt; refused(table.lay(&TwoColour, commit(1))), None);
        assert_eq!(rt; refused(table.step(&bank, 1)), None);
        assert_eq!(rt; refused(table.turn(&mut page)), None);
        assert_eq!(rt; page, [0, 1, 9, 9]);
        assert_eq!(rt; refused(table.finish(&Raised)), Some(31));
        assert_eq!(rt; table.whereabouts().phase, Phase::Running);
        assert_eq!(rt; refused(table.finish(&TwoColour)), None);
        assert_eq!(rt; table.whereabouts().phase, Phase::Ended);
        Ok(())
    }

    #[test]
    fn a_bank_that_leads_nowhere(rt: HostRuntime) -> Result<(), Fail> {
        let (mut table, _bank) = opened(rt.alloc())?;
        let mut page = [9u8; 2];
        // draw 1 swaps the places 2 and 3: two clubs at the places that are turned
        let entries = [1u8, 0, 1, 2, 3, 1, 0, 2, 1, 3].to_vec(rt.alloc())?;
        let other = Everywhere {
            shuffle: Explicit { slots: 4, entries },
        };
        assert_eq!(rt; refused(table.lay(&TwoColour, commit(0))), None);
        assert_eq!(rt; refused(table.step(&other, 1)), None);
        assert_eq!(rt; refused(table.turn(&mut page)), Some(31));
        assert_eq!(rt; page, [9, 9]);
        Ok(())
    }

    #[test]
    fn a_bank_that_does_not_fit(rt: HostRuntime) -> Result<(), Fail> {
        let (mut table, _bank) = opened(rt.alloc())?;
        let mut page = [9u8; 2];
        // three draws in the place of two: nothing moves, and the line keeps its own total
        let entries = [3u8, 1, 0, 2, 3].to_vec(rt.alloc())?;
        let other = Everywhere {
            shuffle: Explicit { slots: 4, entries },
        };
        assert_eq!(rt; refused(table.lay(&TwoColour, commit(2))), None);
        assert_eq!(rt; refused(table.step(&other, 2)), Some(29));
        assert_eq!(rt; refused(table.step(&other, 1)), None);
        assert_eq!(rt; refused(table.turn(&mut page)), None);
        assert_eq!(rt; page, [0, 1]);
        Ok(())
    }
}
