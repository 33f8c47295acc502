// Addresses, tables and networks, with where a message goes. The expected answers were worked
// out by hand from the rules.
#![tactic(auto)]

#[cfg(test)]
mod tests {
    use address::{Address, PointCode};
    use availability::{Exception, ExceptionList, StateMap};
    use prefix_list::{BenchPlan, EntryDestination, PrefixEntry, PrefixList};
    use std::test::Fail;
    use translation::Cause::{
        HopCounterViolation, NetworkCongestion, NoReassembly, NoTranslation, NoTranslationOfNature,
        SccpFailure, SubsystemFailure, TransferFailure, UnequippedUser, Unqualified,
    };
    use translation::Routing::{OnSubsystem, OnTitle};
    use translation::{
        Availability, Cause, CodeState, Routing, Selector, SubsystemState, Translation, Translator,
    };

    // Where a message goes: the code, how it is routed there, and the subsystem.
    type Way = (u16, Routing, Option<u8>);

    const NATIONAL: Selector = Selector {
        kind: 4,
        translation_type: 0,
        numbering_plan: 1,
        nature: 4,
    };

    const SHORT: Selector = Selector {
        kind: 2,
        translation_type: 9,
        numbering_plan: 0,
        nature: 0,
    };

    // Only entries with a value out of range have this one.
    const SPOILT: Selector = Selector {
        kind: 4,
        translation_type: 1,
        numbering_plan: 1,
        nature: 4,
    };

    const fn to(code: u16, subsystem: Option<u8>) -> EntryDestination {
        EntryDestination { code, subsystem }
    }

    fn entry(
        selector: Selector,
        prefix: &[u8],
        routing: Routing,
        primary: EntryDestination,
        backup: Option<EntryDestination>,
    ) -> PrefixEntry {
        let mut digits = [0u8; 16];
        let kept = prefix.len().min(digits.len());
        digits[..kept].copy_from_slice(&prefix[..kept]);
        let count = u8::try_from(prefix.len()).unwrap_or(u8::MAX);
        PrefixEntry {
            selector,
            count,
            digits,
            routing,
            primary,
            backup,
        }
    }

    // Overlapping prefixes, an empty one, two of equal length, both kinds of title, and one
    // entry for each way to be out of range.
    fn table() -> [PrefixEntry; 15] {
        [
            entry(NATIONAL, &[4, 9], OnTitle, to(7, None), None),
            entry(
                NATIONAL,
                &[4, 9, 8, 9],
                OnSubsystem,
                to(5, Some(8)),
                Some(to(6, None)),
            ),
            entry(NATIONAL, &[4, 9, 8, 9], OnSubsystem, to(3, Some(3)), None),
            entry(
                NATIONAL,
                &[4, 9, 8, 9, 1, 2],
                OnSubsystem,
                to(16_383, Some(20)),
                None,
            ),
            entry(NATIONAL, &[4, 9, 8], OnTitle, to(2, Some(0)), None),
            entry(NATIONAL, &[], OnTitle, to(11, Some(4)), None),
            entry(
                SHORT,
                &[1, 2],
                OnSubsystem,
                to(4, None),
                Some(to(9, Some(30))),
            ),
            entry(
                SPOILT,
                &[4, 9, 8, 9, 0, 0, 0, 0, 0, 0, 0, 0, 0, 0, 0, 0, 0],
                OnSubsystem,
                to(5, Some(8)),
                None,
            ),
            entry(SPOILT, &[4, 16], OnSubsystem, to(5, Some(8)), None),
            entry(SPOILT, &[4], OnSubsystem, to(16_384, Some(8)), None),
            entry(
                SPOILT,
                &[4],
                OnSubsystem,
                to(5, Some(8)),
                Some(to(16_384, None)),
            ),
            entry(
                Selector {
                    kind: 3,
                    ..NATIONAL
                },
                &[],
                OnSubsystem,
                to(5, Some(8)),
                None,
            ),
            entry(
                Selector {
                    numbering_plan: 16,
                    ..NATIONAL
                },
                &[],
                OnSubsystem,
                to(5, Some(8)),
                None,
            ),
            entry(
                Selector {
                    nature: 128,
                    ..NATIONAL
                },
                &[],
                OnSubsystem,
                to(5, Some(8)),
                None,
            ),
            entry(
                NATIONAL,
                &[4, 9, 8, 9, 1, 2, 255],
                OnSubsystem,
                to(5, Some(8)),
                None,
            ),
        ]
    }

    fn point_code(number: u16) -> Result<PointCode, Fail> {
        PointCode::new(number).ok_or_else(|| Fail::new("the number is a point code"))
    }

    fn way(translation: Translation) -> Way {
        let route = translation.route;
        (route.code.number(), route.routing, route.subsystem)
    }

    // The called address, and where a message with it goes with its new called address, or the
    // cause why it can not, at the own code 9 where all is up.
    static TITLES: [(&str, Result<(u16, Routing, Option<u8>, &str), Cause>); 26] = [
        // 4989: the earlier of two equally long
        (
            "12080012049498",
            Ok((5, OnSubsystem, Some(8), "52080012049498")),
        ),
        // 498912: the longest
        (
            "1208001204949821",
            Ok((16_383, OnSubsystem, Some(20), "5214001204949821")),
        ),
        // 49891, odd: the last half is no digit
        (
            "1208001104949821",
            Ok((5, OnSubsystem, Some(8), "5208001104949821")),
        ),
        // 498
        (
            "120800110494f8",
            Ok((2, OnTitle, Some(0), "120000110494f8")),
        ),
        // 4950: on title, with the address's subsystem
        (
            "12080012049405",
            Ok((7, OnTitle, Some(8), "12080012049405")),
        ),
        // 49 without a subsystem
        ("100012049400", Ok((7, OnTitle, None, "100012049400"))),
        // 5: the empty prefix
        (
            "12080011040f05",
            Ok((11, OnTitle, Some(4), "12040011040f05")),
        ),
        // 4989 without a subsystem: the rule's
        (
            "100012049498",
            Ok((5, OnSubsystem, Some(8), "52080012049498")),
        ),
        // with a code, which goes away
        (
            "133412080012049498",
            Ok((5, OnSubsystem, Some(8), "52080012049498")),
        ),
        // bits without a use stay
        (
            "92080012849498",
            Ok((5, OnSubsystem, Some(8), "d2080012849498")),
        ),
        // bit 7 as received is of no use
        (
            "52080012049405",
            Ok((7, OnTitle, Some(8), "12080012049405")),
        ),
        // kind 2: 1234
        ("0a0c092143", Ok((4, OnSubsystem, Some(12), "4a0c092143"))),
        // kind 2 without a subsystem: the primary fails, the backup is here
        ("08092143", Ok((9, OnSubsystem, Some(30), "4a1e092143"))),
        // kind 2 with subsystem 0
        ("0a00092143", Ok((9, OnSubsystem, Some(30), "4a1e092143"))),
        // kind 2: 3412 fits none
        ("0a0c094321", Err(NoTranslation)),
        // another translation type
        ("0a0c082143", Err(NoTranslationOfNature)),
        // another numbering plan
        ("12080022049498", Err(NoTranslationOfNature)),
        // another nature
        ("12080012039498", Err(NoTranslationOfNature)),
        // an encoding that is none
        ("12080013049498", Err(NoTranslation)),
        ("12080010049498", Err(NoTranslation)),
        // and an unknown selector before it
        ("12080023049498", Err(NoTranslationOfNature)),
        // known by entries out of range alone
        ("12080112049498", Err(NoTranslation)),
        // kinds 1 and 3 are only carried
        ("06082143", Err(NoTranslationOfNature)),
        ("0e0800122143", Err(NoTranslationOfNature)),
        // no title
        ("0208", Err(NoTranslationOfNature)),
        // no address: kind 4 without digits
        ("1208001204", Err(NoTranslationOfNature)),
    ];

    #[test]
    fn titles_where_all_is_up(rt: HostRuntime) -> Result<(), Fail> {
        let entries = table();
        let list = PrefixList::new(&entries);
        let network = ExceptionList::new(&[]);
        let own = point_code(9)?;
        for &(text, expected) in TITLES.iter() {
            let octets = hexadecimal::octets_of(rt.alloc(), text)?;
            let address = Address::new(octets.as_slice());
            let answer = translation::translate(&list, &network, own, address);
            match (answer, expected) {
                (Ok(translation), Ok((code, routing, subsystem, called))) => {
                    let called = hexadecimal::octets_of(rt.alloc(), called)?;
                    assert_eq!(rt; way(translation), (code, routing, subsystem), "{}", text);
                    assert_eq!(rt; translation.called.octets(), called.as_slice(), "{}", text);
                }
                (Err(cause), Err(expected)) => {
                    assert_eq!(rt; cause, expected, "{}", text);
                }
                _ => return Err(Fail::new(text)),
            }
        }
        Ok(())
    }

    // An entry whose number is no point code answers nothing.
    const IDLE: Exception = Exception::Code {
        code: 16_389,
        state: CodeState::TransferDown,
    };

    const FIVE_UP: Exception = Exception::Code {
        code: 5,
        state: CodeState::Up,
    };

    const FIVE_DOWN: Exception = Exception::Code {
        code: 5,
        state: CodeState::TransferDown,
    };

    const FIVE_SCCP: Exception = Exception::Code {
        code: 5,
        state: CodeState::SccpDown,
    };

    const SIX_DOWN: Exception = Exception::Code {
        code: 6,
        state: CodeState::TransferDown,
    };

    const SIX_SCCP: Exception = Exception::Code {
        code: 6,
        state: CodeState::SccpDown,
    };

    const SEVEN_DOWN: Exception = Exception::Code {
        code: 7,
        state: CodeState::TransferDown,
    };

    const SEVEN_SCCP: Exception = Exception::Code {
        code: 7,
        state: CodeState::SccpDown,
    };

    const EIGHT_WORKS: Exception = Exception::Subsystem {
        code: 5,
        subsystem: 8,
        state: SubsystemState::Working,
    };

    const EIGHT_FAILED: Exception = Exception::Subsystem {
        code: 5,
        subsystem: 8,
        state: SubsystemState::Failed,
    };

    const EIGHT_LACKS: Exception = Exception::Subsystem {
        code: 5,
        subsystem: 8,
        state: SubsystemState::Unequipped,
    };

    const NINE_FAILED: Exception = Exception::Subsystem {
        code: 5,
        subsystem: 9,
        state: SubsystemState::Failed,
    };

    const SIX_LACKS: Exception = Exception::Subsystem {
        code: 6,
        subsystem: 8,
        state: SubsystemState::Unequipped,
    };

    const SEVEN_FAILED: Exception = Exception::Subsystem {
        code: 7,
        subsystem: 8,
        state: SubsystemState::Failed,
    };

    const FOUR_FAILED: Exception = Exception::Subsystem {
        code: 4,
        subsystem: 12,
        state: SubsystemState::Failed,
    };

    const HERE_LACKS: Exception = Exception::Subsystem {
        code: 9,
        subsystem: 30,
        state: SubsystemState::Unequipped,
    };

    // 4989: to 5/8, else to 6 with the address's subsystem
    const TO_FIVE: &str = "12080012049498";

    // the same without a subsystem
    const TO_FIVE_BARE: &str = "100012049498";

    // 4950: on title to 7
    const TO_SEVEN: &str = "12080012049405";

    // 1234 of kind 2: to 4 with the address's subsystem, else to 9/30
    const TO_FOUR: &str = "0a0c092143";

    const TO_FOUR_BARE: &str = "08092143";

    // Exceptions, the own code, the called address; and where a message goes, or the cause why
    // it can not.
    static NETWORKS: [([Exception; 3], u16, &str, Result<Way, Cause>); 32] = [
        (
            [IDLE, IDLE, IDLE],
            9,
            TO_FIVE,
            Ok((5, OnSubsystem, Some(8))),
        ),
        // the primary fails in each way
        (
            [FIVE_DOWN, IDLE, IDLE],
            9,
            TO_FIVE,
            Ok((6, OnSubsystem, Some(8))),
        ),
        (
            [IDLE, FIVE_SCCP, IDLE],
            9,
            TO_FIVE,
            Ok((6, OnSubsystem, Some(8))),
        ),
        (
            [IDLE, IDLE, EIGHT_FAILED],
            9,
            TO_FIVE,
            Ok((6, OnSubsystem, Some(8))),
        ),
        (
            [EIGHT_LACKS, IDLE, IDLE],
            9,
            TO_FIVE,
            Ok((6, OnSubsystem, Some(8))),
        ),
        (
            [FIVE_DOWN, IDLE, IDLE],
            9,
            TO_FIVE_BARE,
            Err(TransferFailure),
        ),
        // both fail: the primary's cause
        (
            [FIVE_DOWN, SIX_SCCP, IDLE],
            9,
            TO_FIVE,
            Err(TransferFailure),
        ),
        ([FIVE_SCCP, SIX_DOWN, IDLE], 9, TO_FIVE, Err(SccpFailure)),
        (
            [EIGHT_FAILED, SIX_LACKS, IDLE],
            9,
            TO_FIVE,
            Err(SubsystemFailure),
        ),
        (
            [EIGHT_LACKS, SIX_DOWN, IDLE],
            9,
            TO_FIVE,
            Err(UnequippedUser),
        ),
        // the code is tried before the subsystem
        (
            [EIGHT_FAILED, FIVE_DOWN, SIX_DOWN],
            9,
            TO_FIVE,
            Err(TransferFailure),
        ),
        (
            [EIGHT_LACKS, FIVE_SCCP, SIX_DOWN],
            9,
            TO_FIVE,
            Err(SccpFailure),
        ),
        // the backup is of no use while the primary takes the message
        (
            [SIX_DOWN, SIX_LACKS, IDLE],
            9,
            TO_FIVE,
            Ok((5, OnSubsystem, Some(8))),
        ),
        // the first entry that answers holds
        (
            [FIVE_UP, FIVE_DOWN, IDLE],
            9,
            TO_FIVE,
            Ok((5, OnSubsystem, Some(8))),
        ),
        (
            [FIVE_DOWN, FIVE_UP, SIX_DOWN],
            9,
            TO_FIVE,
            Err(TransferFailure),
        ),
        (
            [FIVE_SCCP, FIVE_DOWN, SIX_DOWN],
            9,
            TO_FIVE,
            Err(SccpFailure),
        ),
        (
            [EIGHT_WORKS, EIGHT_FAILED, IDLE],
            9,
            TO_FIVE,
            Ok((5, OnSubsystem, Some(8))),
        ),
        (
            [EIGHT_FAILED, EIGHT_LACKS, SIX_DOWN],
            9,
            TO_FIVE,
            Err(SubsystemFailure),
        ),
        // another subsystem
        (
            [NINE_FAILED, IDLE, IDLE],
            9,
            TO_FIVE,
            Ok((5, OnSubsystem, Some(8))),
        ),
        // the own code is up, its subsystems are asked
        (
            [FIVE_DOWN, SIX_DOWN, IDLE],
            5,
            TO_FIVE,
            Ok((5, OnSubsystem, Some(8))),
        ),
        (
            [FIVE_SCCP, EIGHT_FAILED, SIX_DOWN],
            5,
            TO_FIVE,
            Err(SubsystemFailure),
        ),
        (
            [FIVE_DOWN, SIX_SCCP, IDLE],
            6,
            TO_FIVE,
            Ok((6, OnSubsystem, Some(8))),
        ),
        (
            [FIVE_DOWN, SIX_LACKS, IDLE],
            6,
            TO_FIVE,
            Err(TransferFailure),
        ),
        // on title
        ([SEVEN_DOWN, IDLE, IDLE], 9, TO_SEVEN, Err(TransferFailure)),
        ([SEVEN_SCCP, IDLE, IDLE], 9, TO_SEVEN, Err(SccpFailure)),
        (
            [SEVEN_FAILED, IDLE, IDLE],
            9,
            TO_SEVEN,
            Ok((7, OnTitle, Some(8))),
        ),
        ([IDLE, IDLE, IDLE], 7, TO_SEVEN, Err(NoTranslation)),
        ([SEVEN_DOWN, IDLE, IDLE], 7, TO_SEVEN, Err(NoTranslation)),
        // the backup's own subsystem
        (
            [FOUR_FAILED, IDLE, IDLE],
            9,
            TO_FOUR,
            Ok((9, OnSubsystem, Some(30))),
        ),
        (
            [FOUR_FAILED, HERE_LACKS, IDLE],
            9,
            TO_FOUR,
            Err(SubsystemFailure),
        ),
        (
            [HERE_LACKS, IDLE, IDLE],
            9,
            TO_FOUR,
            Ok((4, OnSubsystem, Some(12))),
        ),
        (
            [HERE_LACKS, IDLE, IDLE],
            9,
            TO_FOUR_BARE,
            Err(NoTranslation),
        ),
    ];

    // Where a message with this called address goes, or the cause why it can not.
    fn met<X: Translator, V: Availability>(
        translator: &X,
        network: &V,
        own: PointCode,
        octets: &[u8],
    ) -> Result<Way, Cause> {
        translation::translate(translator, network, own, Address::new(octets)).map(way)
    }

    #[test]
    fn trials_of_primary_and_backup(rt: HostRuntime) -> Result<(), Fail> {
        let entries = table();
        let list = PrefixList::new(&entries);
        for &(exceptions, own, text, expected) in NETWORKS.iter() {
            let octets = hexadecimal::octets_of(rt.alloc(), text)?;
            let network = ExceptionList::new(&exceptions);
            let answer = met(&list, &network, point_code(own)?, octets.as_slice());
            assert_eq!(rt; answer, expected, "{}", text);
        }
        Ok(())
    }

    // Called addresses, and what the plan of a test bench makes of them.
    static PLANNED: [(&str, Result<(u16, u8), Cause>); 12] = [
        // 00005008
        ("120800120400000580", Ok((5, 8))),
        // 16383255
        ("120800120461832355", Ok((16_383, 255))),
        // 16384000
        ("120800120461830400", Err(NoTranslation)),
        // 00005256
        ("120800120400002565", Err(NoTranslation)),
        // 00005000: a rule with subsystem 0, which none has
        ("120800120400000500", Err(NoTranslation)),
        // 0000500
        ("120800110400000580", Err(NoTranslation)),
        // 0000500800
        ("12080012040000058000", Err(NoTranslation)),
        // 000050a8
        ("12080012040000058a", Err(NoTranslation)),
        // 99999999
        ("120800120499999999", Err(NoTranslation)),
        // an encoding that is none
        ("120800140400000580", Err(NoTranslation)),
        // another nature, and kind 2
        ("120800120300000580", Err(NoTranslationOfNature)),
        ("0a080000000580", Err(NoTranslationOfNature)),
    ];

    #[test]
    fn plan_of_a_test_bench(rt: HostRuntime) -> Result<(), Fail> {
        let plan = BenchPlan { selector: NATIONAL };
        let network = ExceptionList::new(&[]);
        for &(text, expected) in PLANNED.iter() {
            let octets = hexadecimal::octets_of(rt.alloc(), text)?;
            let answer = met(&plan, &network, point_code(9)?, octets.as_slice());
            let expected = expected.map(|(code, subsystem)| (code, OnSubsystem, Some(subsystem)));
            assert_eq!(rt; answer, expected, "{}", text);
        }
        Ok(())
    }

    #[test]
    fn plan_with_kind_2_and_subsystem_0(rt: HostRuntime) -> Result<(), Fail> {
        let plan = BenchPlan { selector: SHORT };
        let Some(rule) = plan.rule(SHORT, &[0, 0, 0, 0, 7, 0, 0, 0]) else {
            return Err(Fail::new("there is a rule"));
        };
        assert_eq!(rt; rule.primary.code.number(), 7);
        assert_eq!(rt; rule.primary.subsystem, Some(0));
        assert!(rt; rule.backup.is_none());
        assert!(rt; plan.rule(NATIONAL, &[0, 0, 0, 0, 7, 0, 0, 0]).is_none());
        assert!(rt; plan.knows(SHORT) && !plan.knows(NATIONAL));
        Ok(())
    }

    // The state of a code; none where the number is no point code.
    fn state<V: Availability>(network: &V, code: u16) -> Option<CodeState> {
        PointCode::new(code).map(|code| network.code_state(code))
    }

    // Codes and their states in a map of the octets E4 and 01.
    static MAPPED: [(u16, CodeState); 11] = [
        (0, CodeState::Up),
        (1, CodeState::TransferDown),
        (2, CodeState::SccpDown),
        (3, CodeState::SccpDown),
        (4, CodeState::TransferDown),
        (5, CodeState::Up),
        (6, CodeState::Up),
        (7, CodeState::Up),
        (8, CodeState::TransferDown),
        (9, CodeState::TransferDown),
        (16_383, CodeState::TransferDown),
    ];

    #[test]
    fn states_of_a_map(rt: HostRuntime) {
        let map = StateMap::new(&[0xe4, 0x01]);
        for &(code, expected) in MAPPED.iter() {
            assert_eq!(rt; state(&map, code), Some(expected));
        }
        assert_eq!(rt;
            state(&StateMap::new(&[]), 0),
            Some(CodeState::TransferDown)
        );
    }

    #[test]
    fn subsystems_of_a_map_work(rt: HostRuntime) -> Result<(), Fail> {
        let entries = table();
        let list = PrefixList::new(&entries);
        let octets = hexadecimal::octets_of(rt.alloc(), TO_FIVE)?;
        let own = point_code(9)?;
        // 5 up, 6 transfer down
        let primary = met(&list, &StateMap::new(&[0, 0x10]), own, octets.as_slice());
        assert_eq!(rt; primary, Ok((5, OnSubsystem, Some(8))));
        // 5 SCCP down, 6 up
        let backup = met(&list, &StateMap::new(&[0, 0x08]), own, octets.as_slice());
        assert_eq!(rt; backup, Ok((6, OnSubsystem, Some(8))));
        // codes from 4 on are beyond
        let beyond = met(&list, &StateMap::new(&[0]), own, octets.as_slice());
        assert_eq!(rt; beyond, Err(TransferFailure));
        Ok(())
    }

    // How many digits the entry that decides has, where one fits.
    fn decides(list: &PrefixList, selector: Selector, digits: &[u8]) -> Option<u8> {
        list.entry_for(selector, digits).map(|entry| entry.count)
    }

    #[test]
    fn sixteen_digits_and_one_less(rt: HostRuntime) {
        let full = [1, 2, 3, 4, 5, 6, 7, 8, 9, 10, 11, 12, 13, 14, 15, 0];
        let entries = [
            entry(SHORT, &[1], OnTitle, to(1, None), None),
            entry(SHORT, &full, OnTitle, to(2, None), None),
        ];
        let list = PrefixList::new(&entries);
        assert_eq!(rt; decides(&list, SHORT, &full), Some(16));
        assert_eq!(rt;
            decides(
                &list,
                SHORT,
                &[1, 2, 3, 4, 5, 6, 7, 8, 9, 10, 11, 12, 13, 14, 15, 0, 7],
            ),
            Some(16)
        );
        assert_eq!(rt; decides(&list, SHORT, &full[0..15]), Some(1));
        assert_eq!(rt; decides(&list, SHORT, &[]), None);
        assert_eq!(rt; decides(&list, NATIONAL, &full), None);
    }

    #[test]
    fn selectors_that_are_known(rt: HostRuntime) {
        let entries = table();
        let list = PrefixList::new(&entries);
        assert!(rt; list.knows(NATIONAL) && list.knows(SHORT) && list.knows(SPOILT));
        assert!(rt;
            list.knows(Selector {
                kind: 3,
                ..NATIONAL
            })
        );
        assert!(rt;
            list.knows(Selector {
                nature: 128,
                ..NATIONAL
            })
        );
        assert!(rt;
            !list.knows(Selector {
                kind: 2,
                ..NATIONAL
            })
        );
        assert!(rt; !PrefixList::new(&[]).knows(NATIONAL));
        assert!(rt;
            list.rule(
                Selector {
                    kind: 3,
                    ..NATIONAL
                },
                &[4, 9],
            )
            .is_none()
        );
        assert!(rt; list.rule(SPOILT, &[4, 16]).is_none());
        assert_eq!(rt; decides(&list, NATIONAL, &[4, 9, 8, 9, 1, 2, 255]), Some(6));
    }

    // The causes, with their numbers and words.
    static CAUSES: [(Cause, u8, &str); 10] = [
        (
            NoTranslationOfNature,
            0,
            "no translation for an address of such nature",
        ),
        (NoTranslation, 1, "no translation for this specific address"),
        (SubsystemFailure, 3, "subsystem failure"),
        (UnequippedUser, 4, "unequipped user"),
        (TransferFailure, 5, "message transfer failure"),
        (NetworkCongestion, 6, "network congestion"),
        (Unqualified, 7, "unqualified"),
        (NoReassembly, 10, "destination cannot perform reassembly"),
        (SccpFailure, 11, "SCCP failure"),
        (HopCounterViolation, 12, "hop counter violation"),
    ];

    #[test]
    fn numbers_and_words_of_causes(rt: HostRuntime) -> Result<(), Fail> {
        for &(cause, number, words) in CAUSES.iter() {
            assert_eq!(rt; cause.number(), number);
            assert_eq!(rt; cause.to_string(rt.alloc())?.as_str(), words);
        }
        Ok(())
    }
}
