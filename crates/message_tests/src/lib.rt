// Messages of the wire, good and damaged, with what reading must answer. The expected
// numbers and offsets were worked out by hand from the format.
#![tactic(auto)]

#[cfg(test)]
mod tests {
    use address::{Address, Label};
    use message::{Form, OptionPart, Options, Parts, Segmentation};
    use std::test::Fail;
    use writing::WriteRefusal;

    // Octets in hexadecimal, and the number and offset of the fault; 0 where they are a message.
    // Stays: the numbers are those of the cases as they were worked out.
    static CASES: [(&str, u8, usize); 48] = [
        // nothing at all
        ("-", 11, 0),
        // a label alone
        ("05400230", 11, 0),
        // 273 octets, and an unknown type as well
        (
            "05400230ffffffffffffffffffffffffffffffffffffffffffffffffffffffffffffffffffffffffffffffffffffffffffffffffffffffffffffffffffffffffffffffffffffffffffffffffffffffffffffffffffffffffffffffffffffffffffffffffffffffffffffffffffffffffffffffffffffffffffffffffffffffffffffffffffffffffffffffffffffffffffffffffffffffffffffffffffffffffffffffffffffffffffffffffffffffffffffffffffffffffffffffffffffffffffffffffffffffffffffffffffffffffffffffffffffffffffffffffffffffffffffffffffffffffffffffffffffffffffffffffffffffffffffffffffffffffffffffffffffffffffffffffffffffffff",
            11,
            0,
        ),
        // no such type
        ("0540023001", 12, 0),
        // no such type, though all else would do
        ("0540023010010f0406080002420802420601aa", 12, 0),
        // a UDT of four octets
        ("0540023009000305", 13, 0),
        // an XUDT without its last pointer, and a class of 2
        ("0540023011020f040608", 13, 0),
        // class 2
        ("05400230090203050702420802420601aa", 14, 1),
        // class 15, and a bad first pointer
        ("05400230098f00050702420802420601aa", 14, 1),
        // hop counter 0
        ("054002301101000406080002420802420601aa", 14, 2),
        // hop counter 16 in an XUDTS
        ("054002301201100406080002420802420601aa", 14, 2),
        // class 2 and hop counter 0: the class is first
        ("054002301102000406080002420802420601aa", 14, 1),
        // first pointer 0
        ("05400230090000050702420802420601aa", 15, 2),
        // first pointer into the pointers
        ("05400230090002050702420802420601aa", 15, 2),
        // first pointer to the end of the message
        ("0540023009000b050702420802420601aa", 15, 2),
        // second pointer into the called address, third too
        ("05400230090003040302420802420601aa", 15, 3),
        // third pointer past the message
        ("05400230090003050a02420802420601aa", 15, 4),
        // the called length runs over the message
        ("054002300900030507ff420802420601aa", 15, 3),
        // options pointer into the data, bad address as well
        ("0540023011010f0406080102430802420601aa", 15, 6),
        // options pointer to the end of the message
        ("0540023011010f0406080902420802420601aa", 15, 6),
        // called address with a code that is not there
        ("05400230090003050702430802420601aa", 16, 5),
        // called address empty
        ("054002300900030406010002420601aa", 16, 5),
        // called address with an octet too many
        ("0540023009000306080342080802420601aa", 16, 5),
        // calling address of one octet that is not empty
        ("054002300900030506024208014001aa", 16, 8),
        // both addresses bad: the called one is told
        ("054002300900030506024308014001aa", 16, 5),
        // a title of kind 4 without digits
        ("054002300900030709041000120402420601aa", 16, 5),
        // a title of kind 2 without digits
        ("05400230090003050702080002420601aa", 16, 5),
        // a title of 29 octets
        (
            "0540023009000321231e04111111111111111111111111111111111111111111111111111111111102420601aa",
            16,
            5,
        ),
        // empty calling address beside segmentation, and empty data
        ("0540023011010f0406070702420801000010048107000000", 16, 10),
        // data empty
        ("05400230090003050702420802420600", 17, 11),
        // data cut off
        ("05400230090003050702420802420603a1a2", 17, 11),
        // data empty, and options without an end
        ("0540023011010f04060808024208024206000501aa", 17, 13),
        // an option's length is lacking
        ("0540023011010f0406080902420802420601aa05", 18, 15),
        // an option runs over the message
        ("0540023011010f0406080902420802420601aa050201", 18, 15),
        // the end of the options is lacking
        ("0540023011010f0406080902420802420601aa050101", 18, 18),
        // segmentation of three octets, and the end lacking
        ("0540023011010f0406080902420802420601aa1003810700", 18, 15),
        // a second segmentation
        (
            "0540023011010f0406080902420802420601aa10048107000010040107000000",
            18,
            21,
        ),
        // empty calling address, and options that are wrong: no segmentation counts
        ("0540023011010f04060708024208010001aa100481070000", 18, 20),
        // a UDT to 8 from 6
        ("05400230090003050702420802420603a1a2a3", 0, 0),
        // class 1 with the return option and bits without a use
        ("0540023009f103050702420802420601aa", 0, 0),
        // a UDTS of any cause
        ("054002300aff03050702420802420601aa", 0, 0),
        // the first of two pieces
        (
            "0540023011010f0406080a02420802420602d1d210048107000000",
            0,
            0,
        ),
        // an XUDTS with an empty calling address
        ("0540023012010104060700024208018001aa", 0, 0),
        // an empty calling address beside options without segmentation
        ("0540023011010f04060708024208010001aa12010300", 0, 0),
        // options that are only the end mark
        ("0540023011010f0406080902420802420601aa00", 0, 0),
        // a gap before each part, and octets behind the last
        ("05400230090004070aee024208ee024206ee01aaeeee", 0, 0),
        // a called address of 32 octets: a title of 28
        (
            "05400230090003232520070500081111111111111111111111111111111111111111111111111111111102420601aa",
            0,
            0,
        ),
        // 272 octets in all
        (
            "054002300900030507024208024206ff5a5a5a5a5a5a5a5a5a5a5a5a5a5a5a5a5a5a5a5a5a5a5a5a5a5a5a5a5a5a5a5a5a5a5a5a5a5a5a5a5a5a5a5a5a5a5a5a5a5a5a5a5a5a5a5a5a5a5a5a5a5a5a5a5a5a5a5a5a5a5a5a5a5a5a5a5a5a5a5a5a5a5a5a5a5a5a5a5a5a5a5a5a5a5a5a5a5a5a5a5a5a5a5a5a5a5a5a5a5a5a5a5a5a5a5a5a5a5a5a5a5a5a5a5a5a5a5a5a5a5a5a5a5a5a5a5a5a5a5a5a5a5a5a5a5a5a5a5a5a5a5a5a5a5a5a5a5a5a5a5a5a5a5a5a5a5a5a5a5a5a5a5a5a5a5a5a5a5a5a5a5a5a5a5a5a5a5a5a5a5a5a5a5a5a5a5a5a5a5a5a5a5a5a5a5a5a5a5a5a5a5a5a5a5a5a5a5a5a5a5a5a5a5a5a5a5a5a5a5a5a5a5a5a5a5a5a5a5a5a5a5a5a5a5a5a5a5a5a5a5a5a5a5a5a00",
            0,
            0,
        ),
    ];

    // The number and the offset of what reading answers.
    fn answer(octets: &[u8]) -> (u8, usize) {
        message::read(octets)
            .err()
            .map_or((0, 0), |e| (e.fault.number(), e.offset))
    }

    #[test]
    fn every_case_is_answered_as_worked_out(rt: HostRuntime) -> Result<(), Fail> {
        for &(text, number, offset) in CASES.iter() {
            let octets = hexadecimal::octets_of(rt.alloc(), text)?;
            assert_eq!(rt; answer(octets.as_slice()), (number, offset), "{}", text);
        }
        Ok(())
    }

    #[test]
    fn a_unit_data_message_field_by_field(rt: HostRuntime) -> Result<(), Fail> {
        let octets = hexadecimal::octets_of(rt.alloc(), "05400230090003050702420802420603a1a2a3")?;
        let p = message::read(octets.as_slice())?.parts();
        assert_eq!(rt;
            p.label,
            Label {
                dpc: 5,
                opc: 9,
                sls: 3,
            }
        );
        assert_eq!(rt; p.form, Form::Udt { class: 0 });
        assert_eq!(rt; p.called.subsystem(), Some(8));
        assert_eq!(rt; p.calling.subsystem(), Some(6));
        assert!(rt; p.called.on_subsystem() && p.calling.on_subsystem());
        assert_eq!(rt; p.called.code(), None);
        assert!(rt; p.data == [0xa1, 0xa2, 0xa3].as_slice());
        assert!(rt; p.options.octets().is_empty());
        Ok(())
    }

    #[test]
    fn options_come_one_after_the_other(rt: HostRuntime) -> Result<(), Fail> {
        let octets = hexadecimal::octets_of(
            rt.alloc(),
            "0540023011010f0406080a02420802420602d1d212010310048107000000",
        )?;
        let p = message::read(octets.as_slice())?.parts();
        let piece = Segmentation {
            first: true,
            class: 0,
            remaining: 1,
            reference: 7,
        };
        assert_eq!(rt; p.form, Form::Xudt { class: 1, hop: 15 });
        assert_eq!(rt; p.options.segmentation(), Some(piece));
        let mut options = p.options;
        let OptionPart::Other { name, contents } = options.next_part() else {
            return Err(Fail::new("another name is first"));
        };
        assert!(rt; name == 0x12 && contents == [3].as_slice());
        let OptionPart::Segmented(second) = options.next_part() else {
            return Err(Fail::new("segmentation is second"));
        };
        assert_eq!(rt; second, piece);
        assert!(rt;
            matches!(options.next_part(), OptionPart::End),
            "the end is third"
        );
        Ok(())
    }

    // The digits of a title, as a number of which each decimal is a digit.
    fn digits_of(address: &[u8]) -> Option<u64> {
        let digits = Address::new(address).title()?.digits()?;
        let number = digits.octets().iter().fold(0u64, |n, d| {
            n.wrapping_mul(10).wrapping_add(u64::from(*d))
        });
        Some(number)
    }

    #[test]
    fn digits_of_both_kinds_of_title(rt: HostRuntime) {
        assert_eq!(rt; digits_of(&[0x12, 8, 0, 0x11, 4, 0x21, 0x43]), Some(123));
        assert_eq!(rt; digits_of(&[0x12, 8, 0, 0x12, 4, 0x21, 0x43]), Some(1234));
        assert_eq!(rt; digits_of(&[0x12, 8, 0, 0x13, 4, 0x21, 0x43]), None);
        assert_eq!(rt; digits_of(&[0x0a, 8, 0, 0x21, 0x43]), Some(1234));
        assert_eq!(rt; digits_of(&[0x42, 8]), None);
    }

    #[test]
    fn codes_and_subsystems(rt: HostRuntime) {
        let both = Address::new(&[0x43, 0x09, 0xc0, 8]);
        assert_eq!(rt; both.code(), Some(9));
        assert_eq!(rt; both.subsystem(), Some(8));
        assert!(rt; both.is_good() && !both.is_empty());
        let empty = Address::new(&[0x80]);
        assert!(rt; empty.is_empty() && !empty.is_good());
        assert!(rt; !Address::new(&[0x40]).is_empty());
    }

    // Octets that are read, and the octets that what was read is then written as.
    static REWRITTEN: [(&str, &str); 11] = [
        // without gaps: as they were
        (
            "05400230090003050702420802420603a1a2a3",
            "05400230090003050702420802420603a1a2a3",
        ),
        (
            "05400230098103050702420802420603a1a2a3",
            "05400230098103050702420802420603a1a2a3",
        ),
        (
            "054002300a0c030506024208010001d1",
            "054002300a0c030506024208010001d1",
        ),
        (
            "0540023011010f0406080002420802420603a1a2a3",
            "0540023011010f0406080002420802420603a1a2a3",
        ),
        (
            "0540023011010f0406080a02420802420602d1d210048107000000",
            "0540023011010f0406080a02420802420602d1d210048107000000",
        ),
        // options that are only the end mark
        (
            "054002301100010406080a02420802420602d1d200",
            "054002301100010406080a02420802420602d1d200",
        ),
        (
            "05400230120c050406080002420802420602d1d2",
            "05400230120c050406080002420802420602d1d2",
        ),
        (
            "0540023012050a0406080a02420802420602d1d21201ff00",
            "0540023012050a0406080a02420802420602d1d21201ff00",
        ),
        (
            "054002300900030c0e0953341208001204214302420601a1",
            "054002300900030c0e0953341208001204214302420601a1",
        ),
        // a gap behind the called address goes, and so does a tail
        (
            "054002300900030608024208ee02420601a1",
            "05400230090003050702420802420601a1",
        ),
        (
            "05400230090003050702420802420603a1a2a3ffff",
            "05400230090003050702420802420603a1a2a3",
        ),
    ];

    // Whether octets, which are read, are then written as wanted.
    fn is_rewritten(octets: &[u8], wanted: &[u8]) -> Result<bool, Fail> {
        let mut buffer = [0xeeu8; 300];
        let n = writing::write(message::read(octets)?.parts(), &mut buffer)?;
        Ok(buffer.get(..n).is_some_and(|part| part == wanted))
    }

    #[test]
    fn what_was_read_is_written_without_gaps(rt: HostRuntime) -> Result<(), Fail> {
        for &(given, wanted) in REWRITTEN.iter() {
            let octets = hexadecimal::octets_of(rt.alloc(), given)?;
            let wanted = hexadecimal::octets_of(rt.alloc(), wanted)?;
            assert!(rt;
                is_rewritten(octets.as_slice(), wanted.as_slice())?,
                "{}",
                given
            );
        }
        Ok(())
    }

    // What writing a message to 8 from 6 into so many octets answers, and whether the octets stayed.
    fn written<'x>(
        form: Form,
        data: &'x [u8],
        options: &'x [u8],
        room: usize,
    ) -> (Result<usize, WriteRefusal>, bool) {
        let mut buffer = [0xeeu8; 300];
        let called = Address::new(&[0x42, 8]);
        let calling = Address::new(&[0x42, 6]);
        let label = Label {
            dpc: 5,
            opc: 9,
            sls: 3,
        };
        let options = Options::new(options);
        let room = room.min(300);
        let answer = writing::write(
            Parts {
                label,
                form,
                called,
                calling,
                data,
                options,
            },
            &mut buffer[..room],
        );
        (answer, buffer == [0xeeu8; 300])
    }

    #[test]
    fn writing_is_refused_and_leaves_the_buffer(rt: HostRuntime) {
        let long = [0xddu8; 256];
        let form = Form::Xudt { class: 0, hop: 15 };
        assert_eq!(rt;
            written(form, &long[0..248], &[0], 300),
            (Err(WriteRefusal::PointerTooFar), true)
        );
        assert_eq!(rt;
            written(Form::Udt { class: 0 }, &long, &[], 300),
            (Err(WriteRefusal::TooLong), true)
        );
        assert_eq!(rt;
            written(form, &[1, 2, 3], &[], 20),
            (Err(WriteRefusal::ShortBuffer), true)
        );
        assert_eq!(rt; written(form, &[1, 2, 3], &[], 21), (Ok(21), false));
    }
}
