//! Traces and what is read of them. The verdicts are worked out by hand from the grammar and the order of the faults.
#![tactic(auto)]

#[cfg(test)]
mod tests {
    use links::server::Server;
    use std::alloc::Global;
    use std::process::Abort;
    use std::test::Fail;
    use text::kind::Kind;
    use text::line::Event;
    use trace::error::ReadError;
    use trace::reader::read;
    use trace::trace::Trace;

    // The fault of a text as it is written, or its numbers of classes and events.
    fn verdict(heap: Global, text: &[u8]) -> Result<String, Fail> {
        match read(heap, text) {
            Ok(
                Trace {
                    kind: _,
                    draft,
                    link: _,
                    events,
                },
            ) => {
                let classes = draft.into_parts().1.len();
                let events = events.len();
                Ok(format!(in heap; "{classes} {events}")?)
            }
            Err(ReadError::Fault(fault)) => Ok(format!(in heap; "{fault}")?),
            Err(ReadError::NoMemory(error)) => Err(Fail::from(error)),
        }
    }

    // Adds the lines, which are written with `/` for each line end.
    fn write(text: &mut Vec<u8>, lines: &str) -> Result<(), Fail> {
        for byte in lines.bytes() {
            text.push(if byte == b'/' { b'\n' } else { byte })?;
        }
        Ok(())
    }

    // The verdict on two pieces of text, one after the other.
    fn judge(
        rt: &impl Abort,
        heap: Global,
        first: &str,
        lines: &str,
        expected: &str,
    ) -> Result<(), Fail> {
        let mut text = Vec::new(heap);
        write(&mut text, first)?;
        write(&mut text, lines)?;
        let got = verdict(heap, text.as_slice())?;
        assert_eq!(rt; got.as_str(), expected, "{}", lines);
        Ok(())
    }

    fn judge_each(rt: &impl Abort, heap: Global, cases: &[(&str, &str)]) -> Result<(), Fail> {
        for (lines, expected) in cases {
            judge(rt, heap, "", lines, expected)?;
        }
        Ok(())
    }

    fn judge_all(
        rt: &impl Abort,
        heap: Global,
        first: &str,
        all: &[&str],
        expected: &str,
    ) -> Result<(), Fail> {
        for lines in all {
            judge(rt, heap, first, lines, expected)?;
        }
        Ok(())
    }

    #[test]
    fn right_traces(rt: HostRuntime) -> Result<(), Fail> {
        let cases = [
            ("sfq1 quantum/l 1/", "1 0"),
            ("sfq1 block/l 65535/d/p/e/g/", "1 4"),
            (
                "sfq1 block/c a root 1/c b a 16/l 8/a b 0/a nobody1234 4294967295/",
                "3 2",
            ),
            ("sfq1 block/l 8/o 0 4294967295/d/", "1 1"),
            ("sfq1 block/l 8/o 0 2/o 2 1/o 4294967294 1/", "1 0"),
        ];
        judge_each(&rt, rt.alloc(), &cases)
    }

    #[test]
    fn first_lines(rt: HostRuntime) -> Result<(), Fail> {
        let all = [
            "",
            "/",
            "sfq1 quantum",
            "sfq1 quanta/l 8/",
            "sfq1  block/l 8/",
            "sfq1 block /l 8/",
            "sfq2 block/l 8/",
            "l 8/sfq1 block/",
        ];
        judge_all(&rt, rt.alloc(), "", &all, "! text 1 0 20")
    }

    #[test]
    fn wrong_forms(rt: HostRuntime) -> Result<(), Fail> {
        let all = [
            "/d/",
            "d",
            "d 1/",
            "d /",
            " d/",
            "D/",
            "add x 1/",
            "x/",
            "dd/",
            "a film/",
            "a film 1 1/",
            "a  film 1/",
            "a film 01/",
            "a film 4294967296/",
            "a film -1/",
            "a film +1/",
            "a film x/",
            "a film-1 1/",
            "a abcdefghijk 1/",
            "c a root/",
            "c a root 00/",
            "l/",
            "l 08/",
            "o 1/",
            "o 1 2 3/",
        ];
        judge_all(&rt, rt.alloc(), "sfq1 block/l 8/", &all, "! text 3 0 21")?;
        judge_all(
            &rt,
            rt.alloc(),
            "sfq1 block/l 8/d/p/",
            &["e/q/"],
            "! text 6 0 21",
        )
    }

    #[test]
    fn other_bytes(rt: HostRuntime) -> Result<(), Fail> {
        for byte in [0, 11, 13, b'A', b'{', 127, 128, 195, 255] {
            let mut text = Vec::new(rt.alloc());
            write(&mut text, "sfq1 block/l 8/d/a fi")?;
            text.push(byte)?;
            write(&mut text, "m 1/")?;
            let got = verdict(rt.alloc(), text.as_slice())?;
            assert_eq!(rt; got.as_str(), "! text 4 0 21");
        }
        Ok(())
    }

    #[test]
    fn parts(rt: HostRuntime) -> Result<(), Fail> {
        let cases = [
            ("sfq1 block/", "! text 1 0 22"),
            ("sfq1 block/c a root 1/c b root 1/", "! text 3 0 22"),
            ("sfq1 block/o 1 1/d/", "! text 3 0 22"),
            ("sfq1 block/l 8/c a root 1/", "! text 3 0 22"),
            ("sfq1 block/l 8/l 8/", "! text 3 0 22"),
            ("sfq1 block/l 8/o 1 1/d/o 5 1/d/", "! text 5 0 22"),
            ("sfq1 block/o 1 1/l 8/", "! text 3 0 22"),
            ("sfq1 block/d/l 8/", "! text 3 0 22"),
            ("sfq1 block/o 1 1/c a root 1/l 8/", "! text 3 0 22"),
        ];
        judge_each(&rt, rt.alloc(), &cases)
    }

    #[test]
    fn trees_and_links(rt: HostRuntime) -> Result<(), Fail> {
        let cases = [
            ("sfq1 block/c a b 1/", "! tree 2 3 12"),
            ("sfq1 block/c a a 1/", "! tree 2 3 12"),
            ("sfq1 block/c a abcdefghi 1/", "! tree 2 3 12"),
            ("sfq1 block/c a root 1/c b root 0/", "! tree 3 4 13"),
            ("sfq1 block/c a root 17/", "! tree 2 4 13"),
            ("sfq1 block/c abcdefghi root 1/", "! tree 2 2 14"),
            ("sfq1 block/c abcdefghij root 1/", "! tree 2 2 14"),
            ("sfq1 block/c root root 1/", "! tree 2 2 15"),
            ("sfq1 block/c a root 1/c a a 1/", "! tree 3 2 15"),
            (
                "sfq1 block/c a root 1/c b a 1/c c b 1/c d c 1/c e d 1/c f e 1/c g f 1/c h g 1/",
                "! tree 9 3 16",
            ),
            ("sfq1 block/l 8/o 5 0/", "! link 3 0 17"),
            ("sfq1 block/l 8/o 4294967295 1/", "! link 3 0 17"),
            ("sfq1 block/l 8/o 0 2/o 1 1/", "! link 4 0 17"),
            ("sfq1 block/l 0/", "! link 2 2 18"),
            ("sfq1 block/l 65536/", "! link 2 2 18"),
        ];
        judge_each(&rt, rt.alloc(), &cases)
    }

    #[test]
    fn first_of_several(rt: HostRuntime) -> Result<(), Fail> {
        let cases = [
            ("sfq2 block/x/", "! text 1 0 20"),
            ("sfq1 block/l 8/l 08/", "! text 3 0 21"),
            ("sfq1 block/l 8/c root nobody 0/", "! text 3 0 22"),
            ("sfq1 block/l 8/l 0/", "! text 3 0 22"),
            ("sfq1 block/l 8/d/o 1 0/", "! text 4 0 22"),
            ("sfq1 block/c abcdefghi nobody 0/", "! tree 2 2 14"),
            ("sfq1 block/c root nobody 0/", "! tree 2 2 15"),
            ("sfq1 block/c a nobody 0/", "! tree 2 3 12"),
            (
                "sfq1 block/c a root 1/c b a 1/c c b 1/c d c 1/c e d 1/c f e 1/c g f 1/c h g 0/",
                "! tree 9 3 16",
            ),
            ("sfq1 block/c a root 0/x/", "! tree 2 4 13"),
            ("sfq1 block/l 0/l 8/", "! link 2 2 18"),
            ("sfq1 block/o 1 1/o 0 1/", "! link 3 0 17"),
            ("sfq1 block/d/o 1 1/", "! text 3 0 22"),
        ];
        judge_each(&rt, rt.alloc(), &cases)
    }

    #[test]
    fn sizes(rt: HostRuntime) -> Result<(), Fail> {
        for (lines, dispatches, expected) in [
            ("sfq1 quantum/l 8/", 16375, "1 16375"),
            ("sfq1 quantum/l 10/", 16375, "1 16375"),
            ("sfq1 quantum/l 8/", 16376, "! text 0 0 19"),
            ("sfq2 quantum/l 8/", 16376, "! text 0 0 19"),
        ] {
            let mut text = Vec::new(rt.alloc());
            write(&mut text, lines)?;
            for _ in 0..dispatches {
                write(&mut text, "d/")?;
            }
            let got = verdict(rt.alloc(), text.as_slice())?;
            assert_eq!(rt; got.as_str(), expected);
        }
        Ok(())
    }

    // A first line and so many lines `c NUMBER root 1`, or a rate before so many lines `o NUMBER 1`.
    fn many(
        rt: &impl Abort,
        heap: Global,
        classes: u32,
        outages: u32,
        last: &str,
        expected: &str,
    ) -> Result<(), Fail> {
        let mut text = Vec::new(heap);
        write(&mut text, "sfq1 block/")?;
        for number in 0..classes {
            write(&mut text, format!(in heap; "c {number} root 1/")?.as_str())?;
        }
        write(&mut text, "l 8/")?;
        for number in 0..outages {
            write(&mut text, format!(in heap; "o {number} 1/")?.as_str())?;
        }
        write(&mut text, last)?;
        let got = verdict(heap, text.as_slice())?;
        assert_eq!(rt; got.as_str(), expected);
        Ok(())
    }

    #[test]
    fn most_classes_and_outages(rt: HostRuntime) -> Result<(), Fail> {
        for (classes, outages, last, expected) in [
            (63, 16, "d/", "64 1"),
            (64, 0, "", "! tree 65 0 11"),
            (0, 17, "", "! link 19 0 17"),
            (63, 16, "o 99 1/", "! link 82 0 17"),
        ] {
            many(&rt, rt.alloc(), classes, outages, last, expected)?;
        }
        Ok(())
    }

    #[test]
    fn what_is_read(rt: HostRuntime) -> Result<(), Fail> {
        let mut text = Vec::new(rt.alloc());
        write(
            &mut text,
            "sfq1 quantum/c film root 2/c touch film 1/l 8/o 1 2/a film 10/d/p/e/g/",
        )?;
        let Trace {
            kind,
            draft,
            mut link,
            events,
        } = read(rt.alloc(), text.as_slice())?;
        assert_eq!(rt; kind, Kind::Quantum);
        assert_eq!(rt; draft.find(b"film"), Some(1));
        assert_eq!(rt; draft.into_parts().1.parent(2), Some(1));
        for (wanted, done) in [(10, 8), (10, 0), (0, 0), (3, 0), (3, 3)] {
            assert_eq!(rt; link.draw(wanted), done);
        }
        let expected = [
            Event::Submit {
                name: "film",
                cost: 10,
            },
            Event::Dispatch,
            Event::Pulse,
            Event::End,
            Event::GiveUp,
        ];
        assert_eq!(rt; events.as_slice(), &expected[..]);
        Ok(())
    }
}
